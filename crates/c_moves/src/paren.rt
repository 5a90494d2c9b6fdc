//! What comes at a word behind a parenthesis, or behind a type in parentheses.

ghost use Rattle.std.specs.Prelude.{◌≡◌, ◌∷◌, [], IfOk};
ghost use Rattle.c_tree.specs.Names.{word_of};
ghost use Rattle.c_grammar.specs.Machine as machine;
ghost use Rattle.c_grammar.specs.Machine.{First, InCast, need, typed, opened, casting, other};
ghost use Rattle.c_grammar.specs.declared.word.CWordToken.TheVariants as word;
ghost use Rattle.c_parts.specs.View.{frames_of, want_view, purpose_view, past_view, Goes};

use crate::operand::need;
use c_grammar::{CSign, CWordToken};
use c_parts::pending::{Frame, Pending, Reader, Reading, Wanted};
use c_parts::stack::{behind, failed, one, refuse, same_type, under, wait, wants};
use c_tree::{Arrays, CArray, COp, CWord};
use num_type::{Container, Memory};
use std::alloc::Global;

/// A type behind a parenthesis. Want of memory is the only refusal.
#[tactic(auto, unfolding(c_parts::specs::View::reading_view))]
fn typed(alloc: Global, t: CWord, want: Wanted, pending: Pending) -> Result<Option<Reader>, Memory>
    ensures { IfOk result (λ next. Goes next (typed t (want_view want) (frames_of pending.frames) (purpose_view pending.purpose) (past_view pending.past))) }
{
    if wants(want, t) {
        match one(alloc, CWordToken::Sign(CSign::Close)) {
            Err(error) => Err(failed(pending, error)),
            Ok(words) => Ok(Some(behind(words, Reading::Casting(t, pending)))),
        }
    } else {
        Ok(refuse(pending))
    }
}

/// A minus behind a parenthesis. Want of memory is the only refusal.
#[tactic(auto, unfolding(c_parts::specs::View::want_view, c_parts::specs::View::frame_view))]
fn negated(alloc: Global, want: Wanted, pending: Pending) -> Result<Option<Reader>, Memory>
    ensures { IfOk result (λ next. Goes next (opened (want_view want) (word.Op COp.Sub) (frames_of pending.frames) (purpose_view pending.purpose) (past_view pending.past))) }
{
    if wants(want, CWord::I64) {
        wait(alloc, Wanted::Only(CWord::I64), Frame::InNeg, pending)
    } else {
        Ok(refuse(pending))
    }
}

/// An operand that may be the first of an operation or a choice. Want of memory is the only refusal.
#[tactic(auto, unfolding(c_parts::specs::View::want_view, c_parts::specs::View::frame_view))]
fn first(
    alloc: Global,
    want: Wanted,
    word: CWordToken,
    pending: Pending,
) -> Result<Option<Reader>, Memory>
    ensures { IfOk result (λ next. Goes next (need machine.Any word (First (want_view want) ∷ frames_of pending.frames) (purpose_view pending.purpose) (past_view pending.past))) }
{
    match under(Frame::First(want), pending) {
        Err(_) => Err(Memory),
        Ok(pending) => need(alloc, Wanted::Any, word, pending),
    }
}

/// A type of `stdint.h` behind a parenthesis. Want of memory is the only refusal.
fn type_word(
    alloc: Global,
    want: Wanted,
    container: Container,
    pending: Pending,
) -> Result<Option<Reader>, Memory>
    ensures { IfOk result (λ next. Goes next (opened (want_view want) (word.Type container) (frames_of pending.frames) (purpose_view pending.purpose) (past_view pending.past))) }
{
    match container {
        Container::I64 => typed(alloc, CWord::I64, want, pending),
        Container::U64 => typed(alloc, CWord::U64, want, pending),
        _ => Ok(refuse(pending)),
    }
}

/// An operator behind a parenthesis. Want of memory is the only refusal.
fn operator_word(
    alloc: Global,
    want: Wanted,
    op: COp,
    pending: Pending,
) -> Result<Option<Reader>, Memory>
    ensures { IfOk result (λ next. Goes next (opened (want_view want) (word.Op op) (frames_of pending.frames) (purpose_view pending.purpose) (past_view pending.past))) }
{
    match op {
        COp::Sub => negated(alloc, want, pending),
        _ => Ok(refuse(pending)),
    }
}

/// What comes at a word behind a parenthesis; none if no program goes on so. Want of memory is the only refusal.
pub fn opened(
    alloc: Global,
    want: Wanted,
    word: CWordToken,
    pending: Pending,
) -> Result<Option<Reader>, Memory>
    ensures { IfOk result (λ next. Goes next (opened (want_view want) word (frames_of pending.frames) (purpose_view pending.purpose) (past_view pending.past))) }
{
    match word {
        CWordToken::Type(container) => type_word(alloc, want, container, pending),
        CWordToken::Op(op) => operator_word(alloc, want, op, pending),
        _ => first(alloc, want, word, pending),
    }
}

/// The word that an element is read as.
pub fn word_of(container: Container) -> CWord
    ensures { result ≡ word_of container }
{
    match container {
        Container::I8 => CWord::I64,
        Container::I16 => CWord::I64,
        Container::I32 => CWord::I64,
        Container::I64 => CWord::I64,
        Container::U8 => CWord::U64,
        Container::U16 => CWord::U64,
        Container::U32 => CWord::U64,
        Container::U64 => CWord::U64,
    }
}

/// The subscript of an element is owed behind its bracket. Want of memory is the only refusal.
#[tactic(auto, unfolding(c_parts::specs::View::reading_view, c_parts::specs::View::want_view, c_parts::specs::View::frame_view))]
fn bracketed(alloc: Global, a: CArray, pending: Pending) -> Result<Option<Reader>, Memory>
    ensures { IfOk result (λ next. Goes next (machine.Fixed (word.Sign CSign.OpenSquare) [] (machine.Need (machine.Only CWord.I64) (machine.InElement a ∷ frames_of pending.frames) (purpose_view pending.purpose) (past_view pending.past)))) }
{
    match under(Frame::InElement(a), pending) {
        Err(_) => Err(Memory),
        Ok(pending) => match one(alloc, CWordToken::Sign(CSign::OpenSquare)) {
            Err(error) => Err(failed(pending, error)),
            Ok(words) => {
                let reading = Reading::Need(Wanted::Only(CWord::I64), pending);
                Ok(Some(behind(words, reading)))
            }
        },
    }
}

/// An element of an array of these containers, behind its cast. Want of memory is the only refusal.
fn element_of(
    alloc: Global,
    container: Container,
    a: CArray,
    t: CWord,
    pending: Pending,
) -> Result<Option<Reader>, Memory>
    ensures { IfOk result (λ next. Goes next (machine.when (machine.same_type (word_of container) t) (machine.Fixed (word.Sign CSign.OpenSquare) [] (machine.Need (machine.Only CWord.I64) (machine.InElement a ∷ frames_of pending.frames) (purpose_view pending.purpose) (past_view pending.past))))) }
{
    if same_type(word_of(container), t) {
        bracketed(alloc, a, pending)
    } else {
        Ok(refuse(pending))
    }
}

/// An element of an array, behind its cast. Want of memory is the only refusal.
fn subscripted(
    alloc: Global,
    arrays: &Arrays,
    a: CArray,
    t: CWord,
    pending: Pending,
) -> Result<Option<Reader>, Memory>
    ensures { IfOk result (λ next. Goes next (casting arrays.now t (word.Array a) (frames_of pending.frames) (purpose_view pending.purpose) (past_view pending.past))) }
{
    match arrays.find(a) {
        None => Ok(refuse(pending)),
        Some(array) => element_of(alloc, array.container, a, t, pending),
    }
}

/// The other type.
fn other(t: CWord) -> CWord
    ensures { result ≡ other t }
{
    match t {
        CWord::I64 => CWord::U64,
        CWord::U64 => CWord::I64,
    }
}

/// An operand under a cast. Want of memory is the only refusal.
#[tactic(auto, unfolding(c_parts::specs::View::want_view, c_parts::specs::View::frame_view))]
fn cast_word(
    alloc: Global,
    t: CWord,
    word: CWordToken,
    pending: Pending,
) -> Result<Option<Reader>, Memory>
    ensures { IfOk result (λ next. Goes next (need (machine.Only (other t)) word (InCast t ∷ frames_of pending.frames) (purpose_view pending.purpose) (past_view pending.past))) }
{
    match under(Frame::InCast(t), pending) {
        Err(_) => Err(Memory),
        Ok(pending) => need(alloc, Wanted::Only(other(t)), word, pending),
    }
}

/// What comes at a word behind a type in parentheses; none if no program goes on so. Want of memory is the only refusal.
pub fn casting(
    alloc: Global,
    arrays: &Arrays,
    t: CWord,
    word: CWordToken,
    pending: Pending,
) -> Result<Option<Reader>, Memory>
    ensures { IfOk result (λ next. Goes next (casting arrays.now t word (frames_of pending.frames) (purpose_view pending.purpose) (past_view pending.past))) }
{
    match word {
        CWordToken::Array(a) => subscripted(alloc, arrays, a, t, pending),
        _ => cast_word(alloc, t, word, pending),
    }
}
