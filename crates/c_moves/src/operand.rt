//! What comes at a word where an operand has to come.

ghost use Rattle.std.specs.Prelude.{◌≡◌, ◌∷◌, [], List, nat_lt, slice_get, IfOk};
ghost use Rattle.c_tree.specs.Tree.{Var};
ghost use Rattle.c_tree.specs.View.{expr_view};
ghost use Rattle.c_grammar.specs.Machine as machine;
ghost use Rattle.c_grammar.specs.Machine.{begun, need, digits, constant, limit_of, give};
ghost use Rattle.c_grammar.specs.declared.word.CWordToken.TheVariants as word;
ghost use Rattle.c_parts.specs.View.{frame_view, frames_of, want_view, purpose_view, past_view, reading_view, top_cast, Goes};

use c_grammar::{CMacro, CSign, CWordToken};
use c_parts::pending::{Frame, Pending, Reader, Reading, Wanted};
use c_parts::stack::{behind, failed, now, one, pop, refuse, wants};
use c_tree::{CExpr, CWord, cast, signed, unsigned, variable};
use num_type::Memory;
use std::alloc::Global;

/// A constant of a type, behind its macro. Want of memory is the only refusal.
#[tactic(auto, unfolding(c_parts::specs::View::reading_view))]
fn begun(alloc: Global, t: CWord, want: Wanted, pending: Pending) -> Result<Option<Reader>, Memory>
    ensures { IfOk result (λ next. Goes next (begun t (want_view want) (frames_of pending.frames) (purpose_view pending.purpose) (past_view pending.past))) }
{
    if wants(want, t) {
        match one(alloc, CWordToken::Sign(CSign::Open)) {
            Err(error) => Err(failed(pending, error)),
            Ok(words) => Ok(Some(behind(words, Reading::Digits(t, pending)))),
        }
    } else {
        Ok(refuse(pending))
    }
}

#[tactic(auto, unfolding(c_parts::specs::View::frame_view, c_parts::specs::View::top_cast))]
fn cast_of(frame: &Frame) -> Option<CWord>
    ensures { (st : List machine.Frame) → result ≡ top_cast (frame_view frame.now ∷ st) }
{
    match frame {
        Frame::InCast(t) => Some(*t),
        _ => None,
    }
}

/// The type of the innermost cast, where the innermost frame is one.
#[tactic(auto, unfolding(c_parts::specs::View::top_cast, c_parts::specs::View::frames_of))]
fn top_cast(frames: &[Frame]) -> Option<CWord>
    ensures { result ≡ top_cast (frames_of frames.now) }
{
    match frames.split_last() {
        None => None,
        Some((last, _)) => cast_of(last),
    }
}

/// The pending parts without the innermost frame.
fn without_top(pending: Pending) -> Pending
    ensures frames { (f : machine.Frame) (st : List machine.Frame) → frames_of pending.frames ≡ f ∷ st → frames_of result.frames ≡ st }
    ensures purpose { result.purpose ≡ pending.purpose }
    ensures past { result.past ≡ pending.past }
{
    let Pending {
        frames,
        purpose,
        past,
    } = pending;
    let mut frames = frames;
    drop(pop(&mut frames));
    Pending {
        frames,
        purpose,
        past,
    }
}

/// What holds behind an operand: with it each cast of it is read. Want of memory is the only refusal.
#[tactic(auto, unfolding(c_parts::specs::View::reading_view))]
fn given(alloc: Global, e: CExpr, t: CWord, pending: Pending) -> Result<Reading, Memory>
    ensures { IfOk result (λ r. reading_view r ≡ give (expr_view e) t (frames_of pending.frames) (purpose_view pending.purpose) (past_view pending.past)) }
{
    match top_cast(pending.frames.as_slice()) {
        None => Ok(Reading::Have(e, t, pending)),
        Some(s) => match cast(alloc, s, e) {
            Err(error) => Err(failed(pending, error)),
            Ok(e) => given(alloc, e, s, without_top(pending)),
        },
    }
}

/// An operand is read. Want of memory is the only refusal.
pub fn give(alloc: Global, e: CExpr, t: CWord, pending: Pending) -> Result<Option<Reader>, Memory>
    ensures { IfOk result (λ next. Goes next (give (expr_view e) t (frames_of pending.frames) (purpose_view pending.purpose) (past_view pending.past))) }
{
    match given(alloc, e, t, pending) {
        Err(error) => Err(error),
        Ok(reading) => Ok(Some(now(alloc, reading))),
    }
}

/// The type of a variable, by its number.
pub fn type_of(words: &[CWord], number: u32) -> Option<CWord>
    ensures { result ≡ slice_get words.now number }
{
    match sqlite_items::at(words, number as usize) {
        None => None,
        Some(t) => Some(*t),
    }
}

/// A variable of a type as an operand. Want of memory is the only refusal.
fn wanted(
    alloc: Global,
    want: Wanted,
    number: u32,
    t: CWord,
    pending: Pending,
) -> Result<Option<Reader>, Memory>
    ensures { IfOk result (λ next. Goes next (machine.when (machine.wants (want_view want) t) (give (Var number) t (frames_of pending.frames) (purpose_view pending.purpose) (past_view pending.past)))) }
{
    if wants(want, t) {
        give(alloc, variable(number), t, pending)
    } else {
        Ok(refuse(pending))
    }
}

/// A variable as an operand. Want of memory is the only refusal.
fn named(
    alloc: Global,
    want: Wanted,
    number: u32,
    pending: Pending,
) -> Result<Option<Reader>, Memory>
    ensures { IfOk result (λ next. Goes next (need (want_view want) (word.Var number) (frames_of pending.frames) (purpose_view pending.purpose) (past_view pending.past))) }
{
    match type_of(pending.past.words.as_slice(), number) {
        None => Ok(refuse(pending)),
        Some(t) => wanted(alloc, want, number, t, pending),
    }
}

/// A macro for constants where an operand has to come. Want of memory is the only refusal.
fn macro_word(
    alloc: Global,
    want: Wanted,
    name: CMacro,
    pending: Pending,
) -> Result<Option<Reader>, Memory>
    ensures { IfOk result (λ next. Goes next (need (want_view want) (word.Macro name) (frames_of pending.frames) (purpose_view pending.purpose) (past_view pending.past))) }
{
    match name {
        CMacro::I32 => Ok(refuse(pending)),
        CMacro::I64 => begun(alloc, CWord::I64, want, pending),
        CMacro::U64 => begun(alloc, CWord::U64, want, pending),
    }
}

/// A sign where an operand has to come.
#[tactic(auto, unfolding(c_parts::specs::View::reading_view))]
fn sign_word(alloc: Global, want: Wanted, mark: CSign, pending: Pending) -> Option<Reader>
    ensures { Goes result (need (want_view want) (word.Sign mark) (frames_of pending.frames) (purpose_view pending.purpose) (past_view pending.past)) }
{
    match mark {
        CSign::Open => Some(now(alloc, Reading::Opened(want, pending))),
        _ => refuse(pending),
    }
}

/// What comes at a word where an operand has to come; none if no program goes on so. Want of memory is the only refusal.
pub fn need(
    alloc: Global,
    want: Wanted,
    word: CWordToken,
    pending: Pending,
) -> Result<Option<Reader>, Memory>
    ensures { IfOk result (λ next. Goes next (need (want_view want) word (frames_of pending.frames) (purpose_view pending.purpose) (past_view pending.past))) }
{
    match word {
        CWordToken::Macro(name) => macro_word(alloc, want, name, pending),
        CWordToken::Var(number) => named(alloc, want, number, pending),
        CWordToken::Sign(mark) => Ok(sign_word(alloc, want, mark, pending)),
        _ => Ok(refuse(pending)),
    }
}

/// The constant of a type.
fn constant(t: CWord, n: u64) -> CExpr
    ensures { expr_view result ≡ constant t n }
{
    match t {
        CWord::I64 => signed(n),
        CWord::U64 => unsigned(n),
    }
}

/// Whether a number is one of the constants of a type.
fn is_constant(t: CWord, n: u64) -> bool
    ensures { result ≡ nat_lt n (limit_of t) }
{
    match t {
        CWord::I64 => n < 9_223_372_036_854_775_808,
        CWord::U64 => true,
    }
}

/// A constant as an operand, behind its closing parenthesis. Want of memory is the only refusal.
fn closed(alloc: Global, reading: Reading) -> Result<Option<Reader>, Memory>
    ensures { IfOk result (λ next. Goes next (machine.Fixed (word.Sign CSign.Close) [] (reading_view reading))) }
{
    match one(alloc, CWordToken::Sign(CSign::Close)) {
        Err(error) => Err(given_up(reading, error)),
        Ok(words) => Ok(Some(behind(words, reading))),
    }
}

/// A refusal, which ends what was read.
fn given_up(reading: Reading, error: Memory) -> Memory {
    drop(reading);
    error
}

/// A constant as an operand. Want of memory is the only refusal.
fn numbered(alloc: Global, t: CWord, n: u64, pending: Pending) -> Result<Option<Reader>, Memory>
    ensures { IfOk result (λ next. Goes next (digits t (word.Number n) (frames_of pending.frames) (purpose_view pending.purpose) (past_view pending.past))) }
{
    if is_constant(t, n) {
        match given(alloc, constant(t, n), t, pending) {
            Err(error) => Err(error),
            Ok(reading) => closed(alloc, reading),
        }
    } else {
        Ok(refuse(pending))
    }
}

/// What comes at the number of a constant; none if no program goes on so. Want of memory is the only refusal.
pub fn digits(
    alloc: Global,
    t: CWord,
    word: CWordToken,
    pending: Pending,
) -> Result<Option<Reader>, Memory>
    ensures { IfOk result (λ next. Goes next (digits t word (frames_of pending.frames) (purpose_view pending.purpose) (past_view pending.past))) }
{
    match word {
        CWordToken::Number(n) => numbered(alloc, t, n, pending),
        _ => Ok(refuse(pending)),
    }
}
