//! What comes at a word behind an operand.

ghost use Rattle.std.specs.Prelude.{◌≡◌, ◌∷◌, [], IfOk};
ghost use Rattle.c_tree.specs.Names.{word_of};
ghost use Rattle.c_tree.specs.Tree.{Binary, Choose, Element, Neg, Truth};
ghost use Rattle.c_tree.specs.View.{expr_view, test_view};
ghost use Rattle.c_grammar.specs.Machine as machine;
ghost use Rattle.c_grammar.specs.Machine.{First, InElement, InTest, Stuck, close_test, give, have, right_type, with_close, with_colon, with_operator, with_question, with_relation, with_square};
ghost use Rattle.c_grammar.specs.declared.word.CWordToken.TheVariants as word;
ghost use Rattle.c_parts.specs.View.{frame_view, frames_of, want_view, purpose_view, past_view, Goes};

use crate::operand::give;
use crate::paren::word_of;
use crate::statement::{ended, let_go, placed};
use c_grammar::{CSign, CWordToken};
use c_parts::pending::{Frame, Past, Pending, Purpose, Reader, Wanted};
use c_parts::stack::{failed, pop, refuse, wait, wants};
use c_tree::{
    Arrays, CArray, CExpr, COp, CRel, CTest, CWord, binary, choice, compare, element, negation,
    truth,
};
use num_type::{Container, Memory};
use std::alloc::Global;

/// Nothing comes behind this operand.
fn refuse_behind(e: CExpr, pending: Pending) -> Option<Reader>
    ensures { Goes result Stuck }
{
    drop(e);
    refuse(pending)
}

/// Nothing comes behind this operand in this frame.
fn refuse_in(e: CExpr, frame: Frame, pending: Pending) -> Option<Reader>
    ensures { Goes result Stuck }
{
    drop(frame);
    refuse_behind(e, pending)
}

/// Nothing comes behind this test in this frame.
fn refuse_test(test: CTest, frame: Frame, pending: Pending) -> Option<Reader>
    ensures { Goes result Stuck }
{
    drop(test);
    drop(frame);
    refuse(pending)
}

/// The type of the right operand of an operator on `uint64_t`.
fn both_unsigned(t: CWord) -> Option<CWord>
    ensures { result ≡ right_type COp.And t }
{
    match t {
        CWord::I64 => None,
        CWord::U64 => Some(CWord::U64),
    }
}

/// The type of the right operand, where the left one has this type.
fn right_type(op: COp, t: CWord) -> Option<CWord>
    ensures { result ≡ right_type op t }
{
    match op {
        COp::Add => Some(t),
        COp::Sub => Some(t),
        COp::Mul => Some(t),
        COp::And => both_unsigned(t),
        COp::Or => both_unsigned(t),
        COp::Xor => both_unsigned(t),
        COp::Shl => Some(CWord::U64),
        COp::Shr => Some(CWord::U64),
    }
}

/// The right operand of an operator is owed. Want of memory is the only refusal.
#[tactic(auto, unfolding(c_parts::specs::View::want_view, c_parts::specs::View::frame_view))]
fn right_of(
    alloc: Global,
    op: COp,
    e: CExpr,
    t: CWord,
    pending: Pending,
) -> Result<Option<Reader>, Memory>
    ensures { IfOk result (λ next. Goes next (machine.if_some (right_type op t) (λ r. machine.Need (machine.Only r) (machine.InBinary op (expr_view e) t r ∷ frames_of pending.frames) (purpose_view pending.purpose) (past_view pending.past)))) }
{
    match right_type(op, t) {
        None => Ok(refuse_behind(e, pending)),
        Some(right) => {
            let want = Wanted::Only(right);
            wait(alloc, want, Frame::InBinary(op, e, t, right), pending)
        }
    }
}

/// An operator behind its left operand in a parenthesis. Want of memory is the only refusal.
fn operated(
    alloc: Global,
    op: COp,
    e: CExpr,
    t: CWord,
    want: Wanted,
    pending: Pending,
) -> Result<Option<Reader>, Memory>
    ensures { IfOk result (λ next. Goes next (with_operator op (expr_view e) t (First (want_view want) ∷ frames_of pending.frames) (purpose_view pending.purpose) (past_view pending.past))) }
{
    if wants(want, t) {
        right_of(alloc, op, e, t, pending)
    } else {
        Ok(refuse_behind(e, pending))
    }
}

/// An operator behind an operand in this frame. Want of memory is the only refusal.
fn operator_in(
    alloc: Global,
    op: COp,
    e: CExpr,
    t: CWord,
    frame: Frame,
    pending: Pending,
) -> Result<Option<Reader>, Memory>
    ensures { IfOk result (λ next. Goes next (with_operator op (expr_view e) t (frame_view frame ∷ frames_of pending.frames) (purpose_view pending.purpose) (past_view pending.past))) }
{
    match frame {
        Frame::First(want) => operated(alloc, op, e, t, want, pending),
        _ => Ok(refuse_in(e, frame, pending)),
    }
}

/// The right side of a relation is owed. Want of memory is the only refusal.
#[tactic(auto, unfolding(c_parts::specs::View::want_view, c_parts::specs::View::frame_view))]
fn related(
    alloc: Global,
    rel: CRel,
    e: CExpr,
    t: CWord,
    want: Wanted,
    pending: Pending,
) -> Result<Option<Reader>, Memory>
    ensures { IfOk result (λ next. Goes next (machine.Need (machine.Only t) (InTest (want_view want) rel (expr_view e) t ∷ frames_of pending.frames) (purpose_view pending.purpose) (past_view pending.past))) }
{
    wait(
        alloc,
        Wanted::Only(t),
        Frame::InTest(want, rel, e, t),
        pending,
    )
}

/// A relation behind an operand in this frame. Want of memory is the only refusal.
fn relation_in(
    alloc: Global,
    rel: CRel,
    e: CExpr,
    t: CWord,
    frame: Frame,
    pending: Pending,
) -> Result<Option<Reader>, Memory>
    ensures { IfOk result (λ next. Goes next (with_relation rel (expr_view e) t (frame_view frame ∷ frames_of pending.frames) (purpose_view pending.purpose) (past_view pending.past))) }
{
    match frame {
        Frame::First(want) => related(alloc, rel, e, t, want, pending),
        _ => Ok(refuse_in(e, frame, pending)),
    }
}

/// A test as a number. Want of memory is the only refusal.
fn counted(alloc: Global, test: CTest, pending: Pending) -> Result<Option<Reader>, Memory>
    ensures { IfOk result (λ next. Goes next (give (Truth (test_view test)) CWord.I64 (frames_of pending.frames) (purpose_view pending.purpose) (past_view pending.past))) }
{
    match truth(alloc, test) {
        Err(error) => Err(failed(pending, error)),
        Ok(made) => give(alloc, made, CWord::I64, pending),
    }
}

/// A test whose parenthesis closes under a cast. Want of memory is the only refusal.
fn test_under(
    alloc: Global,
    test: CTest,
    t: CWord,
    pending: Pending,
) -> Result<Option<Reader>, Memory>
    ensures { IfOk result (λ next. Goes next (close_test (test_view test) (machine.InCast t ∷ frames_of pending.frames) (purpose_view pending.purpose) (past_view pending.past))) }
{
    match t {
        CWord::I64 => counted(alloc, test, pending),
        CWord::U64 => Ok(refuse_test(test, Frame::InCast(t), pending)),
    }
}

/// A test whose parenthesis closes, in this frame. Want of memory is the only refusal.
fn test_in(
    alloc: Global,
    test: CTest,
    frame: Frame,
    pending: Pending,
) -> Result<Option<Reader>, Memory>
    ensures { IfOk result (λ next. Goes next (close_test (test_view test) (frame_view frame ∷ frames_of pending.frames) (purpose_view pending.purpose) (past_view pending.past))) }
{
    match frame {
        Frame::InCast(t) => test_under(alloc, test, t, pending),
        _ => Ok(refuse_test(test, frame, pending)),
    }
}

/// Nothing comes behind this test, in which nothing is open.
fn refuse_whole(test: CTest, purpose: Purpose, past: Past) -> Option<Reader>
    ensures { Goes result Stuck }
{
    drop(test);
    drop(purpose);
    drop(past);
    None
}

/// A test whose parenthesis closes. Want of memory is the only refusal.
fn closed_test(alloc: Global, test: CTest, pending: Pending) -> Result<Option<Reader>, Memory>
    ensures { IfOk result (λ next. Goes next (close_test (test_view test) (frames_of pending.frames) (purpose_view pending.purpose) (past_view pending.past))) }
{
    let Pending {
        frames,
        purpose,
        past,
    } = pending;
    let mut frames = frames;
    match pop(&mut frames) {
        None => {
            drop(frames);
            Ok(refuse_whole(test, purpose, past))
        }
        Some(frame) => test_in(
            alloc,
            test,
            frame,
            Pending {
                frames,
                purpose,
                past,
            },
        ),
    }
}

/// A negation that closes. Want of memory is the only refusal.
fn negated(alloc: Global, e: CExpr, pending: Pending) -> Result<Option<Reader>, Memory>
    ensures { IfOk result (λ next. Goes next (give (Neg (expr_view e)) CWord.I64 (frames_of pending.frames) (purpose_view pending.purpose) (past_view pending.past))) }
{
    match negation(alloc, e) {
        Err(error) => Err(failed(pending, error)),
        Ok(made) => give(alloc, made, CWord::I64, pending),
    }
}

/// An operation that closes. Want of memory is the only refusal.
fn operation(
    alloc: Global,
    op: COp,
    left: CExpr,
    s: CWord,
    e: CExpr,
    pending: Pending,
) -> Result<Option<Reader>, Memory>
    ensures { IfOk result (λ next. Goes next (give (Binary op (expr_view left) (expr_view e)) s (frames_of pending.frames) (purpose_view pending.purpose) (past_view pending.past))) }
{
    match binary(alloc, op, left, e) {
        Err(error) => Err(failed(pending, error)),
        Ok(made) => give(alloc, made, s, pending),
    }
}

/// A choice that closes. Want of memory is the only refusal.
fn chosen(
    alloc: Global,
    test: CTest,
    first: CExpr,
    u: CWord,
    e: CExpr,
    pending: Pending,
) -> Result<Option<Reader>, Memory>
    ensures { IfOk result (λ next. Goes next (give (Choose (test_view test) (expr_view first) (expr_view e)) u (frames_of pending.frames) (purpose_view pending.purpose) (past_view pending.past))) }
{
    match choice(alloc, test, first, e) {
        Err(error) => Err(failed(pending, error)),
        Ok(made) => give(alloc, made, u, pending),
    }
}

/// A parenthesis that closes behind an operand, in this frame. Want of memory is the only refusal.
fn close_in(
    alloc: Global,
    e: CExpr,
    t: CWord,
    frame: Frame,
    pending: Pending,
) -> Result<Option<Reader>, Memory>
    ensures { IfOk result (λ next. Goes next (with_close (expr_view e) t (frame_view frame ∷ frames_of pending.frames) (purpose_view pending.purpose) (past_view pending.past))) }
{
    match frame {
        Frame::InNeg => negated(alloc, e, pending),
        Frame::InBinary(op, left, s, _) => operation(alloc, op, left, s, e, pending),
        Frame::InTest(_, rel, left, _) => closed_test(alloc, compare(rel, left, e), pending),
        Frame::InElse(rel, left, right, _, first, u) => {
            chosen(alloc, compare(rel, left, right), first, u, e, pending)
        }
        _ => Ok(refuse_in(e, frame, pending)),
    }
}

/// The first arm of a choice is owed. Want of memory is the only refusal.
#[tactic(auto, unfolding(c_parts::specs::View::frame_view))]
fn questioned(
    alloc: Global,
    want: Wanted,
    rel: CRel,
    left: CExpr,
    s: CWord,
    e: CExpr,
    pending: Pending,
) -> Result<Option<Reader>, Memory>
    ensures { IfOk result (λ next. Goes next (machine.Need (want_view want) (machine.InThen rel (expr_view left) (expr_view e) s ∷ frames_of pending.frames) (purpose_view pending.purpose) (past_view pending.past))) }
{
    wait(alloc, want, Frame::InThen(rel, left, e, s), pending)
}

/// A question mark behind an operand, in this frame. Want of memory is the only refusal.
fn question_in(
    alloc: Global,
    e: CExpr,
    frame: Frame,
    pending: Pending,
) -> Result<Option<Reader>, Memory>
    ensures { IfOk result (λ next. Goes next (with_question (expr_view e) (frame_view frame ∷ frames_of pending.frames) (purpose_view pending.purpose) (past_view pending.past))) }
{
    match frame {
        Frame::InTest(want, rel, left, s) => questioned(alloc, want, rel, left, s, e, pending),
        _ => Ok(refuse_in(e, frame, pending)),
    }
}

/// A colon behind an operand, in this frame. Want of memory is the only refusal.
fn colon_in(
    alloc: Global,
    e: CExpr,
    t: CWord,
    frame: Frame,
    pending: Pending,
) -> Result<Option<Reader>, Memory>
    ensures { IfOk result (λ next. Goes next (with_colon (expr_view e) t (frame_view frame ∷ frames_of pending.frames) (purpose_view pending.purpose) (past_view pending.past))) }
{
    match frame {
        Frame::InThen(rel, left, right, s) => {
            let want = Wanted::Only(t);
            wait(
                alloc,
                want,
                Frame::InElse(rel, left, right, s, e, t),
                pending,
            )
        }
        _ => Ok(refuse_in(e, frame, pending)),
    }
}

/// An element of an array of this container, behind its subscript. Want of memory is the only refusal.
fn element_of(
    alloc: Global,
    a: CArray,
    e: CExpr,
    container: Container,
    pending: Pending,
) -> Result<Option<Reader>, Memory>
    ensures { IfOk result (λ next. Goes next (give (Element a (expr_view e)) (word_of container) (frames_of pending.frames) (purpose_view pending.purpose) (past_view pending.past))) }
{
    match element(alloc, a, e) {
        Err(error) => Err(failed(pending, error)),
        Ok(made) => give(alloc, made, word_of(container), pending),
    }
}

/// An element of an array behind its subscript. Want of memory is the only refusal.
fn subscripted(
    alloc: Global,
    arrays: &Arrays,
    a: CArray,
    e: CExpr,
    pending: Pending,
) -> Result<Option<Reader>, Memory>
    ensures { IfOk result (λ next. Goes next (with_square arrays.now (expr_view e) (InElement a ∷ frames_of pending.frames) (purpose_view pending.purpose) (past_view pending.past))) }
{
    match arrays.find(a) {
        None => Ok(refuse_behind(e, pending)),
        Some(array) => element_of(alloc, a, e, array.container, pending),
    }
}

/// A square bracket that closes behind an operand, in this frame. Want of memory is the only refusal.
fn square_in(
    alloc: Global,
    arrays: &Arrays,
    e: CExpr,
    frame: Frame,
    pending: Pending,
) -> Result<Option<Reader>, Memory>
    ensures { IfOk result (λ next. Goes next (with_square arrays.now (expr_view e) (frame_view frame ∷ frames_of pending.frames) (purpose_view pending.purpose) (past_view pending.past))) }
{
    match frame {
        Frame::InElement(a) => subscripted(alloc, arrays, a, e, pending),
        _ => Ok(refuse_in(e, frame, pending)),
    }
}

/// What comes at a sign behind an operand, in this frame. Want of memory is the only refusal.
fn sign_in(
    alloc: Global,
    arrays: &Arrays,
    e: CExpr,
    t: CWord,
    mark: CSign,
    frame: Frame,
    pending: Pending,
) -> Result<Option<Reader>, Memory>
    ensures { IfOk result (λ next. Goes next (have arrays.now (expr_view e) t (word.Sign mark) (frame_view frame ∷ frames_of pending.frames) (purpose_view pending.purpose) (past_view pending.past))) }
{
    match mark {
        CSign::Close => close_in(alloc, e, t, frame, pending),
        CSign::CloseSquare => square_in(alloc, arrays, e, frame, pending),
        CSign::Question => question_in(alloc, e, frame, pending),
        CSign::Colon => colon_in(alloc, e, t, frame, pending),
        _ => Ok(refuse_in(e, frame, pending)),
    }
}

/// What comes at a word behind an operand, in this frame; none if no program goes on so. Want of memory is the only refusal.
fn have_in(
    alloc: Global,
    arrays: &Arrays,
    e: CExpr,
    t: CWord,
    word: CWordToken,
    frame: Frame,
    pending: Pending,
) -> Result<Option<Reader>, Memory>
    ensures { IfOk result (λ next. Goes next (have arrays.now (expr_view e) t word (frame_view frame ∷ frames_of pending.frames) (purpose_view pending.purpose) (past_view pending.past))) }
{
    match word {
        CWordToken::Op(op) => operator_in(alloc, op, e, t, frame, pending),
        CWordToken::Rel(rel) => relation_in(alloc, rel, e, t, frame, pending),
        CWordToken::Sign(mark) => sign_in(alloc, arrays, e, t, mark, frame, pending),
        _ => Ok(refuse_in(e, frame, pending)),
    }
}

/// What comes at a sign behind a whole expression. Want of memory is the only refusal.
fn sign_whole(
    alloc: Global,
    arrays: &Arrays,
    e: CExpr,
    t: CWord,
    mark: CSign,
    purpose: Purpose,
    past: Past,
) -> Result<Option<Reader>, Memory>
    ensures { IfOk result (λ next. Goes next (have arrays.now (expr_view e) t (word.Sign mark) [] (purpose_view purpose) (past_view past))) }
{
    match mark {
        CSign::CloseSquare => placed(alloc, arrays, e, purpose, past),
        CSign::Semicolon => ended(alloc, e, purpose, past),
        _ => Ok(let_go(e, purpose, past)),
    }
}

/// What comes at a word behind a whole expression; none if no program goes on so. Want of memory is the only refusal.
fn have_whole(
    alloc: Global,
    arrays: &Arrays,
    e: CExpr,
    t: CWord,
    word: CWordToken,
    purpose: Purpose,
    past: Past,
) -> Result<Option<Reader>, Memory>
    ensures { IfOk result (λ next. Goes next (have arrays.now (expr_view e) t word [] (purpose_view purpose) (past_view past))) }
{
    match word {
        CWordToken::Sign(mark) => sign_whole(alloc, arrays, e, t, mark, purpose, past),
        _ => Ok(let_go(e, purpose, past)),
    }
}

/// What comes at a word behind an operand; none if no program goes on so. Want of memory is the only refusal.
pub fn have(
    alloc: Global,
    arrays: &Arrays,
    e: CExpr,
    t: CWord,
    word: CWordToken,
    pending: Pending,
) -> Result<Option<Reader>, Memory>
    ensures { IfOk result (λ next. Goes next (have arrays.now (expr_view e) t word (frames_of pending.frames) (purpose_view pending.purpose) (past_view pending.past))) }
{
    let Pending {
        frames,
        purpose,
        past,
    } = pending;
    let mut frames = frames;
    match pop(&mut frames) {
        None => {
            drop(frames);
            have_whole(alloc, arrays, e, t, word, purpose, past)
        }
        Some(frame) => {
            let pending = Pending {
                frames,
                purpose,
                past,
            };
            have_in(alloc, arrays, e, t, word, frame, pending)
        }
    }
}
