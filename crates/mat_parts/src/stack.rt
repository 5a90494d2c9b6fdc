//! Stacks of frames.

ghost use Rattle.std.specs.Prelude.{◌≡◌, ◌≤◌, ◌<◌, ◌+◌, ◌↔◌, [], ◌∷◌, IfOk, OnOk, MatchOption, IsTrue, true};
ghost use Rattle.mat_ast.specs.View.{expr_view};
ghost use Rattle.mat_grammar.specs.Machine.{closed, settle, level, top, Need, for_argument, is_call, inside};
ghost use Rattle.mat_parts.specs.Pending.{frame_view, stack_of, purpose_view, Goes};

use crate::part::{
    Part, and_cell, and_item, and_row, apply, binary, matrix, paren, range, range_by, unary,
};
use crate::pending::{Frame, Pending, Purpose, Reading};
use crate::rank::rank;
use sqlite_items::Items;
use std::alloc::{AllocError, Global};

#[tactic(auto, unfolding(crate::specs::Pending::frame_view))]
fn level(frame: &Frame) -> u32
    ensures { result ≡ level (frame_view frame.now) }
{
    match frame {
        Frame::Sign(_, _) => 8,
        Frame::ExponentSign(_, _) => 11,
        Frame::Right(_, op, _) => rank(*op) + 1,
        Frame::Inside(_) => 0,
        Frame::Call(_, _) => 0,
        Frame::To(_, _) => 6,
        Frame::ByTo(_, _, _) => 6,
        Frame::Cells(_, _, _) => 0,
    }
}

/// The expression with its frame round it. Want of memory is its only refusal.
#[tactic(auto, unfolding(crate::specs::Pending::frame_view))]
pub fn close(alloc: Global, frame: Frame, part: Part) -> Result<Part, AllocError>
    ensures { IfOk result (λ made. expr_view made.expr ≡ closed (frame_view frame) (expr_view part.expr)) }
{
    match frame {
        Frame::Sign(place, sign) => unary(alloc, place, sign, part),
        Frame::ExponentSign(place, sign) => unary(alloc, place, sign, part),
        Frame::Right(place, op, left) => binary(alloc, place, op, left, part),
        Frame::Inside(place) => paren(alloc, place, part),
        Frame::Call(opened, given) => {
            let given = and_item(given, part)?;
            Ok(apply(opened.place, opened.text, opened.opens, given))
        }
        Frame::To(place, first) => range(alloc, place, first, part),
        Frame::ByTo(place, first, step) => range_by(alloc, place, first, step, part),
        Frame::Cells(place, grid, line) => {
            let line = and_cell(line, part)?;
            let grid = and_row(grid, line)?;
            Ok(matrix(place, grid))
        }
    }
}

/// Puts a frame on the stack. Want of memory is its only refusal.
pub fn push(stack: &mut Items<Frame>, frame: Frame) -> Result<(), AllocError>
    ensures { OnOk result (stack_of stack.new ≡ frame_view frame ∷ stack_of stack.old) }
{
    stack.push(frame)
}

/// Takes the top frame off the stack.
pub fn pop(stack: &mut Items<Frame>) -> Option<Frame>
    ensures { MatchOption result ((stack_of stack.old ≡ []) × (stack_of stack.new ≡ [])) (λ f. stack_of stack.old ≡ frame_view f ∷ stack_of stack.new) }
{
    stack.pop()
}

/// From which rank on operators go below the top frame.
#[tactic(auto, unfolding(crate::specs::Pending::stack_of))]
pub fn top(frames: &[Frame]) -> u32
    ensures { result ≡ top (stack_of frames.now) }
{
    match frames.split_last() {
        None => 0,
        Some((last, _)) => level(last),
    }
}

/// Closes each frame that a word of this tightness ends. Want of memory is its only refusal.
#[tactic(auto, unfolding(crate::specs::Pending::stack_of))]
pub fn settle(
    alloc: Global,
    rank: u32,
    part: Part,
    stack: &mut Items<Frame>,
) -> Result<Part, AllocError>
    ensures { IfOk result (λ made. settle rank (expr_view part.expr) (stack_of stack.old) ≡ record { is = expr_view made.expr; under = stack_of stack.new }) }
{
    if top(stack.as_slice()) <= rank {
        return Ok(part);
    }
    match pop(stack) {
        None => Ok(part),
        Some(frame) => {
            let part = close(alloc, frame, part)?;
            settle(alloc, rank, part, stack)
        }
    }
}

#[tactic(auto, unfolding(crate::specs::Pending::purpose_view))]
fn is_argument(purpose: &Purpose) -> bool
    ensures { result ≡ for_argument (purpose_view purpose.now) }
{
    match purpose {
        Purpose::Argument(_, _, _) => true,
        _ => false,
    }
}

#[tactic(auto, unfolding(crate::specs::Pending::frame_view))]
fn is_call(frame: &Frame) -> bool
    ensures { result ≡ is_call (frame_view frame.now) }
{
    match frame {
        Frame::Call(_, _) => true,
        _ => false,
    }
}

/// Whether the parentheses of a name stand round an operand there.
#[tactic(auto, unfolding(crate::specs::Pending::stack_of))]
pub fn is_inside(frames: &[Frame], purpose: &Purpose) -> bool
    ensures { result ≡ inside (stack_of frames.now) (purpose_view purpose.now) }
{
    match frames.split_last() {
        None => is_argument(purpose),
        Some((last, rest)) => {
            if is_call(last) {
                return true;
            }
            is_inside(rest, purpose)
        }
    }
}

/// An operand is owed below one more frame. Want of memory is its only refusal.
#[tactic(auto, unfolding(crate::specs::Pending::state_view))]
pub fn wait(pending: Pending, frame: Frame) -> Result<Option<Reading>, AllocError>
    ensures { IfOk result (λ next. Goes next (Need (frame_view frame ∷ stack_of pending.frames) (purpose_view pending.purpose))) }
{
    let Pending { frames, purpose } = pending;
    let mut frames = frames;
    match push(&mut frames, frame) {
        Ok(_) => Ok(Some(Reading::Need(Pending { frames, purpose }))),
        Err(e) => {
            drop(purpose);
            Err(e)
        }
    }
}
