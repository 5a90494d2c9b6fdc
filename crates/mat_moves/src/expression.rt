//! What comes at a word where an operand has to come.

ghost use Rattle.std.specs.Prelude.{◌≡◌, ◌∷◌, [], IfOk, OnOk, Some, None, Option, List, ℕ};
ghost use Rattle.std.specs.Option.{option_map};
ghost use Rattle.mat_ast.specs.Tree.{NoArgs, RowEnd, NoRows, Number, Name};
ghost use Rattle.mat_ast.specs.View.{expr_view, args_view, rows_view};
ghost use Rattle.mat_grammar.specs.Spelling.{has_unit};
ghost use Rattle.mat_grammar.specs.Words.{sign_of, digits_of, unquoted};
ghost use Rattle.mat_grammar.specs.Machine.{with_sign, with_infix, with_end, with_text, argument_colon, with_colon_item, need, begun, listed, between, bare, gap, applied, used, caller_stack, caller_purpose, need_in, Cells, Stuck, Have, Listed, InValue, with_whole};
ghost use Rattle.mat_parts.specs.View.{cells_view};
ghost use Rattle.mat_parts.specs.Pending.{frame_view, stack_of, purpose_view, use_view, caller_view, around_view, Goes};

use fic_base::{Place, Text};
use mat_ast::{BinOp, UnOp};
use mat_grammar::{Word, digits, has_unit, unquoted};
use mat_parts::part::{Compound, Given, and_whole, end, no_rows, number, words};
use mat_parts::pending::{Caller, Frame, Opened, Pending, Purpose, Reading};
use mat_parts::stack::{is_inside, pop, top, wait};
use std::alloc::{AllocError, Global};

#[tactic(auto, unfolding(mat_parts::specs::Pending::state_view, mat_grammar::specs::Machine::with_sign, mat_parts::specs::Pending::frame_view))]
fn sign(place: Place, mark: UnOp, pending: Pending) -> Result<Option<Reading>, AllocError>
    ensures { IfOk result (λ next. Goes next (with_sign place mark (stack_of pending.frames) (purpose_view pending.purpose))) }
{
    if top(pending.frames.as_slice()) <= 8 {
        wait(pending, Frame::Sign(place, mark))
    } else {
        wait(pending, Frame::ExponentSign(place, mark))
    }
}

#[tactic(auto, unfolding(mat_parts::specs::Pending::state_view, mat_grammar::specs::Machine::with_infix))]
fn infix(place: Place, op: BinOp, pending: Pending) -> Result<Option<Reading>, AllocError>
    ensures { IfOk result (λ next. Goes next (with_infix place (sign_of op) (stack_of pending.frames) (purpose_view pending.purpose))) }
{
    match op {
        BinOp::Add => sign(place, UnOp::Plus, pending),
        BinOp::Sub => sign(place, UnOp::Minus, pending),
        _ => {
            drop(pending);
            Ok(None)
        }
    }
}

#[tactic(auto, unfolding(mat_parts::specs::Pending::state_view, mat_grammar::specs::Machine::with_end))]
fn end_value(place: Place, pending: Pending) -> Option<Reading>
    ensures { Goes result (with_end place (stack_of pending.frames) (purpose_view pending.purpose)) }
{
    if is_inside(pending.frames.as_slice(), &pending.purpose) {
        let part = end(place);
        Some(Reading::Have(Compound { part }, pending))
    } else {
        drop(pending);
        None
    }
}

#[tactic(auto, unfolding(mat_parts::specs::Pending::state_view, mat_grammar::specs::Machine::argument_colon, mat_parts::specs::Pending::purpose_view, mat_parts::specs::Pending::caller_view))]
fn colon_argument(purpose: Purpose) -> Result<Option<Reading>, AllocError>
    ensures { IfOk result (λ next. Goes next (argument_colon (purpose_view purpose))) }
{
    match purpose {
        Purpose::Argument(belongs, opened, given) => match and_whole(given) {
            Ok(given) => Ok(Some(Reading::Listed(Caller::Statement(belongs), opened, given))),
            Err(error) => {
                drop(opened);
                drop(belongs);
                Err(error)
            }
        },
        _ => {
            drop(purpose);
            Ok(None)
        }
    }
}

/// Nothing comes there.
fn refuse(pending: Pending) -> Option<Reading>
    ensures { Goes result Stuck }
{
    drop(pending);
    None
}

/// Nothing comes in this frame.
fn refuse_in(frame: Frame, pending: Pending) -> Option<Reading>
    ensures { Goes result Stuck }
{
    drop(frame);
    refuse(pending)
}

/// A refusal, which ends what waits.
fn failed(pending: Pending, error: AllocError) -> AllocError {
    drop(pending);
    error
}

#[tactic(auto, unfolding(mat_parts::specs::Pending::state_view, mat_parts::specs::Pending::caller_view))]
fn colon_given(
    opened: Opened,
    given: Given,
    pending: Pending,
) -> Result<Option<Reading>, AllocError>
    ensures { IfOk result (λ next. Goes next (Listed (InValue (stack_of pending.frames) (purpose_view pending.purpose)) opened.place opened.text opened.opens (with_whole (args_view given.args)))) }
{
    match and_whole(given) {
        Err(error) => {
            drop(opened);
            Err(failed(pending, error))
        }
        Ok(given) => Ok(Some(Reading::Listed(Caller::Value(pending), opened, given))),
    }
}

fn colon_in(frame: Frame, pending: Pending) -> Result<Option<Reading>, AllocError>
    ensures { IfOk result (λ next. Goes next (with_colon_item (frame_view frame ∷ stack_of pending.frames) (purpose_view pending.purpose))) }
{
    match frame {
        Frame::Call(opened, given) => colon_given(opened, given, pending),
        _ => Ok(refuse_in(frame, pending)),
    }
}

fn colon_item(pending: Pending) -> Result<Option<Reading>, AllocError>
    ensures { IfOk result (λ next. Goes next (with_colon_item (stack_of pending.frames) (purpose_view pending.purpose))) }
{
    let Pending { frames, purpose } = pending;
    let mut frames = frames;
    match pop(&mut frames) {
        None => {
            drop(frames);
            colon_argument(purpose)
        }
        Some(frame) => colon_in(frame, Pending { frames, purpose }),
    }
}

#[tactic(auto, unfolding(mat_parts::specs::Pending::state_view, mat_grammar::specs::Machine::need))]
fn numbered(
    alloc: Global,
    place: Place,
    own: &[u8],
    pending: Pending,
) -> Result<Option<Reading>, AllocError>
    ensures { IfOk result (λ next. Goes next (need place Word.Number own.now (stack_of pending.frames) (purpose_view pending.purpose))) }
{
    let imaginary = has_unit(own);
    match Text::from_bytes(alloc, digits(own)) {
        Err(error) => Err(failed(pending, error)),
        Ok(text) => {
            let part = number(place, text, imaginary);
            Ok(Some(Reading::Have(Compound { part }, pending)))
        }
    }
}

fn worded(place: Place, found: Option<Text>, pending: Pending) -> Option<Reading>
    ensures { Goes result (with_text place found (stack_of pending.frames) (purpose_view pending.purpose)) }
{
    match found {
        None => refuse(pending),
        Some(text) => {
            let part = words(place, text);
            Some(Reading::Have(Compound { part }, pending))
        }
    }
}

fn quoted(
    alloc: Global,
    place: Place,
    own: &[u8],
    pending: Pending,
) -> Result<Option<Reading>, AllocError>
    ensures { IfOk result (λ next. Goes next (with_text place (unquoted own.now) (stack_of pending.frames) (purpose_view pending.purpose))) }
{
    match unquoted(alloc, own) {
        Err(error) => Err(failed(pending, error)),
        Ok(found) => Ok(worded(place, found, pending)),
    }
}

#[tactic(auto, unfolding(mat_parts::specs::Pending::state_view))]
fn name_value(
    alloc: Global,
    place: Place,
    own: &[u8],
    pending: Pending,
) -> Result<Option<Reading>, AllocError>
    ensures { IfOk result (λ next. Goes next (Have (Name place own.now) (stack_of pending.frames) (purpose_view pending.purpose))) }
{
    match Text::from_bytes(alloc, own) {
        Err(error) => Err(failed(pending, error)),
        Ok(text) => Ok(Some(Reading::HaveName(place, text, pending))),
    }
}

/// What comes at a word where an operand has to come; `own` is its token's text. Want of memory is its only refusal.
pub fn operand(
    alloc: Global,
    place: Place,
    word: Word,
    own: &[u8],
    pending: Pending,
) -> Result<Option<Reading>, AllocError>
    ensures { IfOk result (λ next. Goes next (need place word own.now (stack_of pending.frames) (purpose_view pending.purpose))) }
{
    match word {
        Word::Number => numbered(alloc, place, own, pending),
        Word::Quoted => quoted(alloc, place, own, pending),
        Word::Name => name_value(alloc, place, own, pending),
        Word::Infix(op) => infix(place, op, pending),
        Word::Tilde => sign(place, UnOp::Not, pending),
        Word::Open => wait(pending, Frame::Inside(place)),
        Word::OpenSquare => Ok(Some(Reading::Between(place, no_rows(alloc), pending))),
        Word::End => Ok(end_value(place, pending)),
        Word::Colon => colon_item(pending),
        _ => Ok(refuse(pending)),
    }
}
