//! What comes in the parentheses of a name.

ghost use Rattle.std.specs.Prelude.{◌≡◌, ◌∷◌, [], IfOk, IsTrue, ◌↔◌};
ghost use Rattle.mat_ast.specs.Tree.{NoArgs};
ghost use Rattle.mat_ast.specs.View.{expr_view, args_view};
ghost use Rattle.mat_grammar.specs.Machine.{need, begun, listed, argued, applied, used, caller_stack, caller_purpose, need_in, with_item, Stuck};
ghost use Rattle.mat_parts.specs.Pending.{frame_view, stack_of, purpose_view, use_view, caller_view, Goes};

use crate::blocks::done;
use crate::expression::operand;
use fic_base::Place;
use mat_ast::Ident;
use mat_grammar::Word;
use mat_parts::body::multi;
use mat_parts::part::{Compound, Given, Part, and_item, apply, no_args};
use mat_parts::pending::{Caller, Frame, Opened, Pending, Purpose, Reading, Use};
use mat_parts::stack::push;
use sqlite_items::Items;
use std::alloc::{AllocError, Global};

/// Where an argument is read. Want of memory is its only refusal.
#[tactic(auto, unfolding(mat_grammar::specs::Machine::caller_stack, mat_grammar::specs::Machine::caller_purpose, mat_parts::specs::Pending::caller_view, mat_parts::specs::Pending::purpose_view, mat_parts::specs::Pending::frame_view, mat_parts::specs::Pending::stack_of))]
fn argument_of(
    alloc: Global,
    caller: Caller,
    opened: Opened,
    given: Given,
) -> Result<Pending, AllocError>
    ensures frames { IfOk result (λ p. stack_of p.frames ≡ caller_stack (caller_view caller) opened.place opened.text opened.opens (args_view given.args)) }
    ensures purpose { IfOk result (λ p. purpose_view p.purpose ≡ caller_purpose (caller_view caller) opened.place opened.text opened.opens (args_view given.args)) }
{
    match caller {
        Caller::Value(pending) => {
            let Pending { frames, purpose } = pending;
            let mut frames = frames;
            match push(&mut frames, Frame::Call(opened, given)) {
                Ok(()) => Ok(Pending { frames, purpose }),
                Err(error) => {
                    drop(frames);
                    drop(purpose);
                    Err(error)
                }
            }
        }
        Caller::Statement(belongs) => Ok(Pending {
            frames: Items::new(alloc),
            purpose: Purpose::Argument(belongs, opened, given),
        }),
    }
}

/// An argument is owed. Want of memory is its only refusal.
#[tactic(auto, unfolding(mat_parts::specs::Pending::state_view))]
fn need_argument(
    alloc: Global,
    caller: Caller,
    opened: Opened,
    given: Given,
) -> Result<Option<Reading>, AllocError>
    ensures { IfOk result (λ next. Goes next (need_in (caller_view caller) opened.place opened.text opened.opens (args_view given.args))) }
{
    let pending = argument_of(alloc, caller, opened, given)?;
    Ok(Some(Reading::Need(pending)))
}

fn is_empty(given: &Given) -> bool
    ensures { IsTrue result ↔ (args_view given.now.args ≡ NoArgs) }
{
    given.args.is_empty()
}

/// What comes behind the parentheses that belong to a statement. Want of memory is its only refusal.
#[tactic(auto, unfolding(mat_parts::specs::Pending::state_view, mat_grammar::specs::Machine::used, mat_parts::specs::Pending::use_view))]
fn used(belongs: Use, opened: Opened, given: Given) -> Result<Option<Reading>, AllocError>
    ensures { IfOk result (λ next. Goes next (used (use_view belongs) opened.place opened.text opened.opens (args_view given.args))) }
{
    match belongs {
        Use::Target(steps, around) => {
            if is_empty(&given) {
                drop(given);
                drop(opened);
                drop(steps);
                drop(around);
                return Ok(None);
            }
            let Opened { place, text, opens } = opened;
            Ok(Some(Reading::Subscripted(steps, Ident { text, place }, opens, given, around)))
        }
        Use::Callee(steps, targets, around) => {
            let call = apply(opened.place, opened.text, opened.opens, given);
            done(steps, multi(targets, call), around)
        }
    }
}

/// What comes behind the parentheses of a name. Want of memory is its only refusal.
#[tactic(auto, unfolding(mat_parts::specs::Pending::state_view, mat_grammar::specs::Machine::applied, mat_parts::specs::Pending::caller_view))]
fn applied(caller: Caller, opened: Opened, given: Given) -> Result<Option<Reading>, AllocError>
    ensures { IfOk result (λ next. Goes next (applied (caller_view caller) opened.place opened.text opened.opens (args_view given.args))) }
{
    match caller {
        Caller::Value(pending) => {
            let part = apply(opened.place, opened.text, opened.opens, given);
            Ok(Some(Reading::Have(Compound { part }, pending)))
        }
        Caller::Statement(belongs) => used(belongs, opened, given),
    }
}

/// What comes at a word behind the opening parenthesis of a name. Want of memory is its only refusal.
pub fn begun(
    alloc: Global,
    place: Place,
    word: Word,
    own: &[u8],
    caller: Caller,
    opened: Opened,
) -> Result<Option<Reading>, AllocError>
    ensures { IfOk result (λ next. Goes next (begun (caller_view caller) opened.place opened.text opened.opens place word own.now)) }
{
    let given = no_args(alloc);
    match word {
        Word::Close => applied(caller, opened, given),
        _ => {
            let pending = argument_of(alloc, caller, opened, given)?;
            operand(alloc, place, word, own, pending)
        }
    }
}

/// Nothing comes there.
fn refuse(caller: Caller, opened: Opened, given: Given) -> Option<Reading>
    ensures { Goes result Stuck }
{
    drop(given);
    drop(opened);
    drop(caller);
    None
}

/// Nothing comes behind this argument.
fn refuse_behind(part: Part, caller: Caller, opened: Opened, given: Given) -> Option<Reading>
    ensures { Goes result Stuck }
{
    drop(part);
    refuse(caller, opened, given)
}

/// A refusal, which ends what waits.
fn failed(caller: Caller, opened: Opened, error: AllocError) -> AllocError {
    drop(opened);
    drop(caller);
    error
}

/// The last argument. Want of memory is its only refusal.
fn last_argument(
    part: Part,
    caller: Caller,
    opened: Opened,
    given: Given,
) -> Result<Option<Reading>, AllocError>
    ensures { IfOk result (λ next. Goes next (applied (caller_view caller) opened.place opened.text opened.opens (with_item (args_view given.args) (expr_view part.expr)))) }
{
    match and_item(given, part) {
        Err(error) => Err(failed(caller, opened, error)),
        Ok(given) => applied(caller, opened, given),
    }
}

/// An argument before others. Want of memory is its only refusal.
fn next_argument(
    alloc: Global,
    part: Part,
    caller: Caller,
    opened: Opened,
    given: Given,
) -> Result<Option<Reading>, AllocError>
    ensures { IfOk result (λ next. Goes next (need_in (caller_view caller) opened.place opened.text opened.opens (with_item (args_view given.args) (expr_view part.expr)))) }
{
    match and_item(given, part) {
        Err(error) => Err(failed(caller, opened, error)),
        Ok(given) => need_argument(alloc, caller, opened, given),
    }
}

/// What comes at a word behind a colon that is an argument. Want of memory is its only refusal.
pub fn listed(
    alloc: Global,
    word: Word,
    caller: Caller,
    opened: Opened,
    given: Given,
) -> Result<Option<Reading>, AllocError>
    ensures { IfOk result (λ next. Goes next (listed (caller_view caller) opened.place opened.text opened.opens (args_view given.args) word)) }
{
    match word {
        Word::Close => applied(caller, opened, given),
        Word::Comma => need_argument(alloc, caller, opened, given),
        _ => Ok(refuse(caller, opened, given)),
    }
}

/// What comes at a word behind an argument. Want of memory is its only refusal.
pub fn argued(
    alloc: Global,
    word: Word,
    part: Part,
    caller: Caller,
    opened: Opened,
    given: Given,
) -> Result<Option<Reading>, AllocError>
    ensures { IfOk result (λ next. Goes next (argued word (expr_view part.expr) (caller_view caller) opened.place opened.text opened.opens (args_view given.args))) }
{
    match word {
        Word::Close => last_argument(part, caller, opened, given),
        Word::Comma => next_argument(alloc, part, caller, opened, given),
        _ => Ok(refuse_behind(part, caller, opened, given)),
    }
}
