//! What comes in statements.

ghost use Rattle.std.specs.Prelude.{◌≡◌, ◌∷◌, [], IfOk};
ghost use Rattle.mat_ast.specs.Tree.{Done, NoArms, NoArgs};
ghost use Rattle.mat_ast.specs.View.{expr_view, args_view, block_view, stmt_view};
ghost use Rattle.mat_grammar.specs.Machine.{within, after, purposed, named, subscripted, targeted, calling, called, looping, looped, Need, ident_at, with_statement};
ghost use Rattle.mat_parts.specs.Pending.{stack_of, purpose_view, around_view, body_view, Goes};

use crate::blocks::{after, block_ended, done, enter};
use crate::paren::argued;
use fic_base::{Place, Text};
use mat_ast::Ident;
use mat_grammar::Word;
use mat_parts::body::{
    Step, Steps, and_step, assign, break_off, go_on, multi, no_arms, no_steps, store,
};
use mat_parts::name_list::ident;
use mat_parts::part::{Given, Part, name, no_args};
use mat_parts::pending::{Around, Body, Caller, Lister, Opened, Pending, Purpose, Reading, Use};
use sqlite_items::Items;
use std::alloc::{AllocError, Global};

/// An expression is owed.
#[tactic(auto, unfolding(mat_parts::specs::Pending::state_view, mat_parts::specs::Pending::stack_of))]
fn owed(alloc: Global, purpose: Purpose) -> Option<Reading>
    ensures { Goes result (Need [] (purpose_view purpose)) }
{
    Some(Reading::Need(Pending {
        frames: Items::new(alloc),
        purpose,
    }))
}

/// A refusal, which ends what waits.
fn failed(steps: Steps, around: Around, error: AllocError) -> AllocError {
    drop(steps);
    drop(around);
    error
}

/// What comes at a word behind one more statement. Want of memory is its only refusal.
fn behind(
    alloc: Global,
    word: Word,
    steps: Steps,
    step: Step,
    around: Around,
) -> Result<Option<Reading>, AllocError>
    ensures { IfOk result (λ next. Goes next (after word (with_statement (block_view steps.body) (stmt_view step.stmt)) (around_view around))) }
{
    match and_step(steps, step) {
        Ok(steps) => after(alloc, word, steps, around),
        Err(error) => {
            drop(around);
            Err(error)
        }
    }
}

/// What comes at a word where a statement may come. Want of memory is its only refusal.
#[tactic(auto, unfolding(mat_parts::specs::Pending::state_view, mat_grammar::specs::Machine::within, mat_parts::specs::Pending::purpose_view, mat_parts::specs::Pending::lister_view))]
pub fn within(
    alloc: Global,
    place: Place,
    word: Word,
    own: &[u8],
    steps: Steps,
    around: Around,
) -> Result<Option<Reading>, AllocError>
    ensures { IfOk result (λ next. Goes next (within place word own.now (block_view steps.body) (around_view around))) }
{
    match word {
        Word::Newline => Ok(Some(Reading::Within(steps, around))),
        Word::Semicolon => Ok(Some(Reading::Within(steps, around))),
        Word::Comma => Ok(Some(Reading::Within(steps, around))),
        Word::Name => match ident(alloc, place, own) {
            Ok(name) => Ok(Some(Reading::Named(steps, name, around))),
            Err(error) => Err(failed(steps, around, error)),
        },
        Word::OpenSquare => Ok(Some(Reading::Edge(Lister::Targets(steps, around)))),
        Word::If => Ok(owed(alloc, Purpose::Arm(steps, place, no_arms(alloc), around))),
        Word::For => Ok(Some(Reading::Looping(steps, place, around))),
        Word::While => Ok(owed(alloc, Purpose::While(steps, place, around))),
        Word::Break => done(steps, break_off(place), around),
        Word::Continue => done(steps, go_on(place), around),
        _ => block_ended(alloc, word, steps, around),
    }
}

/// A block begins at this word. Want of memory is its only refusal.
fn entered(
    alloc: Global,
    place: Place,
    word: Word,
    own: &[u8],
    body: Body,
    around: Around,
) -> Result<Option<Reading>, AllocError>
    ensures { IfOk result (λ next. Goes next (within place word own.now Done (body_view body (around_view around)))) }
{
    let around = enter(around, body)?;
    within(alloc, place, word, own, no_steps(alloc), around)
}

/// What comes at a word behind a whole expression. Want of memory is its only refusal.
#[tactic(auto, unfolding(mat_grammar::specs::Machine::purposed, mat_parts::specs::Pending::purpose_view, mat_parts::specs::Pending::body_view, mat_parts::specs::Pending::caller_view))]
pub fn purposed(
    alloc: Global,
    place: Place,
    word: Word,
    own: &[u8],
    part: Part,
    purpose: Purpose,
) -> Result<Option<Reading>, AllocError>
    ensures { IfOk result (λ next. Goes next (purposed place word own.now (expr_view part.expr) (purpose_view purpose))) }
{
    match purpose {
        Purpose::Assign(steps, to, around) => behind(alloc, word, steps, assign(to, part), around),
        Purpose::Store(steps, to, opens, given, around) => {
            behind(alloc, word, steps, store(to, opens, given, part), around)
        }
        Purpose::Arm(steps, at, cases, around) => {
            let body = Body::If(steps, at, cases, part);
            entered(alloc, place, word, own, body, around)
        }
        Purpose::While(steps, at, around) => {
            let body = Body::While(steps, at, part);
            entered(alloc, place, word, own, body, around)
        }
        Purpose::For(steps, at, to, around) => {
            let body = Body::For(steps, at, to, part);
            entered(alloc, place, word, own, body, around)
        }
        Purpose::Argument(belongs, opened, given) => {
            argued(alloc, word, part, Caller::Statement(belongs), opened, given)
        }
    }
}

/// What comes at a word behind the first name of a statement.
#[tactic(auto, unfolding(mat_grammar::specs::Machine::named, mat_parts::specs::Pending::purpose_view, mat_parts::specs::Pending::use_view))]
pub fn named(
    alloc: Global,
    place: Place,
    word: Word,
    steps: Steps,
    to: Ident,
    around: Around,
) -> Option<Reading>
    ensures { Goes result (named word place (block_view steps.body) to (around_view around)) }
{
    match word {
        Word::Equal => owed(alloc, Purpose::Assign(steps, to, around)),
        Word::Open => {
            let opened = Opened {
                place: to.place,
                text: to.text,
                opens: place,
            };
            owed(
                alloc,
                Purpose::Argument(Use::Target(steps, around), opened, no_args(alloc)),
            )
        }
        _ => {
            drop(to);
            drop(steps);
            drop(around);
            None
        }
    }
}

/// What comes at a word behind the subscripts of a target.
#[tactic(auto, unfolding(mat_grammar::specs::Machine::subscripted, mat_parts::specs::Pending::purpose_view))]
pub fn subscripted(
    alloc: Global,
    word: Word,
    steps: Steps,
    to: Ident,
    opens: Place,
    given: Given,
    around: Around,
) -> Option<Reading>
    ensures { Goes result (subscripted word (block_view steps.body) to opens (args_view given.args) (around_view around)) }
{
    match word {
        Word::Equal => owed(alloc, Purpose::Store(steps, to, opens, given, around)),
        _ => {
            drop(given);
            drop(to);
            drop(steps);
            drop(around);
            None
        }
    }
}

/// What comes at a word behind a bracket of targets.
#[tactic(auto, unfolding(mat_parts::specs::Pending::state_view, mat_grammar::specs::Machine::targeted))]
pub fn targeted(word: Word, steps: Steps, targets: Items<Ident>, around: Around) -> Option<Reading>
    ensures { Goes result (targeted word (block_view steps.body) targets (around_view around)) }
{
    match word {
        Word::Equal => Some(Reading::Calling(steps, targets, around)),
        _ => {
            drop(targets);
            drop(steps);
            drop(around);
            None
        }
    }
}

/// What comes at a word behind a bracket of targets and its `=`. Want of memory is its only refusal.
#[tactic(auto, unfolding(mat_parts::specs::Pending::state_view, mat_grammar::specs::Machine::calling))]
pub fn calling(
    alloc: Global,
    place: Place,
    word: Word,
    own: &[u8],
    steps: Steps,
    targets: Items<Ident>,
    around: Around,
) -> Result<Option<Reading>, AllocError>
    ensures { IfOk result (λ next. Goes next (calling place word own.now (block_view steps.body) targets (around_view around))) }
{
    match word {
        Word::Name => match Text::from_bytes(alloc, own) {
            Ok(text) => Ok(Some(Reading::Called(steps, targets, place, text, around))),
            Err(error) => {
                drop(targets);
                Err(failed(steps, around, error))
            }
        },
        _ => {
            drop(targets);
            drop(steps);
            drop(around);
            Ok(None)
        }
    }
}

/// What comes at a word behind the name of a call that is assigned to a bracket of names. Want of memory is its only refusal.
#[tactic(auto, unfolding(mat_parts::specs::Pending::state_view, mat_grammar::specs::Machine::called, mat_parts::specs::Pending::caller_view, mat_parts::specs::Pending::use_view))]
pub fn called(
    alloc: Global,
    place: Place,
    word: Word,
    steps: Steps,
    targets: Items<Ident>,
    at: Place,
    text: Text,
    around: Around,
) -> Result<Option<Reading>, AllocError>
    ensures { IfOk result (λ next. Goes next (called place word (block_view steps.body) targets at text (around_view around))) }
{
    match word {
        Word::Open => {
            let opened = Opened {
                place: at,
                text,
                opens: place,
            };
            let caller = Caller::Statement(Use::Callee(steps, targets, around));
            Ok(Some(Reading::Begun(caller, opened)))
        }
        _ => behind(alloc, word, steps, multi(targets, name(at, text)), around),
    }
}

/// What comes at a word behind `for`. Want of memory is its only refusal.
#[tactic(auto, unfolding(mat_parts::specs::Pending::state_view, mat_grammar::specs::Machine::looping))]
pub fn looping(
    alloc: Global,
    place: Place,
    word: Word,
    own: &[u8],
    steps: Steps,
    at: Place,
    around: Around,
) -> Result<Option<Reading>, AllocError>
    ensures { IfOk result (λ next. Goes next (looping place word own.now (block_view steps.body) at (around_view around))) }
{
    match word {
        Word::Name => match ident(alloc, place, own) {
            Ok(name) => Ok(Some(Reading::Looped(steps, at, name, around))),
            Err(error) => Err(failed(steps, around, error)),
        },
        _ => {
            drop(steps);
            drop(around);
            Ok(None)
        }
    }
}

/// What comes at a word behind the variable of a `for`.
#[tactic(auto, unfolding(mat_grammar::specs::Machine::looped, mat_parts::specs::Pending::purpose_view))]
pub fn looped(
    alloc: Global,
    word: Word,
    steps: Steps,
    at: Place,
    to: Ident,
    around: Around,
) -> Option<Reading>
    ensures { Goes result (looped word (block_view steps.body) at to (around_view around)) }
{
    match word {
        Word::Equal => owed(alloc, Purpose::For(steps, at, to, around)),
        _ => {
            drop(to);
            drop(steps);
            drop(around);
            None
        }
    }
}
