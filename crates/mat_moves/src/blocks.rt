//! Open blocks, and what ends them.

ghost use Rattle.std.specs.Prelude.{◌≡◌, ◌∷◌, [], ◌++◌, IfOk, OnOk, MatchOption};
ghost use Rattle.mat_ast.specs.Tree.{Done};
ghost use Rattle.mat_ast.specs.View.{expr_view, block_view, stmt_view, funcs_view, arms_view};
ghost use Rattle.mat_grammar.specs.Machine.{arm_ended, statement_ended, body_end, body_next, body_finish, body_ended, block_ended, with_arm, with_fun, FunBody, Within, After, Need, ArmTest, after, with_statement};
ghost use Rattle.mat_parts.specs.Pending.{body_view, around_view, header_view, Goes};

use fic_base::Place;
use mat_grammar::{Mode, Word};
use mat_parts::body::{
    Cases, Funcs, Step, Steps, and_arm, and_func, and_step, for_each, if_else, if_only, no_steps,
    while_true,
};
use mat_parts::part::Part;
use mat_parts::pending::{Around, Body, Pending, Purpose, Reading};
use sqlite_items::Items;
use std::alloc::{AllocError, Global};

/// The blocks with one more. Want of memory is its only refusal.
pub fn enter(around: Around, body: Body) -> Result<Around, AllocError>
    ensures { IfOk result (λ made. around_view made ≡ body_view body (around_view around)) }
{
    let Around {
        bodies,
        mode,
        done,
        header,
    } = around;
    let mut bodies = bodies;
    match bodies.push(body) {
        Ok(()) => Ok(Around {
            bodies,
            mode,
            done,
            header,
        }),
        Err(error) => {
            drop(bodies);
            drop(done);
            drop(header);
            Err(error)
        }
    }
}

/// Behind a statement. Want of memory is its only refusal.
#[tactic(auto, unfolding(mat_parts::specs::Pending::state_view))]
pub fn done(steps: Steps, step: Step, around: Around) -> Result<Option<Reading>, AllocError>
    ensures { IfOk result (λ next. Goes next (After (with_statement (block_view steps.body) (stmt_view step.stmt)) (around_view around))) }
{
    match and_step(steps, step) {
        Ok(steps) => Ok(Some(Reading::After(steps, around))),
        Err(error) => {
            drop(around);
            Err(error)
        }
    }
}

/// An `else` begins. Want of memory is its only refusal.
#[tactic(auto, unfolding(mat_parts::specs::Pending::state_view, mat_grammar::specs::Machine::arm_ended, mat_parts::specs::Pending::body_view))]
fn other(
    alloc: Global,
    before: Steps,
    place: Place,
    cases: Cases,
    around: Around,
) -> Result<Option<Reading>, AllocError>
    ensures { IfOk result (λ next. Goes next (arm_ended Word.Else (block_view before.body) place (arms_view cases.arms) (around_view around))) }
{
    let around = enter(around, Body::Else(before, place, cases))?;
    Ok(Some(Reading::Within(no_steps(alloc), around)))
}

/// The condition of one more arm is owed.
#[tactic(auto, unfolding(mat_parts::specs::Pending::state_view, mat_parts::specs::Pending::purpose_view, mat_parts::specs::Pending::stack_of))]
fn next_arm(
    alloc: Global,
    before: Steps,
    place: Place,
    cases: Cases,
    around: Around,
) -> Option<Reading>
    ensures { Goes result (Need [] (ArmTest (block_view before.body) place (arms_view cases.arms) (around_view around))) }
{
    Some(Reading::Need(Pending {
        frames: Items::new(alloc),
        purpose: Purpose::Arm(before, place, cases, around),
    }))
}

/// What comes at a word behind the arms of an `if`. Want of memory is its only refusal.
#[tactic(auto, unfolding(mat_grammar::specs::Machine::arm_ended))]
fn arm_ended(
    alloc: Global,
    word: Word,
    before: Steps,
    place: Place,
    cases: Cases,
    around: Around,
) -> Result<Option<Reading>, AllocError>
    ensures { IfOk result (λ next. Goes next (arm_ended word (block_view before.body) place (arms_view cases.arms) (around_view around))) }
{
    match word {
        Word::ElseIf => Ok(next_arm(alloc, before, place, cases, around)),
        Word::Else => other(alloc, before, place, cases, around),
        Word::End => done(before, if_only(place, cases), around),
        _ => {
            drop(before);
            drop(cases);
            drop(around);
            Ok(None)
        }
    }
}

/// What comes at a word that may be the `end` of a statement. Want of memory is its only refusal.
#[tactic(auto, unfolding(mat_grammar::specs::Machine::statement_ended))]
fn statement_ended(
    word: Word,
    before: Steps,
    step: Step,
    around: Around,
) -> Result<Option<Reading>, AllocError>
    ensures { IfOk result (λ next. Goes next (statement_ended word (block_view before.body) (stmt_view step.stmt) (around_view around))) }
{
    match word {
        Word::End => done(before, step, around),
        _ => {
            drop(before);
            drop(step);
            drop(around);
            Ok(None)
        }
    }
}

#[tactic(auto, unfolding(mat_parts::specs::Pending::state_view, mat_grammar::specs::Machine::body_end))]
fn body_end(mode: Mode, funcs: Funcs) -> Option<Reading>
    ensures { Goes result (body_end mode (funcs_view funcs.funcs.items)) }
{
    match mode {
        Mode::Unended => {
            drop(funcs);
            None
        }
        _ => Some(Reading::Top(Mode::Ended, funcs)),
    }
}

#[tactic(auto, unfolding(mat_parts::specs::Pending::state_view, mat_grammar::specs::Machine::body_next))]
fn body_next(mode: Mode, funcs: Funcs) -> Option<Reading>
    ensures { Goes result (body_next mode (funcs_view funcs.funcs.items)) }
{
    match mode {
        Mode::Ended => {
            drop(funcs);
            None
        }
        _ => Some(Reading::Heading(Mode::Unended, funcs)),
    }
}

#[tactic(auto, unfolding(mat_parts::specs::Pending::state_view, mat_grammar::specs::Machine::body_finish))]
fn body_finish(mode: Mode, funcs: Funcs) -> Option<Reading>
    ensures { Goes result (body_finish mode (funcs_view funcs.funcs.items)) }
{
    match mode {
        Mode::Ended => {
            drop(funcs);
            None
        }
        _ => Some(Reading::Complete(funcs)),
    }
}

/// What comes at a word behind the body of a function, which `funcs` has.
#[tactic(auto, unfolding(mat_grammar::specs::Machine::body_ended))]
fn body_ended(word: Word, mode: Mode, funcs: Funcs) -> Option<Reading>
    ensures { Goes result (body_ended word mode (funcs_view funcs.funcs.items)) }
{
    match word {
        Word::End => body_end(mode, funcs),
        Word::Function => body_next(mode, funcs),
        Word::Finish => body_finish(mode, funcs),
        _ => {
            drop(funcs);
            None
        }
    }
}

/// What comes at a word that ends this block. Want of memory is its only refusal.
#[tactic(auto, unfolding(mat_grammar::specs::Machine::block_ended, mat_parts::specs::Pending::body_view))]
fn inner_ended(
    alloc: Global,
    word: Word,
    steps: Steps,
    body: Body,
    around: Around,
) -> Result<Option<Reading>, AllocError>
    ensures { IfOk result (λ next. Goes next (block_ended word (block_view steps.body) (body_view body (around_view around)))) }
{
    match body {
        Body::If(before, place, cases, condition) => {
            match and_arm(cases, condition, steps) {
                Ok(cases) => arm_ended(alloc, word, before, place, cases, around),
                Err(error) => {
                    drop(before);
                    drop(around);
                    Err(error)
                }
            }
        }
        Body::Else(before, place, cases) => {
            statement_ended(word, before, if_else(place, cases, steps), around)
        }
        Body::While(before, place, condition) => {
            statement_ended(word, before, while_true(place, condition, steps), around)
        }
        Body::For(before, place, name, range) => {
            statement_ended(word, before, for_each(place, name, range, steps), around)
        }
    }
}

/// The innermost block that is open, and those around it.
fn leave(bodies: &mut Items<Body>) -> Option<Body>
    ensures { MatchOption result ((bodies.old ≡ []) × (bodies.new ≡ [])) (λ last. bodies.old ≡ bodies.new ++ last ∷ []) }
{
    bodies.pop()
}

/// What comes at a word that ends a block. Want of memory is its only refusal.
pub fn block_ended(
    alloc: Global,
    word: Word,
    steps: Steps,
    around: Around,
) -> Result<Option<Reading>, AllocError>
    ensures { IfOk result (λ next. Goes next (block_ended word (block_view steps.body) (around_view around))) }
{
    let Around {
        bodies,
        mode,
        done,
        header,
    } = around;
    let mut bodies = bodies;
    match leave(&mut bodies) {
        None => {
            drop(bodies);
            let funcs = and_func(done, header, steps)?;
            Ok(body_ended(word, mode, funcs))
        }
        Some(body) => {
            let around = Around {
                bodies,
                mode,
                done,
                header,
            };
            inner_ended(alloc, word, steps, body, around)
        }
    }
}

/// What comes at a word behind a statement. Want of memory is its only refusal.
#[tactic(auto, unfolding(mat_parts::specs::Pending::state_view, mat_grammar::specs::Machine::after))]
pub fn after(
    alloc: Global,
    word: Word,
    steps: Steps,
    around: Around,
) -> Result<Option<Reading>, AllocError>
    ensures { IfOk result (λ next. Goes next (after word (block_view steps.body) (around_view around))) }
{
    match word {
        Word::Newline => Ok(Some(Reading::Within(steps, around))),
        Word::Semicolon => Ok(Some(Reading::Within(steps, around))),
        Word::Comma => Ok(Some(Reading::Within(steps, around))),
        _ => block_ended(alloc, word, steps, around),
    }
}
