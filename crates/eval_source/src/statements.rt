//! Statements, by recursion on their trees.

ghost use Rattle.std.specs.Prelude.{◌≡◌, ◌<◌, ◌+ℤ◌, ◌*ℤ◌, pos};
ghost use Rattle.mat_ast.specs.View.{arm_view, arms_view, block_view, expr_view, stmt_view};
ghost use Rattle.fi_eval.specs.Outcome.{Gives, Over, bind, choose};
ghost use Rattle.fi_meaning.specs.Environment.{Went, behind_loop};
ghost use Rattle.fi_meaning.specs.Expressions as meaning;
ghost use Rattle.fi_meaning.specs.Statements as statements;
ghost use Rattle.eval_value.specs.Tells.{Tells};
ghost use Rattle.eval_array.specs.Ranged.{items_view};
ghost use Rattle.eval_source.specs.Flows as flows;
ghost use Rattle.eval_source.specs.Flows.{armed, armed_view, flow_view, for_turn, one_arm, while_turn};
ghost use Rattle.eval_source.specs.View.{context_of, env_view};

use crate::assignments::{assign, assign_outputs, store_into};
use crate::caller::Caller;
use crate::flow::{Flow, ends_loop, jump, leaves};
use crate::heads::{holds, loop_items, set_item};
use crate::scope::{Scope, looped};
use crate::variables::Variables;
use eval_array::Items;
use eval_value::Halt;
use fic_base::Place;
use mat_ast::{Arm, Expr, Ident, Stmt};
use std::alloc::Global;

/// A statement, with at most so many turns of each `while`. Halts exactly as the definition says; want of memory is the free answer.
#[tactic(auto, using(eval_call::proofs::Follow::after_err, crate::proofs::Follow::chosen, crate::proofs::Follow::not_chosen), unfolding(fi_eval::specs::Outcome::bind, fi_eval::specs::Outcome::choose))]
#[cycle(run)]
pub fn run<C: Caller>(
    s: &Stmt,
    alloc: Global,
    scope: &Scope<'_>,
    caller: &C,
    turns: u64,
    names: &mut Variables,
) -> Result<Flow, Halt>
    ensures { Tells result (λ f. flow_view f (env_view names.new)) (statements.run (stmt_view s.now) (context_of scope.now (C.called caller.now)) turns (env_view names.old)) }
{
    match s {
        Stmt::Assign { name, value } => assign(alloc, scope, caller, names, name, value),
        Stmt::Store {
            name,
            paren,
            args,
            value,
        } => {
            let at = *paren;
            store_into(
                args.as_slice(),
                alloc,
                scope,
                caller,
                names,
                name,
                at,
                value,
            )
        }
        Stmt::Multi { targets, call } => {
            assign_outputs(targets.as_slice(), alloc, scope, caller, names, call)
        }
        Stmt::If { arms, other, .. } => {
            let found = first_arm(arms.as_slice(), alloc, scope, caller, turns, names)?;
            match found {
                Some(flow) => Ok(flow),
                None => match other {
                    None => Ok(Flow::Went),
                    Some(body) => run_block(body.as_slice(), alloc, scope, caller, turns, names),
                },
            }
        }
        Stmt::For {
            name,
            range,
            body,
            ..
        } => for_each(
            body.as_slice(),
            alloc,
            scope,
            caller,
            turns,
            names,
            name,
            range,
        ),
        Stmt::While {
            condition,
            body,
            ..
        } => while_true(
            body.as_slice(),
            alloc,
            scope,
            caller,
            turns,
            names,
            condition,
        ),
        Stmt::Break(at) => jump(scope, *at, Flow::Broke),
        Stmt::Continue(at) => jump(scope, *at, Flow::Continued),
    }
}

/// The statements of a block, up to one that leaves it.
#[tactic(auto, using(eval_call::proofs::Follow::after_err, crate::proofs::Follow::chosen, crate::proofs::Follow::not_chosen), unfolding(fi_eval::specs::Outcome::bind, fi_eval::specs::Outcome::choose))]
#[cycle(run)]
pub fn run_block<C: Caller>(
    body: &[Stmt],
    alloc: Global,
    scope: &Scope<'_>,
    caller: &C,
    turns: u64,
    names: &mut Variables,
) -> Result<Flow, Halt>
    ensures { Tells result (λ f. flow_view f (env_view names.new)) (statements.run_block (block_view body.now) (context_of scope.now (C.called caller.now)) turns (env_view names.old)) }
{
    for s in body {
        let flow = run(s, alloc, scope, caller, turns, names)?;
        if leaves(flow) {
            return Ok(flow);
        }
    }
    Ok(Flow::Went)
}

// The first arm of an `if` that holds; none where none does.
#[tactic(auto, using(eval_call::proofs::Follow::after_err, crate::proofs::Follow::chosen, crate::proofs::Follow::not_chosen), unfolding(fi_eval::specs::Outcome::bind, fi_eval::specs::Outcome::choose))]
#[cycle(run)]
fn first_arm<C: Caller>(
    arms: &[Arm],
    alloc: Global,
    scope: &Scope<'_>,
    caller: &C,
    turns: u64,
    names: &mut Variables,
) -> Result<Option<Flow>, Halt>
    ensures { Tells result (λ o. armed_view o (env_view names.new)) (armed (arms_view arms.now) (context_of scope.now (C.called caller.now)) turns (env_view names.old)) }
{
    for arm in arms {
        let found = try_arm(arm, alloc, scope, caller, turns, names)?;
        if found.is_some() {
            return Ok(found);
        }
    }
    Ok(None)
}

// An arm of an `if`; none where its condition doesn't hold.
#[tactic(auto, using(eval_call::proofs::Follow::after_err, crate::proofs::Follow::chosen, crate::proofs::Follow::not_chosen), unfolding(fi_eval::specs::Outcome::bind, fi_eval::specs::Outcome::choose))]
#[cycle(run)]
fn try_arm<C: Caller>(
    arm: &Arm,
    alloc: Global,
    scope: &Scope<'_>,
    caller: &C,
    turns: u64,
    names: &mut Variables,
) -> Result<Option<Flow>, Halt>
    ensures { Tells result (λ o. armed_view o (env_view names.new)) (one_arm (arm_view arm.now).0 (arm_view arm.now).1 (context_of scope.now (C.called caller.now)) turns (env_view names.old)) }
{
    if holds(&arm.condition, alloc, scope, caller, names)? {
        let flow = run_block(arm.body.as_slice(), alloc, scope, caller, turns, names)?;
        Ok(Some(flow))
    } else {
        Ok(None)
    }
}

// A `for`. Its variable is known in the body alone.
#[tactic(auto, using(eval_call::proofs::Follow::after_err, crate::proofs::Follow::chosen, crate::proofs::Follow::not_chosen), unfolding(fi_eval::specs::Outcome::bind, fi_eval::specs::Outcome::choose))]
#[cycle(run)]
fn for_each<C: Caller>(
    body: &[Stmt],
    alloc: Global,
    scope: &Scope<'_>,
    caller: &C,
    turns: u64,
    names: &mut Variables,
    name: &Ident,
    range: &Expr,
) -> Result<Flow, Halt>
    ensures { Tells result (λ f. flow_view f (env_view names.new)) (bind (statements.loop_items (expr_view range.now) name.now.place (context_of scope.now (C.called caller.now)) (env_view names.old)) (λ zs. bind (statements.each_item zs (for_turn name.now.text (block_view body.now) (context_of scope.now (C.called caller.now)) turns) (env_view names.old)) (behind_loop name.now.text))) }
{
    let items = loop_items(range, alloc, scope, caller, names, name.place)?;
    for_items(
        body,
        alloc,
        scope,
        caller,
        turns,
        names,
        name.text.as_bytes(),
        &items,
    )?;
    names.forget(name.text.as_bytes());
    Ok(Flow::Went)
}

// The turns of a `for`.
#[tactic(auto, using(eval_call::proofs::Follow::after_err, crate::proofs::Follow::chosen, crate::proofs::Follow::not_chosen), unfolding(fi_eval::specs::Outcome::bind, fi_eval::specs::Outcome::choose))]
#[cycle(run)]
fn for_items<C: Caller>(
    body: &[Stmt],
    alloc: Global,
    scope: &Scope<'_>,
    caller: &C,
    turns: u64,
    names: &mut Variables,
    name: &[u8],
    items: &Items,
) -> Result<(), Halt>
    ensures { Tells result (λ u. Went (env_view names.new)) (statements.each_item (items_view items.now) (for_turn name.now (block_view body.now) (context_of scope.now (C.called caller.now)) turns) (env_view names.old)) }
{
    for k in 0..items.count {
        let flow = take_turn(body, alloc, scope, caller, turns, names, name, items, k)?;
        if ends_loop(flow) {
            return Ok(());
        }
    }
    Ok(())
}

// A turn of a `for`.
#[tactic(auto, using(eval_call::proofs::Follow::after_err, crate::proofs::Follow::chosen, crate::proofs::Follow::not_chosen), unfolding(fi_eval::specs::Outcome::bind, fi_eval::specs::Outcome::choose))]
#[cycle(run)]
fn take_turn<C: Caller>(
    body: &[Stmt],
    alloc: Global,
    scope: &Scope<'_>,
    caller: &C,
    turns: u64,
    names: &mut Variables,
    name: &[u8],
    items: &Items,
    k: u64,
) -> Result<Flow, Halt>
    requires { k < items.now.count }
    ensures { Tells result (λ f. flow_view f (env_view names.new)) (for_turn name.now (block_view body.now) (context_of scope.now (C.called caller.now)) turns (items.now.first +ℤ items.now.step *ℤ pos k) (env_view names.old)) }
{
    set_item(alloc, items, k, name, names)?;
    let inner = looped(scope);
    run_block(body, alloc, &inner, caller, turns, names)
}

// A `while`.
#[tactic(auto, using(eval_call::proofs::Follow::after_err, crate::proofs::Follow::chosen, crate::proofs::Follow::not_chosen), unfolding(fi_eval::specs::Outcome::bind, fi_eval::specs::Outcome::choose))]
#[cycle(run)]
fn while_true<C: Caller>(
    body: &[Stmt],
    alloc: Global,
    scope: &Scope<'_>,
    caller: &C,
    turns: u64,
    names: &mut Variables,
    condition: &Expr,
) -> Result<Flow, Halt>
    ensures { Tells result (λ f. flow_view f (env_view names.new)) (statements.turns turns (statements.condition (expr_view condition.now) (context_of scope.now (C.called caller.now))) (statements.run_block (block_view body.now) (meaning.looped (context_of scope.now (C.called caller.now))) turns) (env_view names.old)) }
{
    for turn in 0..turns {
        let _ = turn;
        let flow = while_holds(body, alloc, scope, caller, turns, names, condition)?;
        if ends_loop(flow) {
            return Ok(Flow::Went);
        }
    }
    last_test(alloc, scope, caller, names, condition)
}

// A turn of a `while`: out of the loop where the condition doesn't hold.
#[tactic(auto, using(eval_call::proofs::Follow::after_err, crate::proofs::Follow::chosen, crate::proofs::Follow::not_chosen), unfolding(fi_eval::specs::Outcome::bind, fi_eval::specs::Outcome::choose))]
#[cycle(run)]
fn while_holds<C: Caller>(
    body: &[Stmt],
    alloc: Global,
    scope: &Scope<'_>,
    caller: &C,
    turns: u64,
    names: &mut Variables,
    condition: &Expr,
) -> Result<Flow, Halt>
    ensures { Tells result (λ f. flow_view f (env_view names.new)) (while_turn (expr_view condition.now) (block_view body.now) (context_of scope.now (C.called caller.now)) turns (env_view names.old)) }
{
    if holds(condition, alloc, scope, caller, names)? {
        let inner = looped(scope);
        run_block(body, alloc, &inner, caller, turns, names)
    } else {
        Ok(Flow::Broke)
    }
}

// The test behind the last turn that is allowed: past the bound where it holds once more.
#[tactic(auto, using(eval_call::proofs::Follow::after_err, crate::proofs::Follow::chosen, crate::proofs::Follow::not_chosen), unfolding(fi_eval::specs::Outcome::bind, fi_eval::specs::Outcome::choose))]
fn last_test<C: Caller>(
    alloc: Global,
    scope: &Scope<'_>,
    caller: &C,
    names: &Variables,
    condition: &Expr,
) -> Result<Flow, Halt>
    ensures { Tells result (λ f. flow_view f (env_view names.now)) (bind (statements.condition (expr_view condition.now) (context_of scope.now (C.called caller.now)) (env_view names.now)) (λ t. choose t Over (Gives (Went (env_view names.now))))) }
{
    if holds(condition, alloc, scope, caller, names)? {
        Err(Halt::Over)
    } else {
        Ok(Flow::Went)
    }
}
