//! Conditions, and the ranges of loops.

ghost use Rattle.std.specs.Prelude.{◌≡◌, None, ◌+ℤ◌, ◌*ℤ◌, pos, ◌<◌, option_map, OnOk};
ghost use Rattle.mat_ast.specs.View.{expr_view};
ghost use Rattle.fi_eval.specs.Meaning as tree;
ghost use Rattle.fi_eval.specs.Outcome.{Gives, bind, or_wrong};
ghost use Rattle.fi_values.specs.Logicals as logicals;
ghost use Rattle.fi_values.specs.Ranges.{items_of};
ghost use Rattle.fi_meaning.specs.Environment.{assigned};
ghost use Rattle.fi_meaning.specs.Expressions as meaning;
ghost use Rattle.fi_meaning.specs.Statements as statements;
ghost use Rattle.eval_value.specs.Tells.{Tells};
ghost use Rattle.eval_value.specs.View.{value_view};
ghost use Rattle.eval_array.specs.Ranged.{items_answer, items_view};
ghost use Rattle.eval_source.specs.Flows.{step_value, within};
ghost use Rattle.eval_source.specs.View.{context_of, env_view};

use crate::caller::Caller;
use crate::expressions::evaluate;
use crate::parts::{settled_truth, unit_step};
use crate::scope::Scope;
use crate::variables::Variables;
use eval_array::{Items, items_between};
use eval_value::{Halt, Value, make_number};
use fic_base::Place;
use mat_ast::{Expr, ExprKind};
use num_type::Memory;
use sqlite_items::Boxed;
use std::alloc::Global;

/// The place of an expression.
pub fn place_of(e: &Expr) -> Place
    ensures { result ≡ tree.place_of (expr_view e.now) }
{
    e.place
}

/// The truth of a condition; wrong at its place where it has none.
pub fn truth_of(at: Place, value: Boxed<Value>) -> Result<bool, Halt>
    ensures { Tells result (λ b. b) (or_wrong at (logicals.truth (value_view value))) }
{
    settled_truth(at, eval_bits::truth(value.get()))
}

/// Whether a condition holds.
#[tactic(auto, using(eval_call::proofs::Follow::after_err), unfolding(fi_eval::specs::Outcome::bind))]
pub fn holds<C: Caller>(
    e: &Expr,
    alloc: Global,
    scope: &Scope<'_>,
    caller: &C,
    names: &Variables,
) -> Result<bool, Halt>
    ensures { Tells result (λ b. b) (statements.condition (expr_view e.now) (context_of scope.now (C.called caller.now)) (env_view names.now)) }
{
    let at = place_of(e);
    let v = evaluate(e, alloc, scope, caller, names, None)?;
    truth_of(at, v)
}

/// The items between bounds that are values, at most 1,048,576. Wrong at the range where the bounds aren't whole numbers within 2 ^ 31 - 1 of 0, and
/// at the loop variable where there are more items.
#[tactic(auto, using(crate::proofs::LoopItems::found_items))]
pub fn items_at(
    at: Place,
    to: Place,
    first: Boxed<Value>,
    step: Boxed<Value>,
    last: Boxed<Value>,
) -> Result<Items, Halt>
    ensures { Tells result items_view (bind (or_wrong at (items_of (value_view first) (value_view step) (value_view last))) (within to)) }
{
    let found = items_between(first.get(), step.get(), last.get());
    settled_items(at, to, found)
}

// Items that have to be there; wrong at the place where there are none.
#[tactic(auto, using(crate::proofs::LoopItems::no_items, crate::proofs::LoopItems::some_items))]
fn settled_items(at: Place, to: Place, found: Option<Items>) -> Result<Items, Halt>
    ensures { Tells result items_view (bind (or_wrong at (items_answer found)) (within to)) }
{
    match found {
        None => Err(Halt::Wrong(at)),
        Some(items) => few(to, items),
    }
}

// At most 1,048,576 items; wrong at the place where there are more.
#[tactic(auto, using(crate::proofs::LoopItems::few_items, crate::proofs::LoopItems::many_items))]
fn few(to: Place, items: Items) -> Result<Items, Halt>
    ensures { Tells result items_view (within to (items_view items)) }
{
    if items.count <= 1_048_576 {
        Ok(items)
    } else {
        Err(Halt::Wrong(to))
    }
}

/// Gives the loop variable an item. Want of memory is the only refusal.
pub fn set_item(
    alloc: Global,
    items: &Items,
    k: u64,
    name: &[u8],
    names: &mut Variables,
) -> Result<(), Memory>
    requires { k < items.now.count }
    ensures { OnOk result (env_view names.new ≡ assigned name.now (statements.item_value (items.now.first +ℤ items.now.step *ℤ pos k)) (env_view names.old)) }
{
    let v = make_number(alloc, items.item(k))?;
    names.set(alloc, name, v)?;
    Ok(())
}

// The step of a range, 1 where none is written.
fn step_of<C: Caller>(
    step: &Option<Boxed<Expr>>,
    alloc: Global,
    scope: &Scope<'_>,
    caller: &C,
    names: &Variables,
) -> Result<Boxed<Value>, Halt>
    ensures { Tells result value_view (step_value (option_map expr_view step.now) (context_of scope.now (C.called caller.now)) (env_view names.now)) }
{
    match step {
        None => unit_step(alloc),
        Some(e) => evaluate(e.get(), alloc, scope, caller, names, None),
    }
}

/// The items of the range in the head of a loop, whose variable stands at `to`; another expression is no range.
#[tactic(auto, using(eval_call::proofs::Follow::after_err), unfolding(fi_eval::specs::Outcome::bind, fi_meaning::specs::Statements::loop_items))]
pub fn loop_items<C: Caller>(
    range: &Expr,
    alloc: Global,
    scope: &Scope<'_>,
    caller: &C,
    names: &Variables,
    to: Place,
) -> Result<Items, Halt>
    ensures { Tells result items_view (statements.loop_items (expr_view range.now) to (context_of scope.now (C.called caller.now)) (env_view names.now)) }
{
    let at = range.place;
    match &range.kind {
        ExprKind::Range { first, step, last } => {
            let x = evaluate(first.get(), alloc, scope, caller, names, None)?;
            let s = step_of(step, alloc, scope, caller, names)?;
            let y = evaluate(last.get(), alloc, scope, caller, names, None)?;
            items_at(at, to, x, s, y)
        }
        _ => Err(Halt::Wrong(to)),
    }
}
