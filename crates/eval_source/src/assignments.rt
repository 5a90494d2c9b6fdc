//! Assignments: to variables, to subscripts of variables, and of several outputs.

ghost use Rattle.std.specs.Prelude.{◌≡◌, ◌&&◌, [], ◌∷◌, None, Some, length, map, not};
ghost use Rattle.mat_ast.specs.View.{args_view, expr_view};
ghost use Rattle.fi_eval.specs.Meaning as tree;
ghost use Rattle.fi_eval.specs.Outcome.{Gives, Wrong, bind, choose, or_wrong};
ghost use Rattle.fi_values.specs.Stores.{stored};
ghost use Rattle.fi_values.specs.Subscripts.{as_subscripts};
ghost use Rattle.walk_scope.specs.NameSets.{names_in};
ghost use Rattle.fi_meaning.specs.Calls.{values_of};
ghost use Rattle.fi_meaning.specs.Environment.{Went, assigned, under_names, variable};
ghost use Rattle.fi_meaning.specs.Expressions as meaning;
ghost use Rattle.fi_meaning.specs.Statements as statements;
ghost use Rattle.eval_value.specs.Tells.{Tells};
ghost use Rattle.eval_value.specs.View.{item_view, row_view, value_view};
ghost use Rattle.eval_source.specs.Flows.{flow_view};
ghost use Rattle.eval_source.specs.View.{context_of, env_view};

use crate::caller::Caller;
use crate::expressions::{arguments, evaluate, subscript_values};
use crate::flow::Flow;
use crate::heads::place_of;
use crate::leaves::values_in;
use crate::parts::{count_of, site_of};
use crate::scope::{Scope, is_listed};
use crate::variables::Variables;
use eval_array::store;
use eval_value::{Halt, Value};
use fic_base::Place;
use mat_ast::{Arg, Expr, ExprKind, Ident};
use std::alloc::Global;

/// An assignment of an expression to a variable.
#[tactic(auto, using(eval_call::proofs::Follow::after_err, crate::proofs::Follow::chosen, crate::proofs::Follow::not_chosen), unfolding(fi_eval::specs::Outcome::bind, fi_eval::specs::Outcome::choose))]
pub fn assign<C: Caller>(
    alloc: Global,
    scope: &Scope<'_>,
    caller: &C,
    names: &mut Variables,
    to: &Ident,
    e: &Expr,
) -> Result<Flow, Halt>
    ensures { Tells result (λ f. flow_view f (env_view names.new)) (bind (meaning.value (expr_view e.now) (context_of scope.now (C.called caller.now)) (env_view names.old) None) (λ v. Gives (Went (assigned to.now.text v (env_view names.old))))) }
{
    let v = evaluate(e, alloc, scope, caller, names, None)?;
    names.set(alloc, to.text.as_bytes(), v.into_inner())?;
    Ok(Flow::Went)
}

/// An assignment of an expression to subscripts of a variable. It goes value, variable, subscripts.
#[tactic(auto, using(eval_call::proofs::Follow::after_err, crate::proofs::Follow::chosen, crate::proofs::Follow::not_chosen), unfolding(fi_eval::specs::Outcome::bind, fi_eval::specs::Outcome::choose))]
pub fn store_into<C: Caller>(
    args: &[Arg],
    alloc: Global,
    scope: &Scope<'_>,
    caller: &C,
    names: &mut Variables,
    to: &Ident,
    opens: Place,
    e: &Expr,
) -> Result<Flow, Halt>
    ensures { Tells result (λ f. flow_view f (env_view names.new)) (bind (meaning.value (expr_view e.now) (context_of scope.now (C.called caller.now)) (env_view names.old) None) (λ v. bind (variable (env_view names.old) to.now.place to.now.text) (λ old. bind (meaning.subscript_values (args_view args.now) (context_of scope.now (C.called caller.now)) (env_view names.old) to.now.place (Some old) 0 (meaning.args_count (args_view args.now))) (λ ks. bind (or_wrong to.now.place (as_subscripts ks)) (λ subs. bind (stored to.now.place (meaning.site_of opens) old subs v) (λ new. Gives (Went (assigned to.now.text new (env_view names.old))))))))) }
{
    let v = evaluate(e, alloc, scope, caller, names, None)?;
    let new = stored_value(args, alloc, scope, caller, names, to, opens, v.get())?;
    names.set(alloc, to.text.as_bytes(), new)?;
    Ok(Flow::Went)
}

// A variable with a value at subscripts.
fn stored_value<C: Caller>(
    args: &[Arg],
    alloc: Global,
    scope: &Scope<'_>,
    caller: &C,
    names: &Variables,
    to: &Ident,
    opens: Place,
    value: &Value,
) -> Result<Value, Halt>
    ensures { Tells result value_view (bind (variable (env_view names.now) to.now.place to.now.text) (λ old. bind (meaning.subscript_values (args_view args.now) (context_of scope.now (C.called caller.now)) (env_view names.now) to.now.place (Some old) 0 (meaning.args_count (args_view args.now))) (λ ks. bind (or_wrong to.now.place (as_subscripts ks)) (λ subs. stored to.now.place (meaning.site_of opens) old subs (value_view value.now))))) }
{
    match names.get(to.text.as_bytes()) {
        None => Err(Halt::Wrong(to.place)),
        Some(old) => {
            let many = count_of(args);
            let name = to.text.as_bytes();
            let ks = subscript_values(args, alloc, scope, caller, names, to.place, name, many)?;
            store_at(alloc, to.place, opens, old, ks, value)
        }
    }
}

// The same behind the subscripts.
fn store_at(
    alloc: Global,
    at: Place,
    opens: Place,
    old: &Value,
    subscripts: Vec<Option<Value>>,
    value: &Value,
) -> Result<Value, Halt>
    ensures { Tells result value_view (bind (or_wrong at (as_subscripts (map item_view subscripts.items))) (λ subs. stored at (meaning.site_of opens) (value_view old.now) subs (value_view value.now))) }
{
    let site = site_of(opens);
    store(alloc, at, site, old, subscripts.as_slice(), value)
}

/// An assignment of the outputs of a call to variables; one output is the value of an expression.
#[tactic(auto, using(eval_call::proofs::Follow::after_err, crate::proofs::Follow::chosen, crate::proofs::Follow::not_chosen), unfolding(fi_eval::specs::Outcome::bind, fi_eval::specs::Outcome::choose))]
pub fn assign_outputs<C: Caller>(
    targets: &[Ident],
    alloc: Global,
    scope: &Scope<'_>,
    caller: &C,
    names: &mut Variables,
    call: &Expr,
) -> Result<Flow, Halt>
    ensures { Tells result (λ f. flow_view f (env_view names.new)) (bind (statements.output_values (expr_view call.now) (context_of scope.now (C.called caller.now)) (env_view names.old) (length targets.now)) (λ vs. bind (or_wrong (tree.place_of (expr_view call.now)) (under_names targets.now vs (env_view names.old))) (λ later. Gives (Went later)))) }
{
    let values = output_values(call, alloc, scope, caller, names, targets.len())?;
    let at = place_of(call);
    set_all(alloc, at, targets, values, names)?;
    Ok(Flow::Went)
}

/// Gives variables these values, from left to right; wrong at the place where their numbers differ.
pub fn set_all(
    alloc: Global,
    at: Place,
    targets: &[Ident],
    values: Vec<Value>,
    names: &mut Variables,
) -> Result<(), Halt>
    ensures { Tells result (λ u. env_view names.new) (or_wrong at (under_names targets.now (row_view values) (env_view names.old))) }
{
    if targets.len() == values.as_slice().len() {
        set_each(alloc, targets, values.as_slice(), names)
    } else {
        Err(Halt::Wrong(at))
    }
}

// The same of as many values as variables.
fn set_each(
    alloc: Global,
    targets: &[Ident],
    values: &[Value],
    names: &mut Variables,
) -> Result<(), Halt>
    requires { length targets.now ≡ length values.now }
    ensures { (at : Place) → Tells result (λ u. env_view names.new) (or_wrong at (under_names targets.now (map value_view values.now) (env_view names.old))) }
{
    for k in 0..targets.len() {
        let v = values[k].copied(alloc)?;
        names.set(alloc, targets[k].text.as_bytes(), v)?;
    }
    Ok(())
}

// The values of so many outputs of a call.
#[tactic(auto, using(eval_call::proofs::Follow::after_err, crate::proofs::Follow::chosen, crate::proofs::Follow::not_chosen), unfolding(fi_eval::specs::Outcome::bind, fi_eval::specs::Outcome::choose))]
fn output_values<C: Caller>(
    e: &Expr,
    alloc: Global,
    scope: &Scope<'_>,
    caller: &C,
    names: &Variables,
    wanted: usize,
) -> Result<Vec<Value>, Halt>
    ensures { Tells result row_view (statements.output_values (expr_view e.now) (context_of scope.now (C.called caller.now)) (env_view names.now) wanted) }
{
    if wanted == 1 {
        one_output(e, alloc, scope, caller, names)
    } else {
        call_outputs(e, alloc, scope, caller, names, wanted)
    }
}

// One output is the value of the expression.
#[tactic(auto, using(eval_call::proofs::Follow::after_err, crate::proofs::Follow::chosen, crate::proofs::Follow::not_chosen), unfolding(fi_eval::specs::Outcome::bind, fi_eval::specs::Outcome::choose))]
fn one_output<C: Caller>(
    e: &Expr,
    alloc: Global,
    scope: &Scope<'_>,
    caller: &C,
    names: &Variables,
) -> Result<Vec<Value>, Halt>
    ensures { Tells result row_view (bind (meaning.value (expr_view e.now) (context_of scope.now (C.called caller.now)) (env_view names.now) None) (λ v. Gives (v ∷ []))) }
{
    let v = evaluate(e, alloc, scope, caller, names, None)?;
    let mut values = Vec::new(alloc);
    values.push(v.into_inner())?;
    Ok(values)
}

// The values of a call of a function of the file.
#[tactic(auto, using(eval_call::proofs::Follow::after_err), unfolding(fi_eval::specs::Outcome::bind, fi_meaning::specs::Statements::call_outputs))]
fn call_outputs<C: Caller>(
    e: &Expr,
    alloc: Global,
    scope: &Scope<'_>,
    caller: &C,
    names: &Variables,
    wanted: usize,
) -> Result<Vec<Value>, Halt>
    ensures { Tells result row_view (statements.call_outputs (expr_view e.now) (context_of scope.now (C.called caller.now)) (env_view names.now) wanted) }
{
    let at = place_of(e);
    match &e.kind {
        ExprKind::Name(name) => {
            let text = name.as_bytes();
            call_named(alloc, scope, caller, e.place, text, Vec::new(alloc), wanted)
        }
        ExprKind::Apply { name, args, .. } => {
            let text = name.as_bytes();
            let place = e.place;
            applied_outputs(
                args.as_slice(),
                alloc,
                scope,
                caller,
                names,
                place,
                text,
                wanted,
            )
        }
        _ => Err(Halt::Wrong(at)),
    }
}

// The values of a name with arguments; wrong at the name where it is that of a variable, behind its subscripts.
#[tactic(auto, using(eval_call::proofs::Follow::after_err, crate::proofs::Follow::chosen, crate::proofs::Follow::not_chosen), unfolding(fi_eval::specs::Outcome::bind, fi_eval::specs::Outcome::choose))]
fn applied_outputs<C: Caller>(
    args: &[Arg],
    alloc: Global,
    scope: &Scope<'_>,
    caller: &C,
    names: &Variables,
    at: Place,
    name: &[u8],
    wanted: usize,
) -> Result<Vec<Value>, Halt>
    ensures { Tells result row_view (choose (meaning.is_listed name.now (names_in scope.now.variables.now)) (bind (meaning.subscript_values (args_view args.now) (context_of scope.now (C.called caller.now)) (env_view names.now) at (env_view names.now name.now) 0 (meaning.args_count (args_view args.now))) (λ vs. Wrong at)) (bind (meaning.arguments (args_view args.now) (context_of scope.now (C.called caller.now)) (env_view names.now) at None) (λ vs. choose (meaning.is_listed name.now (names_in scope.now.functions.now)) (C.called caller.now at name.now (values_of vs) wanted) (Wrong at)))) }
{
    if is_listed(name, scope.variables) {
        subscripted_outputs(args, alloc, scope, caller, names, at, name)
    } else {
        function_outputs(args, alloc, scope, caller, names, at, name, wanted)
    }
}

// A variable gives no list of values, once its subscripts are evaluated.
#[tactic(auto, using(eval_call::proofs::Follow::after_err), unfolding(fi_eval::specs::Outcome::bind))]
fn subscripted_outputs<C: Caller>(
    args: &[Arg],
    alloc: Global,
    scope: &Scope<'_>,
    caller: &C,
    names: &Variables,
    at: Place,
    name: &[u8],
) -> Result<Vec<Value>, Halt>
    ensures { Tells result row_view (bind (meaning.subscript_values (args_view args.now) (context_of scope.now (C.called caller.now)) (env_view names.now) at (env_view names.now name.now) 0 (meaning.args_count (args_view args.now))) (λ vs. Wrong at)) }
{
    let many = count_of(args);
    let _ = subscript_values(args, alloc, scope, caller, names, at, name, many)?;
    Err(Halt::Wrong(at))
}

// The values of a call of a function of the file on arguments.
#[tactic(auto, using(eval_call::proofs::Follow::after_err), unfolding(fi_eval::specs::Outcome::bind))]
fn function_outputs<C: Caller>(
    args: &[Arg],
    alloc: Global,
    scope: &Scope<'_>,
    caller: &C,
    names: &Variables,
    at: Place,
    name: &[u8],
    wanted: usize,
) -> Result<Vec<Value>, Halt>
    ensures { Tells result row_view (bind (meaning.arguments (args_view args.now) (context_of scope.now (C.called caller.now)) (env_view names.now) at None) (λ vs. choose (meaning.is_listed name.now (names_in scope.now.functions.now)) (C.called caller.now at name.now (values_of vs) wanted) (Wrong at))) }
{
    let passed = arguments(args, alloc, scope, caller, names, None, at)?;
    let values = values_in(alloc, passed)?;
    called_outputs(alloc, scope, caller, at, name, values, wanted)
}

// A call of a function of the file, where the name is that of one.
#[tactic(auto, using(crate::proofs::Follow::chosen, crate::proofs::Follow::not_chosen), unfolding(fi_eval::specs::Outcome::choose))]
fn called_outputs<C: Caller>(
    alloc: Global,
    scope: &Scope<'_>,
    caller: &C,
    at: Place,
    name: &[u8],
    values: Vec<Value>,
    wanted: usize,
) -> Result<Vec<Value>, Halt>
    ensures { Tells result row_view (choose (meaning.is_listed name.now (names_in scope.now.functions.now)) (C.called caller.now at name.now (row_view values) wanted) (Wrong at)) }
{
    if is_listed(name, scope.functions) {
        caller.call(alloc, at, name, values, wanted)
    } else {
        Err(Halt::Wrong(at))
    }
}

// A call of a function of the file, where the name is that of one and of no variable.
#[tactic(auto, using(eval_call::proofs::Follow::after_err, crate::proofs::Follow::chosen, crate::proofs::Follow::not_chosen), unfolding(fi_eval::specs::Outcome::bind, fi_eval::specs::Outcome::choose))]
fn call_named<C: Caller>(
    alloc: Global,
    scope: &Scope<'_>,
    caller: &C,
    at: Place,
    name: &[u8],
    values: Vec<Value>,
    wanted: usize,
) -> Result<Vec<Value>, Halt>
    ensures { Tells result row_view (choose (statements.is_called (context_of scope.now (C.called caller.now)) name.now) (C.called caller.now at name.now (row_view values) wanted) (Wrong at)) }
{
    if is_called(scope, name) {
        caller.call(alloc, at, name, values, wanted)
    } else {
        Err(Halt::Wrong(at))
    }
}

// Whether a name is that of a function of the file, and of no variable.
fn is_called(scope: &Scope<'_>, name: &[u8]) -> bool
    ensures { result ≡ (meaning.is_listed name.now (names_in scope.now.functions.now) && not (meaning.is_listed name.now (names_in scope.now.variables.now))) }
{
    is_listed(name, scope.functions) && !is_listed(name, scope.variables)
}
