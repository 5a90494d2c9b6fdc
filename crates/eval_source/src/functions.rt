//! Functions of a file: their names, bodies, inputs and outputs.

ghost use Rattle.std.specs.Prelude.{◌≡◌, ◌≤◌, ◌∷◌, length, map, option_map, IfOk};
ghost use Rattle.fic_base.specs.declared.place.Place as place;
ghost use Rattle.mat_ast.specs.View.{func_view, funcs_view};
ghost use Rattle.fi_eval.specs.Meaning as tree;
ghost use Rattle.fi_eval.specs.Outcome.{bind, or_wrong};
ghost use Rattle.walk_scope.specs.NameSets.{names_in};
ghost use Rattle.fi_meaning.specs.Environment.{no_values, under_names, variable};
ghost use Rattle.fi_meaning.specs.Expressions as meaning;
ghost use Rattle.fi_meaning.specs.Meaning as functions;
ghost use Rattle.eval_value.specs.Tells.{Tells};
ghost use Rattle.eval_value.specs.View.{row_view, value_view};
ghost use Rattle.eval_source.specs.View.{env_view};

use crate::assignments::set_all;
use crate::caller::Caller;
use crate::leaves::variable_value;
use crate::scope::Scope;
use crate::statements::run_block;
use crate::variables::Variables;
use eval_value::{Halt, Value};
use fic_base::{Place, Text};
use mat_ast::{Func, Ident};
use num_type::Memory;
use std::alloc::Global;
use walk_scope::{NameSet, variables_of};

// The names of a file's functions. Want of memory is the only refusal.
fn function_names(funcs: &[Func], alloc: Global) -> Result<NameSet, Memory>
    ensures { IfOk result (λ s. names_in s ≡ map (λ g. g.name.text) (funcs_view funcs.now)) }
{
    let mut names = NameSet::new(alloc);
    for f in funcs {
        names.insert(alloc, f.name.text.as_bytes())?;
    }
    Ok(names)
}

/// The function of a name, the first of several. None exactly where there is none.
pub fn function_named<'a>(funcs: &'a [Func], name: &[u8]) -> Option<&'a Func>
    ensures { option_map (λ f. func_view f.now) result ≡ tree.function_named (funcs_view funcs.now) name.now }
{
    for f in funcs {
        if f.name.text.as_bytes() == name {
            return Some(f);
        }
    }
    None
}

/// Whether a name is among those of a list.
pub fn is_among(name: &[u8], names: &[Text]) -> bool
    ensures { result ≡ meaning.is_listed name.now names.now }
{
    for other in names {
        if name == other.as_bytes() {
            return true;
        }
    }
    false
}

/// A name before those of a list. Want of memory is the only refusal.
pub fn with_name(alloc: Global, name: &[u8], names: &[Text]) -> Result<Vec<Text>, Memory>
    ensures { IfOk result (λ v. v.items ≡ name.now ∷ names.now) }
{
    let mut list = Vec::new(alloc);
    let first = Text::from_bytes(alloc, name)?;
    list.push(first)?;
    for other in names {
        let copy = Text::from_bytes(alloc, other.as_bytes())?;
        list.push(copy)?;
    }
    Ok(list)
}

/// Runs the body of a function, whose own calls go by the caller, from variables with values.
#[tactic(auto, using(eval_call::proofs::Follow::after_err, crate::proofs::Follow::chosen, crate::proofs::Follow::not_chosen), unfolding(fi_eval::specs::Outcome::bind, fi_eval::specs::Outcome::choose))]
pub fn run_body<C: Caller>(
    f: &Func,
    alloc: Global,
    funcs: &[Func],
    caller: &C,
    turns: u64,
    names: &mut Variables,
) -> Result<(), Halt>
    ensures { Tells result (λ u. env_view names.new) (functions.body_run (C.called caller.now) (funcs_view funcs.now) (func_view f.now) (env_view names.old) turns) }
{
    let variables = variables_of(f, alloc)?;
    let known = function_names(funcs, alloc)?;
    let scope = Scope {
        variables: &variables,
        functions: &known,
        in_loop: false,
    };
    let _ = run_block(f.body.as_slice(), alloc, &scope, caller, turns, names)?;
    Ok(())
}

/// The variables behind the body of a function on these inputs. Wrong at the place where the number of values isn't that of its inputs.
#[tactic(auto, using(eval_call::proofs::Follow::after_err, crate::proofs::Follow::chosen, crate::proofs::Follow::not_chosen), unfolding(fi_eval::specs::Outcome::bind, fi_eval::specs::Outcome::choose))]
pub fn run_on<C: Caller>(
    f: &Func,
    alloc: Global,
    funcs: &[Func],
    caller: &C,
    turns: u64,
    at: Place,
    values: Vec<Value>,
) -> Result<Variables, Halt>
    ensures { Tells result env_view (bind (or_wrong at (under_names f.now.inputs (row_view values) no_values)) (λ env. functions.body_run (C.called caller.now) (funcs_view funcs.now) (func_view f.now) env turns)) }
{
    let mut names = Variables::new(alloc);
    set_all(alloc, at, f.inputs.as_slice(), values, &mut names)?;
    run_body(f, alloc, funcs, caller, turns, &mut names)?;
    Ok(names)
}

/// What a function does on values: its outputs, each of which has to have a value. Wrong at the place where the number of values isn't that of its inputs.
#[tactic(auto, using(eval_call::proofs::Follow::after_err, crate::proofs::Follow::chosen, crate::proofs::Follow::not_chosen), unfolding(fi_eval::specs::Outcome::bind, fi_eval::specs::Outcome::choose))]
pub fn function_outputs<C: Caller>(
    f: &Func,
    alloc: Global,
    funcs: &[Func],
    caller: &C,
    turns: u64,
    at: Place,
    values: Vec<Value>,
) -> Result<Vec<Value>, Halt>
    ensures { Tells result row_view (bind (or_wrong at (under_names f.now.inputs (row_view values) no_values)) (λ env. bind (functions.body_run (C.called caller.now) (funcs_view funcs.now) (func_view f.now) env turns) (functions.given_outputs f.now.outputs))) }
{
    let names = run_on(f, alloc, funcs, caller, turns, at, values)?;
    outputs_of(f, alloc, names)
}

// The same behind the body.
fn outputs_of(f: &Func, alloc: Global, names: Variables) -> Result<Vec<Value>, Halt>
    ensures { Tells result row_view (functions.given_outputs f.now.outputs (env_view names)) }
{
    given_outputs(alloc, f.outputs.as_slice(), &names)
}

// The values of outputs; wrong at the first that has none.
#[tactic(auto, using(eval_call::proofs::Follow::after_err, crate::proofs::Follow::chosen, crate::proofs::Follow::not_chosen), unfolding(fi_eval::specs::Outcome::bind, fi_eval::specs::Outcome::choose))]
fn given_outputs(alloc: Global, outputs: &[Ident], names: &Variables) -> Result<Vec<Value>, Halt>
    ensures { Tells result row_view (functions.given_outputs outputs.now (env_view names.now)) }
{
    let mut values = Vec::new(alloc);
    for name in outputs {
        let v = variable_value(alloc, names, name.place, name.text.as_bytes())?;
        values.push(v)?;
    }
    Ok(values)
}

/// So many of the first values; wrong at the place where there are fewer.
pub fn first_outputs(
    alloc: Global,
    at: Place,
    values: Vec<Value>,
    wanted: usize,
) -> Result<Vec<Value>, Halt>
    ensures { Tells result row_view (or_wrong at (functions.first_outputs wanted (row_view values))) }
{
    if values.as_slice().len() < wanted {
        Err(Halt::Wrong(at))
    } else {
        first_values(alloc, values.as_slice(), wanted)
    }
}

// So many of the first values, where there are as many.
fn first_values(alloc: Global, values: &[Value], wanted: usize) -> Result<Vec<Value>, Halt>
    requires { wanted ≤ length values.now }
    ensures { (at : place.Place) → Tells result row_view (or_wrong at (functions.first_outputs wanted (map value_view values.now))) }
{
    let mut first = Vec::new(alloc);
    for k in 0..wanted {
        let v = values[k].copied(alloc)?;
        first.push(v)?;
    }
    Ok(first)
}

/// The values of an entry's outputs: fis, logical values and numbers. Wrong at the first that has no value or is of another class.
#[tactic(auto, using(eval_call::proofs::Follow::after_err, crate::proofs::Follow::chosen, crate::proofs::Follow::not_chosen), unfolding(fi_eval::specs::Outcome::bind, fi_eval::specs::Outcome::choose))]
pub fn entry_outputs(
    alloc: Global,
    outputs: &[Ident],
    names: &Variables,
) -> Result<Vec<Value>, Halt>
    ensures { Tells result row_view (functions.entry_outputs outputs.now (env_view names.now)) }
{
    let mut values = Vec::new(alloc);
    for name in outputs {
        let v = entry_output(alloc, names, name.place, name.text.as_bytes())?;
        values.push(v)?;
    }
    Ok(values)
}

// The value of an entry's output.
#[tactic(auto, using(eval_call::proofs::Follow::after_err, crate::proofs::Follow::chosen, crate::proofs::Follow::not_chosen), unfolding(fi_eval::specs::Outcome::bind, fi_eval::specs::Outcome::choose))]
fn entry_output(alloc: Global, names: &Variables, at: Place, name: &[u8]) -> Result<Value, Halt>
    ensures { Tells result value_view (bind (variable (env_view names.now) at name.now) (functions.entry_output at)) }
{
    let v = variable_value(alloc, names, at, name)?;
    output_value(at, v)
}

// A fi, a logical value or a number.
#[tactic(auto, unfolding(fi_meaning::specs::Meaning::entry_output))]
fn output_value(at: Place, value: Value) -> Result<Value, Halt>
    ensures { Tells result value_view (functions.entry_output at (value_view value)) }
{
    match value {
        Value::Words(_) => Err(Halt::Wrong(at)),
        Value::Math(_) => Err(Halt::Wrong(at)),
        Value::Type(_) => Err(Halt::Wrong(at)),
        Value::Fi(v) => Ok(Value::Fi(v)),
        Value::Logical(v) => Ok(Value::Logical(v)),
        Value::Number(v) => Ok(Value::Number(v)),
    }
}
