//! Calls of built-in functions by their names.

ghost use Rattle.std.specs.Prelude.{◌≡◌, is_some, map, true};
ghost use Rattle.fi_eval.specs.Outcome.{or_wrong};
ghost use Rattle.fi_meaning.specs.Calls as calls;
ghost use Rattle.fi_meaning.specs.Functions as functions;
ghost use Rattle.eval_value.specs.Tells.{Tells};
ghost use Rattle.eval_value.specs.View.{value_view};
ghost use Rattle.eval_call.specs.Functions.{is_filled, is_like};
ghost use Rattle.eval_call.specs.View.{argument_view, function_view};

use crate::argument::Argument;
use crate::casts::cast_of;
use crate::function::{Function, function_named};
use crate::given::given;
use crate::rules::by_rules;
use crate::settled::settled;
use crate::values::{function_values, is_filled};
use eval_value::{Halt, Value};
use fi_rules::built_in;
use fic_base::Place;
use std::alloc::Global;

/// What a call of a built-in function on these arguments gives. Wrong at the place where no function has the name, and where no rule gives a result.
#[tactic(auto, using(crate::proofs::Names::rule_called, crate::proofs::Names::function_called, crate::proofs::Names::nothing_called))]
pub fn call_built_in(
    alloc: Global,
    at: Place,
    name: &[u8],
    args: &[Argument],
) -> Result<Value, Halt>
    ensures { Tells result value_view (calls.called_name at name.now (map argument_view args.now)) }
{
    match built_in(name) {
        Some(b) => by_rules(alloc, at, b, args),
        None => match function_named(name) {
            Some(f) => function_called(alloc, at, f, args),
            None => Err(Halt::Wrong(at)),
        },
    }
}

// A call of a function beside those of the rules.
#[tactic(auto, using(crate::proofs::Names::on_values))]
fn function_called(alloc: Global, at: Place, f: Function, args: &[Argument]) -> Result<Value, Halt>
    ensures { Tells result value_view (calls.function_call at (function_view f) (calls.function_values (function_view f) (map argument_view args.now))) }
{
    let values = function_values(alloc, f, args)?;
    called_on(alloc, at, f, values)
}

// A call of a function on values, which are let go.
fn called_on(alloc: Global, at: Place, f: Function, values: Vec<Value>) -> Result<Value, Halt>
    ensures { Tells result value_view (calls.function_call at (function_view f) (map value_view values.items)) }
{
    called_with(alloc, at, f, values.as_slice())
}

// The same on values that stay.
#[tactic(auto, using(crate::proofs::Names::filled_called, crate::proofs::Names::other_called))]
fn called_with(alloc: Global, at: Place, f: Function, values: &[Value]) -> Result<Value, Halt>
    ensures { Tells result value_view (calls.function_call at (function_view f) (map value_view values.now)) }
{
    if is_filled(f) {
        filled_call(alloc, at, f, values)
    } else {
        plain_call(alloc, at, f, values)
    }
}

// An array of one number: in the type of a fi where the word like and that fi stand at the end.
#[tactic(auto, using(crate::proofs::Names::no_like))]
fn filled_call(alloc: Global, at: Place, f: Function, values: &[Value]) -> Result<Value, Halt>
    ensures { Tells result value_view (calls.filled_call at (function_view f) (map value_view values.now) (calls.like_at_end (map value_view values.now))) }
{
    if has_like(values) {
        like_call(alloc, at, f, values)
    } else {
        plain_call(alloc, at, f, values)
    }
}

// An array of one number in the type of the fi at the end.
#[tactic(auto, using(crate::proofs::Names::two_at_least, crate::proofs::Names::like_stops, crate::proofs::Names::like_goes))]
fn like_call(alloc: Global, at: Place, f: Function, values: &[Value]) -> Result<Value, Halt>
    requires { is_some (calls.like_at_end (map value_view values.now)) ≡ true }
    ensures { Tells result value_view (calls.filled_call at (function_view f) (map value_view values.now) (calls.like_at_end (map value_view values.now))) }
{
    let count = values.len() - 2;
    let v = plain_call(alloc, at, f, values.split_at(count).0)?;
    cast_of(alloc, at, v, &values[count + 1])
}

// What a function gives on values. Wrong at the place where no rule gives a result.
#[tactic(auto, using(crate::proofs::Follow::known))]
fn plain_call(alloc: Global, at: Place, f: Function, values: &[Value]) -> Result<Value, Halt>
    ensures { Tells result value_view (or_wrong at (functions.given (function_view f) (map value_view values.now))) }
{
    let v = given(alloc, f, values)?;
    settled(at, v)
}

// Whether one value or two stand before the word like and another value.
#[tactic(auto, using(crate::proofs::Names::like_of_three, crate::proofs::Names::like_of_four, crate::proofs::Names::like_of_others))]
fn has_like(values: &[Value]) -> bool
    ensures { result ≡ is_some (calls.like_at_end (map value_view values.now)) }
{
    if values.len() == 3 {
        is_like(&values[1])
    } else if values.len() == 4 {
        is_like(&values[2])
    } else {
        false
    }
}

// Whether a value is the word like.
#[tactic(auto, using(crate::proofs::Names::no_word))]
fn is_like(value: &Value) -> bool
    ensures { result ≡ is_like (value_view value.now) }
{
    match value {
        Value::Words(text) => text.as_bytes() == b"like".as_slice(),
        _ => false,
    }
}
