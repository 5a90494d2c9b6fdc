//! The values of arguments.

ghost use Rattle.std.specs.Prelude.{◌≡◌, IfOk, map};
ghost use Rattle.fi_meaning.specs.Calls as calls;
ghost use Rattle.eval_value.specs.View.{value_view};
ghost use Rattle.eval_call.specs.Functions.{is_filled, value_at};
ghost use Rattle.eval_call.specs.View.{argument_view, function_view};

use crate::argument::{Argument, constant_value};
use crate::function::Function;
use eval_value::Value;
use num_type::Memory;
use std::alloc::Global;

/// The values of arguments: behind the first one, and where the function makes arrays of a number, the constants that words stand for. Want of memory
/// is the only refusal.
#[tactic(auto, using(crate::proofs::Arguments::value_taken, crate::proofs::Arguments::values_taken))]
pub fn function_values(alloc: Global, f: Function, args: &[Argument]) -> Result<Vec<Value>, Memory>
    ensures { IfOk result (λ vs. map value_view vs.items ≡ calls.function_values (function_view f) (map argument_view args.now)) }
{
    let mut values = Vec::new(alloc);
    for k in 0..args.len() {
        let v = function_value(alloc, f, k, &args[k])?;
        values.push(v)?;
    }
    Ok(values)
}

// The value of the argument at a place, or the constant that it stands for where one is wanted. Want of memory is the only refusal.
#[tactic(auto, using(crate::proofs::Arguments::value_behind, crate::proofs::Arguments::value_filled, crate::proofs::Arguments::value_first))]
fn function_value(alloc: Global, f: Function, k: usize, a: &Argument) -> Result<Value, Memory>
    ensures { IfOk result (λ v. value_view v ≡ value_at (function_view f) k (argument_view a.now)) }
{
    if k > 0 {
        let v = constant_value(alloc, a)?;
        Ok(v)
    } else if is_filled(f) {
        let v = constant_value(alloc, a)?;
        Ok(v)
    } else {
        let v = a.value.copied(alloc)?;
        Ok(v)
    }
}

/// Whether a function makes arrays of one number.
#[tactic(auto, unfolding(crate::specs::Functions::is_filled))]
pub fn is_filled(f: Function) -> bool
    ensures { result ≡ is_filled (function_view f) }
{
    match f {
        Function::Zeros => true,
        Function::Ones => true,
        _ => false,
    }
}
