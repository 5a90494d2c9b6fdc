//! Powers of constants.

ghost use Rattle.std.specs.Prelude.{◌≡◌, IfOk, option_map};
ghost use Rattle.fi_meaning.specs.Operators as operators;
ghost use Rattle.eval_value.specs.View.{item_view, value_view};
ghost use Rattle.eval_bits.specs.Powers.{constant_value};

use crate::real::real_constant;
use eval_value::{Value, make_number};
use fi_rules::{Meeting, Ty, Work, meet};
use num_type::{Dyadic, Memory};
use std::alloc::Global;

/// A real scalar constant to the power of another one, exactly (`^`, `.^`). None of other values, unless the exponent is a whole number from
/// -400 to 400, and where the power is no constant; want of memory is the only refusal.
pub fn power(alloc: Global, x: &Value, y: &Value) -> Result<Option<Value>, Memory>
    ensures { IfOk result (λ r. item_view r ≡ operators.power (value_view x.now) (value_view y.now)) }
{
    match real_constant(x) {
        None => Ok(None),
        Some(a) => match real_constant(y) {
            None => Ok(None),
            Some(b) => {
                let r = constants_raised(alloc, a, b)?;
                Ok(r)
            }
        },
    }
}

// The same of constants.
fn constants_raised(alloc: Global, x: Dyadic, y: Dyadic) -> Result<Option<Value>, Memory>
    ensures { IfOk result (λ r. item_view r ≡ operators.power (constant_value x) (constant_value y)) }
{
    match raised(x, y) {
        None => Ok(None),
        Some(c) => {
            let r = make_number(alloc, c)?;
            Ok(Some(r))
        }
    }
}

// A constant to the power of another one.
fn raised(x: Dyadic, y: Dyadic) -> Option<Dyadic>
    ensures { option_map constant_value result ≡ operators.power (constant_value x) (constant_value y) }
{
    match meet(Work::Power, &Ty::Number(x), &Ty::Number(y)) {
        Ok(Meeting::Folds(c)) => Some(c),
        Ok(Meeting::Meets(_, _)) => unreachable!(),
        Err(_) => None,
    }
}
