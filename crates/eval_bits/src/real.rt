//! Values of one class.

ghost use Rattle.std.specs.Prelude.{◌≡◌, IfNone, IfSome, None, option_map};
ghost use Rattle.num_type.specs.View.{exact_of};
ghost use Rattle.fi_rules.specs.Arguments.{constant_in};
ghost use Rattle.fi_rules.specs.Types as types;
ghost use Rattle.fi_values.specs.Stores.{truths_taken};
ghost use Rattle.eval_value.specs.View.{fi_view, logical_view, number_view, value_view};
ghost use Rattle.eval_bits.specs.Changes.{real_fi};

use crate::pair::is_scalar;
use eval_value::{FiValue, LogicalValue, NumberValue, Value};
use num_type::Dyadic;

/// The real fi that a value is.
#[tactic(auto, unfolding(crate::specs::Changes::real_fi))]
pub fn real_fi(value: &Value) -> Option<&FiValue>
    ensures same { IfSome result (λ v. value_view value.now ≡ fi_view v.now) }
    ensures real { IfSome result (λ v. v.now.im ≡ None) }
    ensures other { IfNone result (real_fi (value_view value.now) ≡ None) }
{
    match value {
        Value::Fi(v) => match &v.im {
            None => Some(v),
            Some(_) => None,
        },
        _ => None,
    }
}

/// The logical value that a value is.
#[tactic(auto, unfolding(fi_values::specs::Stores::truths_taken))]
pub fn logical(value: &Value) -> Option<&LogicalValue>
    ensures same { IfSome result (λ v. value_view value.now ≡ logical_view v.now) }
    ensures other { IfNone result (truths_taken (value_view value.now) ≡ None) }
{
    match value {
        Value::Logical(v) => Some(v),
        _ => None,
    }
}

/// The real scalar constant that a value is.
#[tactic(auto, unfolding(fi_rules::specs::Types::type_of, fi_rules::specs::Arguments::constant_in))]
pub fn real_constant(value: &Value) -> Option<Dyadic>
    ensures { option_map exact_of result ≡ constant_in (types.type_of (value_view value.now)) }
{
    match value {
        Value::Number(v) => single_constant(v),
        _ => None,
    }
}

// The same of constants.
fn single_constant(v: &NumberValue) -> Option<Dyadic>
    ensures { option_map exact_of result ≡ constant_in (types.type_of (number_view v.now)) }
{
    match &v.im {
        None => {
            if is_scalar(v.shape) {
                Some(v.re[0])
            } else {
                None
            }
        }
        Some(_) => None,
    }
}
