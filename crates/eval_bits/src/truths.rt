//! Conditions.

ghost use Rattle.std.specs.Prelude.{◌≡◌, pos};
ghost use Rattle.std.specs.Ordering.{int_eq};
ghost use Rattle.fi_values.specs.Logicals as logicals;
ghost use Rattle.eval_value.specs.View.{logical_view, value_view};

use crate::pair::is_scalar;
use crate::real::{logical, real_constant};
use eval_value::{LogicalValue, Value};
use num_type::Dyadic;

/// Whether a condition holds: a scalar logical value that is true, or a real scalar constant that isn't 0. None of another value.
pub fn truth(value: &Value) -> Option<bool>
    ensures { result ≡ logicals.truth (value_view value.now) }
{
    match real_constant(value) {
        Some(c) => Some(!is_nought(c)),
        None => scalar_truth(value),
    }
}

/// What a scalar logical value is. None of another value.
pub fn scalar_truth(value: &Value) -> Option<bool>
    ensures { result ≡ logicals.scalar_truth (value_view value.now) }
{
    match logical(value) {
        None => None,
        Some(v) => single_truth(v),
    }
}

// The single element of a logical value. None where it has more.
fn single_truth(v: &LogicalValue) -> Option<bool>
    ensures { result ≡ logicals.scalar_truth (logical_view v.now) }
{
    if is_scalar(v.shape) {
        Some(v.truths[0])
    } else {
        None
    }
}

// Whether a constant is 0.
fn is_nought(c: Dyadic) -> bool
    ensures { result ≡ int_eq c.m (pos 0) }
{
    c.significand() == Dyadic::zero().significand()
}
