//! Whole numbers that constants are.

ghost use Rattle.std.specs.Prelude.{◌≡◌, ◌≤◌, ◌^◌, ◌*ℤ◌, pos, true, map, is_some, IfSome};
ghost use Rattle.num_type.specs.View.{exact_of};
ghost use Rattle.shape_rules.specs.Places.{IsBound};
ghost use Rattle.fi_rules.specs.Options.{where_so};
ghost use Rattle.fi_values.specs.Numbers as numbers;
ghost use Rattle.eval_value.specs.View.{value_view};
ghost use Rattle.eval_array.specs.Choices as choices;

use eval_value::Value;
use num_type::Dyadic;

/// The whole number within 2^31 - 1 of 0 that a constant is. None where it is none.
pub fn bounded(c: Dyadic) -> Option<i64>
    ensures { result ≡ choices.bounded (exact_of c) }
{
    let e = c.exponent();
    if e < 0 {
        None
    } else if e > 30 {
        None
    } else {
        raised(c.significand(), e as u32)
    }
}

// The number m * 2^k, where it is within these bounds.
fn raised(m: i64, k: u32) -> Option<i64>
    requires { k ≤ 30 }
    ensures { result ≡ where_so (numbers.is_bound (m *ℤ pos (2 ^ k))) (m *ℤ pos (2 ^ k)) }
{
    if is_bound(m) {
        within(m, 1u32 << k)
    } else {
        None
    }
}

// The product of a number within these bounds, where it is within them too.
#[tactic(auto, unfolding(fi_rules::specs::Options::where_so))]
fn within(m: i64, p: u32) -> Option<i64>
    requires { numbers.is_bound m ≡ true }
    ensures { result ≡ where_so (numbers.is_bound (m *ℤ pos p)) (m *ℤ pos p) }
{
    let z = product(m, p);
    if is_bound(z) { Some(z) } else { None }
}

// The product of a number within these bounds.
fn product(m: i64, p: u32) -> i64
    requires { numbers.is_bound m ≡ true }
    ensures { result ≡ m *ℤ pos p }
{
    m * p as i64
}

// Whether a number is within 2^31 - 1 of 0.
fn is_bound(z: i64) -> bool
    ensures { result ≡ numbers.is_bound z }
{
    z > -2147483648 && z < 2147483648
}

/// The whole number within 2^31 - 1 of 0 that a real scalar constant is. None for any other value.
#[tactic(auto, unfolding(fi_values::specs::Numbers::bound_of, fi_rules::specs::Options::and_then, fi_rules::specs::Options::where_so))]
pub fn bound_of(value: &Value) -> Option<i64>
    ensures value { result ≡ numbers.bound_of (value_view value.now) }
    ensures bound { IfSome result IsBound }
{
    match value {
        Value::Number(v) => match &v.im {
            None => {
                if v.shape.elements() == 1 {
                    bounded(v.re[0])
                } else {
                    None
                }
            }
            Some(_) => None,
        },
        Value::Fi(_) => None,
        Value::Logical(_) => None,
        Value::Words(_) => None,
        Value::Math(_) => None,
        Value::Type(_) => None,
    }
}

/// Whether all constants are whole numbers.
pub fn are_whole(all: &[Dyadic]) -> bool
    ensures { result ≡ is_some (numbers.wholes_of (map exact_of all.now)) }
{
    for c in all {
        if c.exponent() < 0 {
            return false;
        }
    }
    true
}
