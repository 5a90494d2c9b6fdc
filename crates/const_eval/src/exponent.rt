//! Exponents of powers.

ghost use Rattle.std.specs.Prelude.{◌≡◌, ◌<◌, ◌≤◌, ◌≤ℤ◌, ◌*ℤ◌, ◌^◌, ◌↔◌, ℤ, pos, negsuc, nat_abs, IsTrue, IfSome, IfNone};
ghost use Rattle.num_type.specs.View.{exact_of};
ghost use Rattle.const_eval.specs.Powers.{IsExponent};

use num_type::Dyadic;

/// The exponent that a constant stands for: a whole number from -400 to 400. None exactly where it is none.
pub fn whole_exponent(value: &Dyadic) -> Option<i32>
    ensures some { IfSome result (λ n. IsExponent (exact_of value.now) n) }
    ensures none { IfNone result ((n : ℤ) → IsExponent (exact_of value.now) n → ⊥) }
{
    if value.exponent() < 0 {
        None
    } else {
        doubled(value.significand(), value.exponent() as u32)
    }
}

// A number doubled so many times. None exactly where it isn't from -400 to 400 then.
fn doubled(number: i64, times: u32) -> Option<i32>
    ensures value { IfSome result (λ n. n ≡ number *ℤ pos (2 ^ times)) }
    ensures most { IfSome result (λ n. nat_abs n ≤ 400) }
    ensures none { IfNone result (400 < nat_abs (number *ℤ pos (2 ^ times))) }
{
    if !is_within(number, 400) {
        None
    } else if times == 0 {
        Some(number as i32)
    } else {
        doubled(twice(number), times - 1)
    }
}

// Whether a number is at most so far from 0.
fn is_within(number: i64, most: u32) -> bool
    ensures { IsTrue result ↔ (nat_abs number ≤ most) }
{
    number >= -(most as i64) && number <= most as i64
}

// The double of a small number.
fn twice(number: i64) -> i64
    requires { nat_abs number ≤ 400 }
    ensures { result ≡ number *ℤ pos 2 }
{
    number * 2
}
