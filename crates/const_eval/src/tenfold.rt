//! Decimal numbers as constants.

ghost use Rattle.std.specs.Prelude.{◌≡◌, ◌<◌, ◌≤◌, ◌^◌, ◌%◌, ◌≤ℤ◌, ℤ, pos, neg_ℤ, negsuc, IfSome, IfNone};
ghost use Rattle.num_type.specs.View.{exact_of};
ghost use Rattle.num_type.specs.declared.dyadic.Dyadic.{Dyadic};
ghost use Rattle.const_eval.specs.Literals.{IsShort, IsTenfold};

use num_type::Dyadic;

/// The least and the greatest power of 10 of a literal.
const POWER_MIN: i128 = -22;

const POWER_MAX: i128 = 22;

/// The constant `digits * 10^tens`. None exactly where the power isn't from -22 to 22, or the number is no constant.
pub fn tenfold(digits: u64, tens: i128) -> Option<Dyadic>
    requires few { digits < 10 ^ 17 }
    ensures short { IfSome result (λ d. IsShort digits tens) }
    ensures value { IfSome result (λ d. IsTenfold digits tens (exact_of d)) }
    ensures none { IfNone result (IsShort digits tens → (d : Dyadic) → IsTenfold digits tens (exact_of d) → ⊥) }
{
    if tens < POWER_MIN || tens > POWER_MAX {
        None
    } else if tens >= 0 {
        raised(digits, tens as u32)
    } else {
        lowered(digits, (-tens) as u32)
    }
}

// The constant `digits * 10^tens`. None exactly where that number is no constant.
fn raised(digits: u64, tens: u32) -> Option<Dyadic>
    requires few { digits < 10 ^ 17 }
    requires most { tens ≤ 22 }
    ensures value { IfSome result (λ d. IsTenfold digits (pos tens) (exact_of d)) }
    ensures none { IfNone result ((d : Dyadic) → IsTenfold digits (pos tens) (exact_of d) → ⊥) }
{
    Dyadic::reduced((digits as u128 * power(5, tens)) as i128, tens as i64)
}

// The constant `digits / 10^tens`. None exactly where that number is no constant.
fn lowered(digits: u64, tens: u32) -> Option<Dyadic>
    requires few { digits < 10 ^ 17 }
    requires least { 1 ≤ tens }
    requires most { tens ≤ 22 }
    ensures value { IfSome result (λ d. IsTenfold digits (neg_ℤ (pos tens)) (exact_of d)) }
    ensures none { IfNone result ((d : Dyadic) → IsTenfold digits (neg_ℤ (pos tens)) (exact_of d) → ⊥) }
{
    let fives = power(5, tens) as u64;
    if digits % fives == 0 {
        Dyadic::reduced((digits / fives) as i128, -(tens as i64))
    } else {
        None
    }
}

/// A power of a number up to 10.
pub fn power(base: u128, exponent: u32) -> u128
    requires some { 0 < base }
    requires few { base ^ exponent < 2 ^ 70 }
    requires base { base ≤ 10 }
    ensures { result ≡ base ^ exponent }
{
    let mut value = 1;
    for _step in 0..exponent {
        value *= base;
    }
    value
}
