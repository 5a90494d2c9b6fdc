//! Powers of constants.

ghost use Rattle.std.specs.Prelude.{◌≡◌, ◌≤◌, ◌≤ℤ◌, ◌↔◌, pos, neg_ℤ, negsuc, IsSome, IfSome, IfNone};
ghost use Rattle.num_type.specs.Constants.{IsConstant, IsSame};
ghost use Rattle.num_type.specs.View.{exact_of};
ghost use Rattle.const_eval.specs.Powers.{IsPowerOf, NoPowerOf, IsUnit, power_of, turned};

use num_type::Dyadic;

/// The constant to a power from -400 to 400, exactly; to the power 0 it is 1. None exactly where that is no constant.
pub fn power(base: &Dyadic, exponent: i32) -> Option<Dyadic>
    requires least { negsuc 399 ≤ℤ exponent }
    requires most { exponent ≤ℤ pos 400 }
    ensures some { IfSome result (λ d. IsPowerOf (exact_of base.now) exponent (exact_of d)) }
    ensures none { IfNone result (NoPowerOf (exact_of base.now) exponent) }
{
    if exponent >= 0 {
        repeated(base, exponent as u32)
    } else {
        match inverse(base) {
            None => None,
            Some(other) => repeated(&other, (-exponent) as u32),
        }
    }
}

// A product of so many times the constant. None exactly where it is no constant.
fn repeated(base: &Dyadic, times: u32) -> Option<Dyadic>
    ensures limits { IsSome result ↔ IsConstant (power_of (exact_of base.now) times) }
    ensures same { IfSome result (λ d. IsSame (exact_of d) (power_of (exact_of base.now) times)) }
{
    let mut value = Dyadic::one();
    for _step in 0..times {
        match value.mul(*base) {
            None => return None,
            Some(next) => value = next,
        }
    }
    Some(value)
}

// The inverse of a power of 2 with a sign. None exactly where the constant is none, or its inverse is no constant.
fn inverse(base: &Dyadic) -> Option<Dyadic>
    ensures unit { IfSome result (λ d. IsUnit base.now.m) }
    ensures same { IfSome result (λ d. IsSame (exact_of d) (turned (exact_of base.now))) }
    ensures none { IfNone result (IsUnit base.now.m → IsConstant (turned (exact_of base.now)) → ⊥) }
{
    let m = base.significand();
    if m == 1 || m == -1 {
        Dyadic::make(m, -base.exponent())
    } else {
        None
    }
}
