//! Exact constants.

ghost use Rattle.std.specs.Prelude.{◌≡◌, ◌<◌, ◌*◌, ◌^◌, ◌%◌, ◌≤ℤ◌, ◌+ℤ◌, ℕ, pos, negsuc, nat_abs};

use crate::bits::{is_kept, plus, raised, short, times, with_sign, zeros_of};
use crate::order::{compare_shifted, gap, shifted_sum};
use std::cmp::Ordering;

/// A constant: an exact number `m * 2^e` that some `m` and `e` with `|m| < 2^53` and `-400 <= e <= 400` give. It is kept in its one
/// form, in which `m` is odd, or both are 0; `e` is then at most 452.
#[derive(Clone, Copy, Debug, PartialEq, Eq)]
pub struct Dyadic {
    m: i64,
    e: i32,
    ghost zero_form: { m ≡ pos 0 → e ≡ pos 0 },
    ghost odd: { (m ≡ pos 0 → ⊥) → nat_abs m % 2 ≡ 1 },
    ghost bits: { nat_abs m < 2 ^ 53 },
    ghost least: { negsuc 399 ≤ℤ e },
    ghost room: { (k : ℕ) → e ≡ pos 400 +ℤ pos k → nat_abs m * 2 ^ k < 2 ^ 53 },
}

impl Dyadic {
    ghost use Rattle.std.specs.Prelude.{◌≡◌, ◌<◌, ◌^◌, ◌%◌, ◌≤ℤ◌, ◌≢◌, ◌↔◌, pos, negsuc, nat_abs, IfSome, IsSome};
    ghost use Rattle.num_type.specs.Whole.{signed};
    ghost use Rattle.num_type.specs.Constants.{IsConstant, IsSame, IsKept, opposite, sum_of, difference, product_of, order_of};
    ghost use Rattle.num_type.specs.View.{exact_of};

    /// The constant `m * 2^e`. None exactly where that number is no constant.
    pub fn make(m: i64, e: i32) -> Option<Dyadic>
        ensures limits { IsSome result ↔ IsConstant (record { significand = m; exponent = e }) }
        ensures same { IfSome result (λ d. IsSame (exact_of d) (record { significand = m; exponent = e })) }
    {
        Dyadic::reduced(m as i128, e as i64)
    }

    /// The significand: odd, or 0.
    pub fn significand(self) -> i64
        ensures value { result ≡ self.m }
        ensures bits { nat_abs result < 2 ^ 53 }
    {
        self.m
    }

    /// The exponent, from -400 to 452; that of 0 is 0.
    #[tactic(auto, using(crate::proofs::Raised::top_of))]
    pub fn exponent(self) -> i32
        ensures value { result ≡ self.e }
        ensures least { negsuc 399 ≤ℤ result }
        ensures most { result ≤ℤ pos 452 }
    {
        self.e
    }

    /// The exact product. None exactly where it is no constant.
    pub fn mul(self, o: Dyadic) -> Option<Dyadic>
        ensures limits { IsSome result ↔ IsConstant (product_of (exact_of self) (exact_of o)) }
        ensures same { IfSome result (λ d. IsSame (exact_of d) (product_of (exact_of self) (exact_of o))) }
    {
        Dyadic::reduced(times(self.m, o.m), plus(self.e, o.e))
    }

    /// The number with the other sign.
    pub fn neg(self) -> Dyadic
        ensures { exact_of result ≡ opposite (exact_of self) }
    {
        Dyadic {
            m: -self.m,
            e: self.e,
        }
    }

    /// The exact sum. None exactly where it is no constant.
    pub fn add(self, o: Dyadic) -> Option<Dyadic>
        ensures limits { IsSome result ↔ IsConstant (sum_of (exact_of self) (exact_of o)) }
        ensures same { IfSome result (λ d. IsSame (exact_of d) (sum_of (exact_of self) (exact_of o))) }
    {
        if self.m == 0 {
            Some(o)
        } else if o.m == 0 {
            Some(self)
        } else if self.e < o.e {
            Dyadic::sum_above(o, self)
        } else {
            Dyadic::sum_above(self, o)
        }
    }

    /// The exact difference. None exactly where it is no constant.
    pub fn sub(self, o: Dyadic) -> Option<Dyadic>
        ensures limits { IsSome result ↔ IsConstant (difference (exact_of self) (exact_of o)) }
        ensures same { IfSome result (λ d. IsSame (exact_of d) (difference (exact_of self) (exact_of o))) }
    {
        self.add(o.neg())
    }

    /// The order of the exact values.
    pub fn compare(self, o: Dyadic) -> Ordering
        ensures { result ≡ order_of (exact_of self) (exact_of o) }
    {
        if self.e < o.e {
            compare_shifted(o.m, gap(o.e, self.e), self.m).reverse()
        } else {
            compare_shifted(self.m, gap(self.e, o.e), o.m)
        }
    }

    // The sum of two numbers that aren't 0, the exponent of the first not below that of the second.
    fn sum_above(high: Dyadic, low: Dyadic) -> Option<Dyadic>
        requires order { low.e ≤ℤ high.e }
        requires high { high.m ≢ pos 0 }
        requires low { low.m ≢ pos 0 }
        ensures limits { IsSome result ↔ IsConstant (sum_of (exact_of high) (exact_of low)) }
        ensures same { IfSome result (λ d. IsSame (exact_of d) (sum_of (exact_of high) (exact_of low))) }
    {
        let bits = gap(high.e, low.e);
        if bits <= 64 {
            Dyadic::reduced(shifted_sum(high.m, bits, low.m), low.e as i64)
        } else {
            None
        }
    }

    /// The constant 0.
    pub fn zero() -> Dyadic
        ensures significand { result.m ≡ pos 0 }
        ensures exponent { result.e ≡ pos 0 }
    {
        Dyadic { m: 0, e: 0 }
    }

    /// The constant 1.
    pub fn one() -> Dyadic
        ensures significand { result.m ≡ pos 1 }
        ensures exponent { result.e ≡ pos 0 }
    {
        Dyadic { m: 1, e: 0 }
    }

    /// The constant `m * 2^e` of a wider significand, with an exponent within ±2^40. None exactly where that number is no constant.
    #[tactic(auto, using(crate::proofs::Constants::zero_same, crate::proofs::Constants::zero_constant))]
    pub fn reduced(m: i128, e: i64) -> Option<Dyadic>
        requires least { negsuc (2 ^ 40) ≤ℤ e }
        requires most { e ≤ℤ pos (2 ^ 40) }
        ensures limits { IsSome result ↔ IsConstant (record { significand = m; exponent = e }) }
        ensures same { IfSome result (λ d. IsSame (exact_of d) (record { significand = m; exponent = e })) }
    {
        if m == 0 {
            Some(Dyadic::zero())
        } else {
            Dyadic::of_size(m < 0, m.unsigned_abs(), e)
        }
    }

    // The same of a number that isn't 0, by sign and size.
    fn of_size(neg: bool, size: u128, e: i64) -> Option<Dyadic>
        requires some { 0 < size }
        requires least { negsuc (2 ^ 40) ≤ℤ e }
        requires most { e ≤ℤ pos (2 ^ 40) }
        ensures limits { IsSome result ↔ IsConstant (record { significand = signed neg size; exponent = e }) }
        ensures same { IfSome result (λ d. IsSame (exact_of d) (record { significand = signed neg size; exponent = e })) }
    {
        let zeros = zeros_of(size);
        Dyadic::of_odd(neg, size >> zeros, raised(e, zeros))
    }

    // The constant of an odd size. None exactly where that number is no constant.
    fn of_odd(neg: bool, size: u128, e: i64) -> Option<Dyadic>
        requires odd { size % 2 ≡ 1 }
        ensures limits { IsSome result ↔ IsConstant (record { significand = signed neg size; exponent = e }) }
        ensures same { IfSome result (λ d. exact_of d ≡ record { significand = signed neg size; exponent = e }) }
    {
        if is_kept(size, e) {
            Some(Dyadic::of_kept(with_sign(neg, size), short(e)))
        } else {
            None
        }
    }

    // The constant of an odd significand within the limits.
    fn of_kept(m: i64, e: i32) -> Dyadic
        requires odd { nat_abs m % 2 ≡ 1 }
        requires kept { IsKept (nat_abs m) e }
        ensures significand { result.m ≡ m }
        ensures exponent { result.e ≡ e }
    {
        Dyadic { m, e }
    }
}
