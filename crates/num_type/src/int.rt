//! Whole numbers of up to 128 bits and a sign.

ghost use Rattle.std.specs.Prelude.{◌≡◌, ◌<◌, ◌^◌, ◌<ℤ◌, ◌≤ℤ◌, ◌⊎◌, ◌↔◌, ℤ, pos, neg_ℤ, unsigned_abs, IfSome, IsNone, IsTrue};
ghost use Rattle.num_type.specs.Whole.{signed, is_below_zero};

use std::marker::Model;

/// A whole number within ±(2^128 - 1), which clauses see as one of ℤ. 0 isn't negative.
#[derive(Clone, Copy, Drop)]
pub struct Int {
    neg: bool,
    mag: u128,
}

impl Model for Int {
    ghost use Rattle.std.specs.Prelude.{ℤ, ◌<◌, ◌^◌, IsTrue, unsigned_abs};
    ghost use Rattle.num_type.specs.Whole.{signed, is_below_zero};

    ghost Value = { ℤ };

    ghost view = { λ i. signed i.neg i.mag };

    ghost invariant = { λ i. IsTrue i.neg → 0 < i.mag };

    ghost inverse = { λ z. record { neg = is_below_zero z; mag = unsigned_abs z } };
}

impl Int {
    /// The number of this size, below 0 where `neg` is set.
    pub fn of(neg: bool, mag: u128) -> Int
        ensures { result ≡ signed neg mag }
    {
        Int {
            neg: neg && mag != 0,
            mag,
        }
    }

    /// Whether the number is below 0.
    pub fn is_negative(self) -> bool
        ensures { result ≡ is_below_zero self }
    {
        self.neg
    }

    /// The number without its sign.
    pub fn magnitude(self) -> u128
        ensures { result ≡ unsigned_abs self }
    {
        self.mag
    }

    /// The number of a machine integer.
    pub fn from_i128(v: i128) -> Int
        ensures { result ≡ v }
    {
        Int::of(v < 0, v.unsigned_abs())
    }

    /// Whether the number is at most another one.
    pub fn at_most(self, other: Int) -> bool
        ensures { IsTrue result ↔ (self ≤ℤ other) }
    {
        if self.neg {
            !other.neg || other.mag <= self.mag
        } else {
            !other.neg && self.mag <= other.mag
        }
    }

    /// The number as a machine integer. None exactly where it isn't from -2^63 to 2^63 - 1.
    pub fn to_i64(self) -> Option<i64>
        ensures some { IfSome result (λ v. v ≡ self) }
        ensures none { IsNone result ↔ ((self <ℤ neg_ℤ (pos (2 ^ 63))) ⊎ (pos (2 ^ 63) ≤ℤ self)) }
    {
        if self.neg {
            below_zero(self.mag)
        } else if self.mag < 1 << 63 {
            Some(self.mag as i64)
        } else {
            None
        }
    }
}

// The machine integer of this size below 0. None exactly where the size is above 2^63.
fn below_zero(mag: u128) -> Option<i64>
    requires { 0 < mag }
    ensures some { IfSome result (λ v. v ≡ neg_ℤ (pos mag)) }
    ensures none { IsNone result ↔ (2 ^ 63 < mag) }
{
    if mag <= 1 << 63 {
        Some((-(mag as i128)) as i64)
    } else {
        None
    }
}
