//! Constants beside fis.

ghost use Rattle.std.specs.Prelude.{◌≡◌, ◌<◌, ◌≤◌, ◌≤ℤ◌, ◌+ℤ◌, ◌*ℤ◌, ◌^◌, [], ◌∷◌, pos, nat_abs, IfSome, IfNone};
ghost use Rattle.num_type.specs.Types.{IsInRange};
ghost use Rattle.num_type.specs.View.{exact_of, type_of};
ghost use Rattle.const_rules.specs.BestFraction.{best_fraction_of};
ghost use Rattle.const_rules.specs.Stored.{stored_in};
ghost use Rattle.fi_rules.specs.Pairs as rule;
ghost use Rattle.fi_rules.specs.View.{at_fraction, checked_view, shown_view, side_view};

use crate::missing::{Missing, Shown};
use crate::pairs::Side;
use fic_base::Code;
use num_type::{Dyadic, Int, NumType, best_fraction};

/// A constant beside a fi of this type: in that one's signedness and word length, at its best fraction length. LiteralInexact where it
/// isn't exact there, with what is to be shown.
pub fn beside(t: NumType, c: Dyadic, shown: Shown) -> Result<Side, Missing>
    ensures { checked_view side_view result ≡ rule.beside (type_of t) (exact_of c ∷ []) (shown_view shown) }
{
    let fraction = best_of(t.signed(), t.word(), c);
    match stored(t, fraction, c) {
        Some(z) => Ok(Side::Constant(t, fraction, z)),
        None => Err(Missing {
            code: Code::LiteralInexact,
            shown,
        }),
    }
}

/// The best fraction length of a constant, in a type of so many bits.
pub fn best_of(signed: bool, word: u32, c: Dyadic) -> i32
    requires some { 1 ≤ word }
    requires bits { word ≤ 128 }
    ensures { result ≡ best_fraction_of signed word (exact_of c ∷ []) }
{
    best_fraction(signed, word, &[c])
}

/// The stored integer of a constant in a type with another fraction length. None where the constant isn't exact there, or out of the range.
pub fn stored(t: NumType, fraction: i32, c: Dyadic) -> Option<Int>
    ensures { result ≡ stored_in (at_fraction (type_of t) fraction) (exact_of c) }
{
    let m = c.significand();
    let shift = shift_of(c, fraction);
    if m == 0 {
        Some(Int::of(false, 0))
    } else if shift < 0 {
        None
    } else if shift > 64 {
        None
    } else {
        within(t, doubled(m, bits_of(shift)))
    }
}

// The power of 2 that a constant's significand is multiplied by, at a fraction length.
fn shift_of(c: Dyadic, fraction: i32) -> i64
    ensures { result ≡ c.e +ℤ fraction }
{
    c.exponent() as i64 + fraction as i64
}

// A small number as a number of bits.
fn bits_of(shift: i64) -> u32
    requires least { pos 0 ≤ℤ shift }
    requires most { shift ≤ℤ pos 64 }
    ensures value { pos result ≡ shift }
    ensures most { result ≤ 64 }
{
    shift as u32
}

// A significand doubled so many times.
fn doubled(m: i64, bits: u32) -> Int
    requires few { nat_abs m < 2 ^ 53 }
    requires bits { bits ≤ 64 }
    ensures { result ≡ m *ℤ pos (2 ^ bits) }
{
    Int::from_i128(shifted(m, bits))
}

// The same as a machine integer.
fn shifted(m: i64, bits: u32) -> i128
    requires few { nat_abs m < 2 ^ 53 }
    requires bits { bits ≤ 64 }
    ensures value { result ≡ m *ℤ pos (2 ^ bits) }
    ensures few { nat_abs result < 2 ^ 117 }
{
    m as i128 * power(bits)
}

// A power of 2.
fn power(bits: u32) -> i128
    requires bits { bits ≤ 64 }
    ensures value { result ≡ pos (2 ^ bits) }
    ensures few { 2 ^ bits ≤ 2 ^ 64 }
{
    (1u128 << bits) as i128
}

// A stored integer, where it is in the range of a type.
fn within(t: NumType, z: Int) -> Option<Int>
    ensures some { IfSome result (λ w. (w ≡ z) × IsInRange (type_of t) z) }
    ensures none { IfNone result (IsInRange (type_of t) z → ⊥) }
{
    if t.low().at_most(z) && z.at_most(t.high()) {
        Some(z)
    } else {
        None
    }
}
