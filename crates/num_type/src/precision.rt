//! Best precision of constants in fixed-point types.

ghost use Rattle.std.specs.Prelude.{◌≡◌, ◌<◌, ◌≤◌, ◌+◌, ◌*◌, ◌^◌, ◌-ℤ◌, ◌+ℤ◌, ◌≤ℤ◌, ◌<ℤ◌, ◌↔◌, ℤ, pos, negsuc, nat_abs, IsNone, IfSome, IfNone};
ghost use Rattle.num_type.specs.View.{exact_of};
ghost use Rattle.num_type.specs.Precision.{counted, bits_beside_sign, IsWidth, IsHeld, IsUpTo, IsBestFraction};

use crate::dyadic::Dyadic;

/// The best fraction length of values in a type of a signedness and a word length from 1 to 128 bits: the greatest at which each value is
/// at least the least number of the type and below the greatest stored integer plus 1. A value below 0 counts as 0 in an unsigned type.
/// If all count as 0 it is the number of bits beside the sign. It may lie out of the limits of a type.
pub fn best_fraction(signed: bool, word: u32, values: &[Dyadic]) -> i32
    requires some { 1 ≤ word }
    requires bits { word ≤ 128 }
    ensures { IsBestFraction signed word values.now result }
{
    let mut best: Option<i32> = None;
    for value in values {
        best = lesser(best, greatest_fraction(signed, word, value));
    }
    match best {
        Some(fraction) => fraction,
        None => beside_sign(signed, word) as i32,
    }
}

// The greatest fraction length at which the type holds a value. None exactly where the value counts as 0, which it holds at each.
fn greatest_fraction(signed: bool, word: u32, value: &Dyadic) -> Option<i32>
    requires some { 1 ≤ word }
    requires bits { word ≤ 128 }
    ensures zero { IsNone result ↔ (counted signed value.now.m ≡ pos 0) }
    ensures held { (fraction : ℤ) → IsHeld signed word fraction (exact_of value.now) ↔ IsUpTo result fraction }
{
    let m = value.significand();
    if m > 0 {
        Some(fraction_of(beside_sign(signed, word), value.exponent(), width(m as u64)))
    } else if m < 0 && signed {
        Some(fraction_of(
            beside_sign(signed, word),
            value.exponent(),
            width(size_below(m)),
        ))
    } else {
        None
    }
}

// The bits of a word beside its sign.
fn beside_sign(signed: bool, word: u32) -> u32
    requires some { 1 ≤ word }
    requires bits { word ≤ 128 }
    ensures value { result ≡ bits_beside_sign signed word }
    ensures few { result ≤ 128 }
{
    if signed { word - 1 } else { word }
}

// The fraction length at which a number of so many bits and this exponent fills a word with so many bits beside its sign.
fn fraction_of(bits: u32, e: i32, width: u32) -> i32
    requires bits { bits ≤ 128 }
    requires least { negsuc 399 ≤ℤ e }
    requires most { e ≤ℤ pos 452 }
    requires few { width ≤ 64 }
    ensures { result ≡ pos bits -ℤ e -ℤ pos width }
{
    bits as i32 - e - width as i32
}

// How far a number below 0 is below -1.
fn size_below(m: i64) -> u64
    requires { m <ℤ pos 0 }
    ensures { m ≡ negsuc result }
{
    (-1 - m) as u64
}

// The bits of a size.
fn width(size: u64) -> u32
    ensures few { result ≤ 64 }
    ensures bits { IsWidth size result }
{
    64 - size.leading_zeros()
}

// The lesser of two bounds, where there are any.
fn lesser(a: Option<i32>, b: Option<i32>) -> Option<i32>
    ensures none { IsNone result ↔ (IsNone a × IsNone b) }
    ensures both { (z : ℤ) → IsUpTo result z ↔ (IsUpTo a z × IsUpTo b z) }
{
    match a {
        None => b,
        Some(x) => match b {
            None => Some(x),
            Some(y) => Some(x.min(y)),
        },
    }
}
