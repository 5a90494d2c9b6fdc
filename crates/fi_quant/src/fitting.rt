//! Whole numbers brought into the range of a type.

ghost use Rattle.std.specs.Prelude.{◌≡◌, ◌+◌, ◌*◌, ◌^◌, ◌<◌, ◌≤◌, ◌+ℤ◌, ◌*ℤ◌, ◌≤ℤ◌, ℕ, pos};
ghost use Rattle.num_type.specs.Whole.{signed};
ghost use Rattle.num_type.specs.Types.{IsInRange, least_of, greatest_of};
ghost use Rattle.num_type.specs.View.{type_of};
ghost use Rattle.fi_quant.specs.Fit.{IsFit, IsWrapped, IsQuantised};
ghost use Rattle.fi_quant.specs.Numbers.{fitted, quantised};
ghost use Rattle.fi_quant.specs.Split.{IsOver, IsCongruent};

use crate::rounding::round;
use num_type::{Int, NumType, Overflow, Rounding};

/// The stored integer of the type's range that the overflow action gives for `z` (OverflowAction of a fimath). Total.
pub fn fit(action: Overflow, t: NumType, z: Int) -> Int
    ensures meets { IsFit action (type_of t) z result }
    ensures value { result ≡ fitted action (type_of t) z }
    ensures inside { IsInRange (type_of t) result }
{
    fit_wide(action, t, z.is_negative(), z.magnitude(), false)
}

/// The same for `a + b`, which need not be an `Int`.
pub fn fit_sum(action: Overflow, t: NumType, a: Int, b: Int) -> Int
    ensures meets { IsFit action (type_of t) (a +ℤ b) result }
    ensures value { result ≡ fitted action (type_of t) (a +ℤ b) }
    ensures inside { IsInRange (type_of t) result }
{
    fit_parts(action, t, a, b)
}

/// The exact `z * 2^(-f)` taken to the type: rounded once, if bits are dropped, then brought into range once. Total: any `f`, in bits.
pub fn quantise(t: NumType, method: Rounding, action: Overflow, z: Int, f: i32) -> Int
    ensures meets { IsQuantised method action (type_of t) z f result }
    ensures value { result ≡ quantised method action (type_of t) z f }
    ensures inside { IsInRange (type_of t) result }
{
    quantise_by(t, method, action, z, f)
}

/// The sum by the signs of its operands.
fn fit_parts(action: Overflow, t: NumType, a: Int, b: Int) -> Int
    ensures { IsFit action (type_of t) (a +ℤ b) result }
{
    let neg = a.is_negative();
    let x = a.magnitude();
    let y = b.magnitude();
    if neg == b.is_negative() {
        let low = x.wrapping_add(y);
        fit_wide(action, t, neg, low, low < x)
    } else if y <= x {
        fit_wide(action, t, neg, x - y, false)
    } else {
        fit_wide(action, t, !neg, y - x, false)
    }
}

/// Quantising by the two fraction lengths.
fn quantise_by(t: NumType, method: Rounding, action: Overflow, z: Int, f: i32) -> Int
    ensures { IsQuantised method action (type_of t) z f result }
{
    let fraction = t.fraction();
    if f <= fraction {
        fit_shifted(action, t, z, gap(fraction, f))
    } else {
        fit(action, t, round(method, z, gap(f, fraction)))
    }
}

/// How far one fraction length is above another that isn't greater, in bits.
pub fn gap(high: i32, low: i32) -> u32
    requires { low ≤ℤ high }
    ensures { high ≡ low +ℤ pos result }
{
    (i64::from(high) - i64::from(low)) as u32
}

/// The number of the range for `z * 2^n`.
fn fit_shifted(action: Overflow, t: NumType, z: Int, n: u32) -> Int
    ensures { IsFit action (type_of t) (z *ℤ pos (2 ^ n)) result }
{
    let size = z.magnitude();
    if n < 128 {
        fit_wide(action, t, z.is_negative(), size << n, size > u128::MAX >> n)
    } else {
        fit_wide(action, t, z.is_negative(), 0, size != 0)
    }
}

/// The number of the range for one whose size is `low` plus a multiple of `2^128`, which `over` says is not 0.
fn fit_wide(action: Overflow, t: NumType, neg: bool, low: u128, over: bool) -> Int
    ensures { (c : ℕ) → IsOver over c → IsFit action (type_of t) (signed neg (low + c * 2 ^ 128)) result }
{
    match action {
        Overflow::Saturate => {
            let end = if neg { t.low() } else { t.high() };
            if over || low > end.magnitude() {
                end
            } else {
                Int::of(neg, low)
            }
        }
        Overflow::Wrap => wrap(t.signed(), t.word(), neg, low),
    }
}

/// The number of the range of a type that differs by a multiple of `2^word` from one whose size is `low` plus a multiple of `2^128`.
fn wrap(has_sign: bool, word: u32, neg: bool, low: u128) -> Int
    requires some { 1 ≤ word }
    requires wide { word ≤ 128 }
    ensures { (c : ℕ) → IsWrapped (least_of has_sign word) (greatest_of has_sign word) (2 ^ word) (signed neg (low + c * 2 ^ 128)) result }
{
    let bits = low_bits(word, neg, low);
    if has_sign && bits >= 1u128 << (word - 1) {
        Int::of(true, (u128::MAX >> (128 - word)) - bits + 1)
    } else {
        Int::of(false, bits)
    }
}

/// The number below `2^word` that differs by a multiple of `2^word` from one whose size is `low` plus a multiple of `2^128`.
fn low_bits(word: u32, neg: bool, low: u128) -> u128
    requires some { 1 ≤ word }
    requires wide { word ≤ 128 }
    ensures below { result < 2 ^ word }
    ensures same { (c : ℕ) → IsCongruent (2 ^ word) (signed neg (low + c * 2 ^ 128)) (pos result) }
{
    let mask = u128::MAX >> (128 - word);
    let left = low & mask;
    if neg && left != 0 {
        mask - left + 1
    } else {
        left
    }
}
