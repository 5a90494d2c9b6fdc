//! Machine steps on significands and exponents.

ghost use Rattle.std.specs.Prelude.{◌≡◌, ◌<◌, ◌≤◌, ◌*◌, ◌/◌, ◌^◌, ◌%◌, ◌≤ℤ◌, ◌+ℤ◌, ◌*ℤ◌, ◌↔◌, pos, negsuc, nat_abs, IsTrue};
ghost use Rattle.num_type.specs.Whole.{signed};
ghost use Rattle.num_type.specs.Constants.{IsKept};

/// The least exponent of a constant.
const EXPONENT_MIN: i64 = -400;

/// The greatest exponent of a constant with a significand of up to 53 bits.
const EXPONENT_MAX: i64 = 400;

/// The greatest exponent of a constant in its one form, whose significand is then 1.
const EXPONENT_TOP: i64 = 452;

/// Whether an odd size and an exponent are those of a constant.
pub fn is_kept(size: u128, e: i64) -> bool
    requires odd { size % 2 ≡ 1 }
    ensures { IsTrue result ↔ IsKept size e }
{
    if e < EXPONENT_MIN || size >= 1 << 53 {
        false
    } else if e <= EXPONENT_MAX {
        true
    } else if e > EXPONENT_TOP {
        false
    } else {
        size * (1 << (e - EXPONENT_MAX)) < 1 << 53
    }
}

/// How many times 2 divides a size.
pub fn zeros_of(size: u128) -> u32
    requires some { 0 < size }
    ensures odd { size / 2 ^ result % 2 ≡ 1 }
    ensures whole { (size / 2 ^ result) * 2 ^ result ≡ size }
    ensures most { result < 128 }
{
    size.trailing_zeros()
}

/// An exponent raised by so many bits.
pub fn raised(e: i64, bits: u32) -> i64
    requires least { negsuc (2 ^ 40) ≤ℤ e }
    requires most { e ≤ℤ pos (2 ^ 40) }
    ensures { result ≡ e +ℤ pos bits }
{
    e + bits as i64
}

/// The number of a size and a sign.
pub fn with_sign(neg: bool, size: u128) -> i64
    requires few { size < 2 ^ 53 }
    ensures { result ≡ signed neg size }
{
    if neg {
        (-(size as i128)) as i64
    } else {
        size as i64
    }
}

/// An exponent of a constant, in fewer bits.
pub fn short(e: i64) -> i32
    requires least { negsuc 399 ≤ℤ e }
    requires most { e ≤ℤ pos 452 }
    ensures { result ≡ e }
{
    e as i32
}

/// A product of two significands.
pub fn times(a: i64, b: i64) -> i128
    requires left { nat_abs a < 2 ^ 53 }
    requires right { nat_abs b < 2 ^ 53 }
    ensures { result ≡ a *ℤ b }
{
    a as i128 * b as i128
}

/// A sum of two exponents.
pub fn plus(a: i32, b: i32) -> i64
    ensures sum { result ≡ a +ℤ b }
    ensures least { negsuc (2 ^ 40) ≤ℤ result }
    ensures most { result ≤ℤ pos (2 ^ 40) }
{
    a as i64 + b as i64
}
