//! Whole numbers as decimal texts.

ghost use Rattle.std.specs.Prelude.{◌≡◌, ◌≢◌, ◌++◌, ◌≤◌, ◌<◌, ◌^◌, ◌+◌, ◌*◌, ◌↔◌, ℕ, ℤ, IfSome, IsNone, IfNone, OnOk, OnErr, Some, ◌∷◌, slice_get, unsigned_abs};
ghost use Rattle.std.specs.Fmt.{decimal, signed_decimal};
ghost use Rattle.std.specs.Char.{digit_value};
ghost use Rattle.std.specs.Str.Parse.{AllDigits, digits_value};
ghost use Rattle.num_type.specs.Decimals.{ReadsDigits, ReadsDecimal, ReadsValue};

use crate::int::Int;
use crate::memory::Memory;

/// Appends the canonical decimal of a number. Want of memory is its only refusal, and `out` is then as before.
pub fn write_decimal(n: Int, out: &mut Vec<u8>) -> Result<(), Memory>
    ensures ok { OnOk result (out.new.items ≡ out.old.items ++ signed_decimal n) }
    ensures err { OnErr result (out.new.items ≡ out.old.items) }
{
    let alloc = *out.allocator();
    let digits = n.magnitude().to_string(alloc)?;
    let sign: &[u8] = if n.is_negative() { b"-" } else { b"" };
    let mut text = Vec::from_slice(alloc, sign)?;
    text.extend_from_slice(digits.as_bytes())?;
    out.extend_from_slice(text.as_slice())?;
    Ok(())
}

/// The number of a canonical decimal: no leading zero, no plus, no `-0`. None exactly where the bytes are no canonical decimal of a
/// number within ±(2^128 - 1). It takes no memory.
pub fn read_decimal(bytes: &[u8]) -> Option<Int>
    ensures { ReadsDecimal result bytes.now }
{
    match bytes.split_first() {
        None => None,
        Some((first, rest)) => {
            if *first == b'-' {
                below_zero(rest)
            } else {
                above_zero(bytes)
            }
        }
    }
}

// The number of a decimal behind a minus.
fn below_zero(digits: &[u8]) -> Option<Int>
    ensures { ReadsDecimal result (45 ∷ digits.now) }
{
    match read_digits(digits) {
        None => None,
        Some(mag) => {
            if mag == 0 {
                None
            } else {
                Some(Int::of(true, mag))
            }
        }
    }
}

// The number of a decimal without a minus.
fn above_zero(digits: &[u8]) -> Option<Int>
    requires { slice_get digits.now 0 ≢ Some 45 }
    ensures { ReadsDecimal result digits.now }
{
    match read_digits(digits) {
        None => None,
        Some(mag) => Some(Int::of(false, mag)),
    }
}

/// The number of a canonical decimal without a sign. None exactly where the bytes are no canonical decimal below `2^128`. It takes no
/// memory.
pub fn read_digits(bytes: &[u8]) -> Option<u128>
    ensures { ReadsDigits result bytes.now }
{
    match bytes.split_first() {
        None => None,
        Some((first, rest)) => {
            if *first == b'0' && !rest.is_empty() {
                None
            } else {
                value_of_digits(bytes)
            }
        }
    }
}

// The value of digits. None exactly where a byte is no digit, or the value isn't below 2^128.
fn value_of_digits(bytes: &[u8]) -> Option<u128>
    ensures { ReadsValue result bytes.now }
{
    let mut value = 0u128;
    for byte in bytes {
        if !byte.is_ascii_digit() {
            return None;
        }
        match push_digit(value, *byte) {
            Some(next) => value = next,
            None => return None,
        }
    }
    Some(value)
}

// A value with a digit behind it. None exactly where it isn't below 2^128.
fn push_digit(value: u128, digit: u8) -> Option<u128>
    requires low { 48 ≤ digit }
    requires high { digit ≤ 57 }
    ensures some { IfSome result (λ n. n ≡ value * 10 + digit_value digit) }
    ensures none { IfNone result (2 ^ 128 ≤ value * 10 + digit_value digit) }
{
    match value.checked_mul(10) {
        Some(shifted) => shifted.checked_add(u128::from(digit - b'0')),
        None => None,
    }
}
