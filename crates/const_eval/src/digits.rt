//! Decimal digits of literals.

ghost use Rattle.std.specs.Prelude.{◌≡◌, ◌<◌, ◌≤◌, ◌+◌, ◌*◌, ◌^◌, ◌%◌, ℕ, length, IfSome, IfNone};
ghost use Rattle.std.specs.Str.Parse.{AllDigits, digits_value_after};
ghost use Rattle.const_eval.specs.Digits.{IsCapped, IsLong, number_of};

use crate::run::Run;

/// A bound above every exponent that a literal of a source can balance by its digits.
const POWER_CAP: u128 = 1_000_000_000_000_000_000_000_000_000_000;

/// The number with digits behind it. None exactly where a byte is no digit, or the number then has more than 17 digits, whatever follows.
pub fn push_digits(run: &Run, text: &[u8]) -> Option<Run>
    requires { run.now.zeros < 2 ^ 65 }
    ensures digits { IfSome result (λ r. AllDigits 10 text.now) }
    ensures number { IfSome result (λ r. number_of r ≡ digits_value_after 10 (number_of run.now) text.now) }
    ensures zeros { IfSome result (λ r. r.zeros ≤ run.now.zeros + length text.now) }
    ensures long { IfNone result (AllDigits 10 text.now → IsLong (digits_value_after 10 (number_of run.now) text.now)) }
{
    let mut so_far = run.copied();
    for byte in text {
        if !byte.is_ascii_digit() {
            return None;
        }
        match so_far.pushed(*byte - b'0') {
            Some(next) => so_far = next,
            None => return None,
        }
    }
    Some(so_far)
}

/// The number of digits, or a number from 10^30 on where theirs is; None exactly where a byte is no digit.
pub fn capped_digits(text: &[u8]) -> Option<u128>
    ensures capped { IfSome result (λ n. IsCapped text.now n) }
    ensures few { IfSome result (λ n. n < 10 ^ 32) }
    ensures none { IfNone result (AllDigits 10 text.now → ⊥) }
{
    let mut value = 0u128;
    for byte in text {
        if !byte.is_ascii_digit() {
            return None;
        }
        value = next_capped(value, *byte - b'0');
    }
    Some(value)
}

// A number with a digit behind it; it no longer grows from 10^30 on.
fn next_capped(value: u128, digit: u8) -> u128
    requires few { value < 10 ^ 32 }
    requires digit { digit < 10 }
    ensures few { result < 10 ^ 32 }
    ensures below { value < 10 ^ 30 → result ≡ value * 10 + digit }
    ensures above { 10 ^ 30 ≤ value → result ≡ value }
{
    if value < POWER_CAP {
        value * 10 + digit as u128
    } else {
        value
    }
}
