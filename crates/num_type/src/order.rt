//! Numbers at the scale of the lower one of two exponents.

ghost use Rattle.std.specs.Prelude.{◌≡◌, ◌<◌, ◌≤◌, ◌^◌, ◌≤ℤ◌, ◌+ℤ◌, ◌*ℤ◌, pos, nat_abs};
ghost use Rattle.std.specs.Ordering.{int_cmp};

use std::cmp::Ordering;

/// By how many bits an exponent is above another one.
pub fn gap(high: i32, low: i32) -> u32
    requires order { low ≤ℤ high }
    ensures { high ≡ low +ℤ pos result }
{
    (high as i64 - low as i64) as u32
}

/// The sum of a significand with so many zero bits behind it and another one.
pub fn shifted_sum(high: i64, bits: u32, low: i64) -> i128
    requires high { nat_abs high < 2 ^ 53 }
    requires low { nat_abs low < 2 ^ 53 }
    requires bits { bits ≤ 64 }
    ensures { result ≡ high *ℤ pos (2 ^ bits) +ℤ low }
{
    shifted(high, bits) + low as i128
}

// A significand with so many zero bits behind it.
fn shifted(m: i64, bits: u32) -> i128
    requires few { nat_abs m < 2 ^ 53 }
    requires bits { bits ≤ 64 }
    ensures value { result ≡ m *ℤ pos (2 ^ bits) }
    ensures few { nat_abs result < 2 ^ 117 }
{
    m as i128 * power(bits)
}

// A power of 2.
fn power(bits: u32) -> i128
    requires bits { bits ≤ 64 }
    ensures value { result ≡ pos (2 ^ bits) }
    ensures few { 2 ^ bits ≤ 2 ^ 64 }
{
    (1u128 << bits) as i128
}

/// The order of `high * 2^bits` and `low`.
pub fn compare_shifted(high: i64, bits: u32, low: i64) -> Ordering
    requires high { nat_abs high < 2 ^ 53 }
    requires low { nat_abs low < 2 ^ 53 }
    ensures { result ≡ int_cmp (high *ℤ pos (2 ^ bits)) low }
{
    if bits <= 64 {
        shifted(high, bits).cmp(&(low as i128))
    } else {
        compare_far(high, bits, low)
    }
}

// The same where the bits are many.
#[tactic(auto, using(crate::proofs::Orders::far_above, crate::proofs::Orders::far_below, crate::proofs::Orders::far_none))]
fn compare_far(high: i64, bits: u32, low: i64) -> Ordering
    requires low { nat_abs low < 2 ^ 53 }
    requires bits { 64 < bits }
    ensures { result ≡ int_cmp (high *ℤ pos (2 ^ bits)) low }
{
    if high > 0 {
        Ordering::Greater
    } else if high < 0 {
        Ordering::Less
    } else {
        0.cmp(&low)
    }
}
