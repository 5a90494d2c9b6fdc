//! Numbers as their digits are read.

ghost use Rattle.std.specs.Prelude.{◌≡◌, ◌<◌, ◌^◌, ◌%◌};

use crate::tenfold::power;

/// How many digits a number may have at most, without the zeros at both ends.
const DIGITS_MAX: u128 = 17;

/// The least number of more digits than that.
const TOO_LONG: u128 = 100_000_000_000_000_000;

/// A number as it is read: `head * 10^zeros`, where `head` has at most 17 digits and doesn't end in a 0, or both are 0.
#[derive(Clone, Copy)]
pub struct Run {
    head: u64,
    zeros: u128,
    ghost few: { head < 10 ^ 17 },
    ghost last: { head % 10 ≡ 0 → head ≡ 0 },
    ghost zero: { head ≡ 0 → zeros ≡ 0 },
}

impl Run {
    ghost use Rattle.std.specs.Prelude.{◌≡◌, ◌<◌, ◌≤◌, ◌+◌, ◌*◌, ◌^◌, ◌↔◌, IsTrue, IfSome, IfNone};
    ghost use Rattle.const_eval.specs.Digits.{IsLong, number_of};

    /// The number 0.
    pub fn zero() -> Run
        ensures head { result.head ≡ 0 }
        ensures zeros { result.zeros ≡ 0 }
    {
        Run { head: 0, zeros: 0 }
    }

    /// The same number.
    pub fn copied(&self) -> Run
        ensures head { result.head ≡ self.now.head }
        ensures zeros { result.zeros ≡ self.now.zeros }
    {
        Run {
            head: self.head,
            zeros: self.zeros,
        }
    }

    /// Whether the number is 0.
    pub fn is_zero(&self) -> bool
        ensures { IsTrue result ↔ (self.now.head ≡ 0) }
    {
        self.head == 0
    }

    /// The digits without the zeros at both ends.
    pub fn head(&self) -> u64
        ensures { result ≡ self.now.head }
    {
        self.head
    }

    /// How many zeros stand behind them.
    pub fn zeros(&self) -> u128
        ensures { result ≡ self.now.zeros }
    {
        self.zeros
    }

    /// The number with a digit behind it. None exactly where it then has more than 17 digits, whatever follows.
    pub fn pushed(&self, digit: u8) -> Option<Run>
        requires digit { digit < 10 }
        requires zeros { self.now.zeros < 2 ^ 126 }
        ensures number { IfSome result (λ r. number_of r ≡ number_of self.now * 10 + digit) }
        ensures zeros { IfSome result (λ r. r.zeros ≤ self.now.zeros + 1) }
        ensures long { IfNone result (IsLong (number_of self.now * 10 + digit)) }
    {
        if self.head == 0 {
            Some(Run::of_digit(digit))
        } else if digit == 0 {
            Some(self.with_zero())
        } else {
            self.with_digit(digit)
        }
    }

    // The number of one digit.
    fn of_digit(digit: u8) -> Run
        requires { digit < 10 }
        ensures head { result.head ≡ digit }
        ensures zeros { result.zeros ≡ 0 }
    {
        Run {
            head: digit as u64,
            zeros: 0,
        }
    }

    // The number with a 0 behind it, where it isn't 0 itself.
    fn with_zero(&self) -> Run
        requires head { 0 < self.now.head }
        requires zeros { self.now.zeros < 2 ^ 126 }
        ensures head { result.head ≡ self.now.head }
        ensures zeros { result.zeros ≡ self.now.zeros + 1 }
    {
        Run {
            head: self.head,
            zeros: self.zeros + 1,
        }
    }

    // The number with a digit behind it that isn't 0, where it isn't 0 itself.
    fn with_digit(&self, digit: u8) -> Option<Run>
        requires some { 0 < digit }
        requires digit { digit < 10 }
        requires head { 0 < self.now.head }
        ensures number { IfSome result (λ r. number_of r ≡ number_of self.now * 10 + digit) }
        ensures zeros { IfSome result (λ r. r.zeros ≡ 0) }
        ensures long { IfNone result (IsLong (number_of self.now * 10 + digit)) }
    {
        if self.zeros >= DIGITS_MAX {
            None
        } else {
            Run::joined(self.head, self.zeros as u32 + 1, digit)
        }
    }

    // The number of a head, behind which so many zeros make room for a last digit. None exactly where it has more than 17 digits.
    fn joined(head: u64, room: u32, digit: u8) -> Option<Run>
        requires head { head < 10 ^ 17 }
        requires least { 1 ≤ room }
        requires most { room ≤ 17 }
        requires some { 0 < digit }
        requires digit { digit < 10 }
        ensures head { IfSome result (λ r. r.head ≡ head * 10 ^ room + digit) }
        ensures zeros { IfSome result (λ r. r.zeros ≡ 0) }
        ensures long { IfNone result (10 ^ 17 ≤ head * 10 ^ room + digit) }
    {
        let number = head as u128 * power(10, room) + digit as u128;
        if number < TOO_LONG {
            Some(Run {
                head: number as u64,
                zeros: 0,
            })
        } else {
            None
        }
    }
}
