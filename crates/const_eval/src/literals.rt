//! The exact numbers of literals.

ghost use Rattle.std.specs.Prelude.{◌≡◌, ◌<◌, ◌≤◌, ◌+◌, ◌^◌, ℕ, nat_abs, take, drop, length, IfOk, IfErr, IfSome, IfNone};
ghost use Rattle.std.specs.List.{prefix_len};
ghost use Rattle.num_type.specs.View.{exact_of};
ghost use Rattle.std.specs.Str.Parse.{AllDigits, starts_with_minus, without_leading_sign};
ghost use Rattle.num_type.specs.Whole.{signed};
ghost use Rattle.fic_base.specs.Decimal.{is_exponent_letter};
ghost use Rattle.const_eval.specs.Literals.{IsLiteral, IsValueOf, NoValueOf, NoLiteral, is_mantissa_byte, is_whole_byte};
ghost use Rattle.const_eval.specs.Digits.{IsPower, number_of};
ghost use Rattle.const_eval.specs.Refusals.{RefusesOnly, IsRefusal};
ghost use Rattle.fic_base.specs.declared.code.Code.TheVariants.{LiteralInexact};

use crate::digits::{capped_digits, push_digits};
use crate::refusals::inexact;
use crate::run::Run;
use crate::tenfold::tenfold;
use fic_base::{Place, Refusal};
use num_type::{Dyadic, Stop};
use std::alloc::Global;

/// The constant of a number's text, which has no `i` or `j`: its digits times a power of 10.
///
/// Refused at the place as `LiteralInexact`, with the text, where the digits aren't all 0 and, without the zeros at both ends, are more than
/// 17, or their power of 10 isn't from -22 to 22, or the number is no constant.
pub fn literal(alloc: Global, text: &[u8], at: Place) -> Result<Dyadic, Stop<Refusal>>
    ensures value { IfOk result (λ d. IsLiteral text.now (exact_of d)) }
    ensures refusal { IfErr result (λ stop. RefusesOnly stop (λ r. IsRefusal LiteralInexact at text.now r × NoLiteral text.now)) }
{
    match value_of(text) {
        Some(value) => Ok(value),
        None => Err(inexact(alloc, text, at)),
    }
}

// The constant of a text. None exactly where it has none.
fn value_of(text: &[u8]) -> Option<Dyadic>
    ensures some { IfSome result (λ d. IsLiteral text.now (exact_of d)) }
    ensures none { IfNone result (NoLiteral text.now) }
{
    let (mantissa, exponent) = cut(text, letter_place(text));
    let (whole, fraction) = cut(mantissa, point_place(mantissa));
    match push_digits(&Run::zero(), whole) {
        None => None,
        Some(front) => match push_digits(&front, fraction) {
            None => None,
            Some(run) => with_exponent(&run, fraction.len(), exponent),
        },
    }
}

// The constant of digits, of which so many stand behind the point, with an exponent. None exactly where there is none.
fn with_exponent(run: &Run, places: usize, exponent: &[u8]) -> Option<Dyadic>
    requires zeros { run.now.zeros < 2 ^ 66 }
    requires places { places < 2 ^ 64 }
    ensures some { IfSome result (λ d. IsValueOf (number_of run.now) places exponent.now (exact_of d)) }
    ensures none { IfNone result (NoValueOf (number_of run.now) places exponent.now) }
{
    match read_power(exponent) {
        None => None,
        Some(power) => {
            if run.is_zero() {
                Some(Dyadic::zero())
            } else {
                tenfold(run.head(), power - places as i128 + run.zeros() as i128)
            }
        }
    }
}

// The whole number of an exponent's text, 0 where there is none; one of many digits stands for all beyond it. None exactly where a byte
// behind the sign is no digit.
fn read_power(text: &[u8]) -> Option<i128>
    ensures some { IfSome result (λ z. IsPower text.now z) }
    ensures most { IfSome result (λ z. nat_abs z < 10 ^ 32) }
    ensures none { IfNone result (AllDigits 10 (without_leading_sign text.now) → ⊥) }
{
    match capped_digits(behind_sign(text)) {
        None => None,
        Some(size) => Some(with_sign(has_minus(text), size)),
    }
}

// The number of a size and a sign.
fn with_sign(neg: bool, size: u128) -> i128
    requires few { size < 10 ^ 32 }
    ensures { result ≡ signed neg size }
{
    if neg { -(size as i128) } else { size as i128 }
}

// Whether an exponent begins with a minus.
fn has_minus(text: &[u8]) -> bool
    ensures { result ≡ starts_with_minus text.now }
{
    match text.split_first() {
        None => false,
        Some((first, _)) => *first == b'-',
    }
}

// What stands behind the sign of an exponent, if it has one.
fn behind_sign(text: &[u8]) -> &[u8]
    ensures { result.now ≡ without_leading_sign text.now }
{
    match text.split_first() {
        None => text,
        Some((first, rest)) => {
            if *first == b'-' || *first == b'+' {
                rest
            } else {
                text
            }
        }
    }
}

// Whether a byte is the letter of an exponent.
fn is_letter(byte: u8) -> bool
    ensures { result ≡ is_exponent_letter byte }
{
    byte == b'e' || byte == b'E' || byte == b'd' || byte == b'D'
}

// How many bytes stand before the letter of the exponent; all where there is none.
fn letter_place(text: &[u8]) -> usize
    ensures { result ≡ prefix_len is_mantissa_byte text.now }
{
    let mut k = 0;
    for byte in text {
        if is_letter(*byte) {
            return k;
        }
        k += 1;
    }
    k
}

// How many bytes stand before the point; all where there is none.
fn point_place(mantissa: &[u8]) -> usize
    ensures { result ≡ prefix_len is_whole_byte mantissa.now }
{
    let mut k = 0;
    for byte in mantissa {
        if *byte == b'.' {
            return k;
        }
        k += 1;
    }
    k
}

// The bytes before a place, and those behind the byte there.
fn cut(text: &[u8], place: usize) -> (&[u8], &[u8])
    requires { place ≤ length text.now }
    ensures before { result.0.now ≡ take place text.now }
    ensures behind { result.1.now ≡ drop (place + 1) text.now }
{
    if place < text.len() {
        (text.split_at(place).0, text.split_at(place + 1).1)
    } else {
        (text, &[])
    }
}
