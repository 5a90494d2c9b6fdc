//! Operations on the bits of elements.

ghost use Rattle.std.specs.Prelude.{◌≡◌, ◌↔◌, ◌≤◌, ◌<◌, ◌+◌, ◌-◌, ◌^◌, pos, IsSome, IfSome};
ghost use Rattle.num_type.specs.Types.{word_limit};
ghost use Rattle.num_type.specs.View.{type_of};
ghost use Rattle.fi_ops.specs.Bits.{bits_of, with_bits, left_shifted, right_shifted, sign_shifted, complemented, anded, ored, xored, concatenated, sliced, word_type};
ghost use Rattle.fi_ops.specs.View.{element_of};

use crate::elem::Elem;
use fi_quant::{fit, round};
use num_type::{Int, NumType, Overflow, Rounding};

/// The bits of `a` shifted left by `k`; zeros come in (bitsll). The type of `a`.
pub fn bit_sll(a: Elem, k: u32) -> Elem
    requires { k < a.num.word }
    ensures num { result.num ≡ a.num }
    ensures value { result.z ≡ left_shifted k (element_of a) }
{
    pattern(a.num, bits(&a) << k)
}

/// The bits of `a` shifted right by `k`; zeros come in (bitsrl). The type of `a`.
pub fn bit_srl(a: Elem, k: u32) -> Elem
    requires { k < a.num.word }
    ensures num { result.num ≡ a.num }
    ensures value { result.z ≡ right_shifted k (element_of a) }
{
    pattern(a.num, bits(&a) >> k)
}

/// The bits of `a` shifted right by `k`; the sign comes in where `a` is signed, and zeros else (bitsra). The type of `a`.
pub fn bit_sra(a: Elem, k: u32) -> Elem
    requires { k < a.num.word }
    ensures num { result.num ≡ a.num }
    ensures value { result.z ≡ sign_shifted k (element_of a) }
{
    Elem {
        num: a.num,
        z: round(Rounding::Floor, a.z, k),
    }
}

/// Every bit of `a` turned (bitcmp). The type of `a`.
pub fn bit_not(a: Elem) -> Elem
    ensures num { result.num ≡ a.num }
    ensures value { result.z ≡ complemented (element_of a) }
{
    pattern(a.num, ones(a.num.word()) - bits(&a))
}

/// The bits that both have, of two elements of one type (bitand).
pub fn bit_and(a: Elem, b: Elem) -> Elem
    requires { a.num ≡ b.num }
    ensures num { result.num ≡ a.num }
    ensures value { result.z ≡ anded (element_of a) (element_of b) }
{
    pattern(a.num, bits(&a) & bits(&b))
}

/// The bits that either has, of two elements of one type (bitor).
pub fn bit_or(a: Elem, b: Elem) -> Elem
    requires { a.num ≡ b.num }
    ensures num { result.num ≡ a.num }
    ensures value { result.z ≡ ored (element_of a) (element_of b) }
{
    pattern(a.num, bits(&a) | bits(&b))
}

/// The bits that just one has, of two elements of one type (bitxor).
pub fn bit_xor(a: Elem, b: Elem) -> Elem
    requires { a.num ≡ b.num }
    ensures num { result.num ≡ a.num }
    ensures value { result.z ≡ xored (element_of a) (element_of b) }
{
    pattern(a.num, bits(&a) ^ bits(&b))
}

/// The bits of `a` on top of those of `b`, in an unsigned type without a fraction (bitconcat). None exactly where there are more than
/// 64 bits.
pub fn bit_concat(a: Elem, b: Elem) -> Option<Elem>
    ensures some { IsSome result ↔ (a.num.word + b.num.word ≤ word_limit) }
    ensures value { IfSome result (λ e. element_of e ≡ concatenated (element_of a) (element_of b)) }
{
    let low = b.num.word();
    let word = a.num.word() + low;
    unsigned(word, (bits(&a) << low) + bits(&b))
}

/// The bits `left` down to `right` of `a`, 1 the least, in an unsigned type without a fraction (bitsliceget).
pub fn bit_slice(a: Elem, left: u32, right: u32) -> Elem
    requires first { 1 ≤ right }
    requires order { right ≤ left }
    requires last { left ≤ a.num.word }
    ensures { element_of result ≡ sliced left right (element_of a) }
{
    let word = left - right + 1;
    match unsigned(word, (bits(&a) >> (right - 1)) & ones(word)) {
        Some(e) => e,
        None => unreachable!(),
    }
}

/// The element of an unsigned type of `word` bits without a fraction. None exactly where there are more than 64 bits.
fn unsigned(word: u32, bits: u128) -> Option<Elem>
    requires some { 1 ≤ word }
    requires fits { bits < 2 ^ word }
    ensures some { IsSome result ↔ (word ≤ word_limit) }
    ensures value { IfSome result (λ e. element_of e ≡ record { num = word_type word; z = pos bits }) }
{
    match NumType::make(false, word, 0) {
        Some(num) => Some(Elem {
            num,
            z: Int::of(false, bits),
        }),
        None => None,
    }
}

/// The ones of a word of 1 to 64 bits.
fn ones(word: u32) -> u128
    requires { word < 128 }
    ensures { result ≡ 2 ^ word - 1 }
{
    (1u128 << word) - 1
}

/// The stored bits.
fn bits(a: &Elem) -> u128
    ensures value { result ≡ bits_of (element_of a.now) }
    ensures below { result < 2 ^ a.now.num.word }
{
    let z = a.z;
    if z.is_negative() {
        (1u128 << a.num.word()) - z.magnitude()
    } else {
        z.magnitude()
    }
}

/// The element of a type with these bits; those above its word don't count.
fn pattern(t: NumType, bits: u128) -> Elem
    ensures num { result.num ≡ t }
    ensures value { result.z ≡ with_bits (type_of t) bits }
{
    Elem {
        num: t,
        z: fit(Overflow::Wrap, t, Int::of(false, bits)),
    }
}
