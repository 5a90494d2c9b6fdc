//! Operations on the bits of complex elements: each acts on both parts as on a real element, and the result stays complex.

ghost use Rattle.std.specs.Prelude.{◌≡◌, ◌≤◌, ◌<◌};
ghost use Rattle.fi_ops.specs.Bits.{left_shifted, right_shifted, sign_shifted, complemented};
ghost use Rattle.fi_ops.specs.View.{element_of, complex_of};
ghost use Rattle.fi_bits.specs.Parts.{CanApply, applied, each_part, each_sliced};

use fi_complex::{imaginary_part, real_part};
use fi_ops::{Elem, Pair, bit_not, bit_slice, bit_sll, bit_sra, bit_srl};

/// What is done to the bits of an element.
#[derive(Clone, Copy)]
pub(crate) enum BitChange {
    /// They move left by so many places; zeros come in.
    Left(u32),
    /// They move right; zeros come in.
    Right(u32),
    /// They move right; the sign of a signed element comes in, and zeros else.
    Sign(u32),
    /// Every one is turned.
    Complement,
}

/// The bits of both parts of `a` shifted left by `k`; zeros come in (bitsll). The type of `a`.
pub fn cbit_sll(a: Pair, k: u32) -> Pair
    requires { k < a.num.word }
    ensures { complex_of result ≡ each_part (left_shifted k) (complex_of a) }
{
    both_parts(a, BitChange::Left(k))
}

/// The bits of both parts of `a` shifted right by `k`; zeros come in (bitsrl). The type of `a`.
pub fn cbit_srl(a: Pair, k: u32) -> Pair
    requires { k < a.num.word }
    ensures { complex_of result ≡ each_part (right_shifted k) (complex_of a) }
{
    both_parts(a, BitChange::Right(k))
}

/// The bits of both parts of `a` shifted right by `k`; the sign of the part comes in where `a` is signed, and zeros else (bitsra). The
/// type of `a`.
pub fn cbit_sra(a: Pair, k: u32) -> Pair
    requires { k < a.num.word }
    ensures { complex_of result ≡ each_part (sign_shifted k) (complex_of a) }
{
    both_parts(a, BitChange::Sign(k))
}

/// Every bit of both parts of `a` turned (bitcmp). The type of `a`.
pub fn cbit_not(a: Pair) -> Pair
    ensures { complex_of result ≡ each_part complemented (complex_of a) }
{
    both_parts(a, BitChange::Complement)
}

/// The bits `left` down to `right` of both parts of `a`, 1 the least, in an unsigned type without a fraction (bitsliceget).
pub fn cbit_slice(a: Pair, left: u32, right: u32) -> Pair
    requires first { 1 ≤ right }
    requires order { right ≤ left }
    requires last { left ≤ a.num.word }
    ensures { complex_of result ≡ each_sliced left right (complex_of a) }
{
    let real = real_part(&a);
    let imaginary = imaginary_part(&a);
    let re = bit_slice(real, left, right);
    let im = bit_slice(imaginary, left, right);
    Pair {
        num: re.num,
        re: re.z,
        im: im.z,
    }
}

/// Both parts changed, in the type of `a`.
fn both_parts(a: Pair, change: BitChange) -> Pair
    requires { CanApply change a.num.word }
    ensures { complex_of result ≡ each_part (applied change) (complex_of a) }
{
    let real = real_part(&a);
    let imaginary = imaginary_part(&a);
    let re = apply(change, real);
    let im = apply(change, imaginary);
    Pair {
        num: a.num,
        re: re.z,
        im: im.z,
    }
}

/// One part changed.
fn apply(change: BitChange, a: Elem) -> Elem
    requires { CanApply change a.num.word }
    ensures num { result.num ≡ a.num }
    ensures value { result.z ≡ applied change (element_of a) }
{
    match change {
        BitChange::Left(k) => bit_sll(a, k),
        BitChange::Right(k) => bit_srl(a, k),
        BitChange::Sign(k) => bit_sra(a, k),
        BitChange::Complement => bit_not(a),
    }
}
