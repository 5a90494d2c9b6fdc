//! Constants to powers.

ghost use Rattle.std.specs.Prelude.{◌≡◌, ◌<◌, ◌↔◌, ℕ, ℤ, false, IfOk, IfErr, IsTrue};
ghost use Rattle.num_type.specs.View.{exact_of};
ghost use Rattle.shape_rules.specs.Places.{IsOne};
ghost use Rattle.shape_rules.specs.Shapes.{elements_of};
ghost use Rattle.const_eval.specs.Powers.{IsExponent};
ghost use Rattle.const_eval.specs.Refusals.{RefusesOnly};
ghost use Rattle.const_eval.specs.Values.{number_at, is_complex};
ghost use Rattle.const_fold.specs.Exponents.{AreOperands, AreOnes, IsPowered, IsUnpowered};

use const_eval::{Const, mismatch, power, refused, whole_exponent};
use fic_base::{Code, Place, Refusal};
use num_type::{Dyadic, Memory, Stop};
use shape_rules::Shape;
use std::alloc::Global;

/// The one number of a constant to the power of that of another, exactly; to the power 0 it is 1.
///
/// Refused at the place as `BadArgument`, with the operator as shown, where a constant is complex or some number of the exponent isn't whole or
/// not from -400 to 400; else as `SizeMismatch`, with both shapes, where one has more elements; else as `LiteralInexact`, with the
/// operator as shown, where the power is no constant.
pub fn powered(
    alloc: Global,
    shown: &[u8],
    a: &Const,
    b: &Const,
    at: Place,
) -> Result<Const, Stop<Refusal>>
    ensures value { IfOk result (λ c. IsPowered a.now b.now c) }
    ensures refusal { IfErr result (λ stop. RefusesOnly stop (λ r. IsUnpowered shown.now a.now b.now at r)) }
{
    if are_operands(a, b) {
        if are_ones(a, b) {
            power_of_ones(alloc, shown, a, b, at)
        } else {
            Err(mismatch(alloc, a.shape(), b.shape(), at))
        }
    } else {
        Err(refused(alloc, Code::BadArgument, shown, at))
    }
}

// The same of two constants of one number each that a power takes.
fn power_of_ones(
    alloc: Global,
    shown: &[u8],
    a: &Const,
    b: &Const,
    at: Place,
) -> Result<Const, Stop<Refusal>>
    requires operands { AreOperands a.now b.now }
    requires ones { AreOnes a.now b.now }
    ensures value { IfOk result (λ c. IsPowered a.now b.now c) }
    ensures refusal { IfErr result (λ stop. RefusesOnly stop (λ r. IsUnpowered shown.now a.now b.now at r)) }
{
    let base = a.at(0).re;
    let number = b.at(0).re;
    match whole_exponent(&number) {
        None => Err(refused(alloc, Code::BadArgument, shown, at)),
        Some(exponent) => match power(&base, exponent) {
            None => Err(refused(alloc, Code::LiteralInexact, shown, at)),
            Some(value) => {
                let made = one_number(alloc, value)?;
                Ok(made)
            }
        },
    }
}

// Whether both are real, and each number of the exponent is whole and from -400 to 400.
fn are_operands(a: &Const, b: &Const) -> bool
    ensures { IsTrue result ↔ AreOperands a.now b.now }
{
    if a.is_complex() || b.is_complex() {
        false
    } else {
        are_exponents(b)
    }
}

// Whether each number is whole and from -400 to 400.
fn are_exponents(b: &Const) -> bool
    ensures { IsTrue result ↔ ((k : ℕ) → k < elements_of b.now.shape → (n : ℤ) × IsExponent (number_at b.now k).re n) }
{
    let count = b.shape().elements();
    for k in 0..count {
        let number = b.at(k).re;
        if !is_exponent(&number) {
            return false;
        }
    }
    true
}

// Whether a number is whole and from -400 to 400.
fn is_exponent(number: &Dyadic) -> bool
    ensures { IsTrue result ↔ ((n : ℤ) × IsExponent (exact_of number.now) n) }
{
    match whole_exponent(number) {
        None => false,
        Some(_) => true,
    }
}

// Whether both have one element.
fn are_ones(a: &Const, b: &Const) -> bool
    ensures { IsTrue result ↔ AreOnes a.now b.now }
{
    is_one(a.shape()) && is_one(b.shape())
}

/// Whether a shape has one element.
pub fn is_one(s: Shape) -> bool
    ensures { IsTrue result ↔ IsOne s }
{
    s.rows() == 1 && s.cols() == 1
}

// The constant of one real number. Want of memory is its only refusal.
fn one_number(alloc: Global, value: Dyadic) -> Result<Const, Memory>
    ensures one { IfOk result (λ c. IsOne c.shape) }
    ensures real { IfOk result (λ c. is_complex c ≡ false) }
    ensures number { IfOk result (λ c. (number_at c 0).re ≡ exact_of value) }
{
    let mut re = Vec::new(alloc);
    re.push(value)?;
    Ok(Const::make(Shape::scalar(), re, None))
}
