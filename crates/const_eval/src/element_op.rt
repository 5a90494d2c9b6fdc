//! Elementwise operators on constants.

ghost use Rattle.std.specs.Prelude.{◌≡◌, ◌||◌, IfOk, IfErr};
ghost use Rattle.shape_rules.specs.Places.{IsElementwise};
ghost use Rattle.const_eval.specs.Elementwise.{IsOperated, IsUnoperated};
ghost use Rattle.const_eval.specs.Refusals.{RefusesOnly};
ghost use Rattle.const_eval.specs.Values.{is_complex};

use crate::complex::Complex;
use crate::constant::Const;
use crate::refusals::{inexact, mismatch};
use fic_base::{Place, Refusal};
use num_type::Stop;
use shape_rules::{Shape, same_or_scalar};
use std::alloc::Global;

/// The operators that go element by element.
#[derive(Clone, Copy, Debug, PartialEq, Eq)]
pub enum ElementOp {
    /// `+`.
    Sum,
    /// `-`.
    Difference,
    /// `.*`, and `*` with one element.
    Product,
}

impl ElementOp {
    ghost use Rattle.std.specs.Prelude.{◌↔◌, IsSome, IfSome};
    ghost use Rattle.const_eval.specs.Complex.{complex_of, AreSame};
    ghost use Rattle.const_eval.specs.Elementwise.{applied, HasSteps};

    /// What it gives of two numbers. None exactly where one of its steps is no constant.
    pub fn apply(self, x: &Complex, y: &Complex) -> Option<Complex>
        ensures steps { IsSome result ↔ HasSteps self (complex_of x.now) (complex_of y.now) }
        ensures same { IfSome result (λ c. AreSame (complex_of c) (applied self (complex_of x.now) (complex_of y.now))) }
    {
        match self {
            ElementOp::Sum => x.add(y),
            ElementOp::Difference => x.sub(y),
            ElementOp::Product => x.mul(y),
        }
    }
}

/// The constant of an elementwise operator on two constants, complex where one of them is.
///
/// Refused at the place as `SizeMismatch`, with both shapes, where these differ and none has one element; and as `LiteralInexact`, with
/// the operator as shown, where a step at some place is no constant.
pub fn elementwise(
    alloc: Global,
    op: ElementOp,
    shown: &[u8],
    a: &Const,
    b: &Const,
    at: Place,
) -> Result<Const, Stop<Refusal>>
    ensures value { IfOk result (λ c. IsOperated op a.now b.now c) }
    ensures refusal { IfErr result (λ stop. RefusesOnly stop (λ r. IsUnoperated op shown.now a.now b.now at r)) }
{
    match same_or_scalar(a.shape(), b.shape()) {
        None => Err(mismatch(alloc, a.shape(), b.shape(), at)),
        Some(shape) => fitted(alloc, op, shown, a, b, shape, at),
    }
}

// The same of two constants whose shapes give this one.
fn fitted(
    alloc: Global,
    op: ElementOp,
    shown: &[u8],
    a: &Const,
    b: &Const,
    shape: Shape,
    at: Place,
) -> Result<Const, Stop<Refusal>>
    requires { IsElementwise a.now.shape b.now.shape shape }
    ensures value { IfOk result (λ c. IsOperated op a.now b.now c) }
    ensures refusal { IfErr result (λ stop. RefusesOnly stop (λ r. IsUnoperated op shown.now a.now b.now at r)) }
{
    let count = shape.elements();
    let mut numbers = Vec::new(alloc);
    for k in 0..count {
        match op.apply(&a.serving(k), &b.serving(k)) {
            None => return Err(inexact(alloc, shown, at)),
            Some(number) => numbers.push(number)?,
        }
    }
    let made = Const::of_numbers(alloc, shape, numbers.as_slice(), is_one_complex(a, b))?;
    Ok(made)
}

// Whether one of two constants is complex.
fn is_one_complex(a: &Const, b: &Const) -> bool
    ensures { result ≡ (is_complex a.now || is_complex b.now) }
{
    a.is_complex() || b.is_complex()
}
