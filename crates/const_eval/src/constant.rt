//! Constants of sources as arrays.

ghost use Rattle.std.specs.Prelude.{◌≡◌, map, length, vec_len, IfOk};
ghost use Rattle.std.specs.Option.{ForSome};
ghost use Rattle.num_type.specs.Constants.{opposite};
ghost use Rattle.num_type.specs.View.{exact_of};
ghost use Rattle.const_eval.specs.Listed.{real_of, imaginary_of};
ghost use Rattle.shape_rules.specs.Shapes.{elements_of};

use crate::complex::Complex;
use num_type::{Dyadic, Memory};
use shape_rules::Shape;
use std::alloc::Global;

/// An array of exact numbers by columns, or of complex ones: the real parts, and the imaginary parts where it is complex. Each list is as
/// long as the shape says.
#[derive(Debug, Drop)]
pub struct Const {
    shape: Shape,
    re: Vec<Dyadic>,
    im: Option<Vec<Dyadic>>,
    ghost real: { vec_len re ≡ elements_of shape },
    ghost imaginary: { ForSome im (λ parts. vec_len parts ≡ elements_of shape) },
}

impl Const {
    ghost use Rattle.std.specs.Prelude.{◌≡◌, ◌<◌, vec_len, length, map, IfSome, IfOk};
    ghost use Rattle.std.specs.Option.{ForSome};
    ghost use Rattle.shape_rules.specs.Shapes.{elements_of};
    ghost use Rattle.const_eval.specs.Complex.{complex_of, negated};
    ghost use Rattle.num_type.specs.View.{exact_of};
    ghost use Rattle.const_eval.specs.Elementwise.{serving};
    ghost use Rattle.const_eval.specs.Listed.{real_of, imaginary_of};
    ghost use Rattle.const_eval.specs.Values.{number_at, is_complex, IsEach};

    /// The constant of this shape with these parts, each list as long as the shape says.
    pub fn make(shape: Shape, re: Vec<Dyadic>, im: Option<Vec<Dyadic>>) -> Const
        requires real { vec_len re ≡ elements_of shape }
        requires imaginary { ForSome im (λ parts. vec_len parts ≡ elements_of shape) }
        ensures shape { result.shape ≡ shape }
        ensures real { result.re ≡ re }
        ensures imaginary { result.im ≡ im }
    {
        Const { shape, re, im }
    }

    /// Its rows and columns.
    pub fn shape(&self) -> Shape
        ensures { result ≡ self.now.shape }
    {
        self.shape
    }

    /// Whether it is complex, be its imaginary parts 0 or not.
    pub fn is_complex(&self) -> bool
        ensures { result ≡ is_complex self.now }
    {
        self.im.is_some()
    }

    /// The number at a place, counted from 0 by columns; the imaginary part of a real one is 0.
    pub fn at(&self, place: u32) -> Complex
        requires { place < elements_of self.now.shape }
        ensures { complex_of result ≡ number_at self.now place }
    {
        let re = self.re[place as usize];
        match &self.im {
            None => Complex {
                re,
                im: Dyadic::zero(),
            },
            Some(parts) => Complex {
                re,
                im: parts[place as usize],
            },
        }
    }

    /// The number that serves a place of an operator's result: that of one element serves each.
    pub fn serving(&self, place: u32) -> Complex
        requires { (elements_of self.now.shape ≡ 1 → ⊥) → place < elements_of self.now.shape }
        ensures { complex_of result ≡ serving self.now place }
    {
        if self.shape.elements() == 1 {
            self.at(0)
        } else {
            self.at(place)
        }
    }

    /// The constant of numbers by columns, as many as the shape says; where it isn't complex it has their real parts. Want of memory is
    /// its only refusal.
    pub fn of_numbers(
        alloc: Global,
        shape: Shape,
        numbers: &[Complex],
        complex: bool,
    ) -> Result<Const, Memory>
        requires { length numbers.now ≡ elements_of shape }
        ensures shape { IfOk result (λ c. c.shape ≡ shape) }
        ensures complex { IfOk result (λ c. is_complex c ≡ complex) }
        ensures real { IfOk result (λ c. map exact_of c.re.items ≡ map real_of numbers.now) }
        ensures imaginary { IfOk result (λ c. IfSome c.im (λ v. map exact_of v.items ≡ map imaginary_of numbers.now)) }
    {
        let re = real_parts(alloc, numbers)?;
        if complex {
            let im = imaginary_parts(alloc, numbers)?;
            Ok(Const {
                shape,
                re,
                im: Some(im),
            })
        } else {
            Ok(Const {
                shape,
                re,
                im: None,
            })
        }
    }

    /// A copy. Want of memory is its only refusal.
    pub fn copied(&self, alloc: Global) -> Result<Const, Memory>
        ensures { IfOk result (λ c. IsEach (λ x. x) self.now c) }
    {
        let re = Vec::from_slice(alloc, self.re.as_slice())?;
        match &self.im {
            None => Ok(Const {
                shape: self.shape,
                re,
                im: None,
            }),
            Some(parts) => {
                let im = Vec::from_slice(alloc, parts.as_slice())?;
                Ok(Const {
                    shape: self.shape,
                    re,
                    im: Some(im),
                })
            }
        }
    }

    /// The constant with each number's sign turned. Want of memory is its only refusal.
    pub fn negated(&self, alloc: Global) -> Result<Const, Memory>
        ensures { IfOk result (λ c. IsEach negated self.now c) }
    {
        let re = opposites(alloc, self.re.as_slice())?;
        match &self.im {
            None => Ok(Const {
                shape: self.shape,
                re,
                im: None,
            }),
            Some(parts) => {
                let im = opposites(alloc, parts.as_slice())?;
                Ok(Const {
                    shape: self.shape,
                    re,
                    im: Some(im),
                })
            }
        }
    }
}

// The parts with their signs turned. Want of memory is its only refusal.
fn opposites(alloc: Global, parts: &[Dyadic]) -> Result<Vec<Dyadic>, Memory>
    ensures parts { IfOk result (λ v. map exact_of v.items ≡ map opposite (map exact_of parts.now)) }
    ensures length { IfOk result (λ v. vec_len v ≡ length parts.now) }
{
    let mut turned = Vec::new(alloc);
    for part in parts {
        turned.push(part.neg())?;
    }
    Ok(turned)
}

// The real parts of numbers. Want of memory is its only refusal.
fn real_parts(alloc: Global, numbers: &[Complex]) -> Result<Vec<Dyadic>, Memory>
    ensures parts { IfOk result (λ v. map exact_of v.items ≡ map real_of numbers.now) }
    ensures length { IfOk result (λ v. vec_len v ≡ length numbers.now) }
{
    let mut parts = Vec::new(alloc);
    for number in numbers {
        parts.push(number.re)?;
    }
    Ok(parts)
}

// The imaginary parts of numbers. Want of memory is its only refusal.
fn imaginary_parts(alloc: Global, numbers: &[Complex]) -> Result<Vec<Dyadic>, Memory>
    ensures parts { IfOk result (λ v. map exact_of v.items ≡ map imaginary_of numbers.now) }
    ensures length { IfOk result (λ v. vec_len v ≡ length numbers.now) }
{
    let mut parts = Vec::new(alloc);
    for number in numbers {
        parts.push(number.im)?;
    }
    Ok(parts)
}
