//! Numbers beside fis.

ghost use Rattle.std.specs.Prelude.{◌≡◌, ◌+◌, ◌++◌, All, IfOk, IfSome, None, Some, drop, length, map, option_map, take};
ghost use Rattle.num_type.specs.Types.{IsInRange};
ghost use Rattle.num_type.specs.View.{exact_of, type_of};
ghost use Rattle.shape_rules.specs.Shapes.{elements_of};
ghost use Rattle.fi_math.specs.Made.{limited};
ghost use Rattle.fi_rules.specs.Pairs.{beside_type};
ghost use Rattle.fi_rules.specs.Value.{ComplexNumber, Number};
ghost use Rattle.fi_values.specs.Arithmetic.{beside_operand};
ghost use Rattle.fi_values.specs.Sums as sums;
ghost use Rattle.eval_value.specs.View.{number_view, shape_view};
ghost use Rattle.eval_math.specs.View.{operand_view};

use crate::stored::stored_all;
use eval_value::{FiValue, NumberValue};
use num_type::{Dyadic, Int, Memory, NumType, best_fraction};
use shape_rules::Shape;
use std::alloc::Global;

/// What a number is beside a fi of this type: of that one's signedness and word length, with one best fraction length for all its parts.
/// None where a part isn't exact there, or the type isn't within the limits; want of memory is the only refusal.
pub fn beside(alloc: Global, t: NumType, n: &NumberValue) -> Result<Option<FiValue>, Memory>
    ensures { IfOk result (λ r. option_map operand_view r ≡ beside_operand (type_of t) (number_view n.now)) }
{
    match &n.im {
        None => {
            let r = real_beside(alloc, t, n.shape, n.re.as_slice())?;
            Ok(r)
        }
        Some(im) => {
            let r = complex_beside(alloc, t, n.shape, n.re.as_slice(), im.as_slice())?;
            Ok(r)
        }
    }
}

// The same of a real number.
fn real_beside(
    alloc: Global,
    t: NumType,
    shape: Shape,
    re: &[Dyadic],
) -> Result<Option<FiValue>, Memory>
    requires { length re.now ≡ elements_of shape }
    ensures { IfOk result (λ r. option_map operand_view r ≡ beside_operand (type_of t) (Number (shape_view shape) (map exact_of re.now))) }
{
    match best_type(t, re) {
        None => Ok(None),
        Some(u) => match stored_all(alloc, u, re) {
            Err(e) => Err(e),
            Ok(None) => Ok(None),
            Ok(Some(stored)) => Ok(Some(FiValue {
                num: u,
                math: None,
                shape,
                re: stored,
                im: None,
            })),
        },
    }
}

// The same of a complex one.
fn complex_beside(
    alloc: Global,
    t: NumType,
    shape: Shape,
    re: &[Dyadic],
    im: &[Dyadic],
) -> Result<Option<FiValue>, Memory>
    requires real { length re.now ≡ elements_of shape }
    requires imaginary { length im.now ≡ elements_of shape }
    ensures { IfOk result (λ r. option_map operand_view r ≡ beside_operand (type_of t) (ComplexNumber (shape_view shape) (map exact_of re.now) (map exact_of im.now))) }
{
    let all = joined(alloc, re, im)?;
    match best_type(t, all.as_slice()) {
        None => Ok(None),
        Some(u) => match stored_all(alloc, u, all.as_slice()) {
            Err(e) => Err(e),
            Ok(None) => Ok(None),
            Ok(Some(stored)) => {
                let v = split(alloc, u, shape, stored.as_slice())?;
                Ok(Some(v))
            }
        },
    }
}

// The type of constants beside a fi of this type, with one best fraction length. None where it isn't within the limits.
fn best_type(t: NumType, constants: &[Dyadic]) -> Option<NumType>
    ensures value { option_map type_of result ≡ sums.made (limited 64 (beside_type (type_of t) (map exact_of constants.now))) }
    ensures same { IfSome result (λ u. type_of u ≡ beside_type (type_of t) (map exact_of constants.now)) }
{
    let fraction = best_fraction(t.signed(), t.word(), constants);
    NumType::make(t.signed(), t.word(), fraction)
}

// The real parts, and behind them the imaginary ones.
fn joined(alloc: Global, re: &[Dyadic], im: &[Dyadic]) -> Result<Vec<Dyadic>, Memory>
    ensures { IfOk result (λ v. v.items ≡ re.now ++ im.now) }
{
    let mut all = Vec::from_slice(alloc, re)?;
    all.extend_from_slice(im)?;
    Ok(all)
}

// A complex operand of its real parts, and behind them the imaginary ones.
fn split(alloc: Global, num: NumType, shape: Shape, stored: &[Int]) -> Result<FiValue, Memory>
    requires many { length stored.now ≡ elements_of shape + elements_of shape }
    requires inside { All (IsInRange (type_of num)) stored.now }
    ensures { IfOk result (λ v. operand_view v ≡ record { num = type_of num; math = None; shape = shape_view shape; parts = record { re = take (elements_of shape) stored.now; im = Some (drop (elements_of shape) stored.now) } }) }
{
    let count = shape.elements() as usize;
    let re = Vec::from_slice(alloc, &stored[..count])?;
    let im = Vec::from_slice(alloc, &stored[count..])?;
    Ok(FiValue {
        num,
        math: None,
        shape,
        re,
        im: Some(im),
    })
}
