//! Sums, differences and products of numbers, element by element.

ghost use Rattle.std.specs.Prelude.{◌≡◌, IfOk, IfSome, length, map, option_map, vec_len};
ghost use Rattle.num_type.specs.View.{exact_of};
ghost use Rattle.shape_rules.specs.Shapes.{elements_of};
ghost use Rattle.const_eval.specs.Complex.{complex_of};
ghost use Rattle.fi_rules.specs.Options.{all_of};
ghost use Rattle.fi_values.specs.Arithmetic as arithmetic;
ghost use Rattle.eval_value.specs.View.{item_view, number_view, shape_view};
ghost use Rattle.eval_math.specs.Numbers.{complex_numbers};
ghost use Rattle.fi_rules.specs.Pairs.{folded};
ghost use Rattle.eval_math.specs.View.{IsMet, paired};

use crate::complex_numbers::{complex_elements, complex_value, is_complex_number};
use crate::elements::pairs;
use crate::folds::complex_fold;
use crate::operand::either;
use crate::shapes::common;
use const_eval::Complex;
use eval_value::{NumberValue, Value};
use fi_rules::{Work, folded};
use num_type::{Dyadic, Memory};
use shape_rules::Shape;
use std::alloc::Global;

/// The exact sum, difference or product of two numbers, complex where one of them is. None where their shapes don't fit, an element is no
/// constant, or it is another work; want of memory is the only refusal.
pub fn numbers(
    alloc: Global,
    work: Work,
    x: &NumberValue,
    y: &NumberValue,
) -> Result<Option<Value>, Memory>
    ensures { IfOk result (λ r. item_view r ≡ arithmetic.arithmetic work (number_view x.now) (number_view y.now)) }
{
    if either(is_complex_number(x), is_complex_number(y)) {
        let r = complexes(alloc, work, x, y)?;
        Ok(r)
    } else {
        let r = reals(alloc, work, x, y)?;
        Ok(r)
    }
}

// The same of real numbers.
fn reals(
    alloc: Global,
    work: Work,
    x: &NumberValue,
    y: &NumberValue,
) -> Result<Option<Value>, Memory>
    ensures { IfOk result (λ r. item_view r ≡ arithmetic.reals_folded work (shape_view x.now.shape) (map exact_of x.now.re.items) (shape_view y.now.shape) (map exact_of y.now.re.items)) }
{
    match common(x.shape, y.shape) {
        None => Ok(None),
        Some(shape) => {
            let count = shape.elements();
            let met = pairs(alloc, count, x.re.as_slice(), y.re.as_slice())?;
            match real_folds(alloc, work, met.as_slice()) {
                Err(e) => Err(e),
                Ok(None) => Ok(None),
                Ok(Some(re)) => Ok(Some(Value::Number(NumberValue {
                    shape,
                    re,
                    im: None,
                }))),
            }
        }
    }
}

// The same where one is complex.
fn complexes(
    alloc: Global,
    work: Work,
    x: &NumberValue,
    y: &NumberValue,
) -> Result<Option<Value>, Memory>
    ensures { IfOk result (λ r. item_view r ≡ arithmetic.complexes_folded work (shape_view x.now.shape) (complex_numbers x.now) (shape_view y.now.shape) (complex_numbers y.now)) }
{
    match common(x.shape, y.shape) {
        None => Ok(None),
        Some(shape) => {
            let met = complex_pairs(alloc, shape.elements(), x, y)?;
            match complex_folds(alloc, work, met.as_slice()) {
                Err(e) => Err(e),
                Ok(None) => Ok(None),
                Ok(Some(zs)) => {
                    let v = complex_value(alloc, shape, zs.as_slice())?;
                    Ok(Some(Value::Number(v)))
                }
            }
        }
    }
}

// The complex numbers that meet.
fn complex_pairs(
    alloc: Global,
    count: u32,
    x: &NumberValue,
    y: &NumberValue,
) -> Result<Vec<(Complex, Complex)>, Memory>
    requires { IsMet count (elements_of x.now.shape) (elements_of y.now.shape) }
    ensures value { IfOk result (λ v. map (λ p. (complex_of p.0, complex_of p.1)) v.items ≡ paired (complex_numbers x.now) (complex_numbers y.now)) }
    ensures many { IfOk result (λ v. vec_len v ≡ count) }
{
    let xs = complex_elements(alloc, x)?;
    let ys = complex_elements(alloc, y)?;
    let v = pairs(alloc, count, xs.as_slice(), ys.as_slice())?;
    Ok(v)
}

// The exact results of the real numbers that meet. None where one is no constant.
fn real_folds(
    alloc: Global,
    work: Work,
    met: &[(Dyadic, Dyadic)],
) -> Result<Option<Vec<Dyadic>>, Memory>
    ensures value { IfOk result (λ r. option_map (λ v. map exact_of v.items) r ≡ all_of (map (λ p. folded work (exact_of p.0) (exact_of p.1)) met.now)) }
    ensures many { IfOk result (λ r. IfSome r (λ v. vec_len v ≡ length met.now)) }
{
    let mut out = Vec::new(alloc);
    for p in met {
        match folded(work, p.0, p.1) {
            None => return Ok(None),
            Some(z) => out.push(z)?,
        }
    }
    Ok(Some(out))
}

// The exact results of the complex numbers that meet. None where a part of one is no constant.
fn complex_folds(
    alloc: Global,
    work: Work,
    met: &[(Complex, Complex)],
) -> Result<Option<Vec<Complex>>, Memory>
    ensures value { IfOk result (λ r. option_map (λ v. map complex_of v.items) r ≡ all_of (map (λ p. arithmetic.complex_folded work (complex_of p.0) (complex_of p.1)) met.now)) }
    ensures many { IfOk result (λ r. IfSome r (λ v. vec_len v ≡ length met.now)) }
{
    let mut out = Vec::new(alloc);
    for p in met {
        match complex_fold(work, &p.0, &p.1) {
            None => return Ok(None),
            Some(z) => out.push(z)?,
        }
    }
    Ok(Some(out))
}
