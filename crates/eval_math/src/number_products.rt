//! Matrix products of numbers.

ghost use Rattle.std.specs.Prelude.{◌≡◌, ◌<◌, All, IfOk, IfSome, length, map, option_map, vec_len};
ghost use Rattle.num_type.specs.View.{exact_of};
ghost use Rattle.shape_rules.specs.Shapes.{columns_of, elements_of, rows_of};
ghost use Rattle.const_eval.specs.Complex.{complex_of};
ghost use Rattle.fi_rules.specs.declared.work.Work.TheVariants as work;
ghost use Rattle.fi_rules.specs.Options.{all_of, and_then};
ghost use Rattle.fi_rules.specs.Pairs.{folded};
ghost use Rattle.fi_values.specs.Arithmetic.{complex_folded};
ghost use Rattle.fi_values.specs.Numbers.{nought};
ghost use Rattle.fi_values.specs.Products as products;
ghost use Rattle.fi_values.specs.Products.{added_from, complex_nought};
ghost use Rattle.eval_value.specs.View.{item_view, number_view, shape_view};
ghost use Rattle.eval_math.specs.Matrices as matrices;
ghost use Rattle.eval_math.specs.Matrices.{IsCell};
ghost use Rattle.eval_math.specs.Numbers.{complex_numbers};

use crate::cells::{cells, product_shape};
use crate::complex_numbers::{complex_elements, complex_value, is_complex_number};
use crate::folds::complex_fold;
use crate::operand::either;
use crate::places::{column_places, row_places};
use const_eval::Complex;
use eval_value::{NumberValue, Value, picked};
use fi_rules::{Work, folded};
use num_type::{Dyadic, Memory};
use shape_rules::Shape;
use std::alloc::Global;

/// The exact matrix product of two numbers, complex where one of them is. None where the inner extents differ, there would be too many
/// elements, or an element or a step on the way to it is no constant; want of memory is the only refusal.
pub fn number_product(
    alloc: Global,
    x: &NumberValue,
    y: &NumberValue,
) -> Result<Option<Value>, Memory>
    ensures { IfOk result (λ r. item_view r ≡ products.matrix (number_view x.now) (number_view y.now)) }
{
    if either(is_complex_number(x), is_complex_number(y)) {
        let r = complex_product(alloc, x, y)?;
        Ok(r)
    } else {
        let r = real_product(alloc, x, y)?;
        Ok(r)
    }
}

// The same of real numbers.
fn real_product(alloc: Global, x: &NumberValue, y: &NumberValue) -> Result<Option<Value>, Memory>
    ensures { IfOk result (λ r. item_view r ≡ products.real_matrix (shape_view x.now.shape) (map exact_of x.now.re.items) (shape_view y.now.shape) (map exact_of y.now.re.items)) }
{
    match product_shape(x.shape, y.shape) {
        None => Ok(None),
        Some(shape) => {
            let places = cells(alloc, shape)?;
            match real_entries(alloc, x, y, places.as_slice()) {
                Err(e) => Err(e),
                Ok(None) => Ok(None),
                Ok(Some(re)) => Ok(Some(Value::Number(NumberValue {
                    shape,
                    re,
                    im: None,
                }))),
            }
        }
    }
}

// The elements in these rows and columns. None where one is no constant.
fn real_entries(
    alloc: Global,
    x: &NumberValue,
    y: &NumberValue,
    places: &[(u32, u32)],
) -> Result<Option<Vec<Dyadic>>, Memory>
    requires inner { columns_of x.now.shape ≡ rows_of y.now.shape }
    requires inside { All (IsCell (rows_of x.now.shape) (columns_of y.now.shape)) places.now }
    ensures value { IfOk result (λ r. option_map (λ v. map exact_of v.items) r ≡ all_of (map (matrices.real_entry (shape_view x.now.shape) (map exact_of x.now.re.items) (shape_view y.now.shape) (map exact_of y.now.re.items)) places.now)) }
    ensures many { IfOk result (λ r. IfSome r (λ v. vec_len v ≡ length places.now)) }
{
    let mut out = Vec::new(alloc);
    for p in places {
        match real_entry(alloc, x, y, p.0, p.1) {
            Err(e) => return Err(e),
            Ok(None) => return Ok(None),
            Ok(Some(z)) => out.push(z)?,
        }
    }
    Ok(Some(out))
}

// The element in a row and a column. None where a step on the way to it is no constant.
fn real_entry(
    alloc: Global,
    x: &NumberValue,
    y: &NumberValue,
    i: u32,
    j: u32,
) -> Result<Option<Dyadic>, Memory>
    requires inner { columns_of x.now.shape ≡ rows_of y.now.shape }
    requires row { i < rows_of x.now.shape }
    requires column { j < columns_of y.now.shape }
    ensures { IfOk result (λ r. option_map exact_of r ≡ matrices.real_entry (shape_view x.now.shape) (map exact_of x.now.re.items) (shape_view y.now.shape) (map exact_of y.now.re.items) (i, j)) }
{
    let left = row_places(alloc, x.shape, i)?;
    let right = column_places(alloc, y.shape, j)?;
    let xs = picked(alloc, Dyadic::zero(), x.re.as_slice(), left.as_slice())?;
    let ys = picked(alloc, Dyadic::zero(), y.re.as_slice(), right.as_slice())?;
    Ok(real_total(xs.as_slice(), ys.as_slice()))
}

// The sum of the products of constants at the same place, in their order. None where a step is no constant.
fn real_total(xs: &[Dyadic], ys: &[Dyadic]) -> Option<Dyadic>
    requires { length xs.now ≡ length ys.now }
    ensures { option_map exact_of result ≡ added_from (folded work.Sum) (folded work.Product) nought (map exact_of xs.now) (map exact_of ys.now) }
{
    let mut sum = Dyadic::zero();
    for k in 0..xs.len() {
        match real_step(sum, xs[k], ys[k]) {
            None => return None,
            Some(next) => sum = next,
        }
    }
    Some(sum)
}

// A product added to a sum.
fn real_step(sum: Dyadic, x: Dyadic, y: Dyadic) -> Option<Dyadic>
    ensures { option_map exact_of result ≡ and_then (folded work.Product (exact_of x) (exact_of y)) (λ z. folded work.Sum (exact_of sum) z) }
{
    match folded(Work::Product, x, y) {
        None => None,
        Some(z) => folded(Work::Sum, sum, z),
    }
}

// The matrix product where one is complex.
fn complex_product(alloc: Global, x: &NumberValue, y: &NumberValue) -> Result<Option<Value>, Memory>
    ensures { IfOk result (λ r. item_view r ≡ products.complex_matrix (shape_view x.now.shape) (complex_numbers x.now) (shape_view y.now.shape) (complex_numbers y.now)) }
{
    match product_shape(x.shape, y.shape) {
        None => Ok(None),
        Some(shape) => {
            let places = cells(alloc, shape)?;
            let xs = complex_elements(alloc, x)?;
            let ys = complex_elements(alloc, y)?;
            match complex_entries(
                alloc,
                x.shape,
                xs.as_slice(),
                y.shape,
                ys.as_slice(),
                places.as_slice(),
            ) {
                Err(e) => Err(e),
                Ok(None) => Ok(None),
                Ok(Some(zs)) => {
                    let v = complex_value(alloc, shape, zs.as_slice())?;
                    Ok(Some(Value::Number(v)))
                }
            }
        }
    }
}

// The elements in these rows and columns. None where a step on the way to one is no constant.
fn complex_entries(
    alloc: Global,
    s: Shape,
    xs: &[Complex],
    t: Shape,
    ys: &[Complex],
    places: &[(u32, u32)],
) -> Result<Option<Vec<Complex>>, Memory>
    requires inner { columns_of s ≡ rows_of t }
    requires inside { All (IsCell (rows_of s) (columns_of t)) places.now }
    ensures value { IfOk result (λ r. option_map (λ v. map complex_of v.items) r ≡ all_of (map (matrices.complex_entry (shape_view s) (map complex_of xs.now) (shape_view t) (map complex_of ys.now)) places.now)) }
    ensures many { IfOk result (λ r. IfSome r (λ v. vec_len v ≡ length places.now)) }
{
    let mut out = Vec::new(alloc);
    for p in places {
        match complex_entry(alloc, s, xs, t, ys, p.0, p.1) {
            Err(e) => return Err(e),
            Ok(None) => return Ok(None),
            Ok(Some(z)) => out.push(z)?,
        }
    }
    Ok(Some(out))
}

// The element in a row and a column. None where a step on the way to it is no constant.
fn complex_entry(
    alloc: Global,
    s: Shape,
    xs: &[Complex],
    t: Shape,
    ys: &[Complex],
    i: u32,
    j: u32,
) -> Result<Option<Complex>, Memory>
    requires inner { columns_of s ≡ rows_of t }
    requires row { i < rows_of s }
    requires column { j < columns_of t }
    ensures { IfOk result (λ r. option_map complex_of r ≡ matrices.complex_entry (shape_view s) (map complex_of xs.now) (shape_view t) (map complex_of ys.now) (i, j)) }
{
    let left = row_places(alloc, s, i)?;
    let right = column_places(alloc, t, j)?;
    let us = picked(alloc, complex_zero(), xs, left.as_slice())?;
    let vs = picked(alloc, complex_zero(), ys, right.as_slice())?;
    Ok(complex_total(us.as_slice(), vs.as_slice()))
}

// The sum of the products of complex constants at the same place, in their order. None where a step is no constant.
fn complex_total(xs: &[Complex], ys: &[Complex]) -> Option<Complex>
    requires { length xs.now ≡ length ys.now }
    ensures { option_map complex_of result ≡ added_from (complex_folded work.Sum) (complex_folded work.Product) complex_nought (map complex_of xs.now) (map complex_of ys.now) }
{
    let mut sum = complex_zero();
    for k in 0..xs.len() {
        match complex_step(&sum, &xs[k], &ys[k]) {
            None => return None,
            Some(next) => sum = next,
        }
    }
    Some(sum)
}

// A product added to a sum.
fn complex_step(sum: &Complex, x: &Complex, y: &Complex) -> Option<Complex>
    ensures { option_map complex_of result ≡ and_then (complex_folded work.Product (complex_of x.now) (complex_of y.now)) (λ z. complex_folded work.Sum (complex_of sum.now) z) }
{
    match complex_fold(Work::Product, x, y) {
        None => None,
        Some(z) => complex_fold(Work::Sum, sum, &z),
    }
}

// The complex number 0.
fn complex_zero() -> Complex
    ensures { complex_of result ≡ complex_nought }
{
    Complex {
        re: Dyadic::zero(),
        im: Dyadic::zero(),
    }
}
