//! Matrix products of constants.

ghost use Rattle.std.specs.Prelude.{◌≡◌, ◌<◌, ◌*◌, ◌||◌, ◌↔◌, IfOk, IfErr, IsTrue, IsSome, IfSome};
ghost use Rattle.shape_rules.specs.Shapes.{rows_of, columns_of, element_limit};
ghost use Rattle.const_eval.specs.Complex.{complex_of, AreSame, AreConstant, HasConstantSteps, plus, times};
ghost use Rattle.const_eval.specs.Refusals.{RefusesOnly};
ghost use Rattle.const_eval.specs.Values.{is_complex};
ghost use Rattle.const_fold.specs.MatrixProducts.{entry, nought, sum_to, IsExactSum, AreExactSums, HasInner, IsMatrixProduct, IsNoMatrixProduct};

use crate::refusals::too_many;
use const_eval::{Complex, Const, mismatch, refused};
use fic_base::{Code, Place, Refusal};
use num_type::{Dyadic, Stop};
use shape_rules::Shape;
use std::alloc::Global;

/// The matrix product of two constants, complex where one of them is. An element is its products added to 0 in ascending order.
///
/// Refused at the place as `SizeMismatch`, with both shapes, where the first has another number of columns than the second has rows; else
/// as `LiteralInexact`, with the operator as shown, where a step at some element is no constant; else as `Limit`, with 4096, where there are
/// more elements than that.
pub fn matrix_product(
    alloc: Global,
    shown: &[u8],
    a: &Const,
    b: &Const,
    at: Place,
) -> Result<Const, Stop<Refusal>>
    ensures value { IfOk result (λ c. IsMatrixProduct a.now b.now c) }
    ensures refusal { IfErr result (λ stop. RefusesOnly stop (λ r. IsNoMatrixProduct shown.now a.now b.now at r)) }
{
    let left = a.shape();
    let right = b.shape();
    let inner = left.cols();
    let other = right.rows();
    if inner != other {
        return Err(mismatch(alloc, left, right, at));
    }
    let rows = left.rows();
    let columns = right.cols();
    match Shape::make(rows, columns) {
        None => Err(too_wide(alloc, shown, a, b, at)),
        Some(shape) => kept(alloc, shown, a, b, shape, at),
    }
}

// The matrix product of this shape.
fn kept(
    alloc: Global,
    shown: &[u8],
    a: &Const,
    b: &Const,
    shape: Shape,
    at: Place,
) -> Result<Const, Stop<Refusal>>
    requires inner { HasInner a.now b.now }
    requires rows { rows_of shape ≡ rows_of a.now.shape }
    requires columns { columns_of shape ≡ columns_of b.now.shape }
    ensures value { IfOk result (λ c. IsMatrixProduct a.now b.now c) }
    ensures refusal { IfErr result (λ stop. RefusesOnly stop (λ r. IsNoMatrixProduct shown.now a.now b.now at r)) }
{
    let rows = shape.rows();
    let count = shape.elements();
    let mut numbers = Vec::new(alloc);
    for k in 0..count {
        match sum_of_products(a, b, k % rows, k / rows) {
            None => return Err(refused(alloc, Code::LiteralInexact, shown, at)),
            Some(number) => numbers.push(number)?,
        }
    }
    let made = Const::of_numbers(alloc, shape, numbers.as_slice(), is_one_complex(a, b))?;
    Ok(made)
}

// The refusal of a matrix product of too many elements: for a step that is no constant, if there is one, else for their number.
fn too_wide(alloc: Global, shown: &[u8], a: &Const, b: &Const, at: Place) -> Stop<Refusal>
    requires inner { HasInner a.now b.now }
    requires many { element_limit < rows_of a.now.shape * columns_of b.now.shape }
    ensures { RefusesOnly result (λ r. IsNoMatrixProduct shown.now a.now b.now at r) }
{
    if are_exact(a, b) {
        too_many(alloc, at)
    } else {
        refused(alloc, Code::LiteralInexact, shown, at)
    }
}

// Whether each step of a matrix product is a constant.
fn are_exact(a: &Const, b: &Const) -> bool
    requires { HasInner a.now b.now }
    ensures { IsTrue result ↔ AreExactSums a.now b.now }
{
    let rows = a.shape().rows();
    let columns = b.shape().cols();
    let count = rows * columns;
    for k in 0..count {
        if !is_exact(a, b, k % rows, k / rows) {
            return false;
        }
    }
    true
}

// Whether each step at an element of a matrix product is a constant.
fn is_exact(a: &Const, b: &Const, row: u32, column: u32) -> bool
    requires inner { HasInner a.now b.now }
    requires row { row < rows_of a.now.shape }
    requires column { column < columns_of b.now.shape }
    ensures { IsTrue result ↔ IsExactSum a.now b.now row column }
{
    match sum_of_products(a, b, row, column) {
        None => false,
        Some(_) => true,
    }
}

// The products of a row and a column added to 0 in ascending order. None exactly where one of these steps is no constant.
fn sum_of_products(a: &Const, b: &Const, row: u32, column: u32) -> Option<Complex>
    requires inner { HasInner a.now b.now }
    requires row { row < rows_of a.now.shape }
    requires column { column < columns_of b.now.shape }
    ensures steps { IsSome result ↔ IsExactSum a.now b.now row column }
    ensures same { IfSome result (λ c. AreSame (complex_of c) (sum_to a.now b.now row column (columns_of a.now.shape))) }
{
    let inner = a.shape().cols();
    let mut sum = zero();
    for n in 0..inner {
        let x = number(a, row, n);
        let y = number(b, n, column);
        match with_product(&sum, &x, &y) {
            None => return None,
            Some(next) => sum = next,
        }
    }
    Some(sum)
}

// A number with one more product added. None exactly where a step of the product, or the sum, is no constant.
fn with_product(sum: &Complex, x: &Complex, y: &Complex) -> Option<Complex>
    ensures steps { IsSome result ↔ (HasConstantSteps (complex_of x.now) (complex_of y.now) × AreConstant (plus (complex_of sum.now) (times (complex_of x.now) (complex_of y.now)))) }
    ensures same { IfSome result (λ c. AreSame (complex_of c) (plus (complex_of sum.now) (times (complex_of x.now) (complex_of y.now)))) }
{
    match x.mul(y) {
        None => None,
        Some(product) => sum.add(&product),
    }
}

// 0.
fn zero() -> Complex
    ensures { complex_of result ≡ nought }
{
    Complex {
        re: Dyadic::zero(),
        im: Dyadic::zero(),
    }
}

// The number in a row and a column, both counted from 0.
fn number(c: &Const, row: u32, column: u32) -> Complex
    requires row { row < rows_of c.now.shape }
    requires column { column < columns_of c.now.shape }
    ensures { complex_of result ≡ entry c.now row column }
{
    c.at(column * c.shape().rows() + row)
}

// Whether one of two constants is complex.
fn is_one_complex(a: &Const, b: &Const) -> bool
    ensures { result ≡ (is_complex a.now || is_complex b.now) }
{
    a.is_complex() || b.is_complex()
}
