//! Matrix products of fis.

ghost use Rattle.std.specs.Prelude.{◌≡◌, ◌<◌, ◌&&◌, All, IfOk, Some, is_some, length, map, pos, vec_len};
ghost use Rattle.num_type.specs.Types.{IsInRange};
ghost use Rattle.num_type.specs.View.{type_of};
ghost use Rattle.shape_rules.specs.Shapes.{columns_of, elements_of, rows_of};
ghost use Rattle.fi_math.specs.Made.{Is};
ghost use Rattle.fi_math.specs.Rules.{stepped};
ghost use Rattle.fi_rules.specs.declared.work.Work.TheVariants as work;
ghost use Rattle.fi_rules.specs.Options.{all_of};
ghost use Rattle.fi_values.specs.Arithmetic.{result_made};
ghost use Rattle.fi_values.specs.Elements as elements;
ghost use Rattle.fi_values.specs.Products as products;
ghost use Rattle.eval_value.specs.View.{fi_view, item_view, shape_view};
ghost use Rattle.eval_math.specs.Matrices.{IsCell, IsEntry, elements_product, entry_at, governed_product, or_nought, summed_parts, summed_product, typed_product};
ghost use Rattle.eval_math.specs.View.{operand_view, parts_view};

use crate::accumulation::Accumulation;
use crate::cells::{cells, product_shape};
use crate::elementwise::operated;
use crate::frame::Frame;
use crate::operand::{both, either, governing, is_complex};
use crate::operation::result_type;
use crate::places::{column_places, row_places};
use crate::shapes::row_of;
use crate::totals::total;
use const_eval::ElementOp;
use eval_value::{FiValue, Value, picked};
use fi_math::{Fimath, Governed, sum_type};
use num_type::{Int, Memory, NumType};
use shape_rules::Shape;
use std::alloc::Global;

/// The matrix product of two operands: each element is its products, of the product type, added up from 0 in the sum type. None where the
/// inner extents differ, there would be too many elements, the fimaths differ, or a type isn't within the limits; want of memory is the only
/// refusal.
pub fn fi_product(alloc: Global, a: &FiValue, b: &FiValue) -> Result<Option<Value>, Memory>
    ensures { IfOk result (λ r. item_view r ≡ products.fi_matrix (operand_view a.now, operand_view b.now)) }
{
    match product_shape(a.shape, b.shape) {
        None => Ok(None),
        Some(shape) => {
            let r = governed(alloc, shape, a, b)?;
            Ok(r)
        }
    }
}

// The same of this shape.
fn governed(alloc: Global, shape: Shape, a: &FiValue, b: &FiValue) -> Result<Option<Value>, Memory>
    requires inner { columns_of a.now.shape ≡ rows_of b.now.shape }
    requires rows { rows_of shape ≡ rows_of a.now.shape }
    requires columns { columns_of shape ≡ columns_of b.now.shape }
    ensures { IfOk result (λ r. item_view r ≡ governed_product (shape_view shape) (operand_view a.now) (operand_view b.now)) }
{
    match governing(a.math, b.math) {
        None => Ok(None),
        Some(by) => {
            let r = typed(alloc, shape, &by, a, b)?;
            Ok(r)
        }
    }
}

// The same under a governing fimath.
fn typed(
    alloc: Global,
    shape: Shape,
    by: &Governed,
    a: &FiValue,
    b: &FiValue,
) -> Result<Option<Value>, Memory>
    requires inner { columns_of a.now.shape ≡ rows_of b.now.shape }
    requires rows { rows_of shape ≡ rows_of a.now.shape }
    requires columns { columns_of shape ≡ columns_of b.now.shape }
    ensures { IfOk result (λ r. item_view r ≡ typed_product (shape_view shape) (operand_view a.now) (operand_view b.now) by.now) }
{
    let p = is_complex(a);
    let q = is_complex(b);
    match result_type(ElementOp::Product, both(p, q), &by.math, a.num, b.num) {
        None => Ok(None),
        Some(product) => {
            let r = summed(alloc, shape, by, product, a, b)?;
            Ok(r)
        }
    }
}

// The same with products of this type.
fn summed(
    alloc: Global,
    shape: Shape,
    by: &Governed,
    product: NumType,
    a: &FiValue,
    b: &FiValue,
) -> Result<Option<Value>, Memory>
    requires inner { columns_of a.now.shape ≡ rows_of b.now.shape }
    requires rows { rows_of shape ≡ rows_of a.now.shape }
    requires columns { columns_of shape ≡ columns_of b.now.shape }
    requires made { result_made work.Product (is_some (parts_view a.now).im && is_some (parts_view b.now).im) by.now.math (type_of a.now.num) (type_of b.now.num) ≡ Is (type_of product) }
    ensures { IfOk result (λ r. item_view r ≡ summed_product (shape_view shape) (operand_view a.now) (operand_view b.now) by.now (type_of product)) }
{
    match sum_type(&by.math, product, a.shape.cols()) {
        Err(_) => Ok(None),
        Ok(sum) => {
            let how = Accumulation {
                by: *by,
                product,
                sum,
            };
            let v = accumulated(alloc, shape, &how, a, b)?;
            Ok(Some(Value::Fi(v)))
        }
    }
}

// The matrix product as it is computed.
fn accumulated(
    alloc: Global,
    shape: Shape,
    how: &Accumulation,
    a: &FiValue,
    b: &FiValue,
) -> Result<FiValue, Memory>
    requires inner { columns_of a.now.shape ≡ rows_of b.now.shape }
    requires rows { rows_of shape ≡ rows_of a.now.shape }
    requires columns { columns_of shape ≡ columns_of b.now.shape }
    requires made { result_made work.Product (is_some (parts_view a.now).im && is_some (parts_view b.now).im) how.now.by.math (type_of a.now.num) (type_of b.now.num) ≡ Is (type_of how.now.product) }
    requires step { stepped how.now.by.math (type_of how.now.product) (type_of how.now.sum) ≡ Is (type_of how.now.sum) }
    ensures { IfOk result (λ v. Some (fi_view v) ≡ elements_product (shape_view shape) (operand_view a.now) (operand_view b.now) how.now.by (type_of how.now.product) (type_of how.now.sum)) }
{
    let places = cells(alloc, shape)?;
    let zs = entries(alloc, how, a, b, places.as_slice())?;
    let p = is_complex(a);
    let q = is_complex(b);
    let v = of_entries(alloc, shape, how, either(p, q), zs.as_slice())?;
    Ok(v)
}

// The array of these elements, complex as the flag says.
fn of_entries(
    alloc: Global,
    shape: Shape,
    how: &Accumulation,
    complex: bool,
    zs: &[(Int, Option<Int>)],
) -> Result<FiValue, Memory>
    requires many { length zs.now ≡ elements_of shape }
    requires inside { All (IsEntry (type_of how.now.sum)) zs.now }
    ensures { IfOk result (λ v. operand_view v ≡ record { num = type_of how.now.sum; math = how.now.by.attached; shape = shape_view shape; parts = products.all_parts complex zs.now }) }
{
    let re = real_parts(alloc, how.sum, zs)?;
    if complex {
        let im = imaginary_parts(alloc, how.sum, zs)?;
        Ok(FiValue {
            num: how.sum,
            math: how.by.attached,
            shape,
            re,
            im: Some(im),
        })
    } else {
        Ok(FiValue {
            num: how.sum,
            math: how.by.attached,
            shape,
            re,
            im: None,
        })
    }
}

// The real parts of elements.
fn real_parts(alloc: Global, t: NumType, zs: &[(Int, Option<Int>)]) -> Result<Vec<Int>, Memory>
    requires { All (IsEntry (type_of t)) zs.now }
    ensures value { IfOk result (λ v. v.items ≡ map (λ z. z.0) zs.now) }
    ensures many { IfOk result (λ v. vec_len v ≡ length zs.now) }
    ensures inside { IfOk result (λ v. All (IsInRange (type_of t)) v.items) }
{
    let mut out = Vec::new(alloc);
    for z in zs {
        out.push(z.0)?;
    }
    Ok(out)
}

// The imaginary parts of elements.
fn imaginary_parts(alloc: Global, t: NumType, zs: &[(Int, Option<Int>)]) -> Result<Vec<Int>, Memory>
    requires { All (IsEntry (type_of t)) zs.now }
    ensures value { IfOk result (λ v. v.items ≡ map (λ z. or_nought z.1) zs.now) }
    ensures many { IfOk result (λ v. vec_len v ≡ length zs.now) }
    ensures inside { IfOk result (λ v. All (IsInRange (type_of t)) v.items) }
{
    let mut out = Vec::new(alloc);
    for z in zs {
        out.push(or_zero(z.1))?;
    }
    Ok(out)
}

// A part, or 0 where there is none.
fn or_zero(part: Option<Int>) -> Int
    ensures { result ≡ or_nought part }
{
    match part {
        None => Int::of(false, 0),
        Some(y) => y,
    }
}

// The elements in these rows and columns.
fn entries(
    alloc: Global,
    how: &Accumulation,
    a: &FiValue,
    b: &FiValue,
    places: &[(u32, u32)],
) -> Result<Vec<(Int, Option<Int>)>, Memory>
    requires inner { columns_of a.now.shape ≡ rows_of b.now.shape }
    requires made { result_made work.Product (is_some (parts_view a.now).im && is_some (parts_view b.now).im) how.now.by.math (type_of a.now.num) (type_of b.now.num) ≡ Is (type_of how.now.product) }
    requires step { stepped how.now.by.math (type_of how.now.product) (type_of how.now.sum) ≡ Is (type_of how.now.sum) }
    requires inside { All (IsCell (rows_of a.now.shape) (columns_of b.now.shape)) places.now }
    ensures value { IfOk result (λ v. Some v.items ≡ all_of (map (entry_at how.now (operand_view a.now) (operand_view b.now)) places.now)) }
    ensures many { IfOk result (λ v. vec_len v ≡ length places.now) }
    ensures inside { IfOk result (λ v. All (IsEntry (type_of how.now.sum)) v.items) }
{
    let mut out = Vec::new(alloc);
    for p in places {
        let z = entry(alloc, how, a, b, p.0, p.1)?;
        out.push(z)?;
    }
    Ok(out)
}

// The element in a row and a column: the products of these, added up.
fn entry(
    alloc: Global,
    how: &Accumulation,
    a: &FiValue,
    b: &FiValue,
    i: u32,
    j: u32,
) -> Result<(Int, Option<Int>), Memory>
    requires inner { columns_of a.now.shape ≡ rows_of b.now.shape }
    requires made { result_made work.Product (is_some (parts_view a.now).im && is_some (parts_view b.now).im) how.now.by.math (type_of a.now.num) (type_of b.now.num) ≡ Is (type_of how.now.product) }
    requires step { stepped how.now.by.math (type_of how.now.product) (type_of how.now.sum) ≡ Is (type_of how.now.sum) }
    requires row { i < rows_of a.now.shape }
    requires column { j < columns_of b.now.shape }
    ensures value { IfOk result (λ z. Some z ≡ entry_at how.now (operand_view a.now) (operand_view b.now) (i, j)) }
    ensures inside { IfOk result (λ z. IsEntry (type_of how.now.sum) z) }
{
    let left = row_places(alloc, a.shape, i)?;
    let right = column_places(alloc, b.shape, j)?;
    let frame = Frame {
        op: ElementOp::Product,
        by: how.by,
        num: how.product,
        shape: row_of(a.shape.cols()),
    };
    let row = at_places(alloc, frame.shape, a, left.as_slice())?;
    let column = at_places(alloc, frame.shape, b, right.as_slice())?;
    let p = is_complex(a);
    let q = is_complex(b);
    let terms = operated(alloc, &frame, &row, &column, p, q)?;
    Ok(totals(&how.by.math, how.sum, &terms))
}

// The elements of an operand at these places, as an operand of this shape.
fn at_places(alloc: Global, shape: Shape, v: &FiValue, places: &[u32]) -> Result<FiValue, Memory>
    requires { length places.now ≡ elements_of shape }
    ensures num { IfOk result (λ r. r.num ≡ v.now.num) }
    ensures shape { IfOk result (λ r. r.shape ≡ shape) }
    ensures parts { IfOk result (λ r. parts_view r ≡ products.picked_parts (parts_view v.now) places.now) }
{
    let re = stored_at(alloc, v.num, v.re.as_slice(), places)?;
    match &v.im {
        None => Ok(FiValue {
            num: v.num,
            math: v.math,
            shape,
            re,
            im: None,
        }),
        Some(parts) => {
            let im = stored_at(alloc, v.num, parts.as_slice(), places)?;
            Ok(FiValue {
                num: v.num,
                math: v.math,
                shape,
                re,
                im: Some(im),
            })
        }
    }
}

// The stored integers of a type at these places.
fn stored_at(alloc: Global, t: NumType, xs: &[Int], places: &[u32]) -> Result<Vec<Int>, Memory>
    requires { All (IsInRange (type_of t)) xs.now }
    ensures value { IfOk result (λ v. v.items ≡ elements.picked (pos 0) xs.now places.now) }
    ensures many { IfOk result (λ v. vec_len v ≡ length places.now) }
    ensures inside { IfOk result (λ v. All (IsInRange (type_of t)) v.items) }
{
    let v = picked(alloc, Int::of(false, 0), xs, places)?;
    Ok(v)
}

// The sums, in the sum type `t`, of the parts of an operand, in their order.
fn totals(m: &Fimath, t: NumType, v: &FiValue) -> (Int, Option<Int>)
    requires { stepped m.now (type_of v.now.num) (type_of t) ≡ Is (type_of t) }
    ensures value { result ≡ summed_parts m.now (type_of t) (type_of v.now.num) (parts_view v.now) }
    ensures inside { IsEntry (type_of t) result }
{
    let re = total(m, t, v.num, v.re.as_slice());
    match &v.im {
        None => (re, None),
        Some(parts) => {
            let im = total(m, t, v.num, parts.as_slice());
            (re, Some(im))
        }
    }
}
