//! Sums along a dimension.

ghost use Rattle.std.specs.Prelude.{◌≡◌, ◌≤◌, All, IfOk, length, vec_len};
ghost use Rattle.num_type.specs.Types.{IsInRange};
ghost use Rattle.num_type.specs.View.{type_of};
ghost use Rattle.shape_rules.specs.Shapes.{elements_of};
ghost use Rattle.fi_math.specs.Made.{Is};
ghost use Rattle.fi_math.specs.Rules.{stepped};
ghost use Rattle.fi_eval.specs.Operators as operators;
ghost use Rattle.fi_values.specs.Sums as sums;
ghost use Rattle.eval_value.specs.View.{fi_view, item_view, shape_view, value_view};
ghost use Rattle.eval_math.specs.Totals.{along_view, group, group_count, summed_operand};
ghost use Rattle.eval_math.specs.View.{operand_view};

use crate::places::{column_places, row_places};
use crate::shapes::{column_of, row_of};
use crate::totals::total_at;
use eval_value::{FiValue, Value};
use fi_math::{Fimath, sum_type};
use num_type::{Int, Memory, NumType};
use shape_rules::Shape;
use std::alloc::Global;

/// What a sum goes along.
#[derive(Clone, Copy, Debug, PartialEq, Eq)]
pub enum Along {
    /// The rows of each column (1): the result is a row.
    Columns,
    /// The columns of each row (2): the result is a column.
    Rows,
}

/// What the sum of an array of this shape goes along without a stated dimension: the first one of more than 1, or the first of all.
pub fn first_along(shape: Shape) -> Along
    ensures { along_view result ≡ sums.first_along (shape_view shape) }
{
    if shape.rows() > 1 {
        Along::Columns
    } else if shape.cols() > 1 {
        Along::Rows
    } else {
        Along::Columns
    }
}

/// The sums of a fi's elements along a dimension: each starts at 0 in the sum type and adds in ascending order, the parts of complex elements
/// by themselves. None where it is no fi, or the sum type isn't within the limits; want of memory is the only refusal.
#[tactic(auto, unfolding(fi_values::specs::Sums::summed_value))]
pub fn summed(alloc: Global, along: Along, value: &Value) -> Result<Option<Value>, Memory>
    ensures { IfOk result (λ r. item_view r ≡ sums.summed_value (along_view along) (value_view value.now)) }
{
    match value {
        Value::Fi(v) => {
            let r = fi_summed(alloc, along, v)?;
            Ok(r)
        }
        Value::Logical(_) => Ok(None),
        Value::Number(_) => Ok(None),
        Value::Words(_) => Ok(None),
        Value::Math(_) => Ok(None),
        Value::Type(_) => Ok(None),
    }
}

// The same of a fi.
fn fi_summed(alloc: Global, along: Along, v: &FiValue) -> Result<Option<Value>, Memory>
    ensures { IfOk result (λ r. item_view r ≡ sums.summed_value (along_view along) (fi_view v.now)) }
{
    let m = math_of(v.math);
    match sum_type(&m, v.num, addends(along, v.shape)) {
        Err(_) => Ok(None),
        Ok(t) => {
            let r = in_type(alloc, &m, t, along, v)?;
            Ok(Some(Value::Fi(r)))
        }
    }
}

// The sums in the sum type.
fn in_type(
    alloc: Global,
    m: &Fimath,
    t: NumType,
    along: Along,
    v: &FiValue,
) -> Result<FiValue, Memory>
    requires { stepped m.now (type_of v.now.num) (type_of t) ≡ Is (type_of t) }
    ensures { IfOk result (λ r. operand_view r ≡ summed_operand m.now (type_of t) (along_view along) (operand_view v.now)) }
{
    let shape = sum_shape(along, v.shape);
    let re = group_sums(alloc, m, t, v.num, along, v.shape, v.re.as_slice())?;
    match &v.im {
        None => Ok(FiValue {
            num: t,
            math: v.math,
            shape,
            re,
            im: None,
        }),
        Some(parts) => {
            let im = group_sums(alloc, m, t, v.num, along, v.shape, parts.as_slice())?;
            Ok(FiValue {
                num: t,
                math: v.math,
                shape,
                re,
                im: Some(im),
            })
        }
    }
}

// The sums of stored integers of a type.
fn group_sums(
    alloc: Global,
    m: &Fimath,
    t: NumType,
    a: NumType,
    along: Along,
    shape: Shape,
    xs: &[Int],
) -> Result<Vec<Int>, Memory>
    requires step { stepped m.now (type_of a) (type_of t) ≡ Is (type_of t) }
    requires inside { All (IsInRange (type_of a)) xs.now }
    ensures value { IfOk result (λ r. r.items ≡ sums.sums m.now (type_of t) (type_of a) (along_view along) (shape_view shape) xs.now) }
    ensures many { IfOk result (λ r. vec_len r ≡ group_count (along_view along) (shape_view shape)) }
    ensures inside { IfOk result (λ r. All (IsInRange (type_of t)) r.items) }
{
    let mut out = Vec::new(alloc);
    for g in 0..group_count(along, shape) {
        let places = group_places(alloc, along, shape, g)?;
        let z = total_at(alloc, m, t, a, xs, places.as_slice())?;
        out.push(z)?;
    }
    Ok(out)
}

// The fimath of an operation with one operand.
#[tactic(auto, unfolding(fi_eval::specs::Operators::math_of))]
fn math_of(math: Option<Fimath>) -> Fimath
    ensures { result ≡ operators.math_of math }
{
    match math {
        None => Fimath::usual(),
        Some(m) => m,
    }
}

// How many elements are added up to one.
fn addends(along: Along, shape: Shape) -> u32
    ensures { result ≡ sums.addends (along_view along) (shape_view shape) }
{
    match along {
        Along::Columns => shape.rows(),
        Along::Rows => shape.cols(),
    }
}

// How many sums there are.
fn group_count(along: Along, shape: Shape) -> u32
    ensures value { result ≡ group_count (along_view along) (shape_view shape) }
    ensures most { result ≤ 4096 }
{
    match along {
        Along::Columns => shape.cols(),
        Along::Rows => shape.rows(),
    }
}

// The shape of the sums.
fn sum_shape(along: Along, shape: Shape) -> Shape
    ensures value { shape_view result ≡ sums.sum_shape (along_view along) (shape_view shape) }
    ensures many { elements_of result ≡ group_count (along_view along) (shape_view shape) }
{
    match along {
        Along::Columns => row_of(shape.cols()),
        Along::Rows => column_of(shape.rows()),
    }
}

// The places of the elements that are added up to one sum.
fn group_places(alloc: Global, along: Along, shape: Shape, g: u32) -> Result<Vec<u32>, Memory>
    requires { g ≤ 4096 }
    ensures { IfOk result (λ v. v.items ≡ group (along_view along) (shape_view shape) g) }
{
    match along {
        Along::Columns => {
            let v = column_places(alloc, shape, g)?;
            Ok(v)
        }
        Along::Rows => {
            let v = row_places(alloc, shape, g)?;
            Ok(v)
        }
    }
}
