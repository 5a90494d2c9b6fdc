//! Brackets.

ghost use Rattle.std.specs.Prelude.{◌≡◌, ◌&&◌, All, is_none, drop, length, map, IfOk, vec_len};
ghost use Rattle.num_type.specs.Types.{IsInRange};
ghost use Rattle.num_type.specs.View.{exact_of, type_of};
ghost use Rattle.shape_rules.specs.Shapes.{elements_of};
ghost use Rattle.fi_rules.specs.Types as types;
ghost use Rattle.fi_rules.specs.Value as values;
ghost use Rattle.fi_values.specs.Brackets as brackets;
ghost use Rattle.eval_value.specs.View.{fi_view, item_view, logical_view, number_view, row_view, shape_view, value_view};
ghost use Rattle.eval_array.specs.Joints.{fi_joint, imaginary_of};
ghost use Rattle.eval_array.specs.Views.{join_view, shape_answer};

use crate::join::{Join, joined_lists, joined_shape};
use crate::lists::repeated;
use crate::parts::{complex_fi, complex_number, logical, real_fi, real_number};
use eval_value::{FiValue, LogicalValue, NumberValue, Value};
use fi_math::Fimath;
use num_type::{Dyadic, Int, Memory, NumType};
use shape_rules::Shape;
use std::alloc::Global;

/// The array of the rows of a bracket: the values of a row stand beside each other, and the rows one above the other. All are numbers, all
/// logicals, or all fis equal in type, fimath and complexity. None where they aren't, a row or the bracket is empty, shapes don't fit, or
/// there are more than 4,096 elements. Want of memory is the only refusal.
pub fn bracket(alloc: Global, rows: &[Vec<Value>]) -> Result<Option<Value>, Memory>
    ensures { IfOk result (λ r. item_view r ≡ brackets.bracket (map row_view rows.now)) }
{
    let mut values = Vec::new(alloc);
    for k in 0..rows.len() {
        let row = &rows[k];
        match joined_by(alloc, Join::Beside, row.as_slice())? {
            None => return Ok(None),
            Some(v) => values.push(v)?,
        }
    }
    let r = joined_by(alloc, Join::Above, values.as_slice())?;
    Ok(r)
}

// The first of these values with the others. None where there is none, or they don't fit.
fn joined_by(alloc: Global, join: Join, values: &[Value]) -> Result<Option<Value>, Memory>
    ensures { IfOk result (λ r. item_view r ≡ brackets.joined_by (join_view join) (map value_view values.now)) }
{
    if values.len() == 0 {
        return Ok(None);
    }
    match element(alloc, &values[0])? {
        None => Ok(None),
        Some(first) => {
            let r = all_joined(alloc, join, first, values)?;
            Ok(r)
        }
    }
}

// A value with all of these but the first.
fn all_joined(
    alloc: Global,
    join: Join,
    first: Value,
    values: &[Value],
) -> Result<Option<Value>, Memory>
    ensures { IfOk result (λ r. item_view r ≡ brackets.all_joined (join_view join) (value_view first) (map value_view (drop 1 values.now))) }
{
    let mut all = first;
    for k in 1..values.len() {
        match joined(alloc, join, &all, &values[k])? {
            None => return Ok(None),
            Some(next) => all = next,
        }
    }
    Ok(Some(all))
}

// A copy of a value that stands in a bracket: a fi, a logical or a number.
#[tactic(auto, unfolding(fi_values::specs::Brackets::is_element))]
fn element(alloc: Global, value: &Value) -> Result<Option<Value>, Memory>
    ensures { IfOk result (λ r. item_view r ≡ brackets.is_element (value_view value.now)) }
{
    match value {
        Value::Fi(v) => {
            let c = v.copied(alloc)?;
            Ok(Some(Value::Fi(c)))
        }
        Value::Logical(v) => {
            let c = v.copied(alloc)?;
            Ok(Some(Value::Logical(c)))
        }
        Value::Number(v) => {
            let c = v.copied(alloc)?;
            Ok(Some(Value::Number(c)))
        }
        Value::Words(_) => Ok(None),
        Value::Math(_) => Ok(None),
        Value::Type(_) => Ok(None),
    }
}

// Two values joined. None where they don't fit.
fn joined(alloc: Global, join: Join, v: &Value, w: &Value) -> Result<Option<Value>, Memory>
    ensures { IfOk result (λ r. item_view r ≡ brackets.joined (join_view join) (value_view v.now) (value_view w.now)) }
{
    match v {
        Value::Fi(a) => {
            let r = joined_to_fi(alloc, join, a, w)?;
            Ok(r)
        }
        Value::Logical(a) => {
            let r = joined_to_logical(alloc, join, a, w)?;
            Ok(r)
        }
        Value::Number(a) => {
            let r = joined_to_number(alloc, join, a, w)?;
            Ok(r)
        }
        Value::Words(_) => Ok(None),
        Value::Math(_) => Ok(None),
        Value::Type(_) => Ok(None),
    }
}

// A fi and a value.
fn joined_to_fi(alloc: Global, join: Join, a: &FiValue, w: &Value) -> Result<Option<Value>, Memory>
    ensures { IfOk result (λ r. item_view r ≡ brackets.joined (join_view join) (fi_view a.now) (value_view w.now)) }
{
    match w {
        Value::Fi(b) => {
            let r = joined_fis(alloc, join, a, b)?;
            Ok(r)
        }
        _ => Ok(None),
    }
}

// A logical value and a value.
fn joined_to_logical(
    alloc: Global,
    join: Join,
    a: &LogicalValue,
    w: &Value,
) -> Result<Option<Value>, Memory>
    ensures { IfOk result (λ r. item_view r ≡ brackets.joined (join_view join) (logical_view a.now) (value_view w.now)) }
{
    match w {
        Value::Logical(b) => {
            let r = joined_logicals(alloc, join, a, b)?;
            Ok(r)
        }
        _ => Ok(None),
    }
}

// Constants and a value.
fn joined_to_number(
    alloc: Global,
    join: Join,
    a: &NumberValue,
    w: &Value,
) -> Result<Option<Value>, Memory>
    ensures { IfOk result (λ r. item_view r ≡ brackets.joined (join_view join) (number_view a.now) (value_view w.now)) }
{
    match w {
        Value::Number(b) => {
            let r = joined_numbers(alloc, join, a, b)?;
            Ok(r)
        }
        _ => Ok(None),
    }
}

// Two fis: both are real, or both are complex.
#[tactic(auto, unfolding(fi_values::specs::Brackets::joined))]
fn joined_fis(alloc: Global, join: Join, a: &FiValue, b: &FiValue) -> Result<Option<Value>, Memory>
    ensures { IfOk result (λ r. item_view r ≡ brackets.joined (join_view join) (fi_view a.now) (fi_view b.now)) }
{
    match &a.im {
        None => match &b.im {
            None => {
                let r = joined_real(alloc, join, a, b)?;
                Ok(r)
            }
            Some(_) => Ok(None),
        },
        Some(xs) => match &b.im {
            None => Ok(None),
            Some(ys) => {
                let r = joined_complex(alloc, join, a, xs.as_slice(), b, ys.as_slice())?;
                Ok(r)
            }
        },
    }
}

// Two real fis.
#[tactic(auto, unfolding(fi_values::specs::Brackets::joined, fi_rules::specs::Options::and_then, fi_rules::specs::Options::where_so))]
fn joined_real(alloc: Global, join: Join, a: &FiValue, b: &FiValue) -> Result<Option<Value>, Memory>
    ensures { IfOk result (λ r. item_view r ≡ brackets.joined (join_view join) (values.Fi (type_of a.now.num) a.now.math (shape_view a.now.shape) a.now.re.items) (values.Fi (type_of b.now.num) b.now.math (shape_view b.now.shape) b.now.re.items)) }
{
    match fi_shape(join, a, b) {
        None => Ok(None),
        Some(q) => {
            let re = joined_lists(
                alloc,
                join,
                a.shape,
                b.shape,
                a.re.as_slice(),
                b.re.as_slice(),
            )?;
            Ok(Some(real_fi(a.num, a.math, q, re)))
        }
    }
}

// Two complex fis with these imaginary parts.
fn joined_complex(
    alloc: Global,
    join: Join,
    a: &FiValue,
    xs: &[Int],
    b: &FiValue,
    ys: &[Int],
) -> Result<Option<Value>, Memory>
    requires left { length xs.now ≡ elements_of a.now.shape }
    requires right { length ys.now ≡ elements_of b.now.shape }
    requires left_in_range { All (IsInRange (type_of a.now.num)) xs.now }
    requires right_in_range { All (IsInRange (type_of b.now.num)) ys.now }
    ensures { IfOk result (λ r. item_view r ≡ brackets.joined (join_view join) (values.ComplexFi (type_of a.now.num) a.now.math (shape_view a.now.shape) a.now.re.items xs.now) (values.ComplexFi (type_of b.now.num) b.now.math (shape_view b.now.shape) b.now.re.items ys.now)) }
{
    match fi_shape(join, a, b) {
        None => Ok(None),
        Some(q) => {
            let re = joined_lists(
                alloc,
                join,
                a.shape,
                b.shape,
                a.re.as_slice(),
                b.re.as_slice(),
            )?;
            let im = joined_lists(alloc, join, a.shape, b.shape, xs, ys)?;
            Ok(Some(complex_fi(a.num, a.math, q, re, im)))
        }
    }
}

// The joined shape of fis with the same type and fimath.
#[tactic(auto, unfolding(fi_rules::specs::Options::and_then, fi_rules::specs::Options::where_so))]
fn fi_shape(join: Join, a: &FiValue, b: &FiValue) -> Option<Shape>
    ensures { shape_answer result ≡ fi_joint (join_view join) (type_of a.now.num) a.now.math (shape_view a.now.shape) (type_of b.now.num) b.now.math (shape_view b.now.shape) }
{
    if is_same_kind(a, b) {
        joined_shape(join, a.shape, b.shape)
    } else {
        None
    }
}

// Whether two fis have the same type and fimath.
fn is_same_kind(a: &FiValue, b: &FiValue) -> bool
    ensures { result ≡ brackets.same_kind (type_of a.now.num) a.now.math (type_of b.now.num) b.now.math }
{
    is_same_type(a.num, b.num) && is_same_attached(a.math, b.math)
}

/// Whether two types have the same parts.
pub fn is_same_type(a: NumType, b: NumType) -> bool
    ensures { result ≡ types.same_type (type_of a) (type_of b) }
{
    a.signed() == b.signed() && a.word() == b.word() && a.fraction() == b.fraction()
}

// Whether the same fimath is attached, or none.
#[tactic(auto, unfolding(fi_rules::specs::Types::same_attached))]
fn is_same_attached(a: Option<Fimath>, b: Option<Fimath>) -> bool
    ensures { result ≡ types.same_attached a b }
{
    match (a, b) {
        (None, None) => true,
        (Some(m), Some(n)) => m.same(n),
        (None, Some(_)) => false,
        (Some(_), None) => false,
    }
}

// Two logical values.
#[tactic(auto, unfolding(fi_values::specs::Brackets::joined, fi_rules::specs::Options::and_then))]
fn joined_logicals(
    alloc: Global,
    join: Join,
    a: &LogicalValue,
    b: &LogicalValue,
) -> Result<Option<Value>, Memory>
    ensures { IfOk result (λ r. item_view r ≡ brackets.joined (join_view join) (logical_view a.now) (logical_view b.now)) }
{
    match joined_shape(join, a.shape, b.shape) {
        None => Ok(None),
        Some(q) => {
            let truths = joined_lists(
                alloc,
                join,
                a.shape,
                b.shape,
                a.truths.as_slice(),
                b.truths.as_slice(),
            )?;
            Ok(Some(logical(q, truths)))
        }
    }
}

// Numbers, complex where one of them is.
fn joined_numbers(
    alloc: Global,
    join: Join,
    a: &NumberValue,
    b: &NumberValue,
) -> Result<Option<Value>, Memory>
    ensures { IfOk result (λ r. item_view r ≡ brackets.joined (join_view join) (number_view a.now) (number_view b.now)) }
{
    match joined_shape(join, a.shape, b.shape) {
        None => Ok(None),
        Some(q) => {
            let re = joined_lists(
                alloc,
                join,
                a.shape,
                b.shape,
                a.re.as_slice(),
                b.re.as_slice(),
            )?;
            if are_real(a, b) {
                Ok(Some(real_number(q, re)))
            } else {
                let xs = imaginary_parts(alloc, a)?;
                let ys = imaginary_parts(alloc, b)?;
                let im = joined_lists(alloc, join, a.shape, b.shape, xs.as_slice(), ys.as_slice())?;
                Ok(Some(complex_number(q, re, im)))
            }
        }
    }
}

// Whether both are real.
fn are_real(a: &NumberValue, b: &NumberValue) -> bool
    ensures { result ≡ (is_none a.now.im && is_none b.now.im) }
{
    a.im.is_none() && b.im.is_none()
}

// The imaginary parts: zeros where they are real.
fn imaginary_parts(alloc: Global, v: &NumberValue) -> Result<Vec<Dyadic>, Memory>
    ensures value { IfOk result (λ r. map exact_of r.items ≡ imaginary_of (number_view v.now)) }
    ensures count { IfOk result (λ r. vec_len r ≡ elements_of v.now.shape) }
{
    match &v.im {
        None => {
            let parts = repeated(alloc, Dyadic::zero(), v.re.len())?;
            Ok(parts)
        }
        Some(parts) => {
            let parts = Vec::from_slice(alloc, parts.as_slice())?;
            Ok(parts)
        }
    }
}
