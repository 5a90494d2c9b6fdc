//! Built-in functions that ask for a shape, take parts, and make arrays of numbers.

ghost use Rattle.std.specs.Prelude.{◌≡◌, ◌≤◌, Some, IfOk};
ghost use Rattle.num_type.specs.View.{exact_of, type_of};
ghost use Rattle.fi_rules.specs.Value as values;
ghost use Rattle.fi_values.specs.Arithmetic.{governing};
ghost use Rattle.fi_values.specs.Queries as queries;
ghost use Rattle.eval_value.specs.View.{fi_view, item_view, shape_view, value_view};
ghost use Rattle.eval_array.specs.Views.{shape_answer};

use crate::brackets::is_same_type;
use crate::lists::{repeated, spread};
use crate::parts::{complex_fi, real_fi, real_number};
use crate::shapes::{common, small_shape};
use crate::taken::noughts;
use eval_value::{FiValue, Value, make_whole};
use fi_math::{Fimath, Governed, govern};
use num_type::{Dyadic, Memory};
use shape_rules::Shape;
use std::alloc::Global;

// The shape of a fi, a logical or a number. None for a text or an object.
#[tactic(auto, unfolding(fi_values::specs::Queries::array_shape))]
fn array_shape(value: &Value) -> Option<Shape>
    ensures { shape_answer result ≡ queries.array_shape (value_view value.now) }
{
    match value {
        Value::Fi(v) => Some(v.shape),
        Value::Logical(v) => Some(v.shape),
        Value::Number(v) => Some(v.shape),
        Value::Words(_) => None,
        Value::Math(_) => None,
        Value::Type(_) => None,
    }
}

/// The number of elements. None for a text or an object. Want of memory is the only refusal.
#[tactic(auto, unfolding(fi_rules::specs::Options::and_then))]
pub fn element_count(alloc: Global, value: &Value) -> Result<Option<Value>, Memory>
    ensures { IfOk result (λ r. item_view r ≡ queries.element_count (value_view value.now)) }
{
    match array_shape(value) {
        None => Ok(None),
        Some(s) => {
            let n = make_whole(alloc, s.elements())?;
            Ok(Some(n))
        }
    }
}

/// The greater one of the numbers of rows and columns. None for a text or an object. Want of memory is the only refusal.
#[tactic(auto, unfolding(fi_rules::specs::Options::and_then))]
pub fn greater_extent(alloc: Global, value: &Value) -> Result<Option<Value>, Memory>
    ensures { IfOk result (λ r. item_view r ≡ queries.greater_extent (value_view value.now)) }
{
    match array_shape(value) {
        None => Ok(None),
        Some(s) => {
            let n = make_whole(alloc, s.rows().max(s.cols()))?;
            Ok(Some(n))
        }
    }
}

/// The number of rows (dimension 1) or columns (2). None for any other dimension, and for a text or an object. Want of memory is the only
/// refusal.
#[tactic(auto, unfolding(fi_rules::specs::Options::and_then))]
pub fn extent_along(alloc: Global, dimension: u32, value: &Value) -> Result<Option<Value>, Memory>
    ensures { IfOk result (λ r. item_view r ≡ queries.extent_of dimension (value_view value.now)) }
{
    match array_shape(value) {
        None => Ok(None),
        Some(s) => match extent_in(dimension, s) {
            None => Ok(None),
            Some(extent) => {
                let n = make_whole(alloc, extent)?;
                Ok(Some(n))
            }
        },
    }
}

// The rows or the columns of a shape.
#[tactic(auto, unfolding(fi_values::specs::Queries::extent_along))]
fn extent_in(dimension: u32, s: Shape) -> Option<u32>
    ensures { result ≡ queries.extent_along dimension (shape_view s) }
{
    if dimension == 1 {
        Some(s.rows())
    } else if dimension == 2 {
        Some(s.cols())
    } else {
        None
    }
}

/// The real parts of a fi. None for any other value. Want of memory is the only refusal.
#[tactic(auto, unfolding(fi_values::specs::Queries::real_part))]
pub fn real_part(alloc: Global, value: &Value) -> Result<Option<Value>, Memory>
    ensures { IfOk result (λ r. item_view r ≡ queries.real_part (value_view value.now)) }
{
    match value {
        Value::Fi(v) => {
            let r = real_part_of(alloc, v)?;
            Ok(Some(r))
        }
        Value::Logical(_) => Ok(None),
        Value::Number(_) => Ok(None),
        Value::Words(_) => Ok(None),
        Value::Math(_) => Ok(None),
        Value::Type(_) => Ok(None),
    }
}

// Those of a fi.
fn real_part_of(alloc: Global, v: &FiValue) -> Result<Value, Memory>
    ensures { IfOk result (λ r. value_view r ≡ values.Fi (type_of v.now.num) v.now.math (shape_view v.now.shape) v.now.re.items) }
{
    let re = Vec::from_slice(alloc, v.re.as_slice())?;
    Ok(real_fi(v.num, v.math, v.shape, re))
}

/// The imaginary parts of a fi: zeros where it is real. None for any other value. Want of memory is the only refusal.
#[tactic(auto, unfolding(fi_values::specs::Queries::imaginary_part))]
pub fn imaginary_part(alloc: Global, value: &Value) -> Result<Option<Value>, Memory>
    ensures { IfOk result (λ r. item_view r ≡ queries.imaginary_part (value_view value.now)) }
{
    match value {
        Value::Fi(v) => {
            let r = imaginary_part_of(alloc, v)?;
            Ok(Some(r))
        }
        Value::Logical(_) => Ok(None),
        Value::Number(_) => Ok(None),
        Value::Words(_) => Ok(None),
        Value::Math(_) => Ok(None),
        Value::Type(_) => Ok(None),
    }
}

// Those of a fi.
#[tactic(auto, unfolding(fi_values::specs::Queries::imaginary_part))]
fn imaginary_part_of(alloc: Global, v: &FiValue) -> Result<Value, Memory>
    ensures { IfOk result (λ r. Some (value_view r) ≡ queries.imaginary_part (fi_view v.now)) }
{
    match &v.im {
        None => {
            let im = noughts(alloc, v.re.as_slice())?;
            Ok(real_fi(v.num, v.math, v.shape, im))
        }
        Some(parts) => {
            let im = Vec::from_slice(alloc, parts.as_slice())?;
            Ok(real_fi(v.num, v.math, v.shape, im))
        }
    }
}

/// The complex fi of two real ones of one type, element by element, a single one with each. None where they aren't such, their shapes don't
/// fit, or their fimaths differ. Want of memory is the only refusal.
pub fn complex_of(alloc: Global, v: &Value, w: &Value) -> Result<Option<Value>, Memory>
    ensures { IfOk result (λ r. item_view r ≡ queries.complex_of (value_view v.now) (value_view w.now)) }
{
    match v {
        Value::Fi(a) => {
            let r = complex_with(alloc, a, w)?;
            Ok(r)
        }
        _ => Ok(None),
    }
}

// Of a fi and a value.
fn complex_with(alloc: Global, a: &FiValue, w: &Value) -> Result<Option<Value>, Memory>
    ensures { IfOk result (λ r. item_view r ≡ queries.complex_of (fi_view a.now) (value_view w.now)) }
{
    match w {
        Value::Fi(b) => {
            let r = complex_of_fis(alloc, a, b)?;
            Ok(r)
        }
        _ => Ok(None),
    }
}

// Of two fis.
#[tactic(auto, unfolding(fi_values::specs::Queries::complex_of))]
fn complex_of_fis(alloc: Global, a: &FiValue, b: &FiValue) -> Result<Option<Value>, Memory>
    ensures { IfOk result (λ r. item_view r ≡ queries.complex_of (fi_view a.now) (fi_view b.now)) }
{
    match &a.im {
        Some(_) => Ok(None),
        None => match &b.im {
            Some(_) => Ok(None),
            None => {
                let r = complex_of_reals(alloc, a, b)?;
                Ok(r)
            }
        },
    }
}

// Of two real fis.
fn complex_of_reals(alloc: Global, a: &FiValue, b: &FiValue) -> Result<Option<Value>, Memory>
    ensures { IfOk result (λ r. item_view r ≡ queries.complex_of (values.Fi (type_of a.now.num) a.now.math (shape_view a.now.shape) a.now.re.items) (values.Fi (type_of b.now.num) b.now.math (shape_view b.now.shape) b.now.re.items)) }
{
    if is_same_type(a.num, b.num) {
        match common(a.shape, b.shape) {
            None => Ok(None),
            Some(shape) => match governing(a.math, b.math) {
                None => Ok(None),
                Some(g) => {
                    let re = spread(alloc, b.re.len(), a.re.as_slice())?;
                    let im = spread(alloc, a.re.len(), b.re.as_slice())?;
                    Ok(Some(complex_fi(a.num, g.attached, shape, re, im)))
                }
            },
        }
    } else {
        Ok(None)
    }
}

// The fimath that governs an operation of two fis with these attached. None where they are unequal.
#[tactic(auto, unfolding(fi_values::specs::Arithmetic::governing))]
fn governing(m: Option<Fimath>, n: Option<Fimath>) -> Option<Governed>
    ensures { result ≡ governing m n }
{
    match govern(m, n) {
        Ok(g) => Some(g),
        Err(_) => None,
    }
}

/// An array of so many rows and columns of one constant. None where it has more than 4,096 elements. Want of memory is the only refusal.
pub fn filled(
    alloc: Global,
    number: Dyadic,
    rows: u64,
    columns: u64,
) -> Result<Option<Value>, Memory>
    requires rows { 1 ≤ rows }
    requires columns { 1 ≤ columns }
    ensures { IfOk result (λ r. item_view r ≡ queries.filled (exact_of number) (record { rows = rows; columns = columns })) }
{
    if rows > 4096 {
        Ok(None)
    } else if columns > 4096 {
        Ok(None)
    } else {
        match small_shape(rows as u32, columns as u32) {
            None => Ok(None),
            Some(shape) => {
                let re = repeated(alloc, number, shape.elements() as usize)?;
                Ok(Some(real_number(shape, re)))
            }
        }
    }
}
