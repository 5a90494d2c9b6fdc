//! The elements at places of a value of any class.

ghost use Rattle.std.specs.Prelude.{◌≡◌, length, map, pos, IfOk};
ghost use Rattle.num_type.specs.View.{exact_of};
ghost use Rattle.shape_rules.specs.Shapes.{elements_of};
ghost use Rattle.fi_values.specs.Elements as elements;
ghost use Rattle.fi_values.specs.Numbers.{nought};
ghost use Rattle.eval_value.specs.View.{fi_view, logical_view, number_view, shape_view, value_view};
ghost use Rattle.eval_array.specs.Rearrangements.{rearranged};

use crate::parts::{complex_fi, complex_number, logical, real_fi, real_number};
use eval_value::{FiValue, LogicalValue, NumberValue, Value, picked};
use num_type::{Dyadic, Int, Memory};
use shape_rules::Shape;
use std::alloc::Global;

/// The elements at these places as an array of this shape, of the class and the type of the value; a text or an object stays. Want of memory
/// is the only refusal.
#[tactic(auto, unfolding(crate::specs::Rearrangements::rearranged))]
pub fn rearranged(
    alloc: Global,
    value: &Value,
    shape: Shape,
    places: &[u32],
) -> Result<Value, Memory>
    requires { length places.now ≡ elements_of shape }
    ensures { IfOk result (λ r. value_view r ≡ rearranged (shape_view shape) places.now (value_view value.now)) }
{
    match value {
        Value::Fi(v) => {
            let r = rearranged_fi(alloc, v, shape, places)?;
            Ok(r)
        }
        Value::Logical(v) => {
            let r = rearranged_logical(alloc, v, shape, places)?;
            Ok(r)
        }
        Value::Number(v) => {
            let r = rearranged_number(alloc, v, shape, places)?;
            Ok(r)
        }
        Value::Words(_) => {
            let r = value.copied(alloc)?;
            Ok(r)
        }
        Value::Math(m) => Ok(Value::Math(*m)),
        Value::Type(t) => Ok(Value::Type(*t)),
    }
}

// Of a fi.
#[tactic(auto, unfolding(crate::specs::Rearrangements::rearranged))]
fn rearranged_fi(alloc: Global, v: &FiValue, shape: Shape, places: &[u32]) -> Result<Value, Memory>
    requires { length places.now ≡ elements_of shape }
    ensures { IfOk result (λ r. value_view r ≡ rearranged (shape_view shape) places.now (fi_view v.now)) }
{
    let nought = zero();
    let re = picked(alloc, nought, v.re.as_slice(), places)?;
    match &v.im {
        None => Ok(real_fi(v.num, v.math, shape, re)),
        Some(parts) => {
            let im = picked(alloc, nought, parts.as_slice(), places)?;
            Ok(complex_fi(v.num, v.math, shape, re, im))
        }
    }
}

// Of a logical value.
#[tactic(auto, unfolding(crate::specs::Rearrangements::rearranged))]
fn rearranged_logical(
    alloc: Global,
    v: &LogicalValue,
    shape: Shape,
    places: &[u32],
) -> Result<Value, Memory>
    requires { length places.now ≡ elements_of shape }
    ensures { IfOk result (λ r. value_view r ≡ rearranged (shape_view shape) places.now (logical_view v.now)) }
{
    let truths = picked(alloc, false, v.truths.as_slice(), places)?;
    Ok(logical(shape, truths))
}

// Of constants.
#[tactic(auto, unfolding(crate::specs::Rearrangements::rearranged))]
fn rearranged_number(
    alloc: Global,
    v: &NumberValue,
    shape: Shape,
    places: &[u32],
) -> Result<Value, Memory>
    requires { length places.now ≡ elements_of shape }
    ensures { IfOk result (λ r. value_view r ≡ rearranged (shape_view shape) places.now (number_view v.now)) }
{
    let re = picked_numbers(alloc, v.re.as_slice(), places)?;
    match &v.im {
        None => Ok(real_number(shape, re)),
        Some(parts) => {
            let im = picked_numbers(alloc, parts.as_slice(), places)?;
            Ok(complex_number(shape, re, im))
        }
    }
}

// The constants at these places.
fn picked_numbers(alloc: Global, all: &[Dyadic], places: &[u32]) -> Result<Vec<Dyadic>, Memory>
    ensures { IfOk result (λ v. map exact_of v.items ≡ elements.picked nought (map exact_of all.now) places.now) }
{
    let v = picked(alloc, Dyadic::zero(), all, places)?;
    Ok(v)
}

/// 0.
pub fn zero() -> Int
    ensures { result ≡ pos 0 }
{
    Int::of(false, 0)
}
