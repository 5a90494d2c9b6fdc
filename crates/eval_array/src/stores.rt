//! Subscripted assignments.

ghost use Rattle.std.specs.Prelude.{◌≡◌, All, length, map};
ghost use Rattle.num_type.specs.Types.{IsInRange};
ghost use Rattle.num_type.specs.View.{type_of};
ghost use Rattle.shape_rules.specs.Shapes.{elements_of};
ghost use Rattle.fi_eval.specs.Outcome.{bind, or_wrong};
ghost use Rattle.fi_rules.specs.Value as values;
ghost use Rattle.fi_values.specs.Stores as stores;
ghost use Rattle.fi_values.specs.Subscripts.{as_subscripts};
ghost use Rattle.eval_value.specs.Tells.{Tells};
ghost use Rattle.eval_value.specs.View.{item_view, logical_view, shape_view, value_view};
ghost use Rattle.eval_array.specs.Fitting as fitting;
ghost use Rattle.eval_array.specs.Views.{selection_view};

use crate::lists::put;
use crate::parts::{complex_fi, logical, real_fi};
use crate::select::select;
use crate::selection::Selection;
use crate::shapes::{is_same, is_scalar};
use crate::taken::{complex_taken, real_taken};
use eval_value::{FiValue, Halt, LogicalValue, Value};
use fic_base::Place;
use num_type::Int;
use shape_rules::Shape;
use std::alloc::Global;

/// The target with a value stored where one subscript or two select; none stands for `:`. The target's class and type stay, and the value is
/// taken to them. A single element is stored at every place.
///
/// Halts with want of memory; as wrong at the place where the target is no fi and no logical, a value is no subscript, there aren't one or
/// two, the value has neither one element nor, for one subscript, as many as are selected or, for two, the selected shape, or the target
/// takes nothing of it; and else with the fault of the site where a subscript is out of its extent.
#[tactic(auto, using(crate::proofs::Selected::store_missing, crate::proofs::Selected::store_found))]
pub fn store(
    alloc: Global,
    at: Place,
    site: u64,
    target: &Value,
    subscripts: &[Option<Value>],
    value: &Value,
) -> Result<Value, Halt>
    ensures { Tells result value_view (bind (or_wrong at (as_subscripts (map item_view subscripts.now))) (λ subs. stores.stored at site (value_view target.now) subs (value_view value.now))) }
{
    match select(alloc, target.shape(), subscripts)? {
        None => Err(Halt::Wrong(at)),
        Some(k) => {
            if fits(subscripts.len() == 1, &k, value.shape()) {
                let r = stored_at(alloc, at, site, target, &k, value)?;
                Ok(r)
            } else {
                Err(Halt::Wrong(at))
            }
        }
    }
}

// Whether a value of a shape fits what one subscript, or what two, select.
fn fits(only: bool, k: &Selection, shape: Shape) -> bool
    ensures { result ≡ fitting.fits_by only (selection_view k.now).shape (shape_view shape) }
{
    is_scalar(shape) || fits_all(only, k, shape)
}

// The same of a value that isn't scalar.
fn fits_all(only: bool, k: &Selection, shape: Shape) -> bool
    ensures { result ≡ fitting.fits_all only (selection_view k.now).shape (shape_view shape) }
{
    if only {
        shape.elements() == k.rows * k.columns
    } else {
        is_same(shape, k.rows, k.columns)
    }
}

// The target with a value at the selected places.
#[tactic(auto, unfolding(fi_values::specs::Stores::stored_at))]
fn stored_at(
    alloc: Global,
    at: Place,
    site: u64,
    target: &Value,
    k: &Selection,
    value: &Value,
) -> Result<Value, Halt>
    ensures { Tells result value_view (stores.stored_at at site (value_view target.now) (selection_view k.now) (value_view value.now)) }
{
    match target {
        Value::Fi(t) => match &t.im {
            None => {
                let r = real_stored(alloc, at, site, t, k, value)?;
                Ok(r)
            }
            Some(parts) => {
                let r = complex_stored(alloc, at, site, t, parts.as_slice(), k, value)?;
                Ok(r)
            }
        },
        Value::Logical(t) => {
            let r = logical_stored(alloc, at, site, t, k, value)?;
            Ok(r)
        }
        Value::Number(_) => Err(Halt::Wrong(at)),
        Value::Words(_) => Err(Halt::Wrong(at)),
        Value::Math(_) => Err(Halt::Wrong(at)),
        Value::Type(_) => Err(Halt::Wrong(at)),
    }
}

// A store to a real fi.
fn real_stored(
    alloc: Global,
    at: Place,
    site: u64,
    t: &FiValue,
    k: &Selection,
    value: &Value,
) -> Result<Value, Halt>
    ensures { Tells result value_view (stores.stored_at at site (values.Fi (type_of t.now.num) t.now.math (shape_view t.now.shape) t.now.re.items) (selection_view k.now) (value_view value.now)) }
{
    let found = real_taken(alloc, t.num, t.math, value)?;
    match found {
        None => Err(Halt::Wrong(at)),
        Some(re) => match &k.places {
            None => Err(Halt::Fault(site)),
            Some(places) => {
                let re = put(alloc, t.re.as_slice(), places.as_slice(), re.as_slice())?;
                Ok(real_fi(t.num, t.math, t.shape, re))
            }
        },
    }
}

// A store to a complex fi with these imaginary parts.
fn complex_stored(
    alloc: Global,
    at: Place,
    site: u64,
    t: &FiValue,
    parts: &[Int],
    k: &Selection,
    value: &Value,
) -> Result<Value, Halt>
    requires count { length parts.now ≡ elements_of t.now.shape }
    requires in_range { All (IsInRange (type_of t.now.num)) parts.now }
    ensures { Tells result value_view (stores.stored_at at site (values.ComplexFi (type_of t.now.num) t.now.math (shape_view t.now.shape) t.now.re.items parts.now) (selection_view k.now) (value_view value.now)) }
{
    let found = complex_taken(alloc, t.num, t.math, value)?;
    match found {
        None => Err(Halt::Wrong(at)),
        Some(p) => match &k.places {
            None => Err(Halt::Fault(site)),
            Some(places) => {
                let re = put(alloc, t.re.as_slice(), places.as_slice(), p.re.as_slice())?;
                let im = put(alloc, parts, places.as_slice(), p.im.as_slice())?;
                Ok(complex_fi(t.num, t.math, t.shape, re, im))
            }
        },
    }
}

// A store to a logical value.
fn logical_stored(
    alloc: Global,
    at: Place,
    site: u64,
    t: &LogicalValue,
    k: &Selection,
    value: &Value,
) -> Result<Value, Halt>
    ensures { Tells result value_view (stores.stored_at at site (logical_view t.now) (selection_view k.now) (value_view value.now)) }
{
    match value {
        Value::Logical(v) => match &k.places {
            None => Err(Halt::Fault(site)),
            Some(places) => {
                let truths = put(
                    alloc,
                    t.truths.as_slice(),
                    places.as_slice(),
                    v.truths.as_slice(),
                )?;
                Ok(logical(t.shape, truths))
            }
        },
        Value::Fi(_) => Err(Halt::Wrong(at)),
        Value::Number(_) => Err(Halt::Wrong(at)),
        Value::Words(_) => Err(Halt::Wrong(at)),
        Value::Math(_) => Err(Halt::Wrong(at)),
        Value::Type(_) => Err(Halt::Wrong(at)),
    }
}
