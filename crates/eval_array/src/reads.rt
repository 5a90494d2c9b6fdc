//! Subscripted reads.

ghost use Rattle.std.specs.Prelude.{◌≡◌, map, Err};
ghost use Rattle.fi_eval.specs.Outcome.{bind, choose, or_wrong, Wrong};
ghost use Rattle.fi_values.specs.Reads as reads;
ghost use Rattle.fi_values.specs.Shapes.{is_small};
ghost use Rattle.fi_values.specs.Subscripts.{as_subscripts};
ghost use Rattle.eval_value.specs.Tells.{Tells};
ghost use Rattle.eval_value.specs.View.{item_view, shape_view, value_view};
ghost use Rattle.eval_array.specs.Rearrangements as values;
ghost use Rattle.eval_array.specs.Views.{selection_view};

use crate::rearranged::rearranged;
use crate::select::select;
use crate::selection::Selection;
use crate::shapes::small_shape;
use eval_value::{Halt, Value};
use fic_base::Place;
use shape_rules::Shape;
use std::alloc::Global;

/// The elements of a value that one subscript or two select; none stands for `:`. A fi or a logical has them at any subscripts, and a number
/// only at `:` and constants.
///
/// Halts with want of memory; as wrong at the place where the value has no elements, a value is no subscript, there aren't one or two, more
/// than 4,096 elements are selected, or the subscripts of a number aren't `:` or constants within their extents; and else with the fault of
/// the site where a subscript is out of its extent.
#[tactic(auto, using(crate::proofs::Selected::read_missing, crate::proofs::Selected::read_found))]
pub fn read(
    alloc: Global,
    at: Place,
    site: u64,
    value: &Value,
    subscripts: &[Option<Value>],
) -> Result<Value, Halt>
    ensures { Tells result value_view (bind (or_wrong at (as_subscripts (map item_view subscripts.now))) (λ subs. reads.read at site (value_view value.now) subs)) }
{
    match select(alloc, value.shape(), subscripts)? {
        None => Err(Halt::Wrong(at)),
        Some(k) => {
            let r = read_small(alloc, at, site, value, &k)?;
            Ok(r)
        }
    }
}

// A read of at most 4,096 elements.
fn read_small(
    alloc: Global,
    at: Place,
    site: u64,
    value: &Value,
    k: &Selection,
) -> Result<Value, Halt>
    ensures { Tells result value_view (choose (is_small (selection_view k.now).shape) (reads.selected at site (value_view value.now) (selection_view k.now)) (Wrong at)) }
{
    match small_shape(k.rows, k.columns) {
        None => Err(Halt::Wrong(at)),
        Some(shape) => {
            let r = selected(alloc, at, site, value, k, shape)?;
            Ok(r)
        }
    }
}

// The selected elements, in this shape.
fn selected(
    alloc: Global,
    at: Place,
    site: u64,
    value: &Value,
    k: &Selection,
    shape: Shape,
) -> Result<Value, Halt>
    requires { shape_view shape ≡ (selection_view k.now).shape }
    ensures { Tells result value_view (reads.selected at site (value_view value.now) (selection_view k.now)) }
{
    if is_readable(value, k.fixed) {
        match &k.places {
            None => Err(missed(at, site, value)),
            Some(places) => {
                let r = rearranged(alloc, value, shape, places.as_slice())?;
                Ok(r)
            }
        }
    } else {
        Err(Halt::Wrong(at))
    }
}

/// Whether a value has elements that are read: of a number by fixed subscripts alone.
#[tactic(auto, unfolding(crate::specs::Rearrangements::is_readable))]
pub fn is_readable(value: &Value, fixed: bool) -> bool
    ensures { result ≡ values.is_readable fixed (value_view value.now) }
{
    match value {
        Value::Fi(_) => true,
        Value::Logical(_) => true,
        Value::Number(_) => fixed,
        Value::Words(_) => false,
        Value::Math(_) => false,
        Value::Type(_) => false,
    }
}

// What a read out of an extent comes to.
#[tactic(auto, unfolding(crate::specs::Rearrangements::missed))]
fn missed(at: Place, site: u64, value: &Value) -> Halt
    ensures { Tells (Err result) value_view (values.missed at site (value_view value.now)) }
{
    match value {
        Value::Fi(_) => Halt::Fault(site),
        Value::Logical(_) => Halt::Fault(site),
        Value::Number(_) => Halt::Wrong(at),
        Value::Words(_) => Halt::Wrong(at),
        Value::Math(_) => Halt::Wrong(at),
        Value::Type(_) => Halt::Wrong(at),
    }
}
