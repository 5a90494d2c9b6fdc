//! Comparisons of logical values.

ghost use Rattle.std.specs.Prelude.{◌≡◌, IfOk, length, map, vec_len};
ghost use mathlib.Core.Bool.{beq};
ghost use Rattle.shape_rules.specs.Shapes.{elements_of};
ghost use Rattle.fi_rules.specs.Options as options;
ghost use Rattle.fi_rules.specs.Value.{Logical};
ghost use Rattle.fi_values.specs.Comparisons as comparisons;
ghost use Rattle.fi_values.specs.Comparisons.{Equals};
ghost use Rattle.fi_values.specs.Shapes as shapes;
ghost use Rattle.eval_value.specs.View.{item_view, logical_view, shape_view};
ghost use Rattle.eval_math.specs.Orders.{comparison_view};
ghost use Rattle.eval_math.specs.View.{IsMet, paired};

use crate::comparison::Comparison;
use crate::elements::pairs;
use crate::shapes::common;
use eval_value::{LogicalValue, Value};
use num_type::Memory;
use shape_rules::Shape;
use std::alloc::Global;

/// The comparison of two logical values: whether they are equal, or differ. None by order, and where their shapes don't fit; want of memory is
/// the only refusal.
#[tactic(auto, unfolding(fi_values::specs::Comparisons::compared_values, fi_values::specs::Comparisons::of_truths))]
pub fn logicals_compared(
    alloc: Global,
    k: Comparison,
    a: &LogicalValue,
    b: &LogicalValue,
) -> Result<Option<Value>, Memory>
    ensures { IfOk result (λ r. item_view r ≡ comparisons.compared_values (comparison_view k) (logical_view a.now) (logical_view b.now)) }
{
    match k {
        Comparison::Orders(_) => Ok(None),
        Comparison::Equals(same) => {
            let r = logicals_equal(alloc, same, a, b)?;
            Ok(r)
        }
    }
}

// Whether they are equal, or differ.
fn logicals_equal(
    alloc: Global,
    same: bool,
    a: &LogicalValue,
    b: &LogicalValue,
) -> Result<Option<Value>, Memory>
    ensures { IfOk result (λ r. item_view r ≡ comparisons.of_truths (Equals same) (shape_view a.now.shape) a.now.truths.items (shape_view b.now.shape) b.now.truths.items) }
{
    match common(a.shape, b.shape) {
        None => Ok(None),
        Some(shape) => {
            let count = shape.elements();
            let met = pairs(alloc, count, a.truths.as_slice(), b.truths.as_slice())?;
            let truths = equal_truths(alloc, same, met.as_slice())?;
            Ok(Some(Value::Logical(LogicalValue { shape, truths })))
        }
    }
}

// The same of the pairs that meet.
fn equal_truths(alloc: Global, same: bool, met: &[(bool, bool)]) -> Result<Vec<bool>, Memory>
    ensures value { IfOk result (λ v. v.items ≡ map (λ p. beq same (beq p.0 p.1)) met.now) }
    ensures many { IfOk result (λ v. vec_len v ≡ length met.now) }
{
    let mut out = Vec::new(alloc);
    for p in met {
        out.push(same == (p.0 == p.1))?;
    }
    Ok(out)
}
