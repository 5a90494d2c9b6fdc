//! Comparisons of values of every class.

ghost use Rattle.std.specs.Prelude.{◌≡◌, IfOk};
ghost use Rattle.fi_rules.specs.Options as options;
ghost use Rattle.fi_values.specs.Comparisons as comparisons;
ghost use Rattle.eval_value.specs.View.{item_view, logical_view, number_view, value_view};
ghost use Rattle.eval_math.specs.Orders.{comparison_view};

use crate::comparison::{Comparison, comparison_of};
use crate::logical_comparisons::logicals_compared;
use crate::number_comparisons::numbers_compared;
use crate::task::{Task, fi_first, number_and_fi};
use eval_value::{LogicalValue, NumberValue, Value};
use mat_ast::BinOp;
use num_type::Memory;
use std::alloc::Global;

/// The logical array that a comparison makes of two values: by exact values, and of logicals whether they are equal or differ. None where the
/// operator is no comparison, the shapes or the fimaths don't fit, a number isn't exact beside a fi, or the classes have none; complex values
/// are equal or differ alone. Want of memory is the only refusal.
pub fn compared(alloc: Global, op: BinOp, x: &Value, y: &Value) -> Result<Option<Value>, Memory>
    ensures { IfOk result (λ r. item_view r ≡ options.and_then (comparisons.comparison_of op) (λ k. comparisons.compared_values k (value_view x.now) (value_view y.now))) }
{
    match comparison_of(op) {
        None => Ok(None),
        Some(k) => {
            let r = compared_values(alloc, k, x, y)?;
            Ok(r)
        }
    }
}

// The same of a comparison.
fn compared_values(
    alloc: Global,
    k: Comparison,
    x: &Value,
    y: &Value,
) -> Result<Option<Value>, Memory>
    ensures { IfOk result (λ r. item_view r ≡ comparisons.compared_values (comparison_view k) (value_view x.now) (value_view y.now)) }
{
    match x {
        Value::Fi(a) => {
            let r = fi_first(alloc, Task::Compare(k), a, y)?;
            Ok(r)
        }
        Value::Logical(a) => {
            let r = logical_first(alloc, k, a, y)?;
            Ok(r)
        }
        Value::Number(n) => {
            let r = number_first(alloc, k, n, y)?;
            Ok(r)
        }
        Value::Words(_) => Ok(None),
        Value::Math(_) => Ok(None),
        Value::Type(_) => Ok(None),
    }
}

// The same of a logical value and what stands to its right.
fn logical_first(
    alloc: Global,
    k: Comparison,
    a: &LogicalValue,
    y: &Value,
) -> Result<Option<Value>, Memory>
    ensures { IfOk result (λ r. item_view r ≡ comparisons.compared_values (comparison_view k) (logical_view a.now) (value_view y.now)) }
{
    match y {
        Value::Logical(b) => {
            let r = logicals_compared(alloc, k, a, b)?;
            Ok(r)
        }
        Value::Fi(_) => Ok(None),
        Value::Number(_) => Ok(None),
        Value::Words(_) => Ok(None),
        Value::Math(_) => Ok(None),
        Value::Type(_) => Ok(None),
    }
}

// The same of a number and what stands to its right.
fn number_first(
    alloc: Global,
    k: Comparison,
    n: &NumberValue,
    y: &Value,
) -> Result<Option<Value>, Memory>
    ensures { IfOk result (λ r. item_view r ≡ comparisons.compared_values (comparison_view k) (number_view n.now) (value_view y.now)) }
{
    match y {
        Value::Number(o) => {
            let r = numbers_compared(alloc, k, n, o)?;
            Ok(r)
        }
        Value::Fi(b) => {
            let r = number_and_fi(alloc, Task::Compare(k), n, b)?;
            Ok(r)
        }
        Value::Logical(_) => Ok(None),
        Value::Words(_) => Ok(None),
        Value::Math(_) => Ok(None),
        Value::Type(_) => Ok(None),
    }
}
