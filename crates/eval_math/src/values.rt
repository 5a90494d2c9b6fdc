//! Sums, differences and products of values of every class, element by element.

ghost use Rattle.std.specs.Prelude.{◌≡◌, ◌&&◌, IfNone, IfOk, IfSome, false};
ghost use Rattle.fi_rules.specs.Options as options;
ghost use Rattle.fi_rules.specs.Options.{where_so};
ghost use Rattle.fi_values.specs.Arithmetic as definitions;
ghost use Rattle.eval_value.specs.View.{item_view, value_view};
ghost use Rattle.eval_value.specs.declared.value.Value.TheVariants as value;
ghost use Rattle.eval_math.specs.Classes.{is_number};

use crate::numbers::numbers;
use crate::operation::operation_of;
use crate::task::{Task, of_values};
use eval_value::{NumberValue, Value};
use fi_rules::Work;
use num_type::Memory;
use std::alloc::Global;

/// The sum, the difference or the product of two values, element by element: of numbers exactly, and of fis, or of a fi and a number beside it,
/// by the governing fimath. None for another work, for values of other classes, where the shapes or the fimaths don't fit, a number isn't
/// exact beside the fi, a type isn't within the limits, or a result of numbers is no constant. Want of memory is the only refusal.
pub fn arithmetic(alloc: Global, work: Work, x: &Value, y: &Value) -> Result<Option<Value>, Memory>
    ensures { IfOk result (λ r. item_view r ≡ definitions.arithmetic work (value_view x.now) (value_view y.now)) }
{
    match two_numbers(x, y) {
        Some(both) => {
            let r = numbers(alloc, work, both.0, both.1)?;
            Ok(r)
        }
        None => {
            let r = of_fis(alloc, work, x, y)?;
            Ok(r)
        }
    }
}

// The same where one is a fi.
fn of_fis(alloc: Global, work: Work, x: &Value, y: &Value) -> Result<Option<Value>, Memory>
    ensures { IfOk result (λ r. item_view r ≡ options.and_then (where_so (definitions.is_arithmetic work) work) (λ w. options.and_then (definitions.operands (value_view x.now) (value_view y.now)) (definitions.computed w))) }
{
    match operation_of(work) {
        None => Ok(None),
        Some(op) => {
            let r = of_values(alloc, Task::Compute(op), x, y)?;
            Ok(r)
        }
    }
}

/// Two values as numbers, if both are.
pub fn two_numbers<'a>(x: &'a Value, y: &'a Value) -> Option<(&'a NumberValue, &'a NumberValue)>
    ensures some { IfSome result (λ b. (x.entry.now ≡ value.Number b.0.now) × (y.entry.now ≡ value.Number b.1.now)) }
    ensures none { IfNone result ((is_number x.entry.now && is_number y.entry.now) ≡ false) }
{
    match x {
        Value::Number(n) => match y {
            Value::Number(o) => Some((n, o)),
            Value::Fi(_) => None,
            Value::Logical(_) => None,
            Value::Words(_) => None,
            Value::Math(_) => None,
            Value::Type(_) => None,
        },
        Value::Fi(_) => None,
        Value::Logical(_) => None,
        Value::Words(_) => None,
        Value::Math(_) => None,
        Value::Type(_) => None,
    }
}
