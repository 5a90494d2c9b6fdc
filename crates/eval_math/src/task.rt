//! What is done to two operands, at least one of them a fi.

ghost use Rattle.std.specs.Prelude.{◌≡◌, IfOk};
ghost use Rattle.fi_rules.specs.Options as options;
ghost use Rattle.fi_values.specs.Arithmetic.{operands};
ghost use Rattle.eval_value.specs.View.{fi_view, item_view, number_view, value_view};
ghost use Rattle.eval_math.specs.Tasks.{task_view};
ghost use Rattle.eval_math.specs.View.{operand_view};

use crate::beside::beside;
use crate::comparison::Comparison;
use crate::elementwise::computed;
use crate::fi_comparisons::fis_compared;
use crate::fi_products::fi_product;
use const_eval::ElementOp;
use eval_value::{FiValue, NumberValue, Value};
use num_type::Memory;
use std::alloc::Global;

/// What is done to two operands.
#[derive(Clone, Copy)]
pub enum Task {
    /// A sum, a difference or a product element by element.
    Compute(ElementOp),
    /// A matrix product.
    Multiply,
    /// A comparison.
    Compare(Comparison),
}

/// What a task makes of two values, at least one of them a fi and the other one a fi or a number beside it. None where they are no such
/// values, or the task makes nothing of them; want of memory is the only refusal.
pub fn of_values(alloc: Global, task: Task, x: &Value, y: &Value) -> Result<Option<Value>, Memory>
    ensures { IfOk result (λ r. item_view r ≡ options.and_then (operands (value_view x.now) (value_view y.now)) (task_view task)) }
{
    match x {
        Value::Fi(a) => {
            let r = fi_first(alloc, task, a, y)?;
            Ok(r)
        }
        Value::Number(n) => {
            let r = number_first(alloc, task, n, y)?;
            Ok(r)
        }
        Value::Logical(_) => Ok(None),
        Value::Words(_) => Ok(None),
        Value::Math(_) => Ok(None),
        Value::Type(_) => Ok(None),
    }
}

/// The same of a fi and what stands to its right.
pub fn fi_first(alloc: Global, task: Task, a: &FiValue, y: &Value) -> Result<Option<Value>, Memory>
    ensures { IfOk result (λ r. item_view r ≡ options.and_then (operands (fi_view a.now) (value_view y.now)) (task_view task)) }
{
    match y {
        Value::Fi(b) => {
            let r = of_operands(alloc, task, a, b)?;
            Ok(r)
        }
        Value::Number(n) => {
            let r = fi_and_number(alloc, task, a, n)?;
            Ok(r)
        }
        Value::Logical(_) => Ok(None),
        Value::Words(_) => Ok(None),
        Value::Math(_) => Ok(None),
        Value::Type(_) => Ok(None),
    }
}

// The same of a number and what stands to its right.
fn number_first(
    alloc: Global,
    task: Task,
    n: &NumberValue,
    y: &Value,
) -> Result<Option<Value>, Memory>
    ensures { IfOk result (λ r. item_view r ≡ options.and_then (operands (number_view n.now) (value_view y.now)) (task_view task)) }
{
    match y {
        Value::Fi(b) => {
            let r = number_and_fi(alloc, task, n, b)?;
            Ok(r)
        }
        Value::Number(_) => Ok(None),
        Value::Logical(_) => Ok(None),
        Value::Words(_) => Ok(None),
        Value::Math(_) => Ok(None),
        Value::Type(_) => Ok(None),
    }
}

// The same of a fi and a number to its right.
fn fi_and_number(
    alloc: Global,
    task: Task,
    a: &FiValue,
    n: &NumberValue,
) -> Result<Option<Value>, Memory>
    ensures { IfOk result (λ r. item_view r ≡ options.and_then (operands (fi_view a.now) (number_view n.now)) (task_view task)) }
{
    match beside(alloc, a.num, n) {
        Err(e) => Err(e),
        Ok(None) => Ok(None),
        Ok(Some(b)) => {
            let r = of_operands(alloc, task, a, &b)?;
            Ok(r)
        }
    }
}

/// The same of a number and a fi to its right.
pub fn number_and_fi(
    alloc: Global,
    task: Task,
    n: &NumberValue,
    b: &FiValue,
) -> Result<Option<Value>, Memory>
    ensures { IfOk result (λ r. item_view r ≡ options.and_then (operands (number_view n.now) (fi_view b.now)) (task_view task)) }
{
    match beside(alloc, b.num, n) {
        Err(e) => Err(e),
        Ok(None) => Ok(None),
        Ok(Some(a)) => {
            let r = of_operands(alloc, task, &a, b)?;
            Ok(r)
        }
    }
}

// The same of two operands.
fn of_operands(alloc: Global, task: Task, a: &FiValue, b: &FiValue) -> Result<Option<Value>, Memory>
    ensures { IfOk result (λ r. item_view r ≡ task_view task (operand_view a.now, operand_view b.now)) }
{
    match task {
        Task::Compute(op) => {
            let r = computed(alloc, op, a, b)?;
            Ok(r)
        }
        Task::Multiply => {
            let r = fi_product(alloc, a, b)?;
            Ok(r)
        }
        Task::Compare(k) => {
            let r = fis_compared(alloc, k, a, b)?;
            Ok(r)
        }
    }
}
