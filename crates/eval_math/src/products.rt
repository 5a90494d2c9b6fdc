//! Products of values of every class.

ghost use Rattle.std.specs.Prelude.{◌≡◌, IfOk};
ghost use Rattle.fi_values.specs.Products as products;
ghost use Rattle.eval_value.specs.View.{item_view, value_view};

use crate::number_products::number_product;
use crate::operand::either;
use crate::shapes::is_single;
use crate::task::{Task, of_values};
use crate::values::{arithmetic, two_numbers};
use eval_value::Value;
use fi_rules::Work;
use num_type::Memory;
use std::alloc::Global;

/// The product of two values: element by element where one has a single element, and the matrix product else. Of numbers exactly, and of fis,
/// or of a fi and a number beside it, by the governing fimath: each element of a matrix product is its products added up from 0 in ascending
/// order. None for values of other classes, where the shapes or the fimaths don't fit, a number isn't exact beside the fi, a type isn't within
/// the limits, or a step of numbers is no constant. Want of memory is the only refusal.
pub fn multiplied(alloc: Global, x: &Value, y: &Value) -> Result<Option<Value>, Memory>
    ensures { IfOk result (λ r. item_view r ≡ products.multiplied (value_view x.now) (value_view y.now)) }
{
    if either(is_single(x.shape()), is_single(y.shape())) {
        let r = arithmetic(alloc, Work::Product, x, y)?;
        Ok(r)
    } else {
        let r = matrix(alloc, x, y)?;
        Ok(r)
    }
}

// The matrix product.
fn matrix(alloc: Global, x: &Value, y: &Value) -> Result<Option<Value>, Memory>
    ensures { IfOk result (λ r. item_view r ≡ products.matrix (value_view x.now) (value_view y.now)) }
{
    match two_numbers(x, y) {
        Some(both) => {
            let r = number_product(alloc, both.0, both.1)?;
            Ok(r)
        }
        None => {
            let r = of_values(alloc, Task::Multiply, x, y)?;
            Ok(r)
        }
    }
}
