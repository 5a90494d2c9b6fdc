//! Comparisons of numbers.

ghost use Rattle.std.specs.Prelude.{◌≡◌, IfOk, is_some, length, map, vec_len};
ghost use Rattle.num_type.specs.View.{exact_of};
ghost use Rattle.shape_rules.specs.Shapes.{elements_of};
ghost use Rattle.fi_values.specs.Comparisons as comparisons;
ghost use Rattle.eval_value.specs.View.{item_view, number_view};
ghost use Rattle.eval_math.specs.Numbers.{imaginary_exacts, is_complex_number};
ghost use Rattle.eval_math.specs.Orders.{comparison_view, orders};
ghost use Rattle.eval_math.specs.View.{IsMet};

use crate::comparison::Comparison;
use crate::complex_numbers::{imaginary_constants, is_complex_number};
use crate::operand::either;
use crate::orders::{number_orders, truths};
use crate::shapes::common;
use eval_value::{NumberValue, Value};
use num_type::Memory;
use shape_rules::Shape;
use std::alloc::Global;
use std::cmp::Ordering;

/// The comparison of two numbers, exactly. None where their shapes don't fit, and by order where one is complex; want of memory is the only
/// refusal.
pub fn numbers_compared(
    alloc: Global,
    k: Comparison,
    a: &NumberValue,
    b: &NumberValue,
) -> Result<Option<Value>, Memory>
    ensures { IfOk result (λ r. item_view r ≡ comparisons.compared_values (comparison_view k) (number_view a.now) (number_view b.now)) }
{
    match common(a.shape, b.shape) {
        None => Ok(None),
        Some(shape) => {
            let count = shape.elements();
            let re = number_orders(alloc, count, a.re.as_slice(), b.re.as_slice())?;
            let im = imaginary_orders(alloc, shape, a, b)?;
            let complex = either(is_complex_number(a), is_complex_number(b));
            let r = truths(alloc, k, shape, complex, re.as_slice(), im.as_slice())?;
            Ok(r)
        }
    }
}

// The orders of their imaginary parts, which are zeros where one is real.
fn imaginary_orders(
    alloc: Global,
    shape: Shape,
    a: &NumberValue,
    b: &NumberValue,
) -> Result<Vec<Ordering>, Memory>
    requires { IsMet (elements_of shape) (elements_of a.now.shape) (elements_of b.now.shape) }
    ensures value { IfOk result (λ v. v.items ≡ orders (imaginary_exacts a.now) (imaginary_exacts b.now)) }
    ensures many { IfOk result (λ v. vec_len v ≡ elements_of shape) }
{
    let left = imaginary_constants(alloc, a)?;
    let right = imaginary_constants(alloc, b)?;
    let count = shape.elements();
    let v = number_orders(alloc, count, left.as_slice(), right.as_slice())?;
    Ok(v)
}
