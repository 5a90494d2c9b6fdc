//! Comparisons of fis, and of numbers beside them.

ghost use Rattle.std.specs.Prelude.{◌≡◌, ◌||◌, IfOk, is_some, vec_len};
ghost use Rattle.num_type.specs.View.{type_of};
ghost use Rattle.shape_rules.specs.Shapes.{elements_of};
ghost use Rattle.fi_values.specs.Arithmetic as arithmetic;
ghost use Rattle.fi_values.specs.Comparisons as comparisons;
ghost use Rattle.fi_values.specs.Comparisons.{exacts};
ghost use Rattle.eval_value.specs.View.{item_view};
ghost use Rattle.eval_math.specs.Orders.{comparison_view, orders};
ghost use Rattle.eval_math.specs.View.{IsMet, operand_view, parts_view};

use crate::comparison::Comparison;
use crate::operand::{either, governing, imaginary, is_complex};
use crate::orders::{fi_orders, truths};
use crate::shapes::common;
use eval_value::{FiValue, Value};
use num_type::Memory;
use shape_rules::Shape;
use std::alloc::Global;
use std::cmp::Ordering;

/// The comparison of two operands. None where their fimaths or shapes don't fit, and by order where one is complex; want of memory is the only
/// refusal.
pub fn fis_compared(
    alloc: Global,
    k: Comparison,
    a: &FiValue,
    b: &FiValue,
) -> Result<Option<Value>, Memory>
    ensures { IfOk result (λ r. item_view r ≡ comparisons.of_operands (comparison_view k) (operand_view a.now, operand_view b.now)) }
{
    match governing(a.math, b.math) {
        None => Ok(None),
        Some(_) => {
            let r = values_compared(alloc, k, a, b)?;
            Ok(r)
        }
    }
}

// The same of their values.
fn values_compared(
    alloc: Global,
    k: Comparison,
    a: &FiValue,
    b: &FiValue,
) -> Result<Option<Value>, Memory>
    ensures { IfOk result (λ r. item_view r ≡ comparisons.of_compared (comparison_view k) (comparisons.compared (operand_view a.now)) (comparisons.compared (operand_view b.now))) }
{
    match common(a.shape, b.shape) {
        None => Ok(None),
        Some(shape) => {
            let re = real_orders(alloc, shape, a, b)?;
            let im = imaginary_orders(alloc, shape, a, b)?;
            let complex = either(is_complex(a), is_complex(b));
            let r = truths(alloc, k, shape, complex, re.as_slice(), im.as_slice())?;
            Ok(r)
        }
    }
}

// The orders of their real parts.
fn real_orders(
    alloc: Global,
    shape: Shape,
    a: &FiValue,
    b: &FiValue,
) -> Result<Vec<Ordering>, Memory>
    requires { IsMet (elements_of shape) (elements_of a.now.shape) (elements_of b.now.shape) }
    ensures value { IfOk result (λ v. v.items ≡ orders (exacts (type_of a.now.num) a.now.re.items) (exacts (type_of b.now.num) b.now.re.items)) }
    ensures many { IfOk result (λ v. vec_len v ≡ elements_of shape) }
{
    let count = shape.elements();
    let v = fi_orders(alloc, count, a.num, a.re.as_slice(), b.num, b.re.as_slice())?;
    Ok(v)
}

// The orders of their imaginary parts, which are zeros where one is real.
fn imaginary_orders(
    alloc: Global,
    shape: Shape,
    a: &FiValue,
    b: &FiValue,
) -> Result<Vec<Ordering>, Memory>
    requires { IsMet (elements_of shape) (elements_of a.now.shape) (elements_of b.now.shape) }
    ensures value { IfOk result (λ v. v.items ≡ orders (exacts (type_of a.now.num) (arithmetic.imaginary (parts_view a.now))) (exacts (type_of b.now.num) (arithmetic.imaginary (parts_view b.now)))) }
    ensures many { IfOk result (λ v. vec_len v ≡ elements_of shape) }
{
    let left = imaginary(alloc, a)?;
    let right = imaginary(alloc, b)?;
    let count = shape.elements();
    let v = fi_orders(
        alloc,
        count,
        a.num,
        left.as_slice(),
        b.num,
        right.as_slice(),
    )?;
    Ok(v)
}
