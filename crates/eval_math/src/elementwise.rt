//! Sums, differences and products of fis, element by element.

ghost use Rattle.std.specs.Prelude.{◌≡◌, ◌&&◌, All, IfOk, Some, is_some, length, map, true, vec_len};
ghost use Rattle.num_type.specs.Types.{IsInRange};
ghost use Rattle.num_type.specs.View.{type_of};
ghost use Rattle.shape_rules.specs.Shapes.{elements_of};
ghost use Rattle.fi_math.specs.Made.{Is};
ghost use Rattle.fi_math.specs.Rules.{complex_product_made};
ghost use Rattle.fi_rules.specs.Pairs.{work_made};
ghost use Rattle.fi_eval.specs.Operators.{pairwise};
ghost use Rattle.fi_values.specs.Arithmetic as arithmetic;
ghost use Rattle.fi_values.specs.Arithmetic.{result_made, result_parts};
ghost use Rattle.eval_value.specs.View.{item_view, shape_view};
ghost use Rattle.eval_math.specs.Results.{governed_result, typed_result};
ghost use Rattle.eval_math.specs.View.{IsMet, crossed, element_by, framed, of_frame, operand_view, real_by, work_view};

use crate::complex_products::complex_product;
use crate::elements::pairs;
use crate::frame::Frame;
use crate::operand::{both, crossing_parts, governing, is_complex};
use crate::operation::{element, result_type};
use crate::shapes::common;
use const_eval::ElementOp;
use eval_value::{FiValue, Value};
use fi_math::Governed;
use fi_ops::Elem;
use num_type::{Int, Memory, NumType};
use shape_rules::Shape;
use std::alloc::Global;

/// The sum, the difference or the product of two operands, by the governing fimath. None where their shapes or their fimaths don't fit, or
/// the type of the result isn't within the limits.
pub fn computed(
    alloc: Global,
    op: ElementOp,
    a: &FiValue,
    b: &FiValue,
) -> Result<Option<Value>, Memory>
    ensures { IfOk result (λ r. item_view r ≡ arithmetic.computed (work_view op) (operand_view a.now, operand_view b.now)) }
{
    match common(a.shape, b.shape) {
        None => Ok(None),
        Some(shape) => {
            let r = governed(alloc, op, shape, a, b)?;
            Ok(r)
        }
    }
}

// The same of this shape.
fn governed(
    alloc: Global,
    op: ElementOp,
    shape: Shape,
    a: &FiValue,
    b: &FiValue,
) -> Result<Option<Value>, Memory>
    requires { IsMet (elements_of shape) (elements_of a.now.shape) (elements_of b.now.shape) }
    ensures { IfOk result (λ r. item_view r ≡ governed_result (work_view op) (shape_view shape) (operand_view a.now) (operand_view b.now)) }
{
    match governing(a.math, b.math) {
        None => Ok(None),
        Some(by) => {
            let r = typed(alloc, op, shape, &by, a, b)?;
            Ok(r)
        }
    }
}

// The same under a governing fimath.
fn typed(
    alloc: Global,
    op: ElementOp,
    shape: Shape,
    by: &Governed,
    a: &FiValue,
    b: &FiValue,
) -> Result<Option<Value>, Memory>
    requires { IsMet (elements_of shape) (elements_of a.now.shape) (elements_of b.now.shape) }
    ensures { IfOk result (λ r. item_view r ≡ typed_result (work_view op) (shape_view shape) (operand_view a.now) (operand_view b.now) by.now) }
{
    let p = is_complex(a);
    let q = is_complex(b);
    match result_type(op, both(p, q), &by.math, a.num, b.num) {
        None => Ok(None),
        Some(num) => {
            let frame = Frame {
                op,
                by: *by,
                num,
                shape,
            };
            let v = operated(alloc, &frame, a, b, p, q)?;
            Ok(Some(Value::Fi(v)))
        }
    }
}

/// The result of an operation on two operands, which are complex as the flags say. Want of memory is the only refusal.
pub fn operated(
    alloc: Global,
    frame: &Frame,
    a: &FiValue,
    b: &FiValue,
    p: bool,
    q: bool,
) -> Result<FiValue, Memory>
    requires made { result_made (work_view frame.now.op) (p && q) frame.now.by.math (type_of a.now.num) (type_of b.now.num) ≡ Is (type_of frame.now.num) }
    requires met { IsMet (elements_of frame.now.shape) (elements_of a.now.shape) (elements_of b.now.shape) }
    ensures { IfOk result (λ v. Some (operand_view v) ≡ framed frame.now (result_parts (work_view frame.now.op) frame.now.by.math (type_of frame.now.num) (operand_view a.now) (operand_view b.now) p q)) }
{
    if p {
        if q {
            let v = complex_result(alloc, frame, a, b)?;
            Ok(v)
        } else {
            let v = crossed_result(alloc, frame, a, b, true, false)?;
            Ok(v)
        }
    } else if q {
        let v = crossed_result(alloc, frame, a, b, false, true)?;
        Ok(v)
    } else {
        let v = real_result(alloc, frame, a, b)?;
        Ok(v)
    }
}

// The result of an operation on two complex operands.
fn complex_result(alloc: Global, frame: &Frame, a: &FiValue, b: &FiValue) -> Result<FiValue, Memory>
    requires made { result_made (work_view frame.now.op) true frame.now.by.math (type_of a.now.num) (type_of b.now.num) ≡ Is (type_of frame.now.num) }
    requires met { IsMet (elements_of frame.now.shape) (elements_of a.now.shape) (elements_of b.now.shape) }
    ensures { IfOk result (λ v. Some (operand_view v) ≡ framed frame.now (result_parts (work_view frame.now.op) frame.now.by.math (type_of frame.now.num) (operand_view a.now) (operand_view b.now) true true)) }
{
    match frame.op {
        ElementOp::Sum => {
            let v = crossed_result(alloc, frame, a, b, true, true)?;
            Ok(v)
        }
        ElementOp::Difference => {
            let v = crossed_result(alloc, frame, a, b, true, true)?;
            Ok(v)
        }
        ElementOp::Product => {
            let v = complex_product(alloc, frame, a, b)?;
            Ok(v)
        }
    }
}

// The real result of an operation.
fn real_result(alloc: Global, frame: &Frame, a: &FiValue, b: &FiValue) -> Result<FiValue, Memory>
    requires made { work_made (work_view frame.now.op) frame.now.by.math (type_of a.now.num) (type_of b.now.num) ≡ Is (type_of frame.now.num) }
    requires met { IsMet (elements_of frame.now.shape) (elements_of a.now.shape) (elements_of b.now.shape) }
    ensures { IfOk result (λ v. operand_view v ≡ of_frame frame.now (real_by frame.now (operand_view a.now) (operand_view b.now))) }
{
    let re = each(alloc, frame, a.num, a.re.as_slice(), b.num, b.re.as_slice())?;
    Ok(FiValue {
        num: frame.num,
        math: frame.by.attached,
        shape: frame.shape,
        re,
        im: None,
    })
}

// The complex result of an operation, but for a product of two complex operands.
fn crossed_result(
    alloc: Global,
    frame: &Frame,
    a: &FiValue,
    b: &FiValue,
    p: bool,
    q: bool,
) -> Result<FiValue, Memory>
    requires made { work_made (work_view frame.now.op) frame.now.by.math (type_of a.now.num) (type_of b.now.num) ≡ Is (type_of frame.now.num) }
    requires met { IsMet (elements_of frame.now.shape) (elements_of a.now.shape) (elements_of b.now.shape) }
    ensures { IfOk result (λ v. operand_view v ≡ of_frame frame.now (crossed frame.now (operand_view a.now) (operand_view b.now) p q)) }
{
    let re = each(alloc, frame, a.num, a.re.as_slice(), b.num, b.re.as_slice())?;
    let im = crossed_parts(alloc, frame, a, b, p, q)?;
    Ok(FiValue {
        num: frame.num,
        math: frame.by.attached,
        shape: frame.shape,
        re,
        im: Some(im),
    })
}

// Its imaginary parts.
fn crossed_parts(
    alloc: Global,
    frame: &Frame,
    a: &FiValue,
    b: &FiValue,
    p: bool,
    q: bool,
) -> Result<Vec<Int>, Memory>
    requires made { work_made (work_view frame.now.op) frame.now.by.math (type_of a.now.num) (type_of b.now.num) ≡ Is (type_of frame.now.num) }
    requires met { IsMet (elements_of frame.now.shape) (elements_of a.now.shape) (elements_of b.now.shape) }
    ensures value { IfOk result (λ v. (crossed frame.now (operand_view a.now) (operand_view b.now) p q).im ≡ Some v.items) }
    ensures many { IfOk result (λ v. vec_len v ≡ elements_of frame.now.shape) }
    ensures inside { IfOk result (λ v. All (IsInRange (type_of frame.now.num)) v.items) }
{
    let left = crossing_parts(alloc, frame.op, p, a)?;
    let right = crossing_parts(alloc, frame.op, q, b)?;
    let v = each(
        alloc,
        frame,
        a.num,
        left.as_slice(),
        b.num,
        right.as_slice(),
    )?;
    Ok(v)
}

/// The stored integers of an operation on stored integers of two types. Want of memory is the only refusal.
pub fn each(
    alloc: Global,
    frame: &Frame,
    a: NumType,
    xs: &[Int],
    b: NumType,
    ys: &[Int],
) -> Result<Vec<Int>, Memory>
    requires made { work_made (work_view frame.now.op) frame.now.by.math (type_of a) (type_of b) ≡ Is (type_of frame.now.num) }
    requires met { IsMet (elements_of frame.now.shape) (length xs.now) (length ys.now) }
    requires left { All (IsInRange (type_of a)) xs.now }
    requires right { All (IsInRange (type_of b)) ys.now }
    ensures value { IfOk result (λ v. v.items ≡ pairwise (element_by frame.now (type_of a) (type_of b)) xs.now ys.now) }
    ensures many { IfOk result (λ v. vec_len v ≡ elements_of frame.now.shape) }
    ensures inside { IfOk result (λ v. All (IsInRange (type_of frame.now.num)) v.items) }
{
    let met = pairs(alloc, frame.shape.elements(), xs, ys)?;
    let v = of_pairs(alloc, frame, a, b, met.as_slice())?;
    Ok(v)
}

// The same of the pairs that meet.
fn of_pairs(
    alloc: Global,
    frame: &Frame,
    a: NumType,
    b: NumType,
    met: &[(Int, Int)],
) -> Result<Vec<Int>, Memory>
    requires made { work_made (work_view frame.now.op) frame.now.by.math (type_of a) (type_of b) ≡ Is (type_of frame.now.num) }
    requires left { All (λ p. IsInRange (type_of a) p.0) met.now }
    requires right { All (λ p. IsInRange (type_of b) p.1) met.now }
    ensures value { IfOk result (λ v. v.items ≡ map (λ p. element_by frame.now (type_of a) (type_of b) p.0 p.1) met.now) }
    ensures many { IfOk result (λ v. vec_len v ≡ length met.now) }
    ensures inside { IfOk result (λ v. All (IsInRange (type_of frame.now.num)) v.items) }
{
    let mut out = Vec::new(alloc);
    for p in met {
        let x = Elem { num: a, z: p.0 };
        let y = Elem { num: b, z: p.1 };
        let e = element(frame.op, &frame.by.math, frame.num, x, y);
        out.push(e.z)?;
    }
    Ok(out)
}
