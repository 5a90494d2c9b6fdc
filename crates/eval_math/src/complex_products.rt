//! Products of complex fis, element by element.

ghost use Rattle.std.specs.Prelude.{◌≡◌, All, IfOk, Some, length, true, vec_len};
ghost use Rattle.num_type.specs.Types.{IsInRange};
ghost use Rattle.num_type.specs.View.{type_of};
ghost use Rattle.shape_rules.specs.Shapes.{elements_of};
ghost use Rattle.fi_math.specs.Made.{Is};
ghost use Rattle.fi_math.specs.Rules.{complex_product_made, product_made};
ghost use Rattle.fi_rules.specs.declared.work.Work.TheVariants as work;
ghost use Rattle.fi_eval.specs.Operators.{pairwise};
ghost use Rattle.fi_values.specs.Arithmetic.{result_parts};
ghost use Rattle.eval_math.specs.View.{IsMet, complex_parts, element_by, framed, in_type, of_frame, operand_view};
ghost use Rattle.const_eval.specs.declared.element_op.ElementOp.TheVariants as operation;

use crate::elementwise::each;
use crate::frame::Frame;
use crate::operand::imaginary;
use const_eval::ElementOp;
use eval_value::FiValue;
use fi_math::product_type;
use num_type::{Int, Memory, NumType};
use std::alloc::Global;

/// The product of two complex operands: four products of their parts in the product type, a difference and a sum. Want of memory is the
/// only refusal.
pub fn complex_product(
    alloc: Global,
    frame: &Frame,
    a: &FiValue,
    b: &FiValue,
) -> Result<FiValue, Memory>
    requires made { complex_product_made frame.now.by.math (type_of a.now.num) (type_of b.now.num) ≡ Is (type_of frame.now.num) }
    requires met { IsMet (elements_of frame.now.shape) (elements_of a.now.shape) (elements_of b.now.shape) }
    ensures { IfOk result (λ v. Some (operand_view v) ≡ framed frame.now (result_parts work.Product frame.now.by.math (type_of frame.now.num) (operand_view a.now) (operand_view b.now) true true)) }
{
    match product_type(&frame.by.math, a.num, b.num) {
        Ok(p) => {
            let v = product_by(alloc, frame, p, a, b)?;
            Ok(v)
        }
        Err(_) => unreachable!(),
    }
}

// The same, with the products of parts in a type.
fn product_by(
    alloc: Global,
    frame: &Frame,
    p: NumType,
    a: &FiValue,
    b: &FiValue,
) -> Result<FiValue, Memory>
    requires made { complex_product_made frame.now.by.math (type_of a.now.num) (type_of b.now.num) ≡ Is (type_of frame.now.num) }
    requires product { product_made frame.now.by.math (type_of a.now.num) (type_of b.now.num) ≡ Is (type_of p) }
    requires met { IsMet (elements_of frame.now.shape) (elements_of a.now.shape) (elements_of b.now.shape) }
    ensures { IfOk result (λ v. operand_view v ≡ of_frame frame.now (complex_parts frame.now.by.math (type_of frame.now.num) (type_of p) (operand_view a.now) (operand_view b.now))) }
{
    let left = imaginary(alloc, a)?;
    let right = imaginary(alloc, b)?;
    let re = real_parts(alloc, frame, p, a, left.as_slice(), b, right.as_slice())?;
    let im = imaginary_parts(alloc, frame, p, a, left.as_slice(), b, right.as_slice())?;
    Ok(FiValue {
        num: frame.num,
        math: frame.by.attached,
        shape: frame.shape,
        re,
        im: Some(im),
    })
}

// The real parts: differences of products.
fn real_parts(
    alloc: Global,
    frame: &Frame,
    p: NumType,
    a: &FiValue,
    left: &[Int],
    b: &FiValue,
    right: &[Int],
) -> Result<Vec<Int>, Memory>
    requires made { complex_product_made frame.now.by.math (type_of a.now.num) (type_of b.now.num) ≡ Is (type_of frame.now.num) }
    requires product { product_made frame.now.by.math (type_of a.now.num) (type_of b.now.num) ≡ Is (type_of p) }
    requires met { IsMet (elements_of frame.now.shape) (elements_of a.now.shape) (elements_of b.now.shape) }
    requires left_many { length left.now ≡ elements_of a.now.shape }
    requires right_many { length right.now ≡ elements_of b.now.shape }
    requires left_inside { All (IsInRange (type_of a.now.num)) left.now }
    requires right_inside { All (IsInRange (type_of b.now.num)) right.now }
    ensures value { IfOk result (λ v. v.items ≡ pairwise (element_by (in_type frame.now operation.Difference frame.now.num) (type_of p) (type_of p)) (pairwise (element_by (in_type frame.now operation.Product p) (type_of a.now.num) (type_of b.now.num)) a.now.re.items b.now.re.items) (pairwise (element_by (in_type frame.now operation.Product p) (type_of a.now.num) (type_of b.now.num)) left.now right.now)) }
    ensures many { IfOk result (λ v. vec_len v ≡ elements_of frame.now.shape) }
    ensures inside { IfOk result (λ v. All (IsInRange (type_of frame.now.num)) v.items) }
{
    let products = in_type(frame, ElementOp::Product, p);
    let first = each(
        alloc,
        &products,
        a.num,
        a.re.as_slice(),
        b.num,
        b.re.as_slice(),
    )?;
    let second = each(alloc, &products, a.num, left, b.num, right)?;
    let differences = in_type(frame, ElementOp::Difference, frame.num);
    let v = each(
        alloc,
        &differences,
        p,
        first.as_slice(),
        p,
        second.as_slice(),
    )?;
    Ok(v)
}

// The imaginary parts: sums of products.
fn imaginary_parts(
    alloc: Global,
    frame: &Frame,
    p: NumType,
    a: &FiValue,
    left: &[Int],
    b: &FiValue,
    right: &[Int],
) -> Result<Vec<Int>, Memory>
    requires made { complex_product_made frame.now.by.math (type_of a.now.num) (type_of b.now.num) ≡ Is (type_of frame.now.num) }
    requires product { product_made frame.now.by.math (type_of a.now.num) (type_of b.now.num) ≡ Is (type_of p) }
    requires met { IsMet (elements_of frame.now.shape) (elements_of a.now.shape) (elements_of b.now.shape) }
    requires left_many { length left.now ≡ elements_of a.now.shape }
    requires right_many { length right.now ≡ elements_of b.now.shape }
    requires left_inside { All (IsInRange (type_of a.now.num)) left.now }
    requires right_inside { All (IsInRange (type_of b.now.num)) right.now }
    ensures value { IfOk result (λ v. v.items ≡ pairwise (element_by (in_type frame.now operation.Sum frame.now.num) (type_of p) (type_of p)) (pairwise (element_by (in_type frame.now operation.Product p) (type_of a.now.num) (type_of b.now.num)) a.now.re.items right.now) (pairwise (element_by (in_type frame.now operation.Product p) (type_of a.now.num) (type_of b.now.num)) left.now b.now.re.items)) }
    ensures many { IfOk result (λ v. vec_len v ≡ elements_of frame.now.shape) }
    ensures inside { IfOk result (λ v. All (IsInRange (type_of frame.now.num)) v.items) }
{
    let products = in_type(frame, ElementOp::Product, p);
    let first = each(alloc, &products, a.num, a.re.as_slice(), b.num, right)?;
    let second = each(alloc, &products, a.num, left, b.num, b.re.as_slice())?;
    let sums = in_type(frame, ElementOp::Sum, frame.num);
    let v = each(alloc, &sums, p, first.as_slice(), p, second.as_slice())?;
    Ok(v)
}

// The same frame for another operation, with a result of this type.
fn in_type(frame: &Frame, op: ElementOp, num: NumType) -> Frame
    ensures { result ≡ in_type frame.now op num }
{
    Frame {
        op,
        by: frame.by,
        num,
        shape: frame.shape,
    }
}
