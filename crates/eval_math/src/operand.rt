//! Operands of operations on fis.

ghost use Rattle.std.specs.Prelude.{◌≡◌, ◌&&◌, ◌||◌, All, IfOk, is_some, length, map, pos, vec_len};
ghost use Rattle.num_type.specs.Types.{IsInRange};
ghost use Rattle.num_type.specs.View.{type_of};
ghost use Rattle.shape_rules.specs.Shapes.{elements_of};
ghost use Rattle.fi_values.specs.Arithmetic as arithmetic;
ghost use Rattle.eval_math.specs.View.{crossing, parts_view};
ghost use Rattle.const_eval.specs.declared.element_op.ElementOp.TheVariants as operation;

use const_eval::ElementOp;
use eval_value::FiValue;
use fi_math::{Fimath, Governed, govern};
use num_type::{Int, Memory, NumType};
use std::alloc::Global;

/// The fimath that governs two operands. None where both have one, and these differ.
pub fn governing(a: Option<Fimath>, b: Option<Fimath>) -> Option<Governed>
    ensures { result ≡ arithmetic.governing a b }
{
    match govern(a, b) {
        Ok(by) => Some(by),
        Err(_) => None,
    }
}

/// Whether an operand is complex.
pub fn is_complex(v: &FiValue) -> bool
    ensures { result ≡ is_some (parts_view v.now).im }
{
    match &v.im {
        None => false,
        Some(_) => true,
    }
}

/// The imaginary parts of an operand: zeros where it is real. Want of memory is the only refusal.
pub fn imaginary(alloc: Global, v: &FiValue) -> Result<Vec<Int>, Memory>
    ensures value { IfOk result (λ p. p.items ≡ arithmetic.imaginary (parts_view v.now)) }
    ensures many { IfOk result (λ p. vec_len p ≡ elements_of v.now.shape) }
    ensures inside { IfOk result (λ p. All (IsInRange (type_of v.now.num)) p.items) }
{
    match &v.im {
        None => {
            let noughts = zeros(alloc, v.num, v.re.as_slice())?;
            Ok(noughts)
        }
        Some(parts) => {
            let copy = Vec::from_slice(alloc, parts.as_slice())?;
            Ok(copy)
        }
    }
}

// A zero for each of these, in a type.
fn zeros(alloc: Global, t: NumType, parts: &[Int]) -> Result<Vec<Int>, Memory>
    ensures value { IfOk result (λ p. p.items ≡ map (λ x. pos 0) parts.now) }
    ensures many { IfOk result (λ p. vec_len p ≡ length parts.now) }
    ensures inside { IfOk result (λ p. All (IsInRange (type_of t)) p.items) }
{
    let mut out = Vec::new(alloc);
    for k in 0..parts.len() {
        out.push(Int::of(false, 0))?;
    }
    Ok(out)
}

/// What an operand gives the imaginary part of a result: a real one its real part to a product, and zeros to a sum or a difference; a
/// complex one its imaginary part. Want of memory is the only refusal.
pub fn crossing_parts(
    alloc: Global,
    op: ElementOp,
    complex: bool,
    v: &FiValue,
) -> Result<Vec<Int>, Memory>
    ensures value { IfOk result (λ p. p.items ≡ crossing op complex (parts_view v.now)) }
    ensures many { IfOk result (λ p. vec_len p ≡ elements_of v.now.shape) }
    ensures inside { IfOk result (λ p. All (IsInRange (type_of v.now.num)) p.items) }
{
    match op {
        ElementOp::Sum => {
            let p = imaginary(alloc, v)?;
            Ok(p)
        }
        ElementOp::Difference => {
            let p = imaginary(alloc, v)?;
            Ok(p)
        }
        ElementOp::Product => {
            let p = factor(alloc, complex, v)?;
            Ok(p)
        }
    }
}

// The same to a product.
fn factor(alloc: Global, complex: bool, v: &FiValue) -> Result<Vec<Int>, Memory>
    ensures value { IfOk result (λ p. p.items ≡ crossing operation.Product complex (parts_view v.now)) }
    ensures many { IfOk result (λ p. vec_len p ≡ elements_of v.now.shape) }
    ensures inside { IfOk result (λ p. All (IsInRange (type_of v.now.num)) p.items) }
{
    if complex {
        let p = imaginary(alloc, v)?;
        Ok(p)
    } else {
        let p = Vec::from_slice(alloc, v.re.as_slice())?;
        Ok(p)
    }
}

/// Whether both hold.
pub fn both(p: bool, q: bool) -> bool
    ensures { result ≡ (p && q) }
{
    p && q
}

/// Whether one of them holds.
pub fn either(p: bool, q: bool) -> bool
    ensures { result ≡ (p || q) }
{
    p || q
}
