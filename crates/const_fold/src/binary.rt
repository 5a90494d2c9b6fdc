//! Operators between two constants.

ghost use Rattle.std.specs.Prelude.{◌≡◌, ◌↔◌, IfOk, IfErr, IsTrue};
ghost use Rattle.const_eval.specs.Refusals.{RefusesOnly};
ghost use Rattle.const_fold.specs.Folds.{HasFolds, IsByElement, IsFolded, IsMultiplied, IsUnfolded, IsUnmultiplied};
ghost use Rattle.const_fold.specs.OperatorTexts.{operator_text};

use crate::matrix::matrix_product;
use crate::power::{is_one, powered};
use const_eval::{Const, ElementOp, elementwise};
use fic_base::{Place, Refusal};
use mat_ast::BinOp;
use num_type::Stop;
use std::alloc::Global;

/// The constant that `+`, `-`, `*`, `.*`, `^` or `.^` makes of two constants, exactly: number by number, the matrix product where neither
/// operand of a `*` has one element, or the power of two numbers.
///
/// Refused at the place, for the first of these that holds:
/// - `BadArgument`, with the operator shown, where an operand of a power is complex, or a number of its exponent isn't whole or not from
///   -400 to 400;
/// - `SizeMismatch`, with both shapes shown, where the shapes don't fit: for a power they have one element each, for a matrix product the
///   first has as many columns as the second has rows, and else they are the same or one has one element;
/// - `LiteralInexact`, with the operator shown, where a step is no constant;
/// - `Limit`, with 4096 shown, where a matrix product has more elements than that.
pub fn fold_binary(
    alloc: Global,
    op: BinOp,
    a: &Const,
    b: &Const,
    at: Place,
) -> Result<Const, Stop<Refusal>>
    requires { HasFolds op }
    ensures value { IfOk result (λ c. IsFolded op a.now b.now c) }
    ensures refusal { IfErr result (λ stop. RefusesOnly stop (λ r. IsUnfolded op (operator_text op) a.now b.now at r)) }
{
    let shown = operator_text(op);
    match op {
        BinOp::Add => elementwise(alloc, ElementOp::Sum, shown, a, b, at),
        BinOp::Sub => elementwise(alloc, ElementOp::Difference, shown, a, b, at),
        BinOp::ElemMul => elementwise(alloc, ElementOp::Product, shown, a, b, at),
        BinOp::Mul => multiplied(alloc, shown, a, b, at),
        _ => powered(alloc, shown, a, b, at),
    }
}

// The constant of a `*`.
fn multiplied(
    alloc: Global,
    shown: &[u8],
    a: &Const,
    b: &Const,
    at: Place,
) -> Result<Const, Stop<Refusal>>
    ensures value { IfOk result (λ c. IsMultiplied a.now b.now c) }
    ensures refusal { IfErr result (λ stop. RefusesOnly stop (λ r. IsUnmultiplied shown.now a.now b.now at r)) }
{
    if is_by_element(a, b) {
        elementwise(alloc, ElementOp::Product, shown, a, b, at)
    } else {
        matrix_product(alloc, shown, a, b, at)
    }
}

// Whether one of two constants has one element.
fn is_by_element(a: &Const, b: &Const) -> bool
    ensures { IsTrue result ↔ IsByElement a.now b.now }
{
    is_one(a.shape()) || is_one(b.shape())
}

// How an operator is written.
fn operator_text(op: BinOp) -> &'static [u8]
    ensures { result.now ≡ operator_text op }
{
    match op {
        BinOp::OrOr => b"||",
        BinOp::AndAnd => b"&&",
        BinOp::Or => b"|",
        BinOp::And => b"&",
        BinOp::Eq => b"==",
        BinOp::Ne => b"~=",
        BinOp::Lt => b"<",
        BinOp::Le => b"<=",
        BinOp::Gt => b">",
        BinOp::Ge => b">=",
        BinOp::Add => b"+",
        BinOp::Sub => b"-",
        BinOp::Mul => b"*",
        BinOp::ElemMul => b".*",
        BinOp::Div => b"/",
        BinOp::ElemDiv => b"./",
        BinOp::LeftDiv => b"\\",
        BinOp::ElemLeftDiv => b".\\",
        BinOp::Pow => b"^",
        BinOp::ElemPow => b".^",
    }
}
