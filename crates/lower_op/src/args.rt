//! Operations on arguments.

ghost use Rattle.std.specs.Prelude.{◌≡◌, ◌≤◌, ◌^◌, ◌∷◌, [], map, IfOk};
ghost use Rattle.lower_scalar.specs.Part.{part_view};
ghost use Rattle.c_tree.specs.View.{expr_view};
ghost use Rattle.lower_op.specs.Arguments.{operand};
ghost use Rattle.lower_op.specs.Lowering.{arg_view, Real, Logical, CanLower, Lowers};

use crate::argument::CArg;
use crate::copies::copy_expr;
use crate::operations::{lower_comparison, lower_equality, lower_one, lower_two};
use array_ir::FlatOp;
use c_tree::{CExpr, CPart};
use num_type::{Memory, NumType};
use std::alloc::Global;

/// The part of an operation on real values: a sum, a difference, a product, a negation, a value without its sign or a comparison, which
/// gives 1 where it holds and else 0. Of two logical values it is a test whether they are equal or differ. Its own variables are numbered
/// from `fresh` on. Want of memory is the only refusal.
pub fn lower_op(alloc: Global, op: &FlatOp, args: &[CArg], fresh: u32) -> Result<CPart, Memory>
    requires room { fresh ≤ 2 ^ 31 }
    requires typed { CanLower op.now (map arg_view args.now) fresh }
    ensures { IfOk result (λ r. Lowers op.now (map arg_view args.now) fresh (part_view r)) }
{
    match args {
        [first] => {
            let r = lower_first(alloc, op, first, fresh)?;
            Ok(r)
        }
        [first, second] => {
            let r = lower_pair(alloc, op, first, second, fresh)?;
            Ok(r)
        }
        _ => unreachable!(),
    }
}

// The part of an operation on one argument.
fn lower_first(alloc: Global, op: &FlatOp, first: &CArg, fresh: u32) -> Result<CPart, Memory>
    requires { CanLower op.now (arg_view first.now ∷ []) fresh }
    ensures { IfOk result (λ r. Lowers op.now (arg_view first.now ∷ []) fresh (part_view r)) }
{
    match first {
        CArg::Real(p, a) => {
            let copy = copy_expr(alloc, a)?;
            let r = lower_one(alloc, op.op, op.math, *p, copy, fresh)?;
            Ok(r)
        }
        CArg::Complex(_, _, _) => unreachable!(),
        CArg::Bool(_) => unreachable!(),
    }
}

// The part of an operation on two arguments.
fn lower_pair(
    alloc: Global,
    op: &FlatOp,
    first: &CArg,
    second: &CArg,
    fresh: u32,
) -> Result<CPart, Memory>
    requires room { fresh ≤ 2 ^ 31 }
    requires typed { CanLower op.now (arg_view first.now ∷ arg_view second.now ∷ []) fresh }
    ensures { IfOk result (λ r. Lowers op.now (arg_view first.now ∷ arg_view second.now ∷ []) fresh (part_view r)) }
{
    match (first, second) {
        (CArg::Real(p, a), CArg::Real(q, b)) => {
            let r = lower_reals(alloc, op, *p, a, *q, b, fresh)?;
            Ok(r)
        }
        (CArg::Bool(a), CArg::Bool(b)) => {
            let r = lower_truths(alloc, op, a, b, fresh)?;
            Ok(r)
        }
        _ => unreachable!(),
    }
}

// Copies of two operands.
fn copy_both(alloc: Global, a: &CExpr, b: &CExpr) -> Result<(CExpr, CExpr), Memory>
    ensures left { IfOk result (λ r. expr_view r.0 ≡ expr_view a.now) }
    ensures right { IfOk result (λ r. expr_view r.1 ≡ expr_view b.now) }
{
    let left = copy_expr(alloc, a)?;
    match copy_expr(alloc, b) {
        Ok(right) => Ok((left, right)),
        Err(error) => {
            drop(left);
            Err(error)
        }
    }
}

// The part of an operation on two real values.
fn lower_reals(
    alloc: Global,
    op: &FlatOp,
    p: NumType,
    a: &CExpr,
    q: NumType,
    b: &CExpr,
    fresh: u32,
) -> Result<CPart, Memory>
    requires room { fresh ≤ 2 ^ 31 }
    requires typed { CanLower op.now (Real (operand p a.now) ∷ Real (operand q b.now) ∷ []) fresh }
    ensures { IfOk result (λ r. Lowers op.now (Real (operand p a.now) ∷ Real (operand q b.now) ∷ []) fresh (part_view r)) }
{
    let (left, right) = copy_both(alloc, a, b)?;
    match op.result {
        Some(t) => {
            let r = lower_two(alloc, op.op, op.math, t, p, left, q, right, fresh)?;
            Ok(r)
        }
        None => {
            let r = lower_comparison(alloc, op.op, p, left, q, right, fresh)?;
            Ok(r)
        }
    }
}

// The part of a test of two logical values for equality.
fn lower_truths(
    alloc: Global,
    op: &FlatOp,
    a: &CExpr,
    b: &CExpr,
    fresh: u32,
) -> Result<CPart, Memory>
    requires room { fresh ≤ 2 ^ 31 }
    requires typed { CanLower op.now (Logical (expr_view a.now) ∷ Logical (expr_view b.now) ∷ []) fresh }
    ensures { IfOk result (λ r. Lowers op.now (Logical (expr_view a.now) ∷ Logical (expr_view b.now) ∷ []) fresh (part_view r)) }
{
    match op.result {
        Some(_) => unreachable!(),
        None => {
            let (left, right) = copy_both(alloc, a, b)?;
            let r = lower_equality(alloc, op.op, left, right, fresh)?;
            Ok(r)
        }
    }
}
