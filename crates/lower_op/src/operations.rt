//! Operations on real values.

ghost use Rattle.std.specs.Prelude.{◌≡◌, ◌≤◌, ◌^◌, IfOk};
ghost use Rattle.num_type.specs.View.{type_of};
ghost use Rattle.c_tree.specs.View.{expr_view};
ghost use Rattle.lower_scalar.specs.Part.{part_view, reach};
ghost use Rattle.lower_op.specs.Arguments.{operand, truth};
ghost use Rattle.lower_op.specs.Comparisons.{IsComparison, IsEquality, ComparesTwo};
ghost use Rattle.lower_op.specs.Operations.{IsOfOne, IsOfTwo, ComputesOne, ComputesTwo};

use crate::addition::{add, subtract};
use crate::comparisons::compare;
use crate::products::multiply;
use crate::relations::relation_of;
use crate::signs::{negate, take_sign};
use crate::types::truth_type;
use array_ir::Op;
use c_tree::{CExpr, CPart};
use fi_math::Fimath;
use num_type::{Memory, NumType};
use std::alloc::Global;

/// The part of a sum, a difference or a product of `a` of the type `p` and `b` of the type `q`, in the type `t`. Want of memory is the
/// only refusal.
pub fn lower_two(
    alloc: Global,
    op: Op,
    m: Fimath,
    t: NumType,
    p: NumType,
    a: CExpr,
    q: NumType,
    b: CExpr,
    fresh: u32,
) -> Result<CPart, Memory>
    requires room { fresh ≤ 2 ^ 31 }
    requires typed { IsOfTwo op m (type_of t) (type_of p) (type_of q) }
    requires left { reach (expr_view a) ≤ fresh }
    requires right { reach (expr_view b) ≤ fresh }
    ensures { IfOk result (λ r. ComputesTwo op m (type_of t) (operand p a) (operand q b) fresh (part_view r)) }
{
    match op {
        Op::Add => {
            let r = add(alloc, m, t, p, a, q, b, fresh)?;
            Ok(r)
        }
        Op::Sub => {
            let r = subtract(alloc, m, t, p, a, q, b, fresh)?;
            Ok(r)
        }
        Op::Mul => {
            let r = multiply(alloc, m, t, p, a, q, b, fresh)?;
            Ok(r)
        }
        _ => unreachable!(),
    }
}

/// The part of a negation, or of a value without its sign, of `a` of the type `p`. Want of memory is the only refusal.
pub fn lower_one(
    alloc: Global,
    op: Op,
    m: Fimath,
    p: NumType,
    a: CExpr,
    fresh: u32,
) -> Result<CPart, Memory>
    requires known { IsOfOne op }
    requires reads { reach (expr_view a) ≤ fresh }
    ensures { IfOk result (λ r. ComputesOne op m (operand p a) fresh (part_view r)) }
{
    match op {
        Op::Neg => {
            let r = negate(alloc, m, p, a, fresh)?;
            Ok(r)
        }
        Op::Abs => {
            let r = take_sign(alloc, m, p, a, fresh)?;
            Ok(r)
        }
        _ => unreachable!(),
    }
}

/// The part of a comparison of `a` of the type `p` and `b` of the type `q`: 1 where it holds, and else 0. Want of memory is the only
/// refusal.
pub fn lower_comparison(
    alloc: Global,
    op: Op,
    p: NumType,
    a: CExpr,
    q: NumType,
    b: CExpr,
    fresh: u32,
) -> Result<CPart, Memory>
    requires room { fresh ≤ 2 ^ 31 }
    requires known { IsComparison op }
    requires left { reach (expr_view a) ≤ fresh }
    requires right { reach (expr_view b) ≤ fresh }
    ensures { IfOk result (λ r. ComparesTwo op (operand p a) (operand q b) fresh (part_view r)) }
{
    match relation_of(op) {
        Some(rel) => {
            let r = compare(alloc, rel, p, a, q, b, fresh)?;
            Ok(r)
        }
        None => unreachable!(),
    }
}

/// The part of a test whether two logical values are equal, or of one whether they differ: 1 where it holds, and else 0. Want of memory
/// is the only refusal.
pub fn lower_equality(
    alloc: Global,
    op: Op,
    a: CExpr,
    b: CExpr,
    fresh: u32,
) -> Result<CPart, Memory>
    requires room { fresh ≤ 2 ^ 31 }
    requires known { IsEquality op }
    requires left { reach (expr_view a) ≤ fresh }
    requires right { reach (expr_view b) ≤ fresh }
    ensures { IfOk result (λ r. ComparesTwo op (truth (expr_view a)) (truth (expr_view b)) fresh (part_view r)) }
{
    let t = truth_type();
    let r = lower_comparison(alloc, op, t, a, t, b, fresh)?;
    Ok(r)
}
