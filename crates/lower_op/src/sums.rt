//! Exact sums and differences.

ghost use Rattle.std.specs.Prelude.{◌≡◌, ◌≤◌, ◌<◌, ◌^◌, ◌≤ℤ◌, ◌-ℤ◌, nat_abs, false, IfOk, ◌⊎◌};
ghost use Rattle.num_type.specs.Types.{IsWithin};
ghost use Rattle.num_type.specs.View.{type_of};
ghost use Rattle.fi_math.specs.Full;
ghost use Rattle.c_tree.specs.Tree.{Cast};
ghost use Rattle.c_tree.specs.View.{expr_view};
ghost use Rattle.c_tree.specs.declared.tree.CWord.TheVariants.{I64};
ghost use Rattle.lower_scalar.specs.Part.{part_view, reach};
ghost use Rattle.lower_scalar.specs.Operators;
ghost use Rattle.lower_scalar.specs.Operators.{Adds, Subtracts};
ghost use Rattle.lower_op.specs.Arguments;
ghost use Rattle.lower_op.specs.Arguments.{operand};

use crate::types::{difference_type, full_sum};
use c_tree::{CExpr, COp, CPart, CWord};
use fi_math::Fimath;
use fi_quant::gap;
use lower_scalar::{quantise_part, raise, resigned};
use num_type::{Memory, NumType};
use std::alloc::Global;

/// The part that adds `a` of the type `p` and `b` of the type `q` exactly and takes the sum to the type `t`: without CastBeforeSum, or
/// where that is the full type. Want of memory is the only refusal.
pub fn add_exact(
    alloc: Global,
    m: Fimath,
    t: NumType,
    p: NumType,
    a: CExpr,
    q: NumType,
    b: CExpr,
    fresh: u32,
) -> Result<CPart, Memory>
    requires room { fresh ≤ 2 ^ 31 }
    requires within { IsWithin (Full.full_sum (type_of p) (type_of q)) }
    requires rule { (m.cast_before_sum ≡ false) ⊎ (type_of t ≡ Full.full_sum (type_of p) (type_of q)) }
    requires left { reach (expr_view a) ≤ fresh }
    requires right { reach (expr_view b) ≤ fresh }
    ensures { IfOk result (λ r. Adds m (type_of t) (operand p a) (operand q b) fresh (part_view r)) }
{
    let full = full_sum(p, q);
    let sum = sum_of(alloc, full, p, a, q, b)?;
    let r = quantise_part(alloc, t, m.rounding, m.overflow, full, sum, fresh)?;
    Ok(r)
}

/// The part that subtracts `b` from `a` exactly and takes the difference to the type `t`: without CastBeforeSum. Want of memory is the
/// only refusal.
pub fn subtract_exact(
    alloc: Global,
    m: Fimath,
    t: NumType,
    p: NumType,
    a: CExpr,
    q: NumType,
    b: CExpr,
    fresh: u32,
) -> Result<CPart, Memory>
    requires room { fresh ≤ 2 ^ 31 }
    requires within { IsWithin (Full.full_sum (type_of p) (type_of q)) }
    requires rule { m.cast_before_sum ≡ false }
    requires left { reach (expr_view a) ≤ fresh }
    requires right { reach (expr_view b) ≤ fresh }
    ensures { IfOk result (λ r. Subtracts m (type_of t) (operand p a) (operand q b) fresh (part_view r)) }
{
    let full = full_sum(p, q);
    let difference = difference_of(alloc, full, p, a, q, b)?;
    let wide = difference_type(full);
    let r = quantise_part(alloc, t, m.rounding, m.overflow, wide, difference, fresh)?;
    Ok(r)
}

// An operand at the fraction length of `full`, as a word of this signedness.
fn aligned_of(
    alloc: Global,
    signed: bool,
    full: NumType,
    p: NumType,
    a: CExpr,
) -> Result<CExpr, Memory>
    requires least { p.fraction ≤ℤ full.fraction }
    requires near { nat_abs (full.fraction -ℤ p.fraction) < 64 }
    ensures { IfOk result (λ r. expr_view r ≡ Operators.aligned_of signed full.fraction (operand p a)) }
{
    let by = gap(full.fraction(), p.fraction());
    let same = resigned(alloc, p.signed(), signed, a)?;
    let r = raise(alloc, signed, by, same)?;
    Ok(r)
}

// Two operands at the fraction length and in the signedness of their sum.
fn both_aligned(
    alloc: Global,
    full: NumType,
    p: NumType,
    a: CExpr,
    q: NumType,
    b: CExpr,
) -> Result<(CExpr, CExpr), Memory>
    requires is { type_of full ≡ Full.full_sum (type_of p) (type_of q) }
    ensures left { IfOk result (λ r. expr_view r.0 ≡ Operators.aligned_of full.signed full.fraction (operand p a)) }
    ensures right { IfOk result (λ r. expr_view r.1 ≡ Operators.aligned_of full.signed full.fraction (operand q b)) }
{
    let signed = full.signed();
    match aligned_of(alloc, signed, full, p, a) {
        Ok(left) => match aligned_of(alloc, signed, full, q, b) {
            Ok(right) => Ok((left, right)),
            Err(error) => {
                drop(left);
                Err(error)
            }
        },
        Err(error) => {
            drop(b);
            Err(error)
        }
    }
}

// The exact sum, as a word of its full type.
fn sum_of(
    alloc: Global,
    full: NumType,
    p: NumType,
    a: CExpr,
    q: NumType,
    b: CExpr,
) -> Result<CExpr, Memory>
    requires is { type_of full ≡ Full.full_sum (type_of p) (type_of q) }
    ensures { IfOk result (λ r. expr_view r ≡ Operators.sum_of (operand p a) (operand q b)) }
{
    let (left, right) = both_aligned(alloc, full, p, a, q, b)?;
    c_tree::binary(alloc, COp::Add, left, right)
}

// The exact difference, as an `int64_t`.
fn difference_of(
    alloc: Global,
    full: NumType,
    p: NumType,
    a: CExpr,
    q: NumType,
    b: CExpr,
) -> Result<CExpr, Memory>
    requires is { type_of full ≡ Full.full_sum (type_of p) (type_of q) }
    ensures { IfOk result (λ r. expr_view r ≡ Operators.difference_of (operand p a) (operand q b)) }
{
    let (left, right) = both_aligned(alloc, full, p, a, q, b)?;
    minus(alloc, full.signed(), left, right)
}

// Two words as an `int64_t` each.
fn both_cast(alloc: Global, left: CExpr, right: CExpr) -> Result<(CExpr, CExpr), Memory>
    ensures left { IfOk result (λ r. expr_view r.0 ≡ Cast I64 (expr_view left)) }
    ensures right { IfOk result (λ r. expr_view r.1 ≡ Cast I64 (expr_view right)) }
{
    match c_tree::cast(alloc, CWord::I64, left) {
        Ok(first) => match c_tree::cast(alloc, CWord::I64, right) {
            Ok(second) => Ok((first, second)),
            Err(error) => {
                drop(first);
                Err(error)
            }
        },
        Err(error) => {
            drop(right);
            Err(error)
        }
    }
}

// A difference of words of this signedness, as an `int64_t`; unsigned ones are below `2^63`.
fn minus(alloc: Global, signed: bool, left: CExpr, right: CExpr) -> Result<CExpr, Memory>
    ensures { IfOk result (λ r. expr_view r ≡ Arguments.minus_of signed (expr_view left) (expr_view right)) }
{
    if signed {
        let r = c_tree::binary(alloc, COp::Sub, left, right)?;
        Ok(r)
    } else {
        let (first, second) = both_cast(alloc, left, right)?;
        c_tree::binary(alloc, COp::Sub, first, second)
    }
}
