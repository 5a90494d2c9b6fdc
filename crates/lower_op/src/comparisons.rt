//! Comparisons of two real values.

ghost use Rattle.std.specs.Prelude.{◌≡◌, ◌≤◌, ◌+◌, ◌^◌, IfOk};
ghost use Rattle.c_tree.specs.View.{expr_view};
ghost use Rattle.lower_scalar.specs.Part.{part_view, reach};
ghost use Rattle.lower_op.specs.Arguments.{operand};
ghost use Rattle.lower_op.specs.Comparisons.{Compares};
ghost use Rattle.lower_op.specs.CompareShapes;

use crate::compared::{compare_floor, compare_words, floor_at};
use crate::relations::turned;
use c_tree::{CExpr, CPart, CRel};
use fi_quant::gap;
use lower_scalar::{three_sets, two_sets, word_for};
use num_type::{Memory, NumType};
use sqlite_items::Items;
use std::alloc::Global;

/// The part that gives 1 where the relation holds between the exact values of `a` of the type `p` and `b` of the type `q`, and else 0.
/// Want of memory is the only refusal.
pub fn compare(
    alloc: Global,
    rel: CRel,
    p: NumType,
    a: CExpr,
    q: NumType,
    b: CExpr,
    fresh: u32,
) -> Result<CPart, Memory>
    requires room { fresh ≤ 2 ^ 31 }
    requires left { reach (expr_view a) ≤ fresh }
    requires right { reach (expr_view b) ≤ fresh }
    ensures { IfOk result (λ r. Compares rel (operand p a) (operand q b) fresh (part_view r)) }
{
    let r = compared_part(alloc, rel, p, a, q, b, fresh)?;
    Ok(r)
}

// The same part, with how it is written.
fn compared_part(
    alloc: Global,
    rel: CRel,
    p: NumType,
    a: CExpr,
    q: NumType,
    b: CExpr,
    fresh: u32,
) -> Result<CPart, Memory>
    requires { fresh ≤ 2 ^ 31 }
    ensures { IfOk result (λ r. part_view r ≡ CompareShapes.compared_part rel (operand p a) (operand q b) fresh) }
{
    let left = p.fraction();
    let right = q.fraction();
    if left == right {
        let r = level_part(alloc, rel, p, a, q, b, fresh)?;
        Ok(r)
    } else if right < left {
        let k = gap(left, right);
        let r = left_finer_part(alloc, rel, p, a, q, b, fresh, k)?;
        Ok(r)
    } else {
        let k = gap(right, left);
        let r = right_finer_part(alloc, rel, p, a, q, b, fresh, k)?;
        Ok(r)
    }
}

// The part for values of one fraction length.
fn level_part(
    alloc: Global,
    rel: CRel,
    p: NumType,
    a: CExpr,
    q: NumType,
    b: CExpr,
    fresh: u32,
) -> Result<CPart, Memory>
    requires { fresh ≤ 2 ^ 31 }
    ensures { IfOk result (λ r. part_view r ≡ CompareShapes.level_part rel (operand p a) (operand q b) fresh) }
{
    let s = p.signed();
    let t = q.signed();
    match compare_words(alloc, rel, s, fresh, t, fresh + 1) {
        Ok(value) => over_both(alloc, s, a, t, b, fresh, value),
        Err(error) => {
            drop(a);
            drop(b);
            Err(error)
        }
    }
}

// The floor of the word in `x` divided by `2^k`, and the comparison of the quotient, whose floor stands in `f`, with the word in `y`.
fn floor_and_value(
    alloc: Global,
    rel: CRel,
    s: bool,
    x: u32,
    k: u32,
    f: u32,
    t: bool,
    y: u32,
) -> Result<(CExpr, CExpr), Memory>
    requires { 1 ≤ k }
    ensures floor { IfOk result (λ r. expr_view r.0 ≡ CompareShapes.floor_at s x k) }
    ensures value { IfOk result (λ r. expr_view r.1 ≡ CompareShapes.compare_floor rel s x k f t y) }
{
    let floor = floor_at(alloc, s, x, k)?;
    match compare_floor(alloc, rel, s, x, k, f, t, y) {
        Ok(value) => Ok((floor, value)),
        Err(error) => {
            drop(floor);
            Err(error)
        }
    }
}

// The part for an `a` that is finer by `k` bits.
fn left_finer_part(
    alloc: Global,
    rel: CRel,
    p: NumType,
    a: CExpr,
    q: NumType,
    b: CExpr,
    fresh: u32,
    k: u32,
) -> Result<CPart, Memory>
    requires room { fresh ≤ 2 ^ 31 }
    requires finer { 1 ≤ k }
    ensures { IfOk result (λ r. part_view r ≡ CompareShapes.left_finer_part rel (operand p a) (operand q b) fresh k) }
{
    let s = p.signed();
    let t = q.signed();
    match floor_and_value(alloc, rel, s, fresh, k, fresh + 2, t, fresh + 1) {
        Ok((floor, value)) => over_both_and(alloc, s, a, t, b, fresh, s, floor, value),
        Err(error) => {
            drop(a);
            drop(b);
            Err(error)
        }
    }
}

// The part for a `b` that is finer by `k` bits: the relation is turned.
fn right_finer_part(
    alloc: Global,
    rel: CRel,
    p: NumType,
    a: CExpr,
    q: NumType,
    b: CExpr,
    fresh: u32,
    k: u32,
) -> Result<CPart, Memory>
    requires room { fresh ≤ 2 ^ 31 }
    requires finer { 1 ≤ k }
    ensures { IfOk result (λ r. part_view r ≡ CompareShapes.right_finer_part rel (operand p a) (operand q b) fresh k) }
{
    let s = p.signed();
    let t = q.signed();
    match floor_and_value(alloc, turned(rel), t, fresh + 1, k, fresh + 2, s, fresh) {
        Ok((floor, value)) => over_both_and(alloc, s, a, t, b, fresh, t, floor, value),
        Err(error) => {
            drop(a);
            drop(b);
            Err(error)
        }
    }
}

// An expression over two variables that hold `a` and `b`.
fn over_both(
    alloc: Global,
    s: bool,
    a: CExpr,
    t: bool,
    b: CExpr,
    fresh: u32,
    value: CExpr,
) -> Result<CPart, Memory>
    requires { fresh ≤ 2 ^ 31 }
    ensures { IfOk result (λ r. part_view r ≡ CompareShapes.over_both s (expr_view a) t (expr_view b) fresh (expr_view value)) }
{
    match two_sets(alloc, fresh, a, b) {
        Ok(before) => match Items::from_slice(alloc, &[word_for(s), word_for(t)]) {
            Ok(words) => Ok(CPart {
                words,
                before,
                value,
            }),
            Err(error) => {
                drop(before);
                drop(value);
                Err(Memory::from(error))
            }
        },
        Err(error) => {
            drop(value);
            Err(error)
        }
    }
}

// And over a third one of signedness `u`.
fn over_both_and(
    alloc: Global,
    s: bool,
    a: CExpr,
    t: bool,
    b: CExpr,
    fresh: u32,
    u: bool,
    third: CExpr,
    value: CExpr,
) -> Result<CPart, Memory>
    requires { fresh ≤ 2 ^ 31 }
    ensures { IfOk result (λ r. part_view r ≡ CompareShapes.over_both_and s (expr_view a) t (expr_view b) fresh u (expr_view third) (expr_view value)) }
{
    match three_sets(alloc, fresh, a, b, third) {
        Ok(before) => match Items::from_slice(alloc, &[word_for(s), word_for(t), word_for(u)]) {
            Ok(words) => Ok(CPart {
                words,
                before,
                value,
            }),
            Err(error) => {
                drop(before);
                drop(value);
                Err(Memory::from(error))
            }
        },
        Err(error) => {
            drop(value);
            Err(error)
        }
    }
}
