//! Words in variables, compared.

ghost use Rattle.std.specs.Prelude.{◌≡◌, ◌≤◌, IfOk};
ghost use Rattle.c_tree.specs.Tree.{Cast};
ghost use Rattle.c_tree.specs.View.{expr_view};
ghost use Rattle.c_tree.specs.declared.tree.CWord.TheVariants.{U64};
ghost use Rattle.lower_op.specs.CompareShapes;

use crate::relations::{holds_above, holds_below};
use c_tree::{CExpr, CRel, CWord};
use lower_scalar::{below_zero, bits_of, choose_less, far_floor, floor_shift, low_bits};
use num_type::Memory;
use std::alloc::Global;

// 1 where the relation holds between two expressions of one type, and else 0.
fn truth_of(alloc: Global, rel: CRel, a: CExpr, b: CExpr) -> Result<CExpr, Memory>
    ensures { IfOk result (λ r. expr_view r ≡ CompareShapes.truth_of rel (expr_view a) (expr_view b)) }
{
    let test = c_tree::compare(rel, a, b);
    let r = c_tree::truth(alloc, test)?;
    Ok(r)
}

// The same where the first is an `int64_t` from 0 on beside a `uint64_t`.
fn signed_first(alloc: Global, rel: CRel, a: CExpr, b: CExpr) -> Result<CExpr, Memory>
    ensures { IfOk result (λ r. expr_view r ≡ CompareShapes.truth_of rel (Cast U64 (expr_view a)) (expr_view b)) }
{
    match c_tree::cast(alloc, CWord::U64, a) {
        Ok(bits) => truth_of(alloc, rel, bits, b),
        Err(error) => {
            drop(b);
            Err(error)
        }
    }
}

// The same where the second is.
fn signed_second(alloc: Global, rel: CRel, a: CExpr, b: CExpr) -> Result<CExpr, Memory>
    ensures { IfOk result (λ r. expr_view r ≡ CompareShapes.truth_of rel (expr_view a) (Cast U64 (expr_view b))) }
{
    match c_tree::cast(alloc, CWord::U64, b) {
        Ok(bits) => truth_of(alloc, rel, a, bits),
        Err(error) => {
            drop(a);
            Err(error)
        }
    }
}

/// 1 where the relation holds between the words of signedness `s` in `x` and of signedness `t` in `y`, and else 0.
pub fn compare_words(
    alloc: Global,
    rel: CRel,
    s: bool,
    x: u32,
    t: bool,
    y: u32,
) -> Result<CExpr, Memory>
    ensures { IfOk result (λ r. expr_view r ≡ CompareShapes.compare_words rel s x t y) }
{
    let left = c_tree::variable(x);
    let right = c_tree::variable(y);
    match (s, t) {
        (true, false) => {
            let plain = signed_first(alloc, rel, left, right)?;
            below_zero(alloc, x, c_tree::signed(holds_below(rel)), plain)
        }
        (false, true) => {
            let plain = signed_second(alloc, rel, left, right)?;
            below_zero(alloc, y, c_tree::signed(holds_above(rel)), plain)
        }
        _ => truth_of(alloc, rel, left, right),
    }
}

/// The word of this signedness in `x` divided by `2^k`, rounded down.
pub fn floor_at(alloc: Global, s: bool, x: u32, k: u32) -> Result<CExpr, Memory>
    ensures { IfOk result (λ r. expr_view r ≡ CompareShapes.floor_at s x k) }
{
    if k < 64 {
        let r = floor_shift(alloc, s, x, k)?;
        Ok(r)
    } else {
        let r = far_floor(alloc, s, x)?;
        Ok(r)
    }
}

// What the word is above that, as a `uint64_t`: 0 just where it is 0.
fn rest_at(alloc: Global, s: bool, x: u32, k: u32) -> Result<CExpr, Memory>
    requires { 1 ≤ k }
    ensures { IfOk result (λ r. expr_view r ≡ CompareShapes.rest_at s x k) }
{
    if k < 64 {
        let r = low_bits(alloc, s, x, k)?;
        Ok(r)
    } else {
        let r = bits_of(alloc, s, c_tree::variable(x))?;
        Ok(r)
    }
}

// The first expression where something is left behind the floor, and else the second.
fn where_rest(
    alloc: Global,
    s: bool,
    x: u32,
    k: u32,
    some: CExpr,
    none: CExpr,
) -> Result<CExpr, Memory>
    requires { 1 ≤ k }
    ensures { IfOk result (λ r. expr_view r ≡ CompareShapes.where_rest s x k (expr_view some) (expr_view none)) }
{
    match rest_at(alloc, s, x, k) {
        Ok(rest) => choose_less(alloc, c_tree::unsigned(0), rest, some, none),
        Err(error) => {
            drop(some);
            drop(none);
            Err(error)
        }
    }
}

// The same for a number between the word in `x` and the next one, beside the word in `y`.
fn compare_above(
    alloc: Global,
    rel: CRel,
    s: bool,
    x: u32,
    t: bool,
    y: u32,
) -> Result<CExpr, Memory>
    ensures { IfOk result (λ r. expr_view r ≡ CompareShapes.compare_above rel s x t y) }
{
    match rel {
        CRel::Eq => Ok(c_tree::signed(0)),
        CRel::Ne => Ok(c_tree::signed(1)),
        CRel::Lt | CRel::Le => {
            let r = compare_words(alloc, CRel::Lt, s, x, t, y)?;
            Ok(r)
        }
        CRel::Gt | CRel::Ge => {
            let r = compare_words(alloc, CRel::Ge, s, x, t, y)?;
            Ok(r)
        }
    }
}

/// 1 where the relation holds between the word in `x` divided by `2^k`, whose floor stands in `f`, and the word in `y`, and else 0.
#[tactic(auto, unfolding(crate::specs::CompareShapes::compare_floor))]
pub fn compare_floor(
    alloc: Global,
    rel: CRel,
    s: bool,
    x: u32,
    k: u32,
    f: u32,
    t: bool,
    y: u32,
) -> Result<CExpr, Memory>
    requires { 1 ≤ k }
    ensures { IfOk result (λ r. expr_view r ≡ CompareShapes.compare_floor rel s x k f t y) }
{
    match rel {
        CRel::Lt | CRel::Ge => {
            let r = compare_words(alloc, rel, s, f, t, y)?;
            Ok(r)
        }
        CRel::Eq | CRel::Ne | CRel::Le | CRel::Gt => {
            let above = compare_above(alloc, rel, s, f, t, y)?;
            match compare_words(alloc, rel, s, f, t, y) {
                Ok(level) => where_rest(alloc, s, x, k, above, level),
                Err(error) => {
                    drop(above);
                    Err(error)
                }
            }
        }
    }
}
