//! Operations of one operand.

ghost use Rattle.std.specs.Prelude.{◌≡◌, ◌≤◌, IfOk};
ghost use Rattle.num_type.specs.View.{type_of};
ghost use Rattle.c_tree.specs.Tree.{Choose, Var, Signed};
ghost use Rattle.c_tree.specs.View.{expr_view};
ghost use Rattle.lower_scalar.specs.Part.{part_view, reach};
ghost use Rattle.lower_scalar.specs.Shapes.{is_less};
ghost use Rattle.lower_scalar.specs.Operators;
ghost use Rattle.lower_scalar.specs.Operators.{Negates, TakesSign};

use c_tree::{CExpr, COp, CPart};
use fi_math::Fimath;
use lower_scalar::{alone, below_zero, choose_less, ones, over_one, top};
use num_type::{Memory, NumType, Overflow};
use std::alloc::Global;

/// The part that negates `e` of the type `t`, and brings what passes the range back by the overflow action. Want of memory is the only
/// refusal.
pub fn negate(alloc: Global, m: Fimath, t: NumType, e: CExpr, fresh: u32) -> Result<CPart, Memory>
    requires { reach (expr_view e) ≤ fresh }
    ensures { IfOk result (λ r. Negates m (type_of t) (expr_view e) fresh (part_view r)) }
{
    let r = negated_part(alloc, m.overflow, t, e, fresh)?;
    Ok(r)
}

/// The part that takes the sign of `e` of the type `t` away, by the same rule. Want of memory is the only refusal.
pub fn take_sign(
    alloc: Global,
    m: Fimath,
    t: NumType,
    e: CExpr,
    fresh: u32,
) -> Result<CPart, Memory>
    requires { reach (expr_view e) ≤ fresh }
    ensures { IfOk result (λ r. TakesSign m (type_of t) (expr_view e) fresh (part_view r)) }
{
    let r = absolute_part(alloc, m.overflow, t, e, fresh)?;
    Ok(r)
}

// The part that negates, as it is written.
fn negated_part(
    alloc: Global,
    action: Overflow,
    t: NumType,
    e: CExpr,
    fresh: u32,
) -> Result<CPart, Memory>
    ensures { IfOk result (λ r. part_view r ≡ Operators.negated_part action (type_of t) (expr_view e) fresh) }
{
    if t.signed() {
        match turned(alloc, action, t.word(), fresh) {
            Ok(minus) => over_one(alloc, true, e, fresh, minus),
            Err(error) => {
                drop(e);
                Err(error)
            }
        }
    } else {
        let minus = turned_plain(alloc, action, t.word(), e)?;
        Ok(alone(alloc, minus))
    }
}

// The part without a sign, as it is written.
fn absolute_part(
    alloc: Global,
    action: Overflow,
    t: NumType,
    e: CExpr,
    fresh: u32,
) -> Result<CPart, Memory>
    ensures { IfOk result (λ r. part_view r ≡ Operators.absolute_part action (type_of t) (expr_view e) fresh) }
{
    if t.signed() {
        match size_of(alloc, action, t.word(), fresh) {
            Ok(size) => over_one(alloc, true, e, fresh, size),
            Err(error) => {
                drop(e);
                Err(error)
            }
        }
    } else {
        Ok(alone(alloc, e))
    }
}

// The number in `x` without its sign, of a signed type.
fn size_of(alloc: Global, action: Overflow, word: u32, x: u32) -> Result<CExpr, Memory>
    requires some { 1 ≤ word }
    requires most { word ≤ 64 }
    ensures { IfOk result (λ r. expr_view r ≡ Choose (is_less (Var x) (Signed 0)) (Operators.turned action word x) (Var x)) }
{
    let minus = turned(alloc, action, word, x)?;
    below_zero(alloc, x, minus, c_tree::variable(x))
}

// What minus the least number in `x` becomes.
fn turned_least(action: Overflow, word: u32, x: u32) -> CExpr
    requires some { 1 ≤ word }
    requires most { word ≤ 64 }
    ensures { expr_view result ≡ Operators.turned_least action word x }
{
    match action {
        Overflow::Saturate => c_tree::signed(top(true, word)),
        Overflow::Wrap => c_tree::variable(x),
    }
}

// Minus the number in `x`, of a signed type.
fn turned(alloc: Global, action: Overflow, word: u32, x: u32) -> Result<CExpr, Memory>
    requires some { 1 ≤ word }
    requires most { word ≤ 64 }
    ensures { IfOk result (λ r. expr_view r ≡ Operators.turned action word x) }
{
    let edge = c_tree::negation(alloc, c_tree::signed(top(true, word)))?;
    match c_tree::negation(alloc, c_tree::variable(x)) {
        Ok(minus) => {
            let least = turned_least(action, word, x);
            choose_less(alloc, c_tree::variable(x), edge, least, minus)
        }
        Err(error) => {
            drop(edge);
            Err(error)
        }
    }
}

// Minus an unsigned number.
fn turned_plain(alloc: Global, action: Overflow, word: u32, e: CExpr) -> Result<CExpr, Memory>
    requires some { 1 ≤ word }
    requires most { word ≤ 64 }
    ensures { IfOk result (λ r. expr_view r ≡ Operators.turned_plain action word (expr_view e)) }
{
    match action {
        Overflow::Saturate => Ok(c_tree::unsigned(0)),
        Overflow::Wrap => {
            let minus = c_tree::binary(alloc, COp::Sub, c_tree::unsigned(0), e)?;
            let r = c_tree::binary(alloc, COp::And, minus, c_tree::unsigned(ones(word)))?;
            Ok(r)
        }
    }
}
