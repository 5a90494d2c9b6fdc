//! Words times a power of two.

ghost use Rattle.std.specs.Prelude.{◌≡◌, ◌≤◌, ◌<◌, ◌-◌, ◌/◌, ◌^◌, IfOk, true, false};
ghost use Rattle.c_tree.specs.Tree.{Var, Choose};
ghost use Rattle.c_tree.specs.View.{expr_view};
ghost use Rattle.lower_scalar.specs.Shapes;

use crate::fits::{Source, least, wrap};
use crate::numbers::{power, shifted, top};
use crate::signs::{choose_less, constant, resigned};
use c_tree::{CExpr, COp};
use num_type::{Memory, Overflow};
use std::alloc::Global;

/// An expression of this signedness times `2^n`, which is a word of the signedness. `n` is below 64.
pub fn raise(alloc: Global, signed: bool, n: u32, e: CExpr) -> Result<CExpr, Memory>
    requires { n < 64 }
    ensures { IfOk result (λ r. expr_view r ≡ Shapes.raised signed n (expr_view e)) }
{
    if n == 0 {
        Ok(e)
    } else if signed && n == 63 {
        let half = c_tree::binary(alloc, COp::Mul, e, c_tree::signed(1 << 62))?;
        c_tree::binary(alloc, COp::Mul, half, c_tree::signed(2))
    } else {
        c_tree::binary(alloc, COp::Mul, e, constant(signed, power(n)))
    }
}

// The word in `x` times `2^n` where that is in the range.
fn raise_inside(alloc: Global, to: bool, signed: bool, x: u32, n: u32) -> Result<CExpr, Memory>
    ensures { IfOk result (λ r. expr_view r ≡ Shapes.raised_inside to signed x n) }
{
    if n < 64 {
        let same = resigned(alloc, signed, to, c_tree::variable(x))?;
        raise(alloc, to, n, same)
    } else {
        Ok(constant(to, 0))
    }
}

// The least word whose multiple is in the range.
fn bottom(alloc: Global, to: bool, word: u32, n: u32) -> Result<CExpr, Memory>
    requires some { 1 ≤ word }
    requires most { word ≤ 64 }
    ensures { IfOk result (λ r. expr_view r ≡ Shapes.bottom to word n) }
{
    if to {
        c_tree::negation(alloc, c_tree::signed(shifted(power(word - 1), n)))
    } else {
        Ok(c_tree::signed(0))
    }
}

// A multiple of a word brought to the greatest number of a range.
fn below_top(
    alloc: Global,
    to: bool,
    word: u32,
    signed: bool,
    x: u32,
    n: u32,
    other: CExpr,
) -> Result<CExpr, Memory>
    requires some { 1 ≤ word }
    requires most { word ≤ 64 }
    ensures { IfOk result (λ r. expr_view r ≡ Shapes.below_top to word signed x n (expr_view other)) }
{
    let end = top(to, word);
    choose_less(
        alloc,
        constant(signed, shifted(end, n)),
        c_tree::variable(x),
        constant(to, end),
        other,
    )
}

// The least word whose multiple is in the range, and the least number of the range.
fn bottom_and_least(alloc: Global, to: bool, word: u32, n: u32) -> Result<(CExpr, CExpr), Memory>
    requires some { 1 ≤ word }
    requires most { word ≤ 64 }
    ensures { IfOk result (λ r. (expr_view r.0 ≡ Shapes.bottom to word n) × (expr_view r.1 ≡ Shapes.least to word)) }
{
    let end = bottom(alloc, to, word, n)?;
    match least(alloc, to, word) {
        Ok(low) => Ok((end, low)),
        Err(error) => {
            drop(end);
            Err(error)
        }
    }
}

// A multiple of a signed word brought to the least number of a range.
fn above_bottom(
    alloc: Global,
    to: bool,
    word: u32,
    x: u32,
    n: u32,
    other: CExpr,
) -> Result<CExpr, Memory>
    requires some { 1 ≤ word }
    requires most { word ≤ 64 }
    ensures { IfOk result (λ r. expr_view r ≡ Choose (Shapes.is_less (Var x) (Shapes.bottom to word n)) (Shapes.least to word) (expr_view other)) }
{
    match bottom_and_least(alloc, to, word, n) {
        Ok((end, low)) => { choose_less(alloc, c_tree::variable(x), end, low, other) }
        Err(error) => {
            drop(other);
            Err(error)
        }
    }
}

// The number of a range that is nearest to the word in `x` times `2^n`.
fn raise_saturate(
    alloc: Global,
    to: bool,
    word: u32,
    signed: bool,
    x: u32,
    n: u32,
) -> Result<CExpr, Memory>
    requires some { 1 ≤ word }
    requires most { word ≤ 64 }
    ensures { IfOk result (λ r. expr_view r ≡ Shapes.raised_saturated to word signed x n) }
{
    let inside = raise_inside(alloc, to, signed, x, n)?;
    if signed {
        let above = above_bottom(alloc, to, word, x, n, inside)?;
        below_top(alloc, to, word, true, x, n, above)
    } else {
        below_top(alloc, to, word, false, x, n, inside)
    }
}

// The number of a range that differs from the word in `x` times `2^n` by a multiple of `2^word`.
fn raise_wrap(
    alloc: Global,
    to: bool,
    word: u32,
    signed: bool,
    x: u32,
    n: u32,
) -> Result<CExpr, Memory>
    requires some { 1 ≤ word }
    requires most { word ≤ 64 }
    ensures { IfOk result (λ r. expr_view r ≡ Shapes.raised_wrapped to word signed x n) }
{
    if n < 64 {
        wrap(alloc, to, word, Source { signed, x, by: n })
    } else {
        Ok(constant(to, 0))
    }
}

/// The word of signedness `signed` in `x` times `2^n`, brought into a range by the action. `n` is not 0.
#[tactic(auto, unfolding(crate::specs::Shapes::raised_fitted))]
pub fn raise_fit(
    alloc: Global,
    action: Overflow,
    to: bool,
    word: u32,
    signed: bool,
    x: u32,
    n: u32,
) -> Result<CExpr, Memory>
    requires some { 1 ≤ word }
    requires most { word ≤ 64 }
    ensures { IfOk result (λ r. expr_view r ≡ Shapes.raised_fitted action to word signed x n) }
{
    match action {
        Overflow::Saturate => { raise_saturate(alloc, to, word, signed, x, n) }
        Overflow::Wrap => { raise_wrap(alloc, to, word, signed, x, n) }
    }
}

/// Whether each number of a range of signedness `signed` and `from` bits, times `2^n`, is one of signedness `to` and `word` bits.
pub fn holds_raised(to: bool, word: u32, signed: bool, from: u32, n: u32) -> bool
    requires some { from ≤ 64 }
    ensures { result ≡ Shapes.holds_raised to word signed from n }
{
    let wide = from as u64 + n as u64;
    if to {
        if signed {
            wide <= word as u64
        } else {
            wide < word as u64
        }
    } else if signed {
        false
    } else {
        wide <= word as u64
    }
}
