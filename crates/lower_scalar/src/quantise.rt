//! Quantisation: exact values taken to a type.

ghost use Rattle.std.specs.Prelude.{◌≡◌, ◌≤◌, ◌<◌, ◌+◌, ◌^◌, IfOk, true};
ghost use Rattle.num_type.specs.View.{type_of};
ghost use Rattle.c_tree.specs.View.{expr_view};
ghost use Rattle.lower_scalar.specs.Part.{part_view, reach, Quantises};
ghost use Rattle.lower_scalar.specs.Shapes;

use crate::fits::fit;
use crate::numbers::gap;
use crate::parts::{alone, over_one, over_three, over_two};
use crate::raises::{holds_raised, raise, raise_fit};
use crate::rounds::{floor_shift, round_far, round_shift};
use crate::signs::resigned;
use c_tree::{CExpr, CPart};
use num_type::{Memory, NumType, Overflow, Rounding};
use std::alloc::Global;

/// The part that takes the exact value of a stored integer of the type `from`, which `e` gives as its word, to the type `t`: rounded
/// once by the method if bits are dropped, then brought into range once by the action. Its own variables are numbered from `fresh` on.
/// Want of memory is the only refusal.
pub fn lower_quantise(
    alloc: Global,
    t: NumType,
    method: Rounding,
    action: Overflow,
    from: NumType,
    e: CExpr,
    fresh: u32,
) -> Result<CPart, Memory>
    requires room { fresh ≤ 2 ^ 31 }
    requires reads { reach (expr_view e) ≤ fresh }
    ensures { IfOk result (λ p. Quantises method action (type_of t) (type_of from) (expr_view e) fresh (part_view p)) }
{
    let p = quantise_part(alloc, t, method, action, from, e, fresh)?;
    Ok(p)
}

/// The same part, with how it is written.
pub fn quantise_part(
    alloc: Global,
    t: NumType,
    method: Rounding,
    action: Overflow,
    from: NumType,
    e: CExpr,
    fresh: u32,
) -> Result<CPart, Memory>
    requires room { fresh ≤ 2 ^ 31 + 2 ^ 30 }
    ensures { IfOk result (λ p. part_view p ≡ Shapes.quantised_part method action (type_of t) (type_of from) (expr_view e) fresh) }
{
    let high = t.fraction();
    let low = from.fraction();
    if low <= high {
        let p = raised_part(alloc, t, action, from, e, gap(high, low), fresh)?;
        Ok(p)
    } else {
        let p = lowered_part(alloc, t, method, action, from, e, gap(low, high), fresh)?;
        Ok(p)
    }
}

// The part where `n` bits are added.
#[tactic(auto, unfolding(crate::specs::Shapes::raised_part))]
fn raised_part(
    alloc: Global,
    t: NumType,
    action: Overflow,
    from: NumType,
    e: CExpr,
    n: u32,
    fresh: u32,
) -> Result<CPart, Memory>
    ensures { IfOk result (λ p. part_view p ≡ Shapes.raised_part action (type_of t) (type_of from) (expr_view e) n fresh) }
{
    if holds_raised(t.signed(), t.word(), from.signed(), from.word(), n) {
        raised_alone(alloc, t, from, e, n)
    } else if n == 0 {
        match fit(alloc, action, t.signed(), t.word(), from.signed(), fresh) {
            Ok(value) => over_one(alloc, from.signed(), e, fresh, value),
            Err(error) => {
                drop(e);
                Err(error)
            }
        }
    } else {
        match raise_fit(alloc, action, t.signed(), t.word(), from.signed(), fresh, n) {
            Ok(value) => over_one(alloc, from.signed(), e, fresh, value),
            Err(error) => {
                drop(e);
                Err(error)
            }
        }
    }
}

// Where the type holds each number times `2^n`.
fn raised_alone(alloc: Global, t: NumType, from: NumType, e: CExpr, n: u32) -> Result<CPart, Memory>
    requires { Shapes.holds_raised t.signed t.word from.signed from.word n ≡ true }
    ensures { IfOk result (λ p. part_view p ≡ Shapes.alone (Shapes.raised t.signed n (Shapes.resigned from.signed t.signed (expr_view e)))) }
{
    let same = resigned(alloc, from.signed(), t.signed(), e)?;
    let value = raise(alloc, t.signed(), n, same)?;
    Ok(alone(alloc, value))
}

// The part where `k` bits are dropped.
#[tactic(auto, unfolding(crate::specs::Shapes::lowered_part))]
fn lowered_part(
    alloc: Global,
    t: NumType,
    method: Rounding,
    action: Overflow,
    from: NumType,
    e: CExpr,
    k: u32,
    fresh: u32,
) -> Result<CPart, Memory>
    requires room { fresh ≤ 2 ^ 31 + 2 ^ 30 }
    requires some { 1 ≤ k }
    ensures { IfOk result (λ p. part_view p ≡ Shapes.lowered_part method action (type_of t) (type_of from) (expr_view e) k fresh) }
{
    if k < 64 {
        near_part(alloc, t, method, action, from.signed(), e, k, fresh)
    } else {
        far_part(alloc, t, method, action, from.signed(), e, k, fresh)
    }
}

// The floor of the word in `fresh`, and the word rounded, where the floor stands in `fresh + 1`.
fn floor_and_rounded(
    alloc: Global,
    method: Rounding,
    signed: bool,
    k: u32,
    fresh: u32,
) -> Result<(CExpr, CExpr), Memory>
    requires room { fresh ≤ 2 ^ 31 + 2 ^ 30 }
    requires some { 1 ≤ k }
    requires most { k < 64 }
    ensures { IfOk result (λ r. (expr_view r.0 ≡ Shapes.floor_shift signed fresh k) × (expr_view r.1 ≡ Shapes.round_shift method signed fresh (fresh + 1) k)) }
{
    let floor = floor_shift(alloc, signed, fresh, k)?;
    match round_shift(alloc, method, signed, fresh, fresh + 1, k) {
        Ok(rounded) => Ok((floor, rounded)),
        Err(error) => {
            drop(floor);
            Err(error)
        }
    }
}

// The part where fewer than 64 bits are dropped from a word of this signedness.
fn near_part(
    alloc: Global,
    t: NumType,
    method: Rounding,
    action: Overflow,
    signed: bool,
    e: CExpr,
    k: u32,
    fresh: u32,
) -> Result<CPart, Memory>
    requires room { fresh ≤ 2 ^ 31 + 2 ^ 30 }
    requires some { 1 ≤ k }
    requires most { k < 64 }
    ensures { IfOk result (λ p. part_view p ≡ Shapes.over_three signed (expr_view e) fresh (Shapes.floor_shift signed fresh k) (Shapes.round_shift method signed fresh (fresh + 1) k) (Shapes.fitted action t.signed t.word signed (fresh + 2))) }
{
    match floor_and_rounded(alloc, method, signed, k, fresh) {
        Ok((floor, rounded)) => {
            match fit(alloc, action, t.signed(), t.word(), signed, fresh + 2) {
                Ok(value) => over_three(alloc, signed, e, fresh, floor, rounded, value),
                Err(error) => {
                    drop(e);
                    drop(floor);
                    drop(rounded);
                    Err(error)
                }
            }
        }
        Err(error) => {
            drop(e);
            Err(error)
        }
    }
}

// The part where 64 bits or more are dropped.
fn far_part(
    alloc: Global,
    t: NumType,
    method: Rounding,
    action: Overflow,
    signed: bool,
    e: CExpr,
    k: u32,
    fresh: u32,
) -> Result<CPart, Memory>
    requires room { fresh ≤ 2 ^ 31 + 2 ^ 30 }
    ensures { IfOk result (λ p. part_view p ≡ Shapes.over_two signed (expr_view e) fresh (Shapes.round_far method signed fresh k) (Shapes.fitted action t.signed t.word signed (fresh + 1))) }
{
    match round_far(alloc, method, signed, fresh, k) {
        Ok(rounded) => match fit(alloc, action, t.signed(), t.word(), signed, fresh + 1) {
            Ok(value) => over_two(alloc, signed, e, fresh, rounded, value),
            Err(error) => {
                drop(e);
                drop(rounded);
                Err(error)
            }
        },
        Err(error) => {
            drop(e);
            Err(error)
        }
    }
}
