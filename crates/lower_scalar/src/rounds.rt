//! A word in a variable, divided by a power of two and rounded.

ghost use Rattle.std.specs.Prelude.{◌≡◌, ◌≤◌, ◌<◌, ◌^◌, IfOk, true, false};
ghost use Rattle.c_tree.specs.Tree.{Unsigned, Var, Binary, Choose};
ghost use Rattle.c_tree.specs.declared.tree.COp.TheVariants.{And};
ghost use Rattle.c_tree.specs.View.{expr_view};
ghost use Rattle.lower_scalar.specs.Shapes;

use crate::numbers::{ones, power};
use crate::signs::{below_zero, bits_of, choose_less, constant, minus_one, minus_one_less};
use c_tree::{CExpr, COp};
use num_type::{Memory, Rounding};
use std::alloc::Global;

/// The word of this signedness in `x` divided by `2^k`, rounded down.
pub fn floor_shift(alloc: Global, signed: bool, x: u32, k: u32) -> Result<CExpr, Memory>
    ensures { IfOk result (λ r. expr_view r ≡ Shapes.floor_shift signed x k) }
{
    let plain = shift_right(alloc, c_tree::variable(x), k)?;
    if signed {
        match floor_below(alloc, x, k) {
            Ok(below) => { below_zero(alloc, x, below, plain) }
            Err(error) => {
                drop(plain);
                Err(error)
            }
        }
    } else {
        Ok(plain)
    }
}

// The same of a negative word: `-1 - x` is shifted.
fn floor_below(alloc: Global, x: u32, k: u32) -> Result<CExpr, Memory>
    ensures { IfOk result (λ r. expr_view r ≡ Shapes.floor_below x k) }
{
    let one = minus_one(alloc)?;
    let size = c_tree::binary(alloc, COp::Sub, one, c_tree::variable(x))?;
    let shifted = shift_right(alloc, size, k)?;
    minus_one_less(alloc, shifted)
}

// An expression that isn't negative, shifted right.
fn shift_right(alloc: Global, e: CExpr, k: u32) -> Result<CExpr, Memory>
    ensures { IfOk result (λ r. expr_view r ≡ Shapes.shift_right (expr_view e) k) }
{
    c_tree::binary(alloc, COp::Shr, e, c_tree::unsigned(k as u64))
}

/// The low `k` bits of the word in `x`.
pub fn low_bits(alloc: Global, signed: bool, x: u32, k: u32) -> Result<CExpr, Memory>
    requires some { 1 ≤ k }
    requires most { k ≤ 64 }
    ensures { IfOk result (λ r. expr_view r ≡ Shapes.low_bits signed x k) }
{
    let bits = bits_of(alloc, signed, c_tree::variable(x))?;
    c_tree::binary(alloc, COp::And, bits, c_tree::unsigned(ones(k)))
}

// The floor in `f`, or one more where the low `k` bits of the word in `x` are above `c`.
fn step_above(alloc: Global, signed: bool, x: u32, f: u32, k: u32, c: u64) -> Result<CExpr, Memory>
    requires some { 1 ≤ k }
    requires most { k ≤ 64 }
    ensures { IfOk result (λ r. expr_view r ≡ Shapes.step_above signed x f k c) }
{
    let low = low_bits(alloc, signed, x, k)?;
    match c_tree::binary(alloc, COp::Add, c_tree::variable(f), constant(signed, 1)) {
        Ok(next) => { choose_less(alloc, c_tree::unsigned(c), low, next, c_tree::variable(f)) }
        Err(error) => {
            drop(low);
            Err(error)
        }
    }
}

/// The word of this signedness in `x` divided by `2^k` and rounded, where `f` holds the floor. `k` is from 1 to 63 bits.
#[tactic(auto, unfolding(crate::specs::Shapes::round_shift))]
pub fn round_shift(
    alloc: Global,
    method: Rounding,
    signed: bool,
    x: u32,
    f: u32,
    k: u32,
) -> Result<CExpr, Memory>
    requires some { 1 ≤ k }
    requires most { k < 64 }
    ensures { IfOk result (λ r. expr_view r ≡ Shapes.round_shift method signed x f k) }
{
    match method {
        Rounding::Floor => Ok(c_tree::variable(f)),
        Rounding::Ceiling => { step_above(alloc, signed, x, f, k, 0) }
        Rounding::Nearest => { step_above(alloc, signed, x, f, k, power(k - 1) - 1) }
        Rounding::Zero => { toward_zero(alloc, signed, x, f, k) }
        Rounding::Round => { away_at_half(alloc, signed, x, f, k) }
        Rounding::Convergent => { even_at_half(alloc, signed, x, f, k) }
    }
}

// Rounded toward zero.
fn toward_zero(alloc: Global, signed: bool, x: u32, f: u32, k: u32) -> Result<CExpr, Memory>
    requires some { 1 ≤ k }
    requires most { k < 64 }
    ensures { IfOk result (λ r. expr_view r ≡ Shapes.toward_zero signed x f k) }
{
    if signed {
        let up = step_above(alloc, true, x, f, k, 0)?;
        below_zero(alloc, x, up, c_tree::variable(f))
    } else {
        Ok(c_tree::variable(f))
    }
}

// Rounded to the nearest number, a tie away from zero.
fn away_at_half(alloc: Global, signed: bool, x: u32, f: u32, k: u32) -> Result<CExpr, Memory>
    requires some { 1 ≤ k }
    requires most { k < 64 }
    ensures { IfOk result (λ r. expr_view r ≡ Shapes.away_at_half signed x f k) }
{
    let half = power(k - 1);
    let at_half = step_above(alloc, signed, x, f, k, half - 1)?;
    if signed {
        match step_above(alloc, true, x, f, k, half) {
            Ok(past_half) => { below_zero(alloc, x, past_half, at_half) }
            Err(error) => {
                drop(at_half);
                Err(error)
            }
        }
    } else {
        Ok(at_half)
    }
}

// 1 where the word in `f` is odd, and else 0.
fn lowest_bit(alloc: Global, signed: bool, f: u32) -> Result<CExpr, Memory>
    ensures { IfOk result (λ r. expr_view r ≡ Binary And (Shapes.bits_of signed (Var f)) (Unsigned 1)) }
{
    let bits = bits_of(alloc, signed, c_tree::variable(f))?;
    c_tree::binary(alloc, COp::And, bits, c_tree::unsigned(1))
}

// The first of two expressions where the word in `f` is odd, and else the second.
fn where_odd(
    alloc: Global,
    signed: bool,
    f: u32,
    at_half: CExpr,
    past_half: CExpr,
) -> Result<CExpr, Memory>
    ensures { IfOk result (λ r. expr_view r ≡ Choose (Shapes.is_less (Unsigned 0) (Binary And (Shapes.bits_of signed (Var f)) (Unsigned 1))) (expr_view at_half) (expr_view past_half)) }
{
    match lowest_bit(alloc, signed, f) {
        Ok(odd) => { choose_less(alloc, c_tree::unsigned(0), odd, at_half, past_half) }
        Err(error) => {
            drop(at_half);
            drop(past_half);
            Err(error)
        }
    }
}

// Rounded to the nearest number, a tie to the even one.
fn even_at_half(alloc: Global, signed: bool, x: u32, f: u32, k: u32) -> Result<CExpr, Memory>
    requires some { 1 ≤ k }
    requires most { k < 64 }
    ensures { IfOk result (λ r. expr_view r ≡ Shapes.even_at_half signed x f k) }
{
    let half = power(k - 1);
    let at_half = step_above(alloc, signed, x, f, k, half - 1)?;
    match step_above(alloc, signed, x, f, k, half) {
        Ok(past_half) => { where_odd(alloc, signed, f, at_half, past_half) }
        Err(error) => {
            drop(at_half);
            Err(error)
        }
    }
}

// 1 where the word in `x` is above `c`, and else 0.
fn one_above(alloc: Global, signed: bool, x: u32, c: u64) -> Result<CExpr, Memory>
    ensures { IfOk result (λ r. expr_view r ≡ Shapes.one_above signed x c) }
{
    choose_less(
        alloc,
        constant(signed, c),
        c_tree::variable(x),
        constant(signed, 1),
        constant(signed, 0),
    )
}

// The same for an unsigned word alone, where just 64 bits are dropped.
fn half_above(alloc: Global, signed: bool, x: u32, k: u32, c: u64) -> Result<CExpr, Memory>
    ensures { IfOk result (λ r. expr_view r ≡ Shapes.half_above signed x k c) }
{
    if signed {
        Ok(c_tree::signed(0))
    } else if k == 64 {
        one_above(alloc, false, x, c)
    } else {
        Ok(c_tree::unsigned(0))
    }
}

// -1 for the least `int64_t`, where just 64 bits are dropped, and else 0.
fn least_below(alloc: Global, x: u32, k: u32) -> Result<CExpr, Memory>
    ensures { IfOk result (λ r. expr_view r ≡ Shapes.least_below x k) }
{
    if k == 64 {
        let end = c_tree::negation(alloc, c_tree::signed(i64::MAX as u64))?;
        match minus_one(alloc) {
            Ok(minus) => { choose_less(alloc, c_tree::variable(x), end, minus, c_tree::signed(0)) }
            Err(error) => {
                drop(end);
                Err(error)
            }
        }
    } else {
        Ok(c_tree::signed(0))
    }
}

/// -1 where a signed word is below 0, and else 0: the word divided by `2^k` and rounded down, where `k` is 64 bits or more.
pub fn far_floor(alloc: Global, signed: bool, x: u32) -> Result<CExpr, Memory>
    ensures { IfOk result (λ r. expr_view r ≡ Shapes.far_floor signed x) }
{
    if signed {
        let minus = minus_one(alloc)?;
        below_zero(alloc, x, minus, c_tree::signed(0))
    } else {
        Ok(c_tree::unsigned(0))
    }
}

// Where 64 bits or more are dropped, rounded to the nearest number, a tie away from zero.
fn far_away(alloc: Global, signed: bool, x: u32, k: u32) -> Result<CExpr, Memory>
    ensures { IfOk result (λ r. expr_view r ≡ Shapes.far_away signed x k) }
{
    if signed {
        least_below(alloc, x, k)
    } else {
        half_above(alloc, false, x, k, (1 << 63) - 1)
    }
}

/// The word of this signedness in `x` divided by `2^k` and rounded. `k` is 64 bits or more.
#[tactic(auto, unfolding(crate::specs::Shapes::round_far))]
pub fn round_far(
    alloc: Global,
    method: Rounding,
    signed: bool,
    x: u32,
    k: u32,
) -> Result<CExpr, Memory>
    ensures { IfOk result (λ r. expr_view r ≡ Shapes.round_far method signed x k) }
{
    match method {
        Rounding::Floor => { far_floor(alloc, signed, x) }
        Rounding::Ceiling => { one_above(alloc, signed, x, 0) }
        Rounding::Zero => Ok(constant(signed, 0)),
        Rounding::Nearest => { half_above(alloc, signed, x, k, (1 << 63) - 1) }
        Rounding::Round => { far_away(alloc, signed, x, k) }
        Rounding::Convergent => { half_above(alloc, signed, x, k, 1 << 63) }
    }
}
