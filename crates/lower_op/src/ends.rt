//! Sums and differences of two words of one type, brought into its range.

ghost use Rattle.std.specs.Prelude.{◌≡◌, ◌≤◌, true, false, IfOk};
ghost use Rattle.c_tree.specs.Tree.{Var, Binary, Choose};
ghost use Rattle.c_tree.specs.View.{expr_view};
ghost use Rattle.lower_scalar.specs.Shapes;
ghost use Rattle.lower_scalar.specs.Operators;
ghost use Rattle.lower_op.specs.Arguments.{above_end, below_end, bits_pair};
ghost use Rattle.lower_op.specs.Ends as ends;

use c_tree::{CExpr, COp, CWord};
use lower_scalar::{
    below_zero, bits_of, choose_less, constant, least, minus_one, ones, power, top,
};
use num_type::{Memory, Overflow};
use std::alloc::Global;

/// A sum or a difference of two words.
#[derive(Clone, Copy)]
pub enum Additive {
    /// `x + y`
    Sum,
    /// `x - y`
    Difference,
}

/// Two variables.
#[derive(Clone, Copy)]
pub struct Two {
    pub x: u32,
    pub y: u32,
}

// An operation on the two variables.
fn pair(alloc: Global, op: COp, v: Two) -> Result<CExpr, Memory>
    ensures { IfOk result (λ r. expr_view r ≡ Binary op (Var v.x) (Var v.y)) }
{
    let r = c_tree::binary(alloc, op, c_tree::variable(v.x), c_tree::variable(v.y))?;
    Ok(r)
}

// `x op y`, or the greatest number where `x` is above `top back y`.
fn below_top(
    alloc: Global,
    op: COp,
    back: COp,
    signed: bool,
    word: u32,
    v: Two,
) -> Result<CExpr, Memory>
    requires some { 1 ≤ word }
    requires most { word ≤ 64 }
    ensures { IfOk result (λ r. expr_view r ≡ above_end op back signed word v.x v.y) }
{
    let end = top(signed, word);
    let last = c_tree::binary(alloc, back, constant(signed, end), c_tree::variable(v.y))?;
    match pair(alloc, op, v) {
        Ok(inside) => choose_less(
            alloc,
            last,
            c_tree::variable(v.x),
            constant(signed, end),
            inside,
        ),
        Err(error) => {
            drop(last);
            Err(error)
        }
    }
}

// The least number, and an operation on the two variables.
fn least_or_pair(alloc: Global, op: COp, word: u32, v: Two) -> Result<(CExpr, CExpr), Memory>
    requires some { 1 ≤ word }
    requires most { word ≤ 64 }
    ensures least { IfOk result (λ r. expr_view r.0 ≡ Shapes.least true word) }
    ensures pair { IfOk result (λ r. expr_view r.1 ≡ Binary op (Var v.x) (Var v.y)) }
{
    let inside = pair(alloc, op, v)?;
    match least(alloc, true, word) {
        Ok(low) => Ok((low, inside)),
        Err(error) => {
            drop(inside);
            Err(error)
        }
    }
}

// `x op y`, or the least number where `x` is below `least back y`.
fn above_least(alloc: Global, op: COp, back: COp, word: u32, v: Two) -> Result<CExpr, Memory>
    requires some { 1 ≤ word }
    requires most { word ≤ 64 }
    ensures { IfOk result (λ r. expr_view r ≡ below_end op back word v.x v.y) }
{
    let edge = least(alloc, true, word)?;
    let first = c_tree::binary(alloc, back, edge, c_tree::variable(v.y))?;
    match least_or_pair(alloc, op, word, v) {
        Ok((low, inside)) => choose_less(alloc, c_tree::variable(v.x), first, low, inside),
        Err(error) => {
            drop(first);
            Err(error)
        }
    }
}

// `x + y`, brought to the nearest number of the range.
fn sum_saturated(alloc: Global, signed: bool, word: u32, v: Two) -> Result<CExpr, Memory>
    requires some { 1 ≤ word }
    requires most { word ≤ 64 }
    ensures { IfOk result (λ r. expr_view r ≡ Operators.sum_saturated signed word v.x v.y) }
{
    let high = below_top(alloc, COp::Add, COp::Sub, signed, word, v)?;
    if !signed {
        return Ok(high);
    }
    match above_least(alloc, COp::Add, COp::Sub, word, v) {
        Ok(low) => below_zero(alloc, v.y, low, high),
        Err(error) => {
            drop(high);
            Err(error)
        }
    }
}

// `x - y`, brought to the nearest number of the range.
fn difference_saturated(alloc: Global, signed: bool, word: u32, v: Two) -> Result<CExpr, Memory>
    requires some { 1 ≤ word }
    requires most { word ≤ 64 }
    ensures { IfOk result (λ r. expr_view r ≡ Operators.difference_saturated signed word v.x v.y) }
{
    if signed {
        let high = below_top(alloc, COp::Sub, COp::Add, true, word, v)?;
        match above_least(alloc, COp::Sub, COp::Add, word, v) {
            Ok(low) => below_zero(alloc, v.y, high, low),
            Err(error) => {
                drop(high);
                Err(error)
            }
        }
    } else {
        let inside = pair(alloc, COp::Sub, v)?;
        choose_less(
            alloc,
            c_tree::variable(v.x),
            c_tree::variable(v.y),
            c_tree::unsigned(0),
            inside,
        )
    }
}

// An operation on the two words modulo `2^64`.
fn pair_bits(alloc: Global, op: COp, signed: bool, v: Two) -> Result<CExpr, Memory>
    ensures { IfOk result (λ r. expr_view r ≡ bits_pair op signed v.x v.y) }
{
    let left = bits_of(alloc, signed, c_tree::variable(v.x))?;
    match bits_of(alloc, signed, c_tree::variable(v.y)) {
        Ok(right) => c_tree::binary(alloc, op, left, right),
        Err(error) => {
            drop(left);
            Err(error)
        }
    }
}

// Its low bits.
fn cut(alloc: Global, op: COp, signed: bool, word: u32, v: Two) -> Result<CExpr, Memory>
    requires some { 1 ≤ word }
    requires most { word ≤ 64 }
    ensures { IfOk result (λ r. expr_view r ≡ Shapes.cut word (bits_pair op signed v.x v.y)) }
{
    let bits = pair_bits(alloc, op, signed, v)?;
    let r = c_tree::binary(alloc, COp::And, bits, c_tree::unsigned(ones(word)))?;
    Ok(r)
}

// Its low bits as a negative number.
fn cut_below(alloc: Global, op: COp, word: u32, v: Two) -> Result<CExpr, Memory>
    requires some { 1 ≤ word }
    requires most { word ≤ 64 }
    ensures { IfOk result (λ r. expr_view r ≡ Shapes.cut_below word (bits_pair op true v.x v.y)) }
{
    let high = cut(alloc, op, true, word, v)?;
    let turned = c_tree::binary(alloc, COp::Sub, c_tree::unsigned(ones(word)), high)?;
    let size = c_tree::cast(alloc, CWord::I64, turned)?;
    match minus_one(alloc) {
        Ok(minus) => c_tree::binary(alloc, COp::Sub, minus, size),
        Err(error) => {
            drop(size);
            Err(error)
        }
    }
}

// Its low bits, and these as a negative number.
fn cut_twice(alloc: Global, op: COp, word: u32, v: Two) -> Result<(CExpr, CExpr), Memory>
    requires some { 1 ≤ word }
    requires most { word ≤ 64 }
    ensures bits { IfOk result (λ r. expr_view r.0 ≡ Shapes.cut word (bits_pair op true v.x v.y)) }
    ensures below { IfOk result (λ r. expr_view r.1 ≡ Shapes.cut_below word (bits_pair op true v.x v.y)) }
{
    let below = cut_below(alloc, op, word, v)?;
    match cut(alloc, op, true, word, v) {
        Ok(tested) => Ok((tested, below)),
        Err(error) => {
            drop(below);
            Err(error)
        }
    }
}

// An operation on the two words modulo `2^word`, as a number of the range.
fn wrap_pair(alloc: Global, op: COp, signed: bool, word: u32, v: Two) -> Result<CExpr, Memory>
    requires some { 1 ≤ word }
    requires most { word ≤ 64 }
    ensures { IfOk result (λ r. expr_view r ≡ Shapes.wrapped signed word (bits_pair op signed v.x v.y)) }
{
    let low = cut(alloc, op, signed, word, v)?;
    if !signed {
        return Ok(low);
    }
    let same = c_tree::cast(alloc, CWord::I64, low)?;
    match cut_twice(alloc, op, word, v) {
        Ok((tested, below)) => {
            choose_less(
                alloc,
                tested,
                c_tree::unsigned(power(word - 1)),
                same,
                below,
            )
        }
        Err(error) => {
            drop(same);
            Err(error)
        }
    }
}

// The sum or the difference, brought to the nearest number of the range.
fn saturated(alloc: Global, how: Additive, signed: bool, word: u32, v: Two) -> Result<CExpr, Memory>
    requires some { 1 ≤ word }
    requires most { word ≤ 64 }
    ensures { IfOk result (λ r. expr_view r ≡ ends.saturated how signed word v.x v.y) }
{
    match how {
        Additive::Sum => {
            let r = sum_saturated(alloc, signed, word, v)?;
            Ok(r)
        }
        Additive::Difference => {
            let r = difference_saturated(alloc, signed, word, v)?;
            Ok(r)
        }
    }
}

// The operator of C.
fn operator(how: Additive) -> COp
    ensures { result ≡ ends.operator how }
{
    match how {
        Additive::Sum => COp::Add,
        Additive::Difference => COp::Sub,
    }
}

/// The sum or the difference of two words of a type, brought into its range by the action.
pub fn fitted(
    alloc: Global,
    how: Additive,
    action: Overflow,
    signed: bool,
    word: u32,
    v: Two,
) -> Result<CExpr, Memory>
    requires some { 1 ≤ word }
    requires most { word ≤ 64 }
    ensures { IfOk result (λ r. expr_view r ≡ ends.fitted how action signed word v.x v.y) }
{
    match action {
        Overflow::Saturate => {
            let r = saturated(alloc, how, signed, word, v)?;
            Ok(r)
        }
        Overflow::Wrap => {
            let op = operator(how);
            let r = wrap_pair(alloc, op, signed, word, v)?;
            Ok(r)
        }
    }
}
