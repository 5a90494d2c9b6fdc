//! A word in a variable, brought into the range of a type.

ghost use Rattle.std.specs.Prelude.{◌≡◌, ◌≤◌, ◌<◌, ◌-◌, ◌^◌, IfOk, true, false};
ghost use Rattle.c_tree.specs.Tree.{Unsigned, Var, Cast, Choose};
ghost use Rattle.c_tree.specs.declared.tree.CWord.TheVariants.{I64, U64};
ghost use Rattle.c_tree.specs.View.{expr_view};
ghost use Rattle.lower_scalar.specs.Shapes;

use crate::numbers::{ones, power, top};
use crate::signs::{below_minus, bits_of, choose_less, constant, minus_one_less, resigned};
use c_tree::{CExpr, COp, CWord};
use num_type::{Memory, Overflow};
use std::alloc::Global;

/// The least number of a signedness and a word length in bits.
pub fn least(alloc: Global, to: bool, word: u32) -> Result<CExpr, Memory>
    requires some { 1 ≤ word }
    requires most { word ≤ 64 }
    ensures { IfOk result (λ r. expr_view r ≡ Shapes.least to word) }
{
    if to {
        below_minus(alloc, power(word - 1) - 1)
    } else {
        Ok(c_tree::unsigned(0))
    }
}

// A signed word brought into a signed range.
fn saturate_signed(alloc: Global, word: u32, x: u32) -> Result<CExpr, Memory>
    requires some { 1 ≤ word }
    requires most { word ≤ 64 }
    ensures { IfOk result (λ r. expr_view r ≡ Shapes.saturated true word true x) }
{
    let end = top(true, word);
    let high = choose_less(
        alloc,
        c_tree::signed(end),
        c_tree::variable(x),
        c_tree::signed(end),
        c_tree::variable(x),
    )?;
    above_least(alloc, word, x, high)
}

// The least number of a signed range where the word in `x` is below it, and else another expression.
fn above_least(alloc: Global, word: u32, x: u32, high: CExpr) -> Result<CExpr, Memory>
    requires some { 1 ≤ word }
    requires most { word ≤ 64 }
    ensures { IfOk result (λ r. expr_view r ≡ Choose (Shapes.is_less (Var x) (Shapes.least true word)) (Shapes.least true word) (expr_view high)) }
{
    match two_least(alloc, word) {
        Ok((edge, low)) => { choose_less(alloc, c_tree::variable(x), edge, low, high) }
        Err(error) => {
            drop(high);
            Err(error)
        }
    }
}

// The least number of a signed range, twice.
fn two_least(alloc: Global, word: u32) -> Result<(CExpr, CExpr), Memory>
    requires some { 1 ≤ word }
    requires most { word ≤ 64 }
    ensures { IfOk result (λ r. (expr_view r.0 ≡ Shapes.least true word) × (expr_view r.1 ≡ Shapes.least true word)) }
{
    let edge = least(alloc, true, word)?;
    match least(alloc, true, word) {
        Ok(low) => Ok((edge, low)),
        Err(error) => {
            drop(edge);
            Err(error)
        }
    }
}

// A signed word brought into an unsigned range.
fn saturate_to_unsigned(alloc: Global, word: u32, x: u32) -> Result<CExpr, Memory>
    requires some { 1 ≤ word }
    requires most { word ≤ 64 }
    ensures { IfOk result (λ r. expr_view r ≡ Shapes.saturated false word true x) }
{
    let high = below_top(alloc, word, x)?;
    choose_less(
        alloc,
        c_tree::variable(x),
        c_tree::signed(0),
        c_tree::unsigned(0),
        high,
    )
}

// A signed word that isn't negative, or the greatest number of an unsigned range where the word is above it.
fn below_top(alloc: Global, word: u32, x: u32) -> Result<CExpr, Memory>
    requires some { 1 ≤ word }
    requires most { word ≤ 64 }
    ensures { IfOk result (λ r. expr_view r ≡ Choose (Shapes.is_less (Unsigned (Shapes.top false word)) (Cast U64 (Var x))) (Unsigned (Shapes.top false word)) (Cast U64 (Var x))) }
{
    let end = top(false, word);
    let tested = c_tree::cast(alloc, CWord::U64, c_tree::variable(x))?;
    match c_tree::cast(alloc, CWord::U64, c_tree::variable(x)) {
        Ok(taken) => {
            choose_less(
                alloc,
                c_tree::unsigned(end),
                tested,
                c_tree::unsigned(end),
                taken,
            )
        }
        Err(error) => {
            drop(tested);
            Err(error)
        }
    }
}

// An unsigned word brought into a range.
fn saturate_unsigned(alloc: Global, to: bool, word: u32, x: u32) -> Result<CExpr, Memory>
    requires some { 1 ≤ word }
    requires most { word ≤ 64 }
    ensures { IfOk result (λ r. expr_view r ≡ Shapes.saturated to word false x) }
{
    let end = top(to, word);
    let same = resigned(alloc, false, to, c_tree::variable(x))?;
    choose_less(
        alloc,
        c_tree::unsigned(end),
        c_tree::variable(x),
        constant(to, end),
        same,
    )
}

/// The number of a range that is nearest to the word of signedness `signed` in `x`.
pub fn saturate(alloc: Global, to: bool, word: u32, signed: bool, x: u32) -> Result<CExpr, Memory>
    requires some { 1 ≤ word }
    requires most { word ≤ 64 }
    ensures { IfOk result (λ r. expr_view r ≡ Shapes.saturated to word signed x) }
{
    if !signed {
        saturate_unsigned(alloc, to, word, x)
    } else if to {
        saturate_signed(alloc, word, x)
    } else {
        saturate_to_unsigned(alloc, word, x)
    }
}

/// Where the bits of a word come from: a variable of this signedness, times `2^by`.
#[derive(Clone, Copy)]
pub struct Source {
    pub signed: bool,
    pub x: u32,
    pub by: u32,
}

// The bits, modulo `2^64`.
fn source_bits(alloc: Global, source: Source) -> Result<CExpr, Memory>
    requires { source.by < 64 }
    ensures { IfOk result (λ r. expr_view r ≡ Shapes.shifted_bits source.signed source.x source.by) }
{
    let bits = bits_of(alloc, source.signed, c_tree::variable(source.x))?;
    if source.by == 0 {
        Ok(bits)
    } else {
        c_tree::binary(alloc, COp::Mul, bits, c_tree::unsigned(power(source.by)))
    }
}

// The low bits of the source.
fn cut(alloc: Global, word: u32, source: Source) -> Result<CExpr, Memory>
    requires some { 1 ≤ word }
    requires most { word ≤ 64 }
    requires near { source.by < 64 }
    ensures { IfOk result (λ r. expr_view r ≡ Shapes.cut word (Shapes.shifted_bits source.signed source.x source.by)) }
{
    let bits = source_bits(alloc, source)?;
    c_tree::binary(alloc, COp::And, bits, c_tree::unsigned(ones(word)))
}

// The low bits of the source as a negative number.
fn cut_below(alloc: Global, word: u32, source: Source) -> Result<CExpr, Memory>
    requires some { 1 ≤ word }
    requires most { word ≤ 64 }
    requires near { source.by < 64 }
    ensures { IfOk result (λ r. expr_view r ≡ Shapes.cut_below word (Shapes.shifted_bits source.signed source.x source.by)) }
{
    let high = cut(alloc, word, source)?;
    let turned = c_tree::binary(alloc, COp::Sub, c_tree::unsigned(ones(word)), high)?;
    let size = c_tree::cast(alloc, CWord::I64, turned)?;
    minus_one_less(alloc, size)
}

// The low bits of the source as they are.
fn cut_same(alloc: Global, word: u32, source: Source) -> Result<CExpr, Memory>
    requires some { 1 ≤ word }
    requires most { word ≤ 64 }
    requires near { source.by < 64 }
    ensures { IfOk result (λ r. expr_view r ≡ Cast I64 (Shapes.cut word (Shapes.shifted_bits source.signed source.x source.by))) }
{
    let low = cut(alloc, word, source)?;
    c_tree::cast(alloc, CWord::I64, low)
}

// The first of two expressions where the low bits of the source are below the middle of their range, and else the second.
fn by_middle(
    alloc: Global,
    word: u32,
    source: Source,
    same: CExpr,
    below: CExpr,
) -> Result<CExpr, Memory>
    requires some { 1 ≤ word }
    requires most { word ≤ 64 }
    requires near { source.by < 64 }
    ensures { IfOk result (λ r. expr_view r ≡ Choose (Shapes.is_less (Shapes.cut word (Shapes.shifted_bits source.signed source.x source.by)) (Unsigned (2 ^ (word - 1)))) (expr_view same) (expr_view below)) }
{
    match cut(alloc, word, source) {
        Ok(tested) => {
            let half = c_tree::unsigned(power(word - 1));
            choose_less(alloc, tested, half, same, below)
        }
        Err(error) => {
            drop(same);
            drop(below);
            Err(error)
        }
    }
}

// The number of a signed range that the low bits of the source stand for.
fn wrap_signed(alloc: Global, word: u32, source: Source) -> Result<CExpr, Memory>
    requires some { 1 ≤ word }
    requires most { word ≤ 64 }
    requires near { source.by < 64 }
    ensures { IfOk result (λ r. expr_view r ≡ Shapes.wrapped true word (Shapes.shifted_bits source.signed source.x source.by)) }
{
    let same = cut_same(alloc, word, source)?;
    match cut_below(alloc, word, source) {
        Ok(below) => { by_middle(alloc, word, source, same, below) }
        Err(error) => {
            drop(same);
            Err(error)
        }
    }
}

/// The number of a range that differs from the source by a multiple of `2^word`.
pub fn wrap(alloc: Global, to: bool, word: u32, source: Source) -> Result<CExpr, Memory>
    requires some { 1 ≤ word }
    requires most { word ≤ 64 }
    requires near { source.by < 64 }
    ensures { IfOk result (λ r. expr_view r ≡ Shapes.wrapped to word (Shapes.shifted_bits source.signed source.x source.by)) }
{
    if to {
        wrap_signed(alloc, word, source)
    } else {
        cut(alloc, word, source)
    }
}

/// The word of signedness `signed` in `x`, brought into a range by the action.
#[tactic(auto, unfolding(crate::specs::Shapes::fitted))]
pub fn fit(
    alloc: Global,
    action: Overflow,
    to: bool,
    word: u32,
    signed: bool,
    x: u32,
) -> Result<CExpr, Memory>
    requires some { 1 ≤ word }
    requires most { word ≤ 64 }
    ensures { IfOk result (λ r. expr_view r ≡ Shapes.fitted action to word signed x) }
{
    match action {
        Overflow::Saturate => { saturate(alloc, to, word, signed, x) }
        Overflow::Wrap => { wrap(alloc, to, word, Source { signed, x, by: 0 }) }
    }
}
