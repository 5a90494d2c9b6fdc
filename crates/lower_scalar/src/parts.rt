//! Parts over variables of their own.

ghost use Rattle.std.specs.Prelude.{◌≡◌, ◌≤◌, ◌<◌, ◌+◌, ◌^◌, IfOk, [], ◌∷◌, ◌++◌, map};
ghost use Rattle.c_tree.specs.View.{expr_view, stmt_view};
ghost use Rattle.c_tree.specs.Tree.{Set};
ghost use Rattle.lower_scalar.specs.Part.{part_view, word_for};
ghost use Rattle.lower_scalar.specs.Shapes;

use crate::signs::word_for;
use c_tree::{CExpr, CPart, CStmt, CWord};
use num_type::Memory;
use sqlite_items::Items;
use std::alloc::Global;

/// An expression alone.
pub fn alone(alloc: Global, e: CExpr) -> CPart
    ensures { part_view result ≡ Shapes.alone (expr_view e) }
{
    CPart {
        words: Items::new(alloc),
        before: Items::new(alloc),
        value: e,
    }
}

/// An expression over a variable of this signedness that holds `e`.
pub fn over_one(
    alloc: Global,
    signed: bool,
    e: CExpr,
    fresh: u32,
    value: CExpr,
) -> Result<CPart, Memory>
    ensures { IfOk result (λ p. part_view p ≡ Shapes.over_one signed (expr_view e) fresh (expr_view value)) }
{
    match first_set(alloc, fresh, e) {
        Ok(before) => match one_word(alloc, signed) {
            Ok(words) => Ok(CPart {
                words,
                before,
                value,
            }),
            Err(error) => {
                drop(before);
                drop(value);
                Err(error)
            }
        },
        Err(error) => {
            drop(value);
            Err(error)
        }
    }
}

// The words of one variable.
fn one_word(alloc: Global, signed: bool) -> Result<Items<CWord>, Memory>
    ensures { IfOk result (λ it. it ≡ word_for signed ∷ []) }
{
    let words = Items::from_slice(alloc, &[word_for(signed)])?;
    Ok(words)
}

// Of two.
fn two_words(alloc: Global, signed: bool) -> Result<Items<CWord>, Memory>
    ensures { IfOk result (λ it. it ≡ word_for signed ∷ word_for signed ∷ []) }
{
    let word = word_for(signed);
    let words = Items::from_slice(alloc, &[word, word])?;
    Ok(words)
}

// Of three.
fn three_words(alloc: Global, signed: bool) -> Result<Items<CWord>, Memory>
    ensures { IfOk result (λ it. it ≡ word_for signed ∷ word_for signed ∷ word_for signed ∷ []) }
{
    let word = word_for(signed);
    let words = Items::from_slice(alloc, &[word, word, word])?;
    Ok(words)
}

// A first statement that sets a variable.
fn first_set(alloc: Global, var: u32, e: CExpr) -> Result<Items<CStmt>, Memory>
    ensures { IfOk result (λ it. map stmt_view it ≡ Set var (expr_view e) ∷ []) }
{
    let mut before = Items::new(alloc);
    before.push(c_tree::set(var, e))?;
    Ok(before)
}

// One more statement that sets a variable.
fn and_set(before: Items<CStmt>, var: u32, e: CExpr) -> Result<Items<CStmt>, Memory>
    ensures { IfOk result (λ it. map stmt_view it ≡ map stmt_view before ++ Set var (expr_view e) ∷ []) }
{
    let mut before = before;
    before.push(c_tree::set(var, e))?;
    Ok(before)
}

/// Two statements that set variables which follow. Want of memory is the only refusal.
pub fn two_sets(alloc: Global, var: u32, e: CExpr, second: CExpr) -> Result<Items<CStmt>, Memory>
    requires { var ≤ 2 ^ 31 + 2 ^ 30 }
    ensures { IfOk result (λ it. map stmt_view it ≡ Set var (expr_view e) ∷ Set (var + 1) (expr_view second) ∷ []) }
{
    match first_set(alloc, var, e) {
        Ok(before) => and_set(before, var + 1, second),
        Err(error) => {
            drop(second);
            Err(error)
        }
    }
}

/// Three statements that set variables which follow. Want of memory is the only refusal.
pub fn three_sets(
    alloc: Global,
    var: u32,
    e: CExpr,
    second: CExpr,
    third: CExpr,
) -> Result<Items<CStmt>, Memory>
    requires { var ≤ 2 ^ 31 + 2 ^ 30 }
    ensures { IfOk result (λ it. map stmt_view it ≡ Set var (expr_view e) ∷ Set (var + 1) (expr_view second) ∷ Set (var + 2) (expr_view third) ∷ []) }
{
    match two_sets(alloc, var, e, second) {
        Ok(before) => and_set(before, var + 2, third),
        Err(error) => {
            drop(third);
            Err(error)
        }
    }
}

/// The same over a second variable too.
pub fn over_two(
    alloc: Global,
    signed: bool,
    e: CExpr,
    fresh: u32,
    second: CExpr,
    value: CExpr,
) -> Result<CPart, Memory>
    requires { fresh ≤ 2 ^ 31 + 2 ^ 30 }
    ensures { IfOk result (λ p. part_view p ≡ Shapes.over_two signed (expr_view e) fresh (expr_view second) (expr_view value)) }
{
    match two_sets(alloc, fresh, e, second) {
        Ok(before) => match two_words(alloc, signed) {
            Ok(words) => Ok(CPart {
                words,
                before,
                value,
            }),
            Err(error) => {
                drop(before);
                drop(value);
                Err(error)
            }
        },
        Err(error) => {
            drop(value);
            Err(error)
        }
    }
}

/// And over a third one.
pub fn over_three(
    alloc: Global,
    signed: bool,
    e: CExpr,
    fresh: u32,
    second: CExpr,
    third: CExpr,
    value: CExpr,
) -> Result<CPart, Memory>
    requires { fresh ≤ 2 ^ 31 + 2 ^ 30 }
    ensures { IfOk result (λ p. part_view p ≡ Shapes.over_three signed (expr_view e) fresh (expr_view second) (expr_view third) (expr_view value)) }
{
    match three_sets(alloc, fresh, e, second, third) {
        Ok(before) => match three_words(alloc, signed) {
            Ok(words) => Ok(CPart {
                words,
                before,
                value,
            }),
            Err(error) => {
                drop(before);
                drop(value);
                Err(error)
            }
        },
        Err(error) => {
            drop(value);
            Err(error)
        }
    }
}
