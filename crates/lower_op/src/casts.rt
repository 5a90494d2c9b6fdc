//! Sums and differences with CastBeforeSum.

ghost use Rattle.std.specs.Prelude.{◌≡◌, ◌≤◌, ◌+◌, ◌++◌, ◌∷◌, [], ◌^◌, true, length, map, IfOk};
ghost use Rattle.num_type.specs.View.{type_of};
ghost use Rattle.c_tree.specs.View.{expr_view, stmt_view};
ghost use Rattle.lower_scalar.specs.Part.{part_view, reach};
ghost use Rattle.lower_scalar.specs.Operators;
ghost use Rattle.lower_op.specs.Arguments;
ghost use Rattle.lower_op.specs.Arguments.{operand};
ghost use Rattle.lower_op.specs.Ends.{Joins};

use crate::ends::{Additive, Two, fitted};
use c_tree::{CExpr, CPart, CStmt, CWord};
use fi_math::Fimath;
use lower_scalar::{quantise_part, two_sets, word_for};
use num_type::{Memory, NumType};
use sqlite_items::Items;
use std::alloc::Global;

/// The part that takes `a` of the type `p` and `b` of the type `q` to the type `t` and adds or subtracts there by the overflow action: with
/// CastBeforeSum. Want of memory is the only refusal.
pub fn join_cast(
    alloc: Global,
    how: Additive,
    m: Fimath,
    t: NumType,
    p: NumType,
    a: CExpr,
    q: NumType,
    b: CExpr,
    fresh: u32,
) -> Result<CPart, Memory>
    requires room { fresh ≤ 2 ^ 31 }
    requires rule { m.cast_before_sum ≡ true }
    requires left { reach (expr_view a) ≤ fresh }
    requires right { reach (expr_view b) ≤ fresh }
    ensures { IfOk result (λ r. Joins how m (type_of t) (operand p a) (operand q b) fresh (part_view r)) }
{
    let both = take_both(alloc, m, t, p, a, q, b, fresh)?;
    let next = behind(fresh, &both.0.words);
    let last = behind(next, &both.1.words);
    let signed = t.signed();
    let word = t.word();
    let v = Two {
        x: last,
        y: last + 1,
    };
    match fitted(alloc, how, m.overflow, signed, word, v) {
        Ok(value) => {
            let r = join(alloc, signed, both.0, both.1, last, value)?;
            Ok(r)
        }
        Err(error) => {
            drop(both);
            Err(error)
        }
    }
}

// The part that takes an operand to the type `t`; it has few variables.
fn take(
    alloc: Global,
    m: Fimath,
    t: NumType,
    p: NumType,
    a: CExpr,
    fresh: u32,
) -> Result<CPart, Memory>
    requires { fresh ≤ 2 ^ 31 + 2 ^ 30 }
    ensures part { IfOk result (λ r. part_view r ≡ Operators.left_part m (type_of t) (operand p a) fresh) }
    ensures few { IfOk result (λ r. length r.words ≤ 100) }
{
    let r = quantise_part(alloc, t, m.rounding, m.overflow, p, a, fresh)?;
    Ok(r)
}

// The parts that take two operands to the type `t`, the second's variables behind the first's.
fn take_both(
    alloc: Global,
    m: Fimath,
    t: NumType,
    p: NumType,
    a: CExpr,
    q: NumType,
    b: CExpr,
    fresh: u32,
) -> Result<(CPart, CPart), Memory>
    requires { fresh ≤ 2 ^ 31 }
    ensures left { IfOk result (λ r. part_view r.0 ≡ Operators.left_part m (type_of t) (operand p a) fresh) }
    ensures right { IfOk result (λ r. part_view r.1 ≡ Operators.left_part m (type_of t) (operand q b) (fresh + length r.0.words)) }
    ensures few { IfOk result (λ r. (length r.0.words ≤ 100) × (length r.1.words ≤ 100)) }
{
    match take(alloc, m, t, p, a, fresh) {
        Ok(left) => {
            let next = behind(fresh, &left.words);
            match take(alloc, m, t, q, b, next) {
                Ok(right) => Ok((left, right)),
                Err(error) => {
                    drop(left);
                    Err(error)
                }
            }
        }
        Err(error) => {
            drop(b);
            Err(error)
        }
    }
}

// The number of the first variable behind a part's.
fn behind(fresh: u32, words: &Items<CWord>) -> u32
    requires room { fresh ≤ 2 ^ 31 + 2 ^ 30 }
    requires few { length words.now ≤ 100 }
    ensures { result ≡ fresh + length words.now }
{
    fresh + words.len() as u32
}

// Two parts one after the other, their values in the variables `last` and `last + 1`, and an expression over these.
fn join(
    alloc: Global,
    signed: bool,
    p: CPart,
    q: CPart,
    last: u32,
    value: CExpr,
) -> Result<CPart, Memory>
    requires { last ≤ 2 ^ 31 + 2 ^ 30 }
    ensures { IfOk result (λ r. part_view r ≡ Arguments.joined_at last signed (part_view p) (part_view q) (expr_view value)) }
{
    let CPart {
        words,
        before,
        value: first,
    } = p;
    let CPart {
        words: more,
        before: after,
        value: second,
    } = q;
    match two_sets(alloc, last, first, second) {
        Ok(pair) => match join_statements(before, after, pair) {
            Ok(before) => with_words(words, more, word_for(signed), before, value),
            Err(error) => {
                drop(value);
                Err(error)
            }
        },
        Err(error) => {
            drop(before);
            drop(after);
            drop(value);
            Err(error)
        }
    }
}

// A part of these statements and this value, with the types of two parts' variables, and of two more.
fn with_words(
    words: Items<CWord>,
    more: Items<CWord>,
    word: CWord,
    before: Items<CStmt>,
    value: CExpr,
) -> Result<CPart, Memory>
    ensures { IfOk result (λ r. part_view r ≡ record { words = words ++ (more ++ (word ∷ word ∷ [])); before = map stmt_view before; value = expr_view value }) }
{
    match join_words(words, more, word) {
        Ok(words) => Ok(CPart {
            words,
            before,
            value,
        }),
        Err(error) => {
            drop(before);
            drop(value);
            Err(error)
        }
    }
}

// The types of two parts' variables, and of two more.
fn join_words(words: Items<CWord>, more: Items<CWord>, word: CWord) -> Result<Items<CWord>, Memory>
    ensures { IfOk result (λ r. r ≡ words ++ (more ++ (word ∷ word ∷ []))) }
{
    let mut words = words;
    words.append(more)?;
    words.push(word)?;
    words.push(word)?;
    Ok(words)
}

// The statements of two parts, and then others.
fn join_statements(
    before: Items<CStmt>,
    after: Items<CStmt>,
    pair: Items<CStmt>,
) -> Result<Items<CStmt>, Memory>
    ensures { IfOk result (λ r. map stmt_view r ≡ map stmt_view before ++ (map stmt_view after ++ map stmt_view pair)) }
{
    let mut before = before;
    match before.append(after) {
        Ok(()) => {
            before.append(pair)?;
            Ok(before)
        }
        Err(error) => {
            drop(before);
            drop(pair);
            Err(Memory::from(error))
        }
    }
}
