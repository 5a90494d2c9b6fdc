//! How many tokens a tree has, if a `u64` counts them.

ghost use Rattle.std.specs.Prelude.{◌≡◌, ◌+◌, ◌<◌, ◌≤◌, ◌^◌, MatchOption};
ghost use Rattle.c_tree.specs.View.{expr_view, test_view, stmt_view, block_view, program_view};
ghost use Rattle.c_tree.specs.Names;
ghost use Rattle.c_tree.specs.Tokens.{tokens, test_tokens, sta_tokens, block_tokens, body_token};

use c_tree::{Arrays, CExpr, CStmt, CTest, CTree};

// So many more and the tokens of an expression.
#[cycle(count)]
fn count_expr(e: &CExpr, sum: u64) -> Option<u64>
    ensures { MatchOption result (2 ^ 64 ≤ sum + tokens (expr_view e.now)) (λ n. n ≡ sum + tokens (expr_view e.now)) }
{
    match e {
        CExpr::I64(_) => sum.checked_add(4),
        CExpr::U64(_) => sum.checked_add(4),
        CExpr::Var(_) => sum.checked_add(1),
        CExpr::Count(_) => sum.checked_add(1),
        CExpr::Element { array: _, at } => {
            let sum = count_expr(at.get(), sum)?;
            sum.checked_add(6)
        }
        CExpr::Cast(_, part) => {
            let sum = count_expr(part.get(), sum)?;
            sum.checked_add(3)
        }
        CExpr::Test(test) => {
            let sum = count_test(test.get(), sum)?;
            sum.checked_add(5)
        }
        CExpr::Neg(part) => {
            let sum = count_expr(part.get(), sum)?;
            sum.checked_add(3)
        }
        CExpr::Binary(_, a, b) => {
            let sum = count_expr(a.get(), sum)?;
            let sum = count_expr(b.get(), sum)?;
            sum.checked_add(3)
        }
        CExpr::Choose(test, a, b) => {
            let sum = count_test(test.get(), sum)?;
            let sum = count_expr(a.get(), sum)?;
            let sum = count_expr(b.get(), sum)?;
            sum.checked_add(4)
        }
    }
}

// So many more and the tokens of a test.
#[cycle(count)]
fn count_test(t: &CTest, sum: u64) -> Option<u64>
    ensures { MatchOption result (2 ^ 64 ≤ sum + test_tokens (test_view t.now)) (λ n. n ≡ sum + test_tokens (test_view t.now)) }
{
    let sum = count_expr(&t.left, sum)?;
    let sum = count_expr(&t.right, sum)?;
    sum.checked_add(1)
}

// So many more and the tokens of an assignment to a variable.
fn count_set(value: &CExpr, sum: u64) -> Option<u64>
    ensures { MatchOption result (2 ^ 64 ≤ sum + (3 + tokens (expr_view value.now))) (λ n. n ≡ sum + (3 + tokens (expr_view value.now))) }
{
    let sum = count_expr(value, sum)?;
    sum.checked_add(3)
}

// So many more and the tokens of a store.
fn count_store(at: &CExpr, value: &CExpr, sum: u64) -> Option<u64>
    ensures { MatchOption result (2 ^ 64 ≤ sum + (8 + tokens (expr_view at.now) + tokens (expr_view value.now))) (λ n. n ≡ sum + (8 + tokens (expr_view at.now) + tokens (expr_view value.now))) }
{
    let sum = count_expr(at, sum)?;
    let sum = count_expr(value, sum)?;
    sum.checked_add(8)
}

// So many more and the tokens of a statement.
#[cycle(count_stmt)]
fn count_stmt(s: &CStmt, sum: u64) -> Option<u64>
    ensures { MatchOption result (2 ^ 64 ≤ sum + sta_tokens (stmt_view s.now)) (λ n. n ≡ sum + sta_tokens (stmt_view s.now)) }
{
    match s {
        CStmt::Set { var: _, value } => count_set(value, sum),
        CStmt::Store {
            array: _,
            at,
            value,
        } => count_store(at, value, sum),
        CStmt::If { test, body, other } => {
            let sum = count_test(test, sum)?;
            let sum = count_block(body.as_slice(), sum)?;
            match other {
                None => sum.checked_add(5),
                Some(other) => {
                    let sum = count_block(other.as_slice(), sum)?;
                    sum.checked_add(8)
                }
            }
        }
        CStmt::For {
            counter: _,
            count: _,
            body,
        } => {
            let sum = count_block(body.as_slice(), sum)?;
            sum.checked_add(29)
        }
        CStmt::While { test, body } => {
            let sum = count_test(test, sum)?;
            let sum = count_block(body.as_slice(), sum)?;
            sum.checked_add(5)
        }
        CStmt::Break => sum.checked_add(2),
        CStmt::Continue => sum.checked_add(2),
        CStmt::Return(_) => sum.checked_add(6),
    }
}

/// So many more and the tokens of some statements; None where that isn't below 2^64.
#[cycle(count_stmt)]
pub fn count_block(body: &[CStmt], sum: u64) -> Option<u64>
    ensures { MatchOption result (2 ^ 64 ≤ sum + block_tokens (block_view body.now)) (λ n. n ≡ sum + block_tokens (block_view body.now)) }
{
    let mut all = sum;
    for s in body {
        all = count_stmt(s, all)?;
    }
    Some(all)
}

/// The number of the first token of a program's statements; None where that isn't below 2^64.
pub fn count_front(tree: &CTree, all: &Arrays) -> Option<u64>
    requires { all.now ≡ Names.arrays_of (program_view tree.now) }
    ensures { MatchOption result (2 ^ 64 ≤ body_token (program_view tree.now)) (λ n. n ≡ body_token (program_view tree.now)) }
{
    let inputs = all.inputs.len() as u128;
    let outputs = all.outputs.len() as u128;
    let commas = if inputs + outputs == 0 {
        0
    } else {
        inputs + outputs - 1
    };
    let counters = tree.groups as u128
        + tree.barriers as u128
        + tree.sources as u128
        + tree.turns as u128;
    let scalars = tree.words.len() as u128 + counters;
    let parameters = 6 * inputs + 5 * outputs + commas;
    let sum = 5 + parameters + 10 * tree.arrays.len() as u128 + 8 * scalars;
    if sum < 1 << 64 {
        Some(sum as u64)
    } else {
        None
    }
}

/// The same number, which is below 2^64 as each `u64`.
pub fn bounded(count: u64) -> u64
    ensures same { result ≡ count }
    ensures bound { count < 2 ^ 64 }
{
    count
}
