//! How many tokens a tree has.

ghost use Rattle.std.specs.Prelude.{◌≡◌, ◌<◌, ◌^◌};
ghost use Rattle.c_tree.specs.View.{expr_view, test_view, stmt_view, block_view};
ghost use Rattle.c_tree.specs.Tokens;
ghost use Rattle.c_tree.specs.Tokens.{tokens, sta_tokens};

use crate::tree::{CExpr, CStmt, CTest};

/// How many tokens an expression has; they must be fewer than `2^64`.
#[cycle(size)]
pub fn expr_tokens(e: &CExpr) -> u64
    requires { tokens (expr_view e.now) < 2 ^ 64 }
    ensures { result ≡ tokens (expr_view e.now) }
{
    match e {
        CExpr::I64(_) => 4,
        CExpr::U64(_) => 4,
        CExpr::Var(_) => 1,
        CExpr::Count(_) => 1,
        CExpr::Element { array: _, at } => 6 + expr_tokens(at.get()),
        CExpr::Cast(_, part) => 3 + expr_tokens(part.get()),
        CExpr::Test(test) => 5 + test_tokens(test.get()),
        CExpr::Neg(part) => 3 + expr_tokens(part.get()),
        CExpr::Binary(_, a, b) => 3 + expr_tokens(a.get()) + expr_tokens(b.get()),
        CExpr::Choose(test, a, b) => {
            4 + test_tokens(test.get()) + expr_tokens(a.get()) + expr_tokens(b.get())
        }
    }
}

/// How many tokens a test has; they must be fewer than `2^64`.
#[cycle(size)]
pub fn test_tokens(t: &CTest) -> u64
    requires { Tokens.test_tokens (test_view t.now) < 2 ^ 64 }
    ensures { result ≡ Tokens.test_tokens (test_view t.now) }
{
    1 + expr_tokens(&t.left) + expr_tokens(&t.right)
}

/// How many tokens a statement has; they must be fewer than `2^64`.
#[cycle(stmt_size)]
pub fn stmt_tokens(s: &CStmt) -> u64
    requires { sta_tokens (stmt_view s.now) < 2 ^ 64 }
    ensures { result ≡ sta_tokens (stmt_view s.now) }
{
    match s {
        CStmt::Set { var: _, value } => 3 + expr_tokens(value),
        CStmt::Store {
            array: _,
            at,
            value,
        } => 8 + expr_tokens(at) + expr_tokens(value),
        CStmt::If { test, body, other } => {
            let first = 5 + test_tokens(test) + block_tokens(body.as_slice());
            match other {
                None => first,
                Some(other) => first + 3 + block_tokens(other.as_slice()),
            }
        }
        CStmt::For {
            counter: _,
            count: _,
            body,
        } => 29 + block_tokens(body.as_slice()),
        CStmt::While { test, body } => 5 + test_tokens(test) + block_tokens(body.as_slice()),
        CStmt::Break => 2,
        CStmt::Continue => 2,
        CStmt::Return(_) => 6,
    }
}

/// How many tokens some statements have; they must be fewer than `2^64`.
#[cycle(stmt_size)]
pub fn block_tokens(body: &[CStmt]) -> u64
    requires { Tokens.block_tokens (block_view body.now) < 2 ^ 64 }
    ensures { result ≡ Tokens.block_tokens (block_view body.now) }
{
    let mut sum = 0;
    for s in body {
        sum += stmt_tokens(s);
    }
    sum
}
