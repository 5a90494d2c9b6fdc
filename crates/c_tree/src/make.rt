//! Expressions and statements from their parts, one function for each production. Want of memory is the only refusal.

ghost use Rattle.std.specs.Prelude.{◌≡◌, IfOk};
ghost use Rattle.c_tree.specs.Tree;
ghost use Rattle.c_tree.specs.Tree.{Signed, Unsigned, Var, Count, Element, Cast, Truth, Neg, Binary, Choose, Compare, Set, Store, If, IfElse, For, While, Break, Continue, Return};
ghost use Rattle.c_tree.specs.View.{expr_view, test_view, stmt_view, block_view};

use crate::tree::{CArray, CExpr, COp, CRel, CStmt, CTest, CWord, Counter};
use num_type::Memory;
use sqlite_items::{Boxed, Items};
use std::alloc::Global;

/// The constant `INT64_C(n)`.
pub fn signed(n: u64) -> CExpr
    ensures { expr_view result ≡ Signed n }
{
    CExpr::I64(n)
}

/// The constant `UINT64_C(n)`.
pub fn unsigned(n: u64) -> CExpr
    ensures { expr_view result ≡ Unsigned n }
{
    CExpr::U64(n)
}

/// A variable, by its number.
pub fn variable(number: u32) -> CExpr
    ensures { expr_view result ≡ Var number }
{
    CExpr::Var(number)
}

/// What a counter is at.
pub fn counted(counter: Counter) -> CExpr
    ensures { expr_view result ≡ Count counter }
{
    CExpr::Count(counter)
}

/// An element of an array, cast to its word.
pub fn element(alloc: Global, array: CArray, at: CExpr) -> Result<CExpr, Memory>
    ensures { IfOk result (λ made. expr_view made ≡ Element array (expr_view at)) }
{
    Ok(CExpr::Element {
        array,
        at: Boxed::new(alloc, at)?,
    })
}

/// A cast to the other type.
pub fn cast(alloc: Global, to: CWord, e: CExpr) -> Result<CExpr, Memory>
    ensures { IfOk result (λ made. expr_view made ≡ Cast to (expr_view e)) }
{
    Ok(CExpr::Cast(to, Boxed::new(alloc, e)?))
}

/// A test as the number 1 or 0.
pub fn truth(alloc: Global, t: CTest) -> Result<CExpr, Memory>
    ensures { IfOk result (λ made. expr_view made ≡ Truth (test_view t)) }
{
    Ok(CExpr::Test(Boxed::new(alloc, t)?))
}

/// A negated expression.
pub fn negation(alloc: Global, e: CExpr) -> Result<CExpr, Memory>
    ensures { IfOk result (λ made. expr_view made ≡ Neg (expr_view e)) }
{
    Ok(CExpr::Neg(Boxed::new(alloc, e)?))
}

/// Two operands under an operator.
pub fn binary(alloc: Global, op: COp, a: CExpr, b: CExpr) -> Result<CExpr, Memory>
    ensures { IfOk result (λ made. expr_view made ≡ Binary op (expr_view a) (expr_view b)) }
{
    let a = Boxed::new(alloc, a)?;
    let b = Boxed::new(alloc, b)?;
    Ok(CExpr::Binary(op, a, b))
}

/// The first expression where the test holds, and else the second.
pub fn choice(alloc: Global, t: CTest, a: CExpr, b: CExpr) -> Result<CExpr, Memory>
    ensures { IfOk result (λ made. expr_view made ≡ Choose (test_view t) (expr_view a) (expr_view b)) }
{
    let t = Boxed::new(alloc, t)?;
    let a = Boxed::new(alloc, a)?;
    let b = Boxed::new(alloc, b)?;
    Ok(CExpr::Choose(t, a, b))
}

/// A relation between two expressions.
pub fn compare(rel: CRel, left: CExpr, right: CExpr) -> CTest
    ensures { test_view result ≡ Compare rel (expr_view left) (expr_view right) }
{
    CTest { left, rel, right }
}

/// A variable takes a value.
pub fn set(var: u32, value: CExpr) -> CStmt
    ensures { stmt_view result ≡ Set var (expr_view value) }
{
    CStmt::Set { var, value }
}

/// An element takes a value, cast to the array's container.
pub fn store(array: CArray, at: CExpr, value: CExpr) -> CStmt
    ensures { stmt_view result ≡ Store array (expr_view at) (expr_view value) }
{
    CStmt::Store { array, at, value }
}

/// Statements that run where a test holds.
pub fn if_only(test: CTest, body: Items<CStmt>) -> CStmt
    ensures { stmt_view result ≡ If (test_view test) (block_view body) }
{
    CStmt::If {
        test,
        body,
        other: None,
    }
}

/// Statements that run where a test holds, and others where it doesn't.
pub fn if_else(test: CTest, body: Items<CStmt>, other: Items<CStmt>) -> CStmt
    ensures { stmt_view result ≡ IfElse (test_view test) (block_view body) (block_view other) }
{
    CStmt::If {
        test,
        body,
        other: Some(other),
    }
}

/// So many turns, the counter at 0 in the first.
pub fn for_each(counter: Counter, count: u64, body: Items<CStmt>) -> CStmt
    ensures { stmt_view result ≡ For counter count (block_view body) }
{
    CStmt::For {
        counter,
        count,
        body,
    }
}

/// Turns for as long as a test holds.
pub fn while_holds(test: CTest, body: Items<CStmt>) -> CStmt
    ensures { stmt_view result ≡ While (test_view test) (block_view body) }
{
    CStmt::While { test, body }
}

/// The end of the loop.
pub fn leave() -> CStmt
    ensures { stmt_view result ≡ Tree.Break }
{
    CStmt::Break
}

/// The end of the turn.
pub fn go_on() -> CStmt
    ensures { stmt_view result ≡ Tree.Continue }
{
    CStmt::Continue
}

/// The function's end, with a status.
pub fn give_back(status: u32) -> CStmt
    ensures { stmt_view result ≡ Return status }
{
    CStmt::Return(status)
}
