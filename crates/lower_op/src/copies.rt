//! Copies of expressions.

ghost use Rattle.std.specs.Prelude.{◌≡◌, IfOk};
ghost use Rattle.c_tree.specs.Tree.{Element, Cast, Truth, Neg, Binary, Choose, Compare};
ghost use Rattle.c_tree.specs.View.{expr_view, test_view};

use c_tree::{CArray, CExpr, COp, CRel, CTest, CWord};
use num_type::Memory;
use std::alloc::Global;

/// A copy of an expression. Want of memory is the only refusal.
#[cycle(copies)]
pub fn copy_expr(alloc: Global, e: &CExpr) -> Result<CExpr, Memory>
    ensures { IfOk result (λ r. expr_view r ≡ expr_view e.now) }
{
    match e {
        CExpr::I64(n) => Ok(c_tree::signed(*n)),
        CExpr::U64(n) => Ok(c_tree::unsigned(*n)),
        CExpr::Var(number) => Ok(c_tree::variable(*number)),
        CExpr::Count(counter) => Ok(c_tree::counted(*counter)),
        CExpr::Element { array, at } => {
            let copy = copy_expr(alloc, at.get());
            copied_element(alloc, *array, at.get(), copy)
        }
        CExpr::Cast(to, part) => {
            let copy = copy_expr(alloc, part.get());
            copied_cast(alloc, *to, part.get(), copy)
        }
        CExpr::Test(test) => {
            let copy = copy_test(alloc, test.get());
            copied_truth(alloc, test.get(), copy)
        }
        CExpr::Neg(part) => {
            let copy = copy_expr(alloc, part.get());
            copied_negation(alloc, part.get(), copy)
        }
        CExpr::Binary(op, a, b) => {
            let left = copy_expr(alloc, a.get());
            let right = copy_expr(alloc, b.get());
            copied_binary(alloc, *op, a.get(), left, b.get(), right)
        }
        CExpr::Choose(test, a, b) => {
            let tested = copy_test(alloc, test.get());
            let yes = copy_expr(alloc, a.get());
            let no = copy_expr(alloc, b.get());
            copied_choice(alloc, test.get(), tested, a.get(), yes, b.get(), no)
        }
    }
}

/// A copy of a test. Want of memory is the only refusal.
#[cycle(copies)]
pub fn copy_test(alloc: Global, t: &CTest) -> Result<CTest, Memory>
    ensures { IfOk result (λ r. test_view r ≡ test_view t.now) }
{
    let left = copy_expr(alloc, &t.left);
    let right = copy_expr(alloc, &t.right);
    copied_test(t.rel, &t.left, left, &t.right, right)
}

// An element of an array at the copy of `at`.
fn copied_element(
    alloc: Global,
    array: CArray,
    at: &CExpr,
    copy: Result<CExpr, Memory>,
) -> Result<CExpr, Memory>
    requires { IfOk copy (λ x. expr_view x ≡ expr_view at.now) }
    ensures { IfOk result (λ r. expr_view r ≡ Element array (expr_view at.now)) }
{
    let same = copy?;
    let r = c_tree::element(alloc, array, same)?;
    Ok(r)
}

// A cast of the copy of `part`.
fn copied_cast(
    alloc: Global,
    to: CWord,
    part: &CExpr,
    copy: Result<CExpr, Memory>,
) -> Result<CExpr, Memory>
    requires { IfOk copy (λ x. expr_view x ≡ expr_view part.now) }
    ensures { IfOk result (λ r. expr_view r ≡ Cast to (expr_view part.now)) }
{
    let same = copy?;
    let r = c_tree::cast(alloc, to, same)?;
    Ok(r)
}

// The copy of a test, as a number.
fn copied_truth(alloc: Global, test: &CTest, copy: Result<CTest, Memory>) -> Result<CExpr, Memory>
    requires { IfOk copy (λ x. test_view x ≡ test_view test.now) }
    ensures { IfOk result (λ r. expr_view r ≡ Truth (test_view test.now)) }
{
    let same = copy?;
    let r = c_tree::truth(alloc, same)?;
    Ok(r)
}

// Minus the copy of `part`.
fn copied_negation(
    alloc: Global,
    part: &CExpr,
    copy: Result<CExpr, Memory>,
) -> Result<CExpr, Memory>
    requires { IfOk copy (λ x. expr_view x ≡ expr_view part.now) }
    ensures { IfOk result (λ r. expr_view r ≡ Neg (expr_view part.now)) }
{
    let same = copy?;
    let r = c_tree::negation(alloc, same)?;
    Ok(r)
}

// The copies of `a` and `b`.
fn both_copies(
    a: &CExpr,
    left: Result<CExpr, Memory>,
    b: &CExpr,
    right: Result<CExpr, Memory>,
) -> Result<(CExpr, CExpr), Memory>
    requires left { IfOk left (λ x. expr_view x ≡ expr_view a.now) }
    requires right { IfOk right (λ x. expr_view x ≡ expr_view b.now) }
    ensures left { IfOk result (λ r. expr_view r.0 ≡ expr_view a.now) }
    ensures right { IfOk result (λ r. expr_view r.1 ≡ expr_view b.now) }
{
    match left {
        Ok(x) => match right {
            Ok(y) => Ok((x, y)),
            Err(error) => {
                drop(x);
                Err(error)
            }
        },
        Err(error) => {
            drop(right);
            Err(error)
        }
    }
}

// The copies of `a` and `b` under an operator.
fn copied_binary(
    alloc: Global,
    op: COp,
    a: &CExpr,
    left: Result<CExpr, Memory>,
    b: &CExpr,
    right: Result<CExpr, Memory>,
) -> Result<CExpr, Memory>
    requires left { IfOk left (λ x. expr_view x ≡ expr_view a.now) }
    requires right { IfOk right (λ x. expr_view x ≡ expr_view b.now) }
    ensures { IfOk result (λ r. expr_view r ≡ Binary op (expr_view a.now) (expr_view b.now)) }
{
    let (x, y) = both_copies(a, left, b, right)?;
    c_tree::binary(alloc, op, x, y)
}

// The copies of two expressions under the copy of a test.
fn copied_choice(
    alloc: Global,
    test: &CTest,
    tested: Result<CTest, Memory>,
    a: &CExpr,
    yes: Result<CExpr, Memory>,
    b: &CExpr,
    no: Result<CExpr, Memory>,
) -> Result<CExpr, Memory>
    requires test { IfOk tested (λ x. test_view x ≡ test_view test.now) }
    requires yes { IfOk yes (λ x. expr_view x ≡ expr_view a.now) }
    requires no { IfOk no (λ x. expr_view x ≡ expr_view b.now) }
    ensures { IfOk result (λ r. expr_view r ≡ Choose (test_view test.now) (expr_view a.now) (expr_view b.now)) }
{
    match both_copies(a, yes, b, no) {
        Ok((x, y)) => match tested {
            Ok(t) => c_tree::choice(alloc, t, x, y),
            Err(error) => {
                drop(x);
                drop(y);
                Err(error)
            }
        },
        Err(error) => {
            drop(tested);
            Err(error)
        }
    }
}

// The relation between the copies of `a` and `b`.
fn copied_test(
    rel: CRel,
    a: &CExpr,
    left: Result<CExpr, Memory>,
    b: &CExpr,
    right: Result<CExpr, Memory>,
) -> Result<CTest, Memory>
    requires left { IfOk left (λ x. expr_view x ≡ expr_view a.now) }
    requires right { IfOk right (λ x. expr_view x ≡ expr_view b.now) }
    ensures { IfOk result (λ r. test_view r ≡ Compare rel (expr_view a.now) (expr_view b.now)) }
{
    let (x, y) = both_copies(a, left, b, right)?;
    Ok(c_tree::compare(rel, x, y))
}
