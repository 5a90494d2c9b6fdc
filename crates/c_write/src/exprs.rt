//! Expressions and tests.

ghost use Rattle.std.specs.Prelude.{◌≡◌, ◌++◌, OnOk, codes};
ghost use Rattle.c_tree.specs.View.{expr_view, test_view};
ghost use Rattle.c_tree.specs.Layout.{exp_text, test_text};
ghost use Rattle.c_tree.specs.Tree.{Element, Cast, Truth, Neg};

use crate::pieces::{
    put, put_array, put_constant, put_counter, put_op, put_read, put_rel, put_var, put_word,
};
use c_tree::{Arrays, CArray, CExpr, CTest, CWord};
use num_type::Memory;

/// An expression.
#[cycle(expr)]
pub fn put_expr(out: &mut Vec<u8>, all: &Arrays, e: &CExpr) -> Result<(), Memory>
    ensures { OnOk result (out.new.items ≡ out.old.items ++ exp_text all.now (expr_view e.now)) }
{
    match e {
        CExpr::I64(n) => put_constant(out, CWord::I64, *n),
        CExpr::U64(n) => put_constant(out, CWord::U64, *n),
        CExpr::Var(k) => put_var(out, *k as u64),
        CExpr::Count(c) => put_counter(out, *c),
        CExpr::Element { array, at } => put_element(out, all, *array, at.get()),
        CExpr::Cast(word, part) => put_cast(out, all, *word, part.get()),
        CExpr::Test(t) => put_truth(out, all, t.get()),
        CExpr::Neg(part) => put_negation(out, all, part.get()),
        CExpr::Binary(op, a, b) => {
            put(out, b"(")?;
            put_expr(out, all, a.get())?;
            put(out, b" ")?;
            put_op(out, *op)?;
            put_arm(out, all, b" ", b.get())?;
            put(out, b")")
        }
        CExpr::Choose(t, a, b) => {
            put(out, b"(")?;
            put_test(out, all, t.get())?;
            put_arm(out, all, b" ? ", a.get())?;
            put_arm(out, all, b" : ", b.get())?;
            put(out, b")")?;
            Ok(())
        }
    }
}

// An element of an array with its cast.
#[cycle(expr)]
fn put_element(out: &mut Vec<u8>, all: &Arrays, array: CArray, at: &CExpr) -> Result<(), Memory>
    ensures { OnOk result (out.new.items ≡ out.old.items ++ exp_text all.now (Element array (expr_view at.now))) }
{
    put(out, b"(")?;
    put_read(out, all, array)?;
    put(out, b")")?;
    put_array(out, all, array)?;
    put(out, b"[")?;
    put_expr(out, all, at)?;
    put(out, b"]")
}

// A cast and its operand.
#[cycle(expr)]
fn put_cast(out: &mut Vec<u8>, all: &Arrays, word: CWord, part: &CExpr) -> Result<(), Memory>
    ensures { OnOk result (out.new.items ≡ out.old.items ++ exp_text all.now (Cast word (expr_view part.now))) }
{
    put(out, b"(")?;
    put_word(out, word)?;
    put(out, b")")?;
    put_expr(out, all, part)
}

// A test as a number.
#[cycle(expr)]
fn put_truth(out: &mut Vec<u8>, all: &Arrays, t: &CTest) -> Result<(), Memory>
    ensures { OnOk result (out.new.items ≡ out.old.items ++ exp_text all.now (Truth (test_view t.now))) }
{
    put(out, b"(int64_t)(")?;
    put_test(out, all, t)?;
    put(out, b")")
}

// A negated expression.
#[cycle(expr)]
fn put_negation(out: &mut Vec<u8>, all: &Arrays, part: &CExpr) -> Result<(), Memory>
    ensures { OnOk result (out.new.items ≡ out.old.items ++ exp_text all.now (Neg (expr_view part.now))) }
{
    put(out, b"(-")?;
    put_expr(out, all, part)?;
    put(out, b")")
}

// A sign and the expression behind it.
#[cycle(expr)]
fn put_arm(out: &mut Vec<u8>, all: &Arrays, sign: &[u8], e: &CExpr) -> Result<(), Memory>
    ensures { OnOk result (out.new.items ≡ out.old.items ++ sign.now ++ exp_text all.now (expr_view e.now)) }
{
    put(out, sign)?;
    put_expr(out, all, e)
}

/// A test: two expressions and the relation between them.
#[cycle(expr)]
pub fn put_test(out: &mut Vec<u8>, all: &Arrays, t: &CTest) -> Result<(), Memory>
    ensures { OnOk result (out.new.items ≡ out.old.items ++ test_text all.now (test_view t.now)) }
{
    put_expr(out, all, &t.left)?;
    put(out, b" ")?;
    put_rel(out, t.rel)?;
    put(out, b" ")?;
    put_expr(out, all, &t.right)
}
