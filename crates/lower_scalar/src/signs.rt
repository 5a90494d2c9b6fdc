//! Small expressions over words of either signedness.

ghost use Rattle.std.specs.Prelude.{◌≡◌, IfOk, true};
ghost use Rattle.c_tree.specs.Tree.{Binary, Choose};
ghost use Rattle.c_tree.specs.declared.tree.COp.TheVariants.{Sub};
ghost use Rattle.c_tree.specs.View.{expr_view};
ghost use Rattle.lower_scalar.specs.Part;
ghost use Rattle.lower_scalar.specs.Shapes;

use c_tree::{CExpr, COp, CRel, CWord};
use num_type::Memory;
use std::alloc::Global;

/// The type of the words that hold stored integers of this signedness.
pub fn word_for(signed: bool) -> CWord
    ensures { result ≡ Part.word_for signed }
{
    if signed { CWord::I64 } else { CWord::U64 }
}

/// A constant of this signedness.
pub fn constant(signed: bool, n: u64) -> CExpr
    ensures { expr_view result ≡ Shapes.constant signed n }
{
    if signed {
        c_tree::signed(n)
    } else {
        c_tree::unsigned(n)
    }
}

/// -1.
pub fn minus_one(alloc: Global) -> Result<CExpr, Memory>
    ensures { IfOk result (λ r. expr_view r ≡ Shapes.minus_one) }
{
    c_tree::negation(alloc, c_tree::signed(1))
}

/// -1 less an expression.
pub fn minus_one_less(alloc: Global, e: CExpr) -> Result<CExpr, Memory>
    ensures { IfOk result (λ r. expr_view r ≡ Binary Sub Shapes.minus_one (expr_view e)) }
{
    match minus_one(alloc) {
        Ok(minus) => { c_tree::binary(alloc, COp::Sub, minus, e) }
        Err(error) => {
            drop(e);
            Err(error)
        }
    }
}

/// `-n - 1`.
pub fn below_minus(alloc: Global, n: u64) -> Result<CExpr, Memory>
    ensures { IfOk result (λ r. expr_view r ≡ Shapes.below_minus n) }
{
    let minus = c_tree::negation(alloc, c_tree::signed(n))?;
    c_tree::binary(alloc, COp::Sub, minus, c_tree::signed(1))
}

/// An expression of this signedness as `uint64_t`: a negative number modulo `2^64`.
pub fn bits_of(alloc: Global, signed: bool, e: CExpr) -> Result<CExpr, Memory>
    ensures { IfOk result (λ r. expr_view r ≡ Shapes.bits_of signed (expr_view e)) }
{
    if signed {
        c_tree::cast(alloc, CWord::U64, e)
    } else {
        Ok(e)
    }
}

/// An expression that isn't negative as a word of another signedness.
pub fn resigned(alloc: Global, signed: bool, to: bool, e: CExpr) -> Result<CExpr, Memory>
    ensures { IfOk result (λ r. expr_view r ≡ Shapes.resigned signed to (expr_view e)) }
{
    if signed {
        if to {
            Ok(e)
        } else {
            c_tree::cast(alloc, CWord::U64, e)
        }
    } else if to {
        c_tree::cast(alloc, CWord::I64, e)
    } else {
        Ok(e)
    }
}

/// The first of two expressions where `a` is below `b`, and else the second.
pub fn choose_less(
    alloc: Global,
    a: CExpr,
    b: CExpr,
    yes: CExpr,
    no: CExpr,
) -> Result<CExpr, Memory>
    ensures { IfOk result (λ r. expr_view r ≡ Choose (Shapes.is_less (expr_view a) (expr_view b)) (expr_view yes) (expr_view no)) }
{
    let test = c_tree::compare(CRel::Lt, a, b);
    c_tree::choice(alloc, test, yes, no)
}

/// The first of two expressions where a signed variable is below 0, and else the second.
pub fn below_zero(alloc: Global, x: u32, below: CExpr, other: CExpr) -> Result<CExpr, Memory>
    ensures { IfOk result (λ r. expr_view r ≡ Shapes.by_sign true x (expr_view below) (expr_view other)) }
{
    choose_less(alloc, c_tree::variable(x), c_tree::signed(0), below, other)
}
