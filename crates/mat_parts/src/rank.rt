//! How tightly operators bind.

ghost use Rattle.std.specs.Prelude.{◌≡◌};
ghost use Rattle.mat_ast.specs.View.{expr_view};
ghost use Rattle.mat_grammar.specs.Grammar.{rank};

use mat_ast::BinOp;

/// How tightly an operator binds.
pub fn rank(op: BinOp) -> u32
    ensures { result ≡ rank op }
{
    match op {
        BinOp::OrOr => 0,
        BinOp::AndAnd => 1,
        BinOp::Or => 2,
        BinOp::And => 3,
        BinOp::Eq | BinOp::Ne | BinOp::Lt | BinOp::Le | BinOp::Gt | BinOp::Ge => 4,
        BinOp::Add | BinOp::Sub => 6,
        BinOp::Mul
        | BinOp::ElemMul
        | BinOp::Div
        | BinOp::ElemDiv
        | BinOp::LeftDiv
        | BinOp::ElemLeftDiv => 7,
        BinOp::Pow | BinOp::ElemPow => 10,
    }
}
