//! What operators do.

ghost use Rattle.std.specs.Prelude.{◌≡◌};
ghost use Rattle.fi_rules.specs.Pairs as pairs;

use mat_ast::BinOp;

/// What kind of work an operator with two operands does.
#[derive(Clone, Copy, Debug, PartialEq, Eq)]
pub enum Work {
    /// `+`.
    Sum,
    /// `-`.
    Difference,
    /// `*` and `.*`.
    Product,
    /// `^` and `.^`.
    Power,
    /// `/`, `./`, `\` and `.\`.
    Division,
    /// An operator that isn't supported yet.
    Later,
}

/// The work of an operator.
pub fn work_of(op: BinOp) -> Work
    ensures { result ≡ pairs.work_of op }
{
    match op {
        BinOp::Add => Work::Sum,
        BinOp::Sub => Work::Difference,
        BinOp::Mul | BinOp::ElemMul => Work::Product,
        BinOp::Pow | BinOp::ElemPow => Work::Power,
        BinOp::Div | BinOp::ElemDiv | BinOp::LeftDiv | BinOp::ElemLeftDiv => Work::Division,
        _ => Work::Later,
    }
}
