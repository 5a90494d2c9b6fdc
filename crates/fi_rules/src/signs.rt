//! Signs before an operand.

ghost use Rattle.std.specs.Prelude.{◌≡◌, IfOk};
ghost use Rattle.mat_ast.specs.declared.tree.UnOp.TheVariants as un;
ghost use Rattle.fi_rules.specs.Signs as rule;
ghost use Rattle.fi_rules.specs.View.{IsSigned, checked_view, signed_view, ty_view};

use crate::missing::{Missing, itself};
use crate::ty::Ty;
use fic_base::Code;
use mat_ast::UnOp;
use num_type::Dyadic;

/// What a sign comes to.
#[derive(Clone, Copy)]
pub enum Signed {
    /// A plus: the operand itself.
    Same,
    /// A minus before a fi: its value with the other sign, in the same type.
    Turned,
    /// A minus before a constant: that constant.
    Constant(Dyadic),
}

/// A sign before an operand of a type. Its first missing condition is the refusal: Unsupported for `~`, and BadArgument for what is neither
/// a fi nor a constant.
#[tactic(auto, unfolding(crate::specs::Signs::sign_checked))]
pub fn sign(op: UnOp, t: &Ty) -> Result<Signed, Missing>
    ensures value { checked_view (signed_view (ty_view t.now)) result ≡ rule.sign_checked op (ty_view t.now) }
    ensures kind { IfOk result (IsSigned op (ty_view t.now)) }
{
    match op {
        UnOp::Plus => plus(t),
        UnOp::Minus => minus(t),
        UnOp::Not => Err(itself(Code::Unsupported)),
    }
}

// A plus.
#[tactic(auto, unfolding(crate::specs::Signs::plus_checked))]
fn plus(t: &Ty) -> Result<Signed, Missing>
    ensures value { checked_view (signed_view (ty_view t.now)) result ≡ rule.plus_checked (ty_view t.now) }
    ensures kind { IfOk result (IsSigned un.Plus (ty_view t.now)) }
{
    match t {
        Ty::Fi(_, _) => Ok(Signed::Same),
        Ty::Number(_) => Ok(Signed::Same),
        Ty::Words(_) => Err(itself(Code::BadArgument)),
        Ty::Math(_) => Err(itself(Code::BadArgument)),
        Ty::Type(_) => Err(itself(Code::BadArgument)),
        Ty::Other => Err(itself(Code::BadArgument)),
    }
}

// A minus.
#[tactic(auto, unfolding(crate::specs::Signs::minus_checked))]
fn minus(t: &Ty) -> Result<Signed, Missing>
    ensures value { checked_view (signed_view (ty_view t.now)) result ≡ rule.minus_checked (ty_view t.now) }
    ensures kind { IfOk result (IsSigned un.Minus (ty_view t.now)) }
{
    match t {
        Ty::Fi(_, _) => Ok(Signed::Turned),
        Ty::Number(c) => Ok(Signed::Constant(c.neg())),
        Ty::Words(_) => Err(itself(Code::BadArgument)),
        Ty::Math(_) => Err(itself(Code::BadArgument)),
        Ty::Type(_) => Err(itself(Code::BadArgument)),
        Ty::Other => Err(itself(Code::BadArgument)),
    }
}
