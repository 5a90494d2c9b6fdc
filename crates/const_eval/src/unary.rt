//! Signs of constants.

ghost use Rattle.std.specs.Prelude.{◌≢◌, IfOk};
ghost use Rattle.mat_ast.specs.declared.tree.UnOp.TheVariants.{Not};
ghost use Rattle.const_eval.specs.Values.{IsEach};
ghost use Rattle.const_eval.specs.Folds.{signed_by};

use crate::constant::Const;
use mat_ast::UnOp;
use num_type::Memory;
use std::alloc::Global;

/// The constant behind a `+` or a `-`: that of the same shape, complex or real alike, with the same numbers or with their signs turned.
/// Want of memory is its only refusal.
pub fn fold_unary(alloc: Global, op: UnOp, a: &Const) -> Result<Const, Memory>
    requires { op ≢ Not }
    ensures { IfOk result (λ c. IsEach (signed_by op) a.now c) }
{
    match op {
        UnOp::Minus => a.negated(alloc),
        _ => a.copied(alloc),
    }
}
