//! Laws of operators on constants.

ghost use Rattle.std.specs.Prelude.{ℕ, List};
ghost use Rattle.fic_base.specs.declared.place.Place.{Place};
ghost use Rattle.fic_base.specs.declared.refusal.Refusal.{Refusal};
ghost use Rattle.mat_ast.specs.declared.tree.BinOp.{BinOp};
ghost use Rattle.const_eval.specs.declared.constant.Const.{Const};
ghost use Rattle.const_fold.specs.Folds.{IsFolded, IsUnfolded};

/// Where an operator on two constants is refused, it makes no constant of them.
pub fn refused_operators_make_nothing()
    ensures { (op : BinOp) (shown : List ℕ) (a b c : Const) (at : Place) (r : Refusal) → IsFolded op a b c → IsUnfolded op shown a b at r → ⊥ }
{}
