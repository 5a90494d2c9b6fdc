//! The law of programs.

ghost use Rattle.std.specs.Prelude.{◌≡◌, ◌<◌, ◌^◌, ℕ, List, Some, All, length};
ghost use Rattle.num_type.specs.Types.{NumericType, IsWithin};
ghost use Rattle.mat_ast.specs.Tree.{Fun};
ghost use Rattle.fi_eval.specs.Meaning.{Context, context_of, function_named};
ghost use Rattle.c_tree.specs.Tree.{Program};
ghost use Rattle.scalar_program.specs.Lowered.{IsFunctionLowered, real_slots};
ghost use Rattle.scalar_program.specs.Correspondence.{IsProgramOf};
ghost use Rattle.scalar_program.specs.Right.{IsHeader};

/// A program that a function is lowered to is one of its file: well formed, at most 500 deep, and for every input, every contents of the
/// outputs and every bound on turns never undefined and what evaluation of the file gives.
pub fn programs_are_right()
    ensures { (cx : Context) (fs : List Fun) (entry : List ℕ) (f : Fun) (ts : List NumericType) (p : Program) → function_named fs entry ≡ Some f → context_of fs f ≡ cx → length f.inputs ≡ length ts → IsHeader f → All IsWithin ts → length p.words < 2 ^ 32 → IsFunctionLowered cx f ts p → IsProgramOf fs entry (real_slots f.inputs ts) p }
{}
