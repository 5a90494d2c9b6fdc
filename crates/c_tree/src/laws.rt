//! Laws of the definitions.

ghost use Rattle.std.specs.Prelude.{◌≡◌, ◌<◌, ◌≤◌, ℕ, ℤ, pos, neg_ℤ, List, [], ◌∷◌, length};
ghost use Rattle.c_tree.specs.Example.{example, example_text};
ghost use Rattle.c_tree.specs.Tree.{Program};
ghost use Rattle.c_tree.specs.Tokens.{body_token, program_tokens};
ghost use Rattle.c_tree.specs.Spelling.{spelled};
ghost use Rattle.c_tree.specs.Depth.{depth};
ghost use Rattle.c_tree.specs.Depths.{depths, greatest};
ghost use Rattle.c_tree.specs.Run.{run, Ended, Undefined};
ghost use Rattle.c_tree.specs.Layout.{layout};
ghost use Rattle.c_tree.specs.CText.{IsText};
ghost use Rattle.c_tree.specs.WellFormed.{IsWellFormed};

/// A program has as many tokens as are counted.
pub fn tokens_are_counted()
    ensures { (p : Program) → length (spelled p) ≡ program_tokens p }
{}

/// Each token of a program has a depth, and the greatest of them is the depth of the program, where it is well formed.
pub fn depth_is_the_greatest()
    ensures greatest { (p : Program) → IsWellFormed p → greatest (depths p) ≡ depth p }
    ensures each { (p : Program) → length (depths p) ≡ length (spelled p) }
{}

/// What a run finds undefined stands at a token of the program, behind its declarations.
pub fn undefined_at_a_token()
    ensures { (p : Program) (inputs outputs : List (List ℤ)) (n k : ℕ) → run p inputs outputs n ≡ Undefined k → (body_token p ≤ k) × (k < program_tokens p) }
{}

/// The layout of a well-formed program is one of its texts.
pub fn layout_is_a_text()
    ensures { (p : Program) → IsWellFormed p → IsText p (layout p) }
{}

/// The worked program is well formed, its layout is its text, and it gives -1.5 for 1.5 and -2: stored integers -384 for 24 and -32.
pub fn worked_program()
    ensures well_formed { IsWellFormed example }
    ensures text { layout example ≡ example_text }
    ensures value { run example ((pos 24 ∷ []) ∷ (neg_ℤ (pos 32) ∷ []) ∷ []) ((pos 0 ∷ []) ∷ []) 0 ≡ Ended 0 ((neg_ℤ (pos 384) ∷ []) ∷ []) }
{}
