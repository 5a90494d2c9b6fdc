//! What a source means: definitions, and laws of them.
#![tactic(auto)]

ghost use Rattle.std.specs.Prelude.{◌≡◌, ℕ, ◌≤◌, List, [], ◌∷◌, ◌++◌, All};
ghost use Rattle.mat_ast.specs.Tree.{Fun};
ghost use Rattle.fi_rules.specs.Value.{Val};
ghost use Rattle.fi_values.specs.Sound.{IsSound, Granted};
ghost use Rattle.fi_meaning.specs.Meaning.{evaluated};
ghost use Rattle.fi_meaning.specs.Reach.{IsApart};
ghost use Rattle.fi_meaning.specs.Runs.{Kept};

/// A run that doesn't go past a bound on turns has the same outcome at every greater bound.
pub fn greater_bounds_keep_outcomes()
    ensures { (fs : List Fun) (entry : List ℕ) (vs : List Val) (m n : ℕ) → m ≤ n → Kept (evaluated fs entry vs m) (evaluated fs entry vs n) }
{}

/// An entry's outcome doesn't change when a function is added at the end of the file whose name isn't the entry's and stands in no function
/// that the entry reaches.
pub fn an_added_function_keeps_outcomes()
    ensures { (fs : List Fun) (g : Fun) (entry : List ℕ) (vs : List Val) (n : ℕ) → IsApart fs entry g.name.text → evaluated (fs ++ (g ∷ [])) entry vs n ≡ evaluated fs entry vs n }
{}

/// On sound inputs an entry gives sound values. An array has at least one row and one column and at most 4,096 elements, each of its lists has
/// as many as its shape says, and its stored integers are in the range of its type, which is within the limits.
pub fn ends_have_their_shapes()
    ensures { (fs : List Fun) (entry : List ℕ) (vs : List Val) (n : ℕ) → All IsSound vs → Granted (All IsSound) (evaluated fs entry vs n) }
{}
