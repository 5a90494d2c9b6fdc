//! The walk over a source: which sources are typed, with which tree, and the one refusal of every other. Definitions, with their laws.
#![tactic(auto)]

ghost use Rattle.std.specs.Prelude.{◌≡◌, ℕ, List};
ghost use Rattle.mat_ast.specs.Tree.{Fun};
ghost use Rattle.node_rules.specs.Types.{NodeTy};
ghost use Rattle.walk_scope.specs.Told.{Passes};
ghost use Rattle.source_typing.specs.Functions.{source_typed};
ghost use Rattle.source_typing.specs.Setting.{Called};
ghost use Rattle.source_typing.specs.Within.{IsWithin};

/// A source that is typed has at most 200,000 nodes, and nodes that aren't scalar of at most 1,048,576 elements in all, those of callees at each
/// of their calls included.
#[tactic(auto, using(crate::proofs::Sources::typed_within_limits))]
pub fn typed_sources_are_within_the_limits()
    ensures { (fs : List Fun) (entry : List ℕ) (ts : List NodeTy) (r : Called) → source_typed fs entry ts ≡ Passes r → IsWithin r.counts }
{}
