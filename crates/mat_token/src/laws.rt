//! Laws of the token lists of sources.

ghost use Rattle.std.specs.Prelude.{◌≡◌, ℕ, List};
ghost use Rattle.mat_token.specs.Reads.{Outcome};
ghost use Rattle.mat_token.specs.Outcome.{IsOutcome};

/// A text has at most one token list or refusal.
#[tactic(auto, using(crate::proofs::Once::outcome_once))]
pub fn one_outcome()
    ensures { (bytes : List ℕ) (o p : Outcome) → IsOutcome bytes o → IsOutcome bytes p → o ≡ p }
{}
