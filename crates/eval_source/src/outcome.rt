//! How an evaluation ends.

ghost use Rattle.std.specs.Prelude.{◌≡◌, Err, List, IfOk};
ghost use Rattle.std.specs.Global.{Vec};
ghost use Rattle.eval_value.specs.declared.value.Value as value;
ghost use Rattle.fic_base.specs.declared.place.Place as place;
ghost use Rattle.fi_rules.specs.Value.{Val};
ghost use Rattle.fi_eval.specs.Outcome.{Got};
ghost use Rattle.eval_value.specs.Tells.{Tells};
ghost use Rattle.eval_value.specs.View.{row_view};
ghost use Rattle.eval_source.specs.Outcomes.{outcome_view};

use eval_value::{Halt, Value};
use fic_base::Place;
use num_type::Memory;

/// How an evaluation ends.
#[derive(Drop)]
pub enum Outcome {
    /// With these values of the entry's outputs.
    Ends(Vec<Value>),
    /// At a subscript out of its extent, by the site of the access: one more than the offset of its parenthesis.
    Fault(u64),
    /// With a test of a `while` that was true once more than the bound allows.
    Over,
    /// At a place where no rule gives a result.
    Wrong(Place),
}

/// The outcome that an answer tells. Want of memory is the only refusal.
pub fn outcome_of(answer: Result<Vec<Value>, Halt>) -> Result<Outcome, Memory>
    ensures { (got : Got place.Place (List Val)) → Tells answer row_view got → IfOk result (λ o. outcome_view o ≡ got) }
{
    match answer {
        Ok(values) => Ok(Outcome::Ends(values)),
        Err(halt) => halted(halt),
    }
}

// The outcome of an evaluation without a result.
fn halted(halt: Halt) -> Result<Outcome, Memory>
    ensures { (got : Got place.Place (List Val)) → Tells {R = Vec value.Value} (Err halt) row_view got → IfOk result (λ o. outcome_view o ≡ got) }
{
    match halt {
        Halt::Memory => Err(Memory),
        Halt::Fault(site) => Ok(Outcome::Fault(site)),
        Halt::Over => Ok(Outcome::Over),
        Halt::Wrong(at) => Ok(Outcome::Wrong(at)),
    }
}
