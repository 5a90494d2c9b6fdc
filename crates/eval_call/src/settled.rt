//! Values that have to be there.

ghost use Rattle.fi_eval.specs.Outcome.{or_wrong};
ghost use Rattle.eval_value.specs.Tells.{Tells};
ghost use Rattle.eval_value.specs.View.{item_view, value_view};

use eval_value::{Halt, Value};
use fic_base::Place;

/// A value that has to be there; wrong at the place where there is none.
#[tactic(auto, unfolding(fi_eval::specs::Outcome::or_wrong))]
pub fn settled(at: Place, found: Option<Value>) -> Result<Value, Halt>
    ensures { Tells result value_view (or_wrong at (item_view found)) }
{
    match found {
        None => Err(Halt::Wrong(at)),
        Some(v) => Ok(v),
    }
}
