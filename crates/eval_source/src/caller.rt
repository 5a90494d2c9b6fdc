//! Calls of the functions of a file.

ghost use Rattle.std.specs.Prelude.{ℕ, List, map};
ghost use Rattle.fic_base.specs.declared.place.Place.{Place};
ghost use Rattle.fi_rules.specs.Value.{Val};
ghost use Rattle.fi_eval.specs.Outcome.{Got};
ghost use Rattle.eval_value.specs.Tells.{Tells};
ghost use Rattle.eval_value.specs.View.{row_view, value_view};

use eval_value::{Halt, Value};
use fic_base::Place;
use std::alloc::Global;

/// What calls the functions of a file.
pub trait Caller {
    /// What a call does: at a place, of a function by its name, on values, asked for so many outputs.
    ghost called: { Self → Place → List ℕ → List Val → ℕ → Got Place (List Val) };

    /// A call of a function of the file on these values, asked for so many outputs.
    fn call(
        &self,
        alloc: Global,
        at: Place,
        name: &[u8],
        values: Vec<Value>,
        wanted: usize,
    ) -> Result<Vec<Value>, Halt>
        ensures { Tells result row_view (called self.now at name.now (map value_view values.items) wanted) };
}
