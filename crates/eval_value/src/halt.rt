//! Why an evaluation has no result.

ghost use Rattle.std.specs.Prelude.{◌≡◌};
ghost use Rattle.fi_eval.specs.Outcome.{or_wrong};
ghost use Rattle.eval_value.specs.Tells.{Tells};
ghost use Rattle.eval_value.specs.declared.halt.Halt.TheVariants as halt;

use fic_base::Place;
use num_type::Memory;
use std::alloc::{AllocError, AllocFailed};

/// Why an evaluation has no result.
#[derive(Clone, Copy, Debug, PartialEq, Eq)]
pub enum Halt {
    /// Memory is wanting.
    Memory,
    /// A subscript is out of its extent, by the site of the access: one more than the offset of its parenthesis.
    Fault(u64),
    /// A test of a `while` was true once more than the bound allows.
    Over,
    /// No rule gives a result, at a place.
    Wrong(Place),
}

impl From<Memory> for Halt {
    ghost from_gives = { λ _ e. e ≡ halt.Memory };

    fn from(_: Memory) -> Self {
        Halt::Memory
    }
}

impl From<AllocError> for Halt {
    ghost from_gives = { λ _ e. e ≡ halt.Memory };

    fn from(_: AllocError) -> Self {
        Halt::Memory
    }
}

impl<T: Drop> From<AllocFailed<T>> for Halt {
    ghost from_gives = { λ _ e. e ≡ halt.Memory };

    fn from(_: AllocFailed<T>) -> Self {
        Halt::Memory
    }
}

/// A result that has to be there; wrong at the place where there is none.
#[tactic(auto, unfolding(fi_eval::specs::Outcome::or_wrong))]
pub fn or_wrong<T>(at: Place, found: Option<T>) -> Result<T, Halt>
    ensures { Tells result (λ x. x) (or_wrong at found) }
{
    match found {
        Some(x) => Ok(x),
        None => Err(Halt::Wrong(at)),
    }
}
