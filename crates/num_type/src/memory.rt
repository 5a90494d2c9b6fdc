//! Want of memory, and refusals beside it.

ghost use Rattle.std.specs.Prelude.{◌≡◌};
ghost use Rattle.num_type.specs.declared.memory.Stop.TheVariants.{Memory};

use std::alloc::{AllocError, AllocFailed};

/// Want of memory.
#[derive(Clone, Copy, Debug, PartialEq, Eq)]
pub struct Memory;

impl From<AllocError> for Memory {
    fn from(_: AllocError) -> Self {
        Memory
    }
}

impl<T: Drop> From<AllocFailed<T>> for Memory {
    fn from(_: AllocFailed<T>) -> Self {
        Memory
    }
}

/// Why a call gives no answer: a refusal of its input, or want of memory.
#[derive(Debug, Drop)]
pub enum Stop<R> {
    /// The input is refused.
    Refused(R),
    /// Memory is wanting.
    Memory,
}

impl<R: Drop> From<Memory> for Stop<R> {
    ghost from_gives = { λ _ e. e ≡ Memory };

    fn from(_: Memory) -> Self {
        Stop::Memory
    }
}

impl<R: Drop> From<AllocError> for Stop<R> {
    ghost from_gives = { λ _ e. e ≡ Memory };

    fn from(_: AllocError) -> Self {
        Stop::Memory
    }
}

impl<T: Drop, R: Drop> From<AllocFailed<T>> for Stop<R> {
    ghost from_gives = { λ _ e. e ≡ Memory };

    fn from(_: AllocFailed<T>) -> Self {
        Stop::Memory
    }
}
