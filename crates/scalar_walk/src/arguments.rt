//! Arguments of a call that are lowered.

ghost use Rattle.std.specs.Prelude.{◌≡◌, ◌++◌, ◌∷◌, [], length, OnOk};

use crate::operand::{Held, Spot};
use fi_rules::Ty;
use num_type::Memory;
use std::alloc::Global;

/// The types of arguments from left to right, and where they stand.
#[derive(Drop)]
pub struct Arguments {
    pub types: Vec<Ty>,
    pub spots: Vec<Spot>,
    ghost same: { length spots.items ≡ length types.items },
}

impl Arguments {
    /// No argument.
    pub fn new(alloc: Global) -> Arguments
        ensures types { result.types.items ≡ [] }
        ensures spots { result.spots.items ≡ [] }
    {
        Arguments {
            types: Vec::new(alloc),
            spots: Vec::new(alloc),
        }
    }

    /// One more at the end. Want of memory is the only refusal.
    pub fn push(&mut self, held: Held) -> Result<(), Memory>
        ensures types { OnOk result (self.new.types.items ≡ self.old.types.items ++ (held.ty ∷ [])) }
        ensures spots { OnOk result (self.new.spots.items ≡ self.old.spots.items ++ (held.spot ∷ [])) }
    {
        self.spots.reserve(1)?;
        let Held { spot, ty } = held;
        match self.types.push(ty) {
            Err(_) => Err(Memory),
            Ok(()) => match self.spots.push(spot) {
                Err(_) => unreachable!(),
                Ok(()) => Ok(()),
            },
        }
    }
}
