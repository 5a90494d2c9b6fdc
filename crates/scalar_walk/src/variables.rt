//! The variables of a function that have a value.

ghost use Rattle.std.specs.Prelude.{◌≡◌, OnOk, option_map};
ghost use Rattle.scalar_program.specs.NameMaps.{with_type};
ghost use Rattle.scalar_program.specs.Lowered.{no_names};
ghost use Rattle.scalar_walk.specs.View.{names_view, held_view};

use crate::operand::Held;
use num_type::Memory;
use std::alloc::Global;
use std::collections::HashMap;

/// The variables that have a value, of which one is found in a time that doesn't grow with their number.
#[derive(Drop)]
pub struct Variables {
    table: HashMap<Vec<u8>, Held>,
}

impl Variables {
    /// No variable.
    pub fn new(alloc: Global) -> Variables
        ensures { names_view result ≡ no_names }
    {
        Variables {
            table: HashMap::new(alloc),
        }
    }

    /// The value of a variable. None exactly where it has none.
    pub fn get(&self, name: &[u8]) -> Option<&Held>
        ensures { option_map (λ h. held_view h.now) result ≡ names_view self.now name.now }
    {
        self.table.get(name)
    }

    /// Gives a variable this value. Want of memory is the only refusal.
    pub fn set(&mut self, alloc: Global, name: &[u8], held: Held) -> Result<(), Memory>
        ensures { OnOk result (names_view self.new ≡ with_type (names_view self.old) name.now (held_view held)) }
    {
        let key = Vec::from_slice(alloc, name)?;
        let Ok(_) = self.table.insert(key, held) else {
            return Err(Memory);
        };
        Ok(())
    }
}
