//! Sets of names.

ghost use Rattle.std.specs.Prelude.{◌≡◌, ℕ, List, bytes_eq, is_some};
ghost use Rattle.std.specs.HashMap.{get_by};
ghost use Rattle.walk_scope.specs.Names.{is_listed};

use fic_base::Text;
use num_type::Memory;
use std::alloc::Global;
use std::collections::HashMap;

/// The names put in, of which one is found in a time that doesn't grow with their number.
#[derive(Drop)]
pub struct NameSet {
    list: Vec<Text>,
    table: HashMap<Vec<u8>, ()>,
    ghost same: { (name : List ℕ) → is_some (get_by (λ k. bytes_eq name k.items) table) ≡ is_listed name list.items },
}

impl NameSet {
    ghost use Rattle.std.specs.Prelude.{[], ◌∷◌, ◌++◌, OnOk};
    ghost use Rattle.walk_scope.specs.NameSets.{names_in};

    /// No names.
    pub fn new(alloc: Global) -> NameSet
        ensures { names_in result ≡ [] }
    {
        NameSet {
            list: Vec::new(alloc),
            table: HashMap::new(alloc),
        }
    }

    /// Whether a name was put in.
    pub fn contains(&self, name: &[u8]) -> bool
        ensures { result ≡ is_listed name.now (names_in self.now) }
    {
        self.table.contains_key(name)
    }

    /// Puts a name in, behind those that are there. Want of memory is its only refusal.
    pub fn insert(&mut self, alloc: Global, name: &[u8]) -> Result<(), Memory>
        ensures { OnOk result (names_in self.new ≡ names_in self.old ++ name.now ∷ []) }
    {
        let key = Vec::from_slice(alloc, name)?;
        let text = Text::from_bytes(alloc, name)?;
        self.list.reserve(1)?;
        match self.table.insert(key, ()) {
            Err(_) => Err(Memory),
            Ok(_) => match self.list.push(text) {
                Err(_) => unreachable!(),
                Ok(()) => Ok(()),
            },
        }
    }
}
