//! The variables of a function that have a value.

ghost use Rattle.std.specs.Prelude.{◌≡◌, OnOk, option_map};
ghost use Rattle.eval_value.specs.View.{value_view};
ghost use Rattle.fi_meaning.specs.Environment.{assigned, forgotten, no_values};
ghost use Rattle.eval_source.specs.View.{env_view};

use eval_value::Value;
use num_type::Memory;
use std::alloc::Global;
use std::collections::HashMap;

/// The variables that have a value, of which one is found in a time that doesn't grow with their number.
#[derive(Drop)]
pub struct Variables {
    table: HashMap<Vec<u8>, Value>,
}

impl Variables {
    /// No variable.
    pub fn new(alloc: Global) -> Variables
        ensures { env_view result ≡ no_values }
    {
        Variables {
            table: HashMap::new(alloc),
        }
    }

    /// The value of a variable. None exactly where it has none.
    pub fn get(&self, name: &[u8]) -> Option<&Value>
        ensures { option_map (λ v. value_view v.now) result ≡ env_view self.now name.now }
    {
        self.table.get(name)
    }

    /// Gives a variable this value. Want of memory is the only refusal.
    pub fn set(&mut self, alloc: Global, name: &[u8], value: Value) -> Result<(), Memory>
        ensures { OnOk result (env_view self.new ≡ assigned name.now (value_view value) (env_view self.old)) }
    {
        let key = Vec::from_slice(alloc, name)?;
        let Ok(_) = self.table.insert(key, value) else {
            return Err(Memory);
        };
        Ok(())
    }

    /// Takes a variable's value away.
    pub fn forget(&mut self, name: &[u8])
        ensures { env_view self.new ≡ forgotten name.now (env_view self.old) }
    {
        let _ = self.table.remove(name);
    }
}
