//! A table of the words that go by a text.

ghost use Rattle.std.specs.Prelude.{◌≡◌, IfOk, OnOk};
ghost use Rattle.c_tree.specs.View.{interface_view};
ghost use Rattle.c_tree.specs.WellFormed.{IsInterface};
ghost use Rattle.c_word.specs.Table.{IsTableOf, fixed_rows, found_in, nothing, with_rows, with_word};

use crate::fixed::{FIXED, fixed_text};
use crate::parameters::{Side, joined, put_slots};
use c_grammar::{CWordToken, one_word};
use c_tree::Interface;
use num_type::Memory;
use std::alloc::Global;
use std::collections::HashMap;

/// The words of an interface that aren't numbers, nor a letter and a number, by their texts: its parameters, the function's name, and the
/// words that each program has. One is found in a time that doesn't grow with the number of parameters.
#[derive(Drop)]
pub struct WordTable {
    table: HashMap<Vec<u8>, CWordToken>,
}

impl WordTable {
    fn new(alloc: Global) -> WordTable
        ensures { found_in result ≡ nothing }
    {
        WordTable {
            table: HashMap::new(alloc),
        }
    }

    /// Puts a word in at its text. Want of memory is the only refusal.
    pub(crate) fn put(&mut self, text: Vec<u8>, word: CWordToken) -> Result<(), Memory>
        ensures { OnOk result (found_in self.new ≡ with_word (found_in self.old) text.items word) }
    {
        let Ok(_) = self.table.insert(text, word) else {
            return Err(Memory);
        };
        Ok(())
    }

    /// Puts words in that have the same text beside every interface. Want of memory is the only refusal.
    fn put_fixed(&mut self, alloc: Global, words: &[CWordToken]) -> Result<(), Memory>
        ensures { OnOk result (found_in self.new ≡ with_rows (found_in self.old) (fixed_rows words.now)) }
    {
        for word in words {
            let text = Vec::from_slice(alloc, fixed_text(*word))?;
            self.put(text, *word)?;
        }
        Ok(())
    }

    /// The table of an interface. Want of memory is the only refusal, and 2^32 arrays of inputs or of outputs count as such.
    pub fn of(alloc: Global, interface: &Interface) -> Result<WordTable, Memory>
        requires { IsInterface (interface_view interface.now) }
        ensures { IfOk result (λ table. IsTableOf (interface_view interface.now) table) }
    {
        one_word();
        let mut table = WordTable::new(alloc);
        table.put_fixed(alloc, &FIXED)?;
        let name = joined(alloc, b"fic_", interface.entry.as_bytes())?;
        table.put(name, CWordToken::Function)?;
        put_slots(alloc, &mut table, Side::Input, interface.inputs.as_slice())?;
        put_slots(
            alloc,
            &mut table,
            Side::Output,
            interface.outputs.as_slice(),
        )?;
        Ok(table)
    }

    /// The word at a text. None exactly where the table has none there.
    pub(crate) fn find(&self, text: &[u8]) -> Option<CWordToken>
        ensures { result ≡ found_in self.now text.now }
    {
        match self.table.get(text) {
            Some(word) => Some(*word),
            None => None,
        }
    }
}
