//! A shelf in memory.

ghost use Rattle.std.specs.Prelude.{◌≡◌, ℕ, List, Option, Some, None, [], ◌++◌, take, OnOk, OnErr, IfErr, string_bytes};
ghost use Rattle.fic_io.specs.Lookup.{bytes_under, entry_under};
ghost use Rattle.fic_io.specs.Causes.{ReadLeaves, FailsAsChosen, GrewBy, RoseByOne, one_more};
ghost use Rattle.fic_io.specs.Known.{bytes_on, mem_faults, mem_last, calls_of, chosen_of, is_chosen};
ghost use Rattle.std.specs.Option.{option_copied};

use crate::shelf::{Shelf, ShelfFault};
use std::alloc::Global;

/// A shelf in memory, of which chosen calls fail. It tells its bytes.
#[derive(Drop)]
pub struct MemShelf {
    files: Vec<(String, Vec<u8>)>,
    fails: Vec<u64>,
    calls: u64,
    faults: u64,
    last: String,
}

impl MemShelf {
    /// A shelf of these files, of which the first of a name counts. The calls whose number from 0 is in `fails` fail, and so do those
    /// with a missing name. It takes no memory.
    pub fn new(alloc: Global, files: Vec<(String, Vec<u8>)>, fails: Vec<u64>) -> MemShelf
        ensures files { (name : List ℕ) → bytes_on result name ≡ bytes_under files.items name }
        ensures faults { mem_faults result ≡ 0 }
        ensures last { mem_last result ≡ [] }
        ensures calls { (calls_of result ≡ 0) × (chosen_of result ≡ fails.items) }
    {
        MemShelf {
            files,
            fails,
            calls: 0,
            faults: 0,
            last: String::new(alloc),
        }
    }

    fn find(&self, name: &str) -> Option<&(String, Vec<u8>)>
        ensures { option_copied result ≡ entry_under self.now.files.items name.now }
    {
        self.files.iter().find(|f| f.0.as_str() == name)
    }

    // Counts a failure at a name.
    fn count_failure(&mut self, name: String)
        ensures faults { RoseByOne (mem_faults self.old) (mem_faults self.new) }
        ensures last { mem_last self.new ≡ string_bytes name }
        ensures kept { (bytes_on self.new ≡ bytes_on self.old) × (calls_of self.new ≡ calls_of self.old) × (chosen_of self.new ≡ chosen_of self.old) }
    {
        self.last = name;
        self.faults = self.faults.saturating_add(1);
    }
}

impl Shelf for MemShelf {
    ghost told = { λ s name. bytes_on s name };

    ghost faults = { λ s. mem_faults s };

    ghost last = { λ s. mem_last s };

    fn read(&mut self, name: &str, limit: u64, into: &mut Vec<u8>) -> Result<(), ShelfFault>
        ensures leaves { ReadLeaves result name.now (mem_faults self.old) (mem_faults self.new) (bytes_on self.old name.now)
            (mem_last self.old) (mem_last self.new) into.old.items into.new.items limit }
        ensures told { bytes_on self.new ≡ bytes_on self.old }
        ensures fails { FailsAsChosen result (is_chosen self.old) (bytes_on self.old name.now) }
        ensures calls { (calls_of self.new ≡ one_more (calls_of self.old)) × (chosen_of self.new ≡ chosen_of self.old) }
    {
        let call = self.calls;
        let fails = self.fails.as_slice().contains(&call);
        self.calls = call.saturating_add(1);
        let alloc = *into.allocator();
        let Ok(kept) = String::from_str(alloc, name) else {
            return Err(ShelfFault::Memory);
        };
        if fails {
            self.count_failure(kept);
            return Err(ShelfFault::Failed);
        }
        match self.find(name) {
            Some(file) => add_front(into, file.1.as_slice(), limit),
            None => {
                self.count_failure(kept);
                Err(ShelfFault::Failed)
            }
        }
    }
}

// Appends the first bytes, at most `limit`.
fn add_front(into: &mut Vec<u8>, bytes: &[u8], limit: u64) -> Result<(), ShelfFault>
    ensures ok { OnOk result (into.new.items ≡ into.old.items ++ take limit bytes.now) }
    ensures few { OnOk result (GrewBy limit into.old.items into.new.items) }
    ensures err { OnErr result (into.new.items ≡ into.old.items) }
    ensures memory { IfErr result (λ e. e ≡ ShelfFault.Memory) }
{
    let count = bytes.len().min(limit as usize);
    match into.extend_from_slice(&bytes[..count]) {
        Ok(()) => Ok(()),
        Err(_) => Err(ShelfFault::Memory),
    }
}
