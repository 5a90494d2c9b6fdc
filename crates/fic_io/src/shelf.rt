//! Shelves of named bytes.

ghost use Rattle.std.specs.Prelude.{◌≡◌, ℕ, List, Option};
ghost use Rattle.fic_io.specs.Causes.{ReadLeaves};

/// Why nothing was read.
#[derive(Clone, Copy, Debug, PartialEq, Eq)]
pub enum ShelfFault {
    /// The shelf failed, and counted it.
    Failed,
    /// Memory is wanting.
    Memory,
}

/// A shelf of named bytes. No call changes the bytes.
pub trait Shelf {
    /// The bytes under a name, where the shelf tells them.
    ghost told: { Self → List ℕ → Option (List ℕ) };

    /// How often it has failed: a count that stays at `2^64 - 1` once it is there.
    ghost faults: { Self → ℕ };

    /// The name of its last failure, at first the empty one.
    ghost last: { Self → List ℕ };

    /// Appends to `into` the first `limit` bytes under a name, or all if there are fewer.
    ///
    /// On Ok `into` has what stood there and at most `limit` bytes behind it: the first ones under the name, where the shelf tells them. `Failed`
    /// comes only where the count of faults rose by one in this call, and the last failure is then this name; no other answer
    /// changes the count or that name. On `Failed` and on `Memory` `into` is as before.
    fn read(&mut self, name: &str, limit: u64, into: &mut Vec<u8>) -> Result<(), ShelfFault>
        ensures leaves { ReadLeaves result name.now (faults self.old) (faults self.new) (told self.old name.now)
            (last self.old) (last self.new) into.old.items into.new.items limit }
        ensures told { told self.new ≡ told self.old };
}
