//! Sinks of bytes.

ghost use Rattle.std.specs.Prelude.{◌≤◌, ℕ, List, Option, length};
ghost use Rattle.fic_io.specs.Causes.{PutLeaves};

/// A put failed, and the sink counted it.
#[derive(Clone, Copy, Debug, PartialEq, Eq)]
pub struct Failed;

/// A sink of bytes.
pub trait Sink {
    /// The bytes taken so far, where the sink tells them.
    ghost taken: { Self → Option (List ℕ) };

    /// How often it has failed: a count that stays at `2^64 - 1` once it is there.
    ghost faults: { Self → ℕ };

    /// Takes some bytes from the front, at least one, and answers how many. It takes no memory.
    ///
    /// `Failed` comes only where the count of faults rose by one in this call, and then no byte was taken.
    fn put(&mut self, bytes: &[u8]) -> Result<usize, Failed>
        requires { 1 ≤ length bytes.now }
        ensures { PutLeaves result bytes.now (faults self.old) (faults self.new) (taken self.old) (taken self.new) };
}
