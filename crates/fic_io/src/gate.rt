//! Gates of parallel runs.

/// A call that each leaf of a parallel run makes before its first case. It changes nothing that is known and takes no memory.
pub trait Gate: Sync {
    /// Lets the leaf pass whose first case has this number.
    fn pass(&self, leaf: u64);
}

/// A gate that does nothing.
#[derive(Clone, Copy, Debug)]
pub struct Open {}

impl Gate for Open {
    fn pass(&self, _leaf: u64) {}
}
