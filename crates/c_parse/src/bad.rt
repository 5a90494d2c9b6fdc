//! Where a list of words is refused.

/// A refused list of words: how many words stand before the first one with which no program goes on; all of them, where only more are missing.
#[derive(Clone, Copy, Debug, PartialEq, Eq)]
pub struct BadWord {
    pub at: usize,
}
