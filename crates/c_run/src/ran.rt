//! What a run ends with.

/// How a run ends: with a status, past the bound of a loop, or at an operation that is undefined, by the number of its token. The tokens
/// of the function count from 0.
#[derive(Clone, Copy, Debug, PartialEq, Eq)]
pub enum Ran {
    Ended(i32),
    Over,
    Undefined(u64),
}
