//! Why a C text is refused.

/// What of a C text is refused.
#[derive(Clone, Copy, Debug, PartialEq, Eq)]
pub enum CBad {
    /// The text doesn't begin with the line `#include <stdint.h>`.
    Include,
    /// No interface has its line behind it.
    Interface,
    /// A token or byte after which no program goes on.
    Token,
    /// A brace, parenthesis or square bracket that is deeper than a text may be.
    Limit,
}

/// The refusal of a C text: the offset in bytes, and what is refused.
#[derive(Clone, Copy, Debug, PartialEq, Eq)]
pub struct CRefusal {
    /// The offset in bytes from 0.
    pub offset: u64,
    /// What is refused.
    pub kind: CBad,
}
