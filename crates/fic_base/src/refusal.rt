//! Refusals of sources.

use crate::code::Code;
use crate::place::Place;
use crate::text::Text;

/// Why and where a source is refused.
#[derive(Debug, Drop)]
pub struct Refusal {
    /// Which condition is missing.
    pub code: Code,
    /// The first place at which one is missing.
    pub place: Place,
    /// What the line about the refusal shows after the code.
    pub shown: Text,
}
