//! What the parser of a C function holds: what was read, and the stack of what is open.
#![tactic(auto)]

pub mod pending;
pub mod stack;
