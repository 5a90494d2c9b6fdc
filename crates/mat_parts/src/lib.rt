//! What a parser holds: parts of trees with their depths, what was read, and the stack of what waits.
#![tactic(auto)]

pub mod body;
pub mod name_list;
pub mod part;
pub mod pending;
pub mod rank;
pub mod stack;
