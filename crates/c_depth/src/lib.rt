//! How deep the words of a C function are.
#![tactic(auto)]

mod deep;
mod laws;
mod level;

pub use deep::first_deep;
pub use laws::{depth_by_words, depths_by_words};
