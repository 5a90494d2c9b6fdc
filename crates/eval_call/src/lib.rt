//! Operators and calls of built-in functions on values.
#![tactic(auto)]

mod argument;
mod call;
mod casts;
mod filling;
mod function;
mod given;
mod naturals;
mod operators;
mod rules;
mod settled;
mod types;
mod values;
mod widest;

pub use argument::Argument;
pub use call::call_built_in;
pub use operators::{operate, signed};
