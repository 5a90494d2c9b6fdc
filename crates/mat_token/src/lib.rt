//! Tokens of source files.
#![tactic(auto)]

mod bytes;
mod laws;
mod list;
mod nesting;
mod pieces;
mod place;
mod rule;
mod scan;
mod separate;
mod token;

pub use laws::one_outcome;
pub use list::{TokenList, tokens};
pub use token::{Kind, Token};
