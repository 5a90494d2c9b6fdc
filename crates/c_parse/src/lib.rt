//! The parser of the function of a C text, over words.
#![tactic(auto)]

mod advance;
mod bad;
mod header;
mod parser;

pub use bad::BadWord;
pub use parser::parse;
