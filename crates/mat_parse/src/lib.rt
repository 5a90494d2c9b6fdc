//! The parser: the tree of a source, or its first token that no file goes on with.
#![tactic(auto)]

mod advance;
mod least;
mod names;
mod parser;

pub use parser::{one_parse, parse, parse_list};
