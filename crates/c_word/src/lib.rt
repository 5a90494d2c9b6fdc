//! The words of the tokens of a C text, beside the interface of its program.
#![tactic(auto)]

mod fixed;
mod numbered;
mod parameters;
mod table;
mod words;

pub use table::WordTable;
pub use words::{word_of, words_of};
