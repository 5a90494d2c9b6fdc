//! The text of a program.
#![tactic(auto)]

mod exprs;
mod interface;
mod pieces;
mod program;
mod stmts;

pub use program::{write_c, write_tree};
