//! The command line of the compiler: words, files, statuses.
#![tactic(auto)]

mod call;
mod command;
mod lines;
mod put;
mod results;
mod source;
mod words;

pub use call::top;
