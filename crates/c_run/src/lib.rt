//! The exact machine of C programs.
#![tactic(auto)]

mod answer;
mod containers;
mod count;
mod exprs;
mod flow;
mod frame;
mod machine;
mod ran;
mod runs;
mod setup;
mod steps;
mod store;
mod stores;
mod tallies;
mod tally;
mod word;

pub use machine::Machine;
pub use ran::Ran;
