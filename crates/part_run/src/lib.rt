//! Parts of C put into whole programs, and run.
#![tactic(auto)]

mod program;
mod run;

pub use run::run_part;
