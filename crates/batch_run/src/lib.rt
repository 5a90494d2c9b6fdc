//! Programs run on cases.
#![tactic(auto)]

mod case;
mod run;

pub use run::run_all;
