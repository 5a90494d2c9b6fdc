//! Types and lowers functions of scalar assignments.
#![tactic(auto)]

mod arguments;
mod calls;
mod emitted;
mod entry;
mod file;
mod leaves;
mod operand;
mod operations;
mod results;
mod statements;
mod turns;
mod variables;
mod walk;

pub use entry::lower_function;
pub use file::lower_file;
