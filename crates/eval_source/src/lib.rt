//! Evaluation of sources: a plain program that does what the definitions of a source's meaning say.
#![tactic(auto)]

mod arguments;
mod assignments;
mod caller;
mod expressions;
mod flow;
mod functions;
mod heads;
mod leaves;
mod levels;
mod outcome;
mod parts;
mod scope;
mod statements;
mod variables;

pub use levels::evaluate;
pub use outcome::Outcome;
