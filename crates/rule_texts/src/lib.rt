//! Texts that refusals show: types, fimaths and numbers.
#![tactic(auto)]

mod digits;
mod maths;
mod shown;
mod types;
mod whole;

pub use maths::put_math;
pub use shown::put_shown;
pub use types::put_type;
pub use whole::put_whole;
