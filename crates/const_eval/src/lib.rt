//! Constants of sources: the numbers of literals, arrays of them, complex or real, and what operators make of them.
#![tactic(auto)]

mod complex;
mod constant;
mod digits;
mod element_op;
mod exponent;
mod literals;
mod refusals;
mod run;
mod tenfold;
mod unary;
mod whole_power;

pub use complex::Complex;
pub use constant::Const;
pub use element_op::{ElementOp, elementwise};
pub use exponent::whole_exponent;
pub use literals::literal;
pub use refusals::{mismatch, refused};
pub use unary::fold_unary;
pub use whole_power::power;
