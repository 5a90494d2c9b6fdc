//! The programs of functions of scalar assignments: what their expressions and statements are lowered to, as relations, and the law that such
//! a program does what its source does.
#![tactic(auto)]

mod laws;

pub use laws::programs_are_right;
