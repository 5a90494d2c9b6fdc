//! The moves of the parser of a C function in expressions and statements: what was read, with one more word.
#![tactic(auto)]

pub mod behind;
pub mod operand;
pub mod paren;
pub mod statement;
