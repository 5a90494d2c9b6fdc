//! The moves of the parser in expressions and statements: what was read, with one more token.
#![tactic(auto)]

pub mod blocks;
pub mod bracket;
pub mod expression;
pub mod operator;
pub mod paren;
pub mod statement;
