//! The statements of a program with shapes known and expressions taken apart. So far: the operations of an element.
#![tactic(auto)]

mod op;

pub use op::{FlatOp, Op};
