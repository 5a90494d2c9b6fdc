//! The trees of source files.
#![tactic(auto)]

mod depth;
mod file;
mod make;
mod tree;

pub use depth::is_within;
pub use file::{DEPTH_MAX, File};
pub use make::{
    apply, assign, binary, break_off, end, for_each, go_on, if_arms, if_else, if_only, matrix,
    multi, name, number, one_row, paren, post, range, range_by, store, unary, while_true, words,
};
pub use tree::{Arg, Arm, BinOp, Expr, ExprKind, Func, Ident, PostOp, Row, Stmt, UnOp};
