//! The typed trees of functions: what a source is once each expression has its type, each call its function and each loop its items.
#![tactic(auto)]

mod make;
mod tree;
mod ty;

pub use make::{
    arm, assign, binary, break_off, builtin, call, end, for_each, function, go_on, if_else,
    if_only, matrix, multi, number, paren, post, range, range_by, read, row, select, store, unary,
    while_true, words,
};
pub use tree::{FnTree, Slot, TArg, TArm, TCall, TExpr, TKind, TRow, TStmt};
pub use ty::{FiTy, Ty};
