//! Trees of C programs: what they are, when they are well formed, what they mean, and their texts.
#![tactic(auto)]

mod amounts;
mod array_names;
mod interface;
mod laws;
mod make;
mod names;
mod program;
mod size;
mod tree;

pub use array_names::{Array, Arrays};
pub use interface::{CKind, CSlot, Interface};
pub use laws::{
    depth_is_the_greatest, layout_is_a_text, tokens_are_counted, undefined_at_a_token,
    worked_program,
};
pub use make::{
    binary, cast, choice, compare, counted, element, for_each, give_back, go_on, if_else, if_only,
    leave, negation, set, signed, store, truth, unsigned, variable, while_holds,
};
pub use names::container_text;
pub use program::CProgram;
pub use size::{block_tokens, expr_tokens, stmt_tokens, test_tokens};
pub use tree::{
    CArray, CExpr, COp, CPart, CRel, CStmt, CTest, CTree, CWord, Counter, CounterKind, LocalArray,
};
