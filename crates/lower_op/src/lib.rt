//! C expressions that compute the operations of an element exactly and reach nothing undefined.
#![tactic(auto)]

mod addition;
mod args;
mod argument;
mod casts;
mod compared;
mod comparisons;
mod copies;
mod ends;
mod operations;
mod products;
mod relations;
mod signs;
mod sums;
mod types;

pub use addition::{add, subtract};
pub use args::lower_op;
pub use argument::CArg;
pub use comparisons::compare;
pub use copies::{copy_expr, copy_test};
pub use operations::{lower_comparison, lower_equality, lower_one, lower_two};
pub use products::multiply;
pub use signs::{negate, take_sign};
