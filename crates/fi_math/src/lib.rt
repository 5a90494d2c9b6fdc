//! Fimaths, and the types of products and sums under them.
#![tactic(auto)]

mod fimath;
mod governing;
mod laws;
mod types;

pub use fimath::{Fimath, Mode};
pub use governing::{Differ, Governed, govern};
pub use laws::{logarithm_is_least, same_is_equal, sum_holds_both};
pub use types::{
    NoType, PRODUCT_WORD_MAX, add_type, aligned, complex_product_type, product_type, sub_type,
    sum_type,
};
