//! What the operators between two constants make of them: sums, differences, products, matrix products and powers, exactly.
#![tactic(auto)]

mod binary;
mod laws;
mod matrix;
mod power;
mod refusals;

pub use binary::fold_binary;
pub use laws::refused_operators_make_nothing;
