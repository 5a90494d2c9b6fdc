//! Arithmetic of arrays of every class: sums, differences and products element by element, matrix products, sums along a dimension, and
//! comparisons.
#![tactic(auto)]

mod accumulation;
mod beside;
mod cells;
mod comparison;
mod comparisons;
mod complex_numbers;
mod complex_products;
mod elements;
mod elementwise;
mod fi_comparisons;
mod fi_products;
mod folds;
mod frame;
mod logical_comparisons;
mod number_comparisons;
mod number_products;
mod numbers;
mod operand;
mod operation;
mod orders;
mod places;
mod products;
mod shapes;
mod stored;
mod sums;
mod task;
mod totals;
mod values;

pub use comparisons::compared;
pub use products::multiplied;
pub use sums::{Along, first_along, summed};
pub use values::arithmetic;
