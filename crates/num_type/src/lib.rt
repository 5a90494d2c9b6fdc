//! Whole numbers, fixed-point types and want of memory.
#![tactic(auto)]

mod bits;
mod container;
mod decimal;
mod dyadic;
mod int;
mod laws;
mod memory;
mod methods;
mod num_type;
mod order;
mod precision;

pub use container::Container;
pub use decimal::{read_decimal, read_digits, write_decimal};
pub use dyadic::Dyadic;
pub use int::Int;
pub use laws::a_constant_has_one_form;
pub use memory::{Memory, Stop};
pub use methods::{Overflow, Rounding};
pub use num_type::{FRACTION_MAX, FRACTION_MIN, NumType, WORD_MAX};
pub use precision::best_fraction;

#[cfg(test)]
mod tests;
