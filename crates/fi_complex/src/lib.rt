//! Complex elements beside real ones, and sums of many elements.
#![tactic(auto)]

mod laws;
mod parts;
mod products;
mod sums;

pub use laws::{full_accumulations_are_exact, sum_types_have_steps};
pub use parts::{as_complex, complex, imaginary_part, real_part};
pub use products::{mul_by_real, mul_real};
pub use sums::caccumulate;
