//! Rounding and overflow of fixed-point numbers.
#![tactic(auto)]

mod fitting;
mod laws;
mod rounding;

pub use fitting::{fit, fit_sum, gap, quantise};
pub use laws::{each_fits_once, each_quantises_once, each_rounds_once};
pub use rounding::round;
