//! Operations on the elements of one or two values: bits, truth values, signs, powers, and what is taken into a type.
#![tactic(auto)]

mod bits;
mod change;
mod concatenation;
mod joint;
mod logicals;
mod pair;
mod powers;
mod real;
mod signs;
mod taking;
mod truths;

pub use bits::{bits_between, bitwise, complemented_bits, shifted};
pub use change::Shift;
pub use concatenation::concatenated;
pub use joint::Bitwise;
pub use logicals::{both, complement, either};
pub use powers::power;
pub use real::real_constant;
pub use signs::{absolute, minus, signed};
pub use taking::{attached, taken_value, truth_number};
pub use truths::{scalar_truth, truth};
