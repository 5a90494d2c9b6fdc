//! Values of evaluation: fixed-point arrays, logical ones, constants, texts and objects.
#![tactic(auto)]

mod elements;
mod fi_value;
mod halt;
mod logical_value;
mod number_value;
mod single;
mod value;

pub use elements::picked;
pub use fi_value::FiValue;
pub use halt::{Halt, or_wrong};
pub use logical_value::LogicalValue;
pub use number_value::NumberValue;
pub use single::{make_imaginary, make_number, make_truth, make_whole, whole_number};
pub use value::Value;
