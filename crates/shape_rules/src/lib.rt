//! Shapes of arrays, places in them, ranges, and declared types.
#![tactic(auto)]

mod declared;
mod piece;
mod place;
mod range;
mod shape;
#[cfg(test)]
mod tests;
mod write;

pub use declared::{Declared, read_shape, read_type};
pub use piece::{read_u32, split};
pub use place::{linear, linear_one, same_or_scalar};
pub use range::range_items;
pub use shape::{ELEMENTS_MAX, Shape};
pub use write::{write_num, write_shape, write_type};
