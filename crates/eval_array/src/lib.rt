//! Arrays of every class as values: subscripted reads and stores, ranges, brackets, transposes, and queries of shape.
#![tactic(auto)]

mod brackets;
mod chosen;
mod items;
mod join;
mod lists;
mod numbers;
mod parts;
mod places;
mod queries;
mod ranges;
mod reads;
mod rearranged;
mod select;
mod selection;
mod shapes;
mod stores;
mod subscripts;
mod taken;
mod transposes;

pub use brackets::bracket;
pub use items::Items;
pub use queries::{
    complex_of, element_count, extent_along, filled, greater_extent, imaginary_part, real_part,
};
pub use ranges::{items_between, ranged};
pub use reads::read;
pub use shapes::extent;
pub use stores::store;
pub use transposes::{conjugate, transposed};
