//! An input array of an interface.

ghost use Rattle.std.specs.Prelude.{◌≤ℤ◌, ◌^◌, neg_ℤ, pos};

use num_type::Int;

/// An input array: how many elements it has, and the least and the greatest number that one may be.
#[derive(Clone, Copy, Drop)]
pub struct Range {
    /// How many elements there are.
    pub count: u32,
    /// The least number that one may be.
    pub least: Int,
    /// The greatest one.
    pub most: Int,
    ghost wide: { (neg_ℤ (pos (2 ^ 64)) ≤ℤ least) × (most ≤ℤ pos (2 ^ 64)) },
}
