//! What matrix products of fis are computed by.

use fi_math::Governed;
use num_type::NumType;

/// How the elements of a matrix product are computed.
#[derive(Clone, Copy)]
pub struct Accumulation {
    /// The governing fimath, and the one that is attached to the result.
    pub by: Governed,
    /// The type of the products.
    pub product: NumType,
    /// The type in which they are added up.
    pub sum: NumType,
}
