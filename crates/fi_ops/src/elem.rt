//! Elements of fixed-point arrays.

ghost use Rattle.num_type.specs.Types.{IsInRange};
ghost use Rattle.num_type.specs.View.{type_of};

use num_type::{Int, NumType};

/// A real element: a stored integer in the range of its type. It stands for `z * 2^(-fraction)`.
#[derive(Clone, Copy)]
pub struct Elem {
    /// The type (numerictype).
    pub num: NumType,
    /// The stored integer.
    pub z: Int,
    ghost in_range: { IsInRange (type_of num) z },
}
