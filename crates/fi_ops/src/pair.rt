//! Complex elements of fixed-point arrays.

ghost use Rattle.num_type.specs.Types.{IsInRange};
ghost use Rattle.num_type.specs.View.{type_of};

use num_type::{Int, NumType};

/// A complex element: the stored integers of its parts, both in the range of its type.
#[derive(Clone, Copy)]
pub struct Pair {
    /// The type (numerictype) of both parts.
    pub num: NumType,
    /// The stored integer of the real part.
    pub re: Int,
    /// The stored integer of the imaginary part.
    pub im: Int,
    ghost re_in_range: { IsInRange (type_of num) re },
    ghost im_in_range: { IsInRange (type_of num) im },
}
