//! What is computed of two operands.

use const_eval::ElementOp;
use fi_math::Governed;
use num_type::NumType;
use shape_rules::Shape;

/// An operation on two operands: what is computed, under which fimath, and the type and the shape of the result.
#[derive(Clone, Copy)]
pub struct Frame {
    /// What is computed.
    pub op: ElementOp,
    /// The governing fimath, and the one that is attached to the result.
    pub by: Governed,
    /// The type of the result.
    pub num: NumType,
    /// Its shape.
    pub shape: Shape,
}
