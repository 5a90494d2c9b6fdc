//! The types of nodes.

use const_eval::Const;
use fi_math::Fimath;
use fic_base::Text;
use num_type::NumType;
use shape_rules::Shape;

/// The type of a fixed-point array.
#[derive(Clone, Copy)]
pub struct FiTy {
    /// The type of an element.
    pub num: NumType,
    /// The attached fimath, where there is one.
    pub math: Option<Fimath>,
    /// Whether it has imaginary parts.
    pub complex: bool,
    /// The shape.
    pub shape: Shape,
}

/// The type of a node: of what is computed at run time, and of what is known without a run.
#[derive(Drop)]
pub enum Ty {
    /// A fixed-point array.
    Fi(FiTy),
    /// A logical array.
    Logical(Shape),
    /// Constants.
    Number(Const),
    /// A loop index, a whole number between two bounds, both included.
    Index {
        /// The least.
        lo: i64,
        /// The greatest.
        hi: i64,
    },
    /// A text.
    Words(Text),
    /// A fimath object.
    Math(Fimath),
    /// A numerictype object.
    Numeric(NumType),
}
