//! What a program takes and gives.

use fic_base::Text;
use num_type::NumType;
use shape_rules::Shape;
use sqlite_items::Items;

/// What the elements of a slot are.
#[derive(Clone, Copy, Debug, PartialEq, Eq)]
pub enum CKind {
    /// Stored integers of this type, complex or not.
    Fi { num: NumType, complex: bool },
    /// Truth values.
    Logical,
}

/// An input or an output: its name, what its elements are, and its shape.
#[derive(Drop)]
pub struct CSlot {
    pub name: Text,
    pub kind: CKind,
    pub shape: Shape,
}

/// The entry's name, and the inputs and outputs in order.
#[derive(Drop)]
pub struct Interface {
    pub entry: Text,
    pub inputs: Items<CSlot>,
    pub outputs: Items<CSlot>,
}
