//! Logical arrays.

ghost use Rattle.std.specs.Prelude.{◌≡◌, vec_len};
ghost use Rattle.shape_rules.specs.Shapes.{elements_of};

use num_type::Memory;
use shape_rules::Shape;
use std::alloc::Global;

/// A logical value by columns, with as many elements as the shape says.
#[derive(Drop)]
pub struct LogicalValue {
    /// Rows and columns.
    pub shape: Shape,
    /// The elements.
    pub truths: Vec<bool>,
    ghost elements: { vec_len truths ≡ elements_of shape },
}

impl LogicalValue {
    ghost use Rattle.std.specs.Prelude.{◌≡◌, IfOk};
    ghost use Rattle.eval_value.specs.View.{logical_view};

    /// A copy. Want of memory is its only refusal.
    pub fn copied(&self, alloc: Global) -> Result<LogicalValue, Memory>
        ensures { IfOk result (λ v. logical_view v ≡ logical_view self.now) }
    {
        let truths = Vec::from_slice(alloc, self.truths.as_slice())?;
        Ok(LogicalValue {
            shape: self.shape,
            truths,
        })
    }
}
