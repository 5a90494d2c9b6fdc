//! Values.

ghost use Rattle.std.specs.Prelude.{◌≡◌, IfOk};
ghost use Rattle.fi_values.specs.Reads.{shape_of};
ghost use Rattle.eval_value.specs.View.{shape_view, value_view};

use crate::fi_value::FiValue;
use crate::logical_value::LogicalValue;
use crate::number_value::NumberValue;
use fi_math::Fimath;
use fic_base::Text;
use num_type::{Memory, NumType};
use shape_rules::Shape;
use std::alloc::Global;

/// A value of an expression. It carries its own type.
#[derive(Drop)]
pub enum Value {
    /// A fixed-point array.
    Fi(FiValue),
    /// A logical array.
    Logical(LogicalValue),
    /// Constants.
    Number(NumberValue),
    /// A text.
    Words(Text),
    /// A fimath object.
    Math(Fimath),
    /// A numerictype object.
    Type(NumType),
}

impl Value {
    /// The shape; a text or an object has one element.
    pub fn shape(&self) -> Shape
        ensures { shape_view result ≡ shape_of (value_view self.now) }
    {
        match self {
            Value::Fi(v) => v.shape,
            Value::Logical(v) => v.shape,
            Value::Number(v) => v.shape,
            Value::Words(_) => Shape::scalar(),
            Value::Math(_) => Shape::scalar(),
            Value::Type(_) => Shape::scalar(),
        }
    }

    /// A copy. Want of memory is its only refusal.
    pub fn copied(&self, alloc: Global) -> Result<Value, Memory>
        ensures { IfOk result (λ v. value_view v ≡ value_view self.now) }
    {
        match self {
            Value::Fi(v) => {
                let c = v.copied(alloc)?;
                Ok(Value::Fi(c))
            }
            Value::Logical(v) => {
                let c = v.copied(alloc)?;
                Ok(Value::Logical(c))
            }
            Value::Number(v) => {
                let c = v.copied(alloc)?;
                Ok(Value::Number(c))
            }
            Value::Words(text) => {
                let c = Text::from_bytes(alloc, text.as_bytes())?;
                Ok(Value::Words(c))
            }
            Value::Math(m) => Ok(Value::Math(*m)),
            Value::Type(t) => Ok(Value::Type(*t)),
        }
    }
}
