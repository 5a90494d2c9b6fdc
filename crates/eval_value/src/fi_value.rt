//! Fixed-point arrays.

ghost use Rattle.std.specs.Prelude.{◌≡◌, All, vec_len};
ghost use Rattle.std.specs.Option.{ForSome};
ghost use Rattle.num_type.specs.Types.{IsInRange};
ghost use Rattle.num_type.specs.View.{type_of};
ghost use Rattle.shape_rules.specs.Shapes.{elements_of};

use fi_math::Fimath;
use fi_ops::Elem;
use num_type::{Int, Memory, NumType};
use shape_rules::Shape;
use std::alloc::Global;

/// A fi by columns: stored integers of a type, or those of real and imaginary parts where it is complex. Each list is as long as the shape
/// says, and each integer is in the type's range.
#[derive(Drop)]
pub struct FiValue {
    /// The type (numerictype).
    pub num: NumType,
    /// The attached fimath.
    pub math: Option<Fimath>,
    /// Rows and columns.
    pub shape: Shape,
    /// The stored integers of the real parts.
    pub re: Vec<Int>,
    /// Those of the imaginary parts, where it is complex.
    pub im: Option<Vec<Int>>,
    ghost real: { vec_len re ≡ elements_of shape },
    ghost imaginary: { ForSome im (λ parts. vec_len parts ≡ elements_of shape) },
    ghost real_in_range: { All (IsInRange (type_of num)) re.items },
    ghost imaginary_in_range: { ForSome im (λ parts. All (IsInRange (type_of num)) parts.items) },
}

impl FiValue {
    ghost use Rattle.std.specs.Prelude.{◌≡◌, ◌<◌, IfOk, get_or, pos};
    ghost use Rattle.fi_ops.specs.View.{element_of};
    ghost use Rattle.shape_rules.specs.Shapes.{elements_of};
    ghost use Rattle.num_type.specs.View.{type_of};
    ghost use Rattle.eval_value.specs.View.{fi_view};

    /// The real part of the element at a place, counted from 0 by columns.
    pub fn element(&self, place: u32) -> Elem
        requires { place < elements_of self.now.shape }
        ensures { element_of result ≡ record { num = type_of self.now.num; z = get_or self.now.re.items place (pos 0) } }
    {
        Elem {
            num: self.num,
            z: self.re[place as usize],
        }
    }

    /// A copy. Want of memory is its only refusal.
    pub fn copied(&self, alloc: Global) -> Result<FiValue, Memory>
        ensures { IfOk result (λ v. fi_view v ≡ fi_view self.now) }
    {
        let re = Vec::from_slice(alloc, self.re.as_slice())?;
        match &self.im {
            None => Ok(FiValue {
                num: self.num,
                math: self.math,
                shape: self.shape,
                re,
                im: None,
            }),
            Some(parts) => {
                let im = Vec::from_slice(alloc, parts.as_slice())?;
                Ok(FiValue {
                    num: self.num,
                    math: self.math,
                    shape: self.shape,
                    re,
                    im: Some(im),
                })
            }
        }
    }
}
