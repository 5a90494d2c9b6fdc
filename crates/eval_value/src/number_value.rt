//! Constants.

ghost use Rattle.std.specs.Prelude.{◌≡◌, vec_len};
ghost use Rattle.std.specs.Option.{ForSome};
ghost use Rattle.shape_rules.specs.Shapes.{elements_of};

use num_type::{Dyadic, Memory};
use shape_rules::Shape;
use std::alloc::Global;

/// Constants by columns: exact numbers, or their real and imaginary parts where they are complex. Each list is as long as the shape says.
#[derive(Drop)]
pub struct NumberValue {
    /// Rows and columns.
    pub shape: Shape,
    /// The real parts.
    pub re: Vec<Dyadic>,
    /// The imaginary parts, where it is complex.
    pub im: Option<Vec<Dyadic>>,
    ghost real: { vec_len re ≡ elements_of shape },
    ghost imaginary: { ForSome im (λ parts. vec_len parts ≡ elements_of shape) },
}

impl NumberValue {
    ghost use Rattle.std.specs.Prelude.{◌≡◌, IfOk};
    ghost use Rattle.eval_value.specs.View.{number_view};

    /// A copy. Want of memory is its only refusal.
    pub fn copied(&self, alloc: Global) -> Result<NumberValue, Memory>
        ensures { IfOk result (λ v. number_view v ≡ number_view self.now) }
    {
        let re = Vec::from_slice(alloc, self.re.as_slice())?;
        match &self.im {
            None => Ok(NumberValue {
                shape: self.shape,
                re,
                im: None,
            }),
            Some(parts) => {
                let im = Vec::from_slice(alloc, parts.as_slice())?;
                Ok(NumberValue {
                    shape: self.shape,
                    re,
                    im: Some(im),
                })
            }
        }
    }
}
