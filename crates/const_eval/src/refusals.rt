//! The refusals of constants.

ghost use Rattle.std.specs.Prelude.{◌≡◌, IfOk};
ghost use Rattle.fic_base.specs.declared.code.Code.TheVariants.{LiteralInexact, SizeMismatch};
ghost use Rattle.const_eval.specs.Elementwise.{shapes_text};
ghost use Rattle.const_eval.specs.Refusals.{RefusesOnly, IsRefusal};

use fic_base::{Code, Place, Refusal, Text};
use num_type::{Memory, Stop};
use shape_rules::{Shape, write_shape};
use std::alloc::Global;

/// The refusal with this code at a place, with a copy of the shown text.
pub fn refused(alloc: Global, code: Code, shown: &[u8], at: Place) -> Stop<Refusal>
    ensures { RefusesOnly result (λ r. IsRefusal code at shown.now r) }
{
    match Text::from_bytes(alloc, shown) {
        Ok(shown) => Stop::Refused(Refusal {
            code,
            place: at,
            shown,
        }),
        Err(_) => Stop::Memory,
    }
}

/// The refusal of a literal or a result that is no constant, with the literal or the operator as shown.
pub fn inexact(alloc: Global, shown: &[u8], at: Place) -> Stop<Refusal>
    ensures { RefusesOnly result (λ r. IsRefusal LiteralInexact at shown.now r) }
{
    refused(alloc, Code::LiteralInexact, shown, at)
}

/// The refusal of two shapes that don't fit, with both.
pub fn mismatch(alloc: Global, a: Shape, b: Shape, at: Place) -> Stop<Refusal>
    ensures { RefusesOnly result (λ r. IsRefusal SizeMismatch at (shapes_text a b) r) }
{
    match both_shapes(alloc, a, b) {
        Ok(shown) => Stop::Refused(Refusal {
            code: Code::SizeMismatch,
            place: at,
            shown: Text::from_vec(shown),
        }),
        Err(_) => Stop::Memory,
    }
}

// Two shapes, as `1x2 with 1x3`. Want of memory is its only refusal.
fn both_shapes(alloc: Global, a: Shape, b: Shape) -> Result<Vec<u8>, Memory>
    ensures { IfOk result (λ v. v.items ≡ shapes_text a b) }
{
    let mut text = Vec::new(alloc);
    write_shape(a, &mut text)?;
    text.extend_from_slice(b" with ")?;
    write_shape(b, &mut text)?;
    Ok(text)
}
