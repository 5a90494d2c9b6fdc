//! The refusal of too many elements.

ghost use Rattle.std.specs.Prelude.{decimal};
ghost use Rattle.fic_base.specs.declared.code.Code.TheVariants.{Limit};
ghost use Rattle.const_eval.specs.Refusals.{RefusesOnly, IsRefusal};
ghost use Rattle.shape_rules.specs.Shapes.{element_limit};

use const_eval::refused;
use fic_base::{Code, Place, Refusal};
use num_type::Stop;
use shape_rules::ELEMENTS_MAX;
use std::alloc::Global;

/// The refusal of more elements than an array may have, with their limit.
pub fn too_many(alloc: Global, at: Place) -> Stop<Refusal>
    ensures { RefusesOnly result (λ r. IsRefusal Limit at (decimal element_limit) r) }
{
    match ELEMENTS_MAX.to_string(alloc) {
        Ok(shown) => refused(alloc, Code::Limit, shown.as_bytes(), at),
        Err(_) => Stop::Memory,
    }
}
