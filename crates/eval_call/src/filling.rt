//! Arrays of one number.

ghost use Rattle.std.specs.Prelude.{◌≡◌, ◌≤◌, [], ◌∷◌, IfOk, IfSome, map, option_map};
ghost use Rattle.num_type.specs.View.{exact_of};
ghost use Rattle.fi_meaning.specs.Functions as functions;
ghost use Rattle.eval_value.specs.View.{item_view, value_view};
ghost use Rattle.eval_call.specs.View.{capped};

use crate::naturals::natural;
use eval_array::filled;
use eval_value::Value;
use num_type::{Dyadic, Memory};
use std::alloc::Global;

/// An array of one number of stated rows and columns, square where one extent is given. None unless each extent is a whole number from 1 on, and of
/// more than 4,096 elements; want of memory is the only refusal.
#[tactic(auto, using(crate::proofs::Extents::square, crate::proofs::Extents::by_two, crate::proofs::Extents::by_others))]
pub fn filled_by(alloc: Global, number: Dyadic, values: &[Value]) -> Result<Option<Value>, Memory>
    ensures { IfOk result (λ r. item_view r ≡ functions.filled_by (exact_of number) (map value_view values.now)) }
{
    if values.len() == 1 {
        let r = filled_of(alloc, number, &values[0], &values[0])?;
        Ok(r)
    } else if values.len() == 2 {
        let r = filled_of(alloc, number, &values[0], &values[1])?;
        Ok(r)
    } else {
        Ok(None)
    }
}

// The same by both extents.
#[tactic(auto, using(crate::proofs::Extents::no_rows, crate::proofs::Extents::no_columns))]
fn filled_of(
    alloc: Global,
    number: Dyadic,
    rows: &Value,
    columns: &Value,
) -> Result<Option<Value>, Memory>
    ensures { IfOk result (λ r. item_view r ≡ functions.filled_by (exact_of number) (value_view rows.now ∷ value_view columns.now ∷ [])) }
{
    match extent(rows) {
        None => Ok(None),
        Some(r) => match extent(columns) {
            None => Ok(None),
            Some(k) => {
                let v = filled(alloc, number, r as u64, k as u64)?;
                Ok(v)
            }
        },
    }
}

// The natural number from 1 on that a value is, or 65536 where it is greater.
#[tactic(auto, using(crate::proofs::Extents::extent_none, crate::proofs::Extents::extent_zero))]
fn extent(value: &Value) -> Option<u32>
    ensures value { result ≡ option_map capped (functions.extent (value_view value.now)) }
    ensures least { IfSome result (λ n. 1 ≤ n) }
{
    match natural(value) {
        None => None,
        Some(n) => { if n > 0 { Some(n) } else { None } }
    }
}
