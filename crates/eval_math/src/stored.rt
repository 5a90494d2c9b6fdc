//! Stored integers of constants in a type.

ghost use Rattle.std.specs.Prelude.{◌≡◌, All, IfOk, IfSome, length, map, option_map, vec_len};
ghost use Rattle.num_type.specs.Types.{IsInRange};
ghost use Rattle.num_type.specs.View.{exact_of, type_of};
ghost use Rattle.const_rules.specs.Stored.{stored_in};
ghost use Rattle.fi_rules.specs.Options.{all_of};

use num_type::{Dyadic, Int, Memory, NumType};
use std::alloc::Global;

/// The stored integers of constants in a type. None where one isn't exact there, or out of the range; want of memory is the only refusal.
pub fn stored_all(
    alloc: Global,
    t: NumType,
    constants: &[Dyadic],
) -> Result<Option<Vec<Int>>, Memory>
    ensures value { IfOk result (λ r. option_map (λ v. v.items) r ≡ all_of (map (λ c. stored_in (type_of t) (exact_of c)) constants.now)) }
    ensures many { IfOk result (λ r. IfSome r (λ v. vec_len v ≡ length constants.now)) }
    ensures inside { IfOk result (λ r. IfSome r (λ v. All (IsInRange (type_of t)) v.items)) }
{
    let mut out = Vec::new(alloc);
    for c in constants {
        match stored(t, *c) {
            None => return Ok(None),
            Some(z) => out.push(z)?,
        }
    }
    Ok(Some(out))
}

/// The stored integer of a constant in a type. None where the constant isn't exact there, or out of the range.
pub fn stored(t: NumType, c: Dyadic) -> Option<Int>
    ensures value { result ≡ stored_in (type_of t) (exact_of c) }
    ensures inside { IfSome result (IsInRange (type_of t)) }
{
    fi_rules::stored(t, t.fraction(), c)
}
