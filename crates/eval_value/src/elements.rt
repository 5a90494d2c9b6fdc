//! Lists of elements.

ghost use Rattle.std.specs.Prelude.{◌≡◌, IfOk};
ghost use Rattle.fi_values.specs.Elements as elements;

use num_type::Memory;
use std::alloc::Global;

/// The elements at these places, counted from 0; d where there is none. Want of memory is the only refusal.
pub fn picked<T: Copy>(alloc: Global, d: T, all: &[T], places: &[u32]) -> Result<Vec<T>, Memory>
    ensures { IfOk result (λ v. v.items ≡ elements.picked d all.now places.now) }
{
    let mut out = Vec::new(alloc);
    for k in places {
        let x = match all.get(*k as usize) {
            None => d,
            Some(x) => *x,
        };
        out.push(x)?;
    }
    Ok(out)
}
