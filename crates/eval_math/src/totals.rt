//! Sums of many elements.

ghost use Rattle.std.specs.Prelude.{◌≡◌, All, IfOk, pos};
ghost use Rattle.num_type.specs.Types.{IsInRange};
ghost use Rattle.num_type.specs.View.{type_of};
ghost use Rattle.fi_math.specs.Made.{Is};
ghost use Rattle.fi_math.specs.Rules.{stepped};
ghost use Rattle.fi_values.specs.Elements as elements;
ghost use Rattle.fi_values.specs.Sums as sums;

use eval_value::picked;
use fi_math::Fimath;
use fi_ops::{Elem, accumulate};
use num_type::{Int, Memory, NumType};
use std::alloc::Global;

/// The sum, in the sum type `t`, of the stored integers of the type `a` at these places, in their order. Want of memory is the only refusal.
pub fn total_at(
    alloc: Global,
    m: &Fimath,
    t: NumType,
    a: NumType,
    xs: &[Int],
    places: &[u32],
) -> Result<Int, Memory>
    requires step { stepped m.now (type_of a) (type_of t) ≡ Is (type_of t) }
    requires inside { All (IsInRange (type_of a)) xs.now }
    ensures value { IfOk result (λ z. z ≡ sums.sum_of m.now (type_of t) (type_of a) (elements.picked (pos 0) xs.now places.now)) }
    ensures inside { IfOk result (λ z. IsInRange (type_of t) z) }
{
    let addends = picked(alloc, Int::of(false, 0), xs, places)?;
    Ok(total(m, t, a, addends.as_slice()))
}

/// The sum, in the sum type `t`, of stored integers of the type `a`, in their order.
pub fn total(m: &Fimath, t: NumType, a: NumType, xs: &[Int]) -> Int
    requires step { stepped m.now (type_of a) (type_of t) ≡ Is (type_of t) }
    requires inside { All (IsInRange (type_of a)) xs.now }
    ensures value { result ≡ sums.sum_of m.now (type_of t) (type_of a) xs.now }
    ensures inside { IsInRange (type_of t) result }
{
    let mut sum = Int::of(false, 0);
    for x in xs {
        let so_far = Elem { num: t, z: sum };
        sum = accumulate(m, t, so_far, Elem { num: a, z: *x }).z;
    }
    sum
}
