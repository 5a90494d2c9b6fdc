//! Negation and the absolute value of elements.

ghost use Rattle.std.specs.Prelude.{◌≡◌};
ghost use Rattle.num_type.specs.Types.{IsInRange};
ghost use Rattle.num_type.specs.View.{type_of};
ghost use Rattle.fi_ops.specs.Operations.{negated, absolute};
ghost use Rattle.fi_ops.specs.View.{element_of};

use crate::elem::Elem;
use crate::whole::opposite;
use fi_math::Fimath;
use fi_quant::fit;
use num_type::Int;

/// The element `-a`, of the type of `a`. The overflow action applies where the negated number is out of range.
pub fn neg(m: &Fimath, a: Elem) -> Elem
    ensures num { result.num ≡ a.num }
    ensures value { result.z ≡ negated m.now (element_of a) }
    ensures inside { IsInRange (type_of a.num) result.z }
{
    Elem {
        num: a.num,
        z: fit(m.overflow, a.num, opposite(a.z)),
    }
}

/// The element `abs(a)`, of the type of `a`. The overflow action applies where the number without its sign is out of range.
pub fn abs(m: &Fimath, a: Elem) -> Elem
    ensures num { result.num ≡ a.num }
    ensures value { result.z ≡ absolute m.now (element_of a) }
    ensures inside { IsInRange (type_of a.num) result.z }
{
    Elem {
        num: a.num,
        z: fit(m.overflow, a.num, Int::of(false, a.z.magnitude())),
    }
}
