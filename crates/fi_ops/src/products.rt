//! Products of elements.

ghost use Rattle.std.specs.Prelude.{◌≡◌, ◌+ℤ◌};
ghost use Rattle.num_type.specs.Types.{IsInRange};
ghost use Rattle.num_type.specs.View.{type_of};
ghost use Rattle.fi_math.specs.Made.{Is};
ghost use Rattle.fi_math.specs.Rules.{product_made};
ghost use Rattle.fi_ops.specs.Operations.{multiplied, taken};
ghost use Rattle.fi_ops.specs.View.{element_of};

use crate::elem::Elem;
use crate::whole::times;
use fi_math::Fimath;
use fi_quant::quantise;
use num_type::{Int, NumType};

/// The product of two elements, as one of the type `t` that `product_type` gives: exact, then rounded and brought into range once.
pub fn mul(m: &Fimath, t: NumType, a: Elem, b: Elem) -> Elem
    requires { product_made m.now (type_of a.num) (type_of b.num) ≡ Is (type_of t) }
    ensures num { result.num ≡ t }
    ensures value { result.z ≡ multiplied m.now (type_of t) (element_of a) (element_of b) }
    ensures inside { IsInRange (type_of t) result.z }
{
    take(m, t, times(a.z, b.z), both_fractions(a.num, b.num))
}

/// The fraction length of an exact product, in bits.
fn both_fractions(a: NumType, b: NumType) -> i32
    ensures { result ≡ a.fraction +ℤ b.fraction }
{
    a.fraction() + b.fraction()
}

/// The exact `z * 2^(-f)` as an element of the type.
pub fn take(m: &Fimath, t: NumType, z: Int, f: i32) -> Elem
    ensures num { result.num ≡ t }
    ensures value { result.z ≡ taken m.now (type_of t) z f }
    ensures inside { IsInRange (type_of t) result.z }
{
    Elem {
        num: t,
        z: quantise(t, m.rounding, m.overflow, z, f),
    }
}
