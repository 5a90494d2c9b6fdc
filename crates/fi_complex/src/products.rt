//! Products of a real and a complex element.

ghost use Rattle.std.specs.Prelude.{◌≡◌};
ghost use Rattle.num_type.specs.Types.{IsInRange};
ghost use Rattle.num_type.specs.View.{type_of};
ghost use Rattle.fi_math.specs.Made.{Is};
ghost use Rattle.fi_math.specs.Rules.{product_made};
ghost use Rattle.fi_complex.specs.Real.{real_times, times_real};
ghost use Rattle.fi_ops.specs.Operations.{multiplied};
ghost use Rattle.fi_ops.specs.View.{element_of, complex_of};

use crate::parts::{imaginary_part, real_part};
use fi_math::Fimath;
use fi_ops::{Elem, Pair, mul};
use num_type::NumType;

/// The product of a real element on the left and a complex one, as one of the type `t` that `product_type` gives: two products, each
/// rounded and brought into range once.
pub fn mul_real(m: &Fimath, t: NumType, a: Elem, b: Pair) -> Pair
    requires { product_made m.now (type_of a.num) (type_of b.num) ≡ Is (type_of t) }
    ensures { complex_of result ≡ real_times m.now (type_of t) (element_of a) (complex_of b) }
{
    let real = real_part(&b);
    let imaginary = imaginary_part(&b);
    let re = product(m, t, &a, &real);
    let im = product(m, t, &a, &imaginary);
    Pair {
        num: t,
        re: re.z,
        im: im.z,
    }
}

/// The product of a complex element and a real one on the right, as one of the type `t` that `product_type` gives.
pub fn mul_by_real(m: &Fimath, t: NumType, a: Pair, b: Elem) -> Pair
    requires { product_made m.now (type_of a.num) (type_of b.num) ≡ Is (type_of t) }
    ensures { complex_of result ≡ times_real m.now (type_of t) (complex_of a) (element_of b) }
{
    let real = real_part(&a);
    let imaginary = imaginary_part(&a);
    let re = product(m, t, &real, &b);
    let im = product(m, t, &imaginary, &b);
    Pair {
        num: t,
        re: re.z,
        im: im.z,
    }
}

/// One of the two products.
fn product(m: &Fimath, t: NumType, a: &Elem, b: &Elem) -> Elem
    requires { product_made m.now (type_of a.now.num) (type_of b.now.num) ≡ Is (type_of t) }
    ensures num { result.num ≡ t }
    ensures value { result.z ≡ multiplied m.now (type_of t) (element_of a.now) (element_of b.now) }
    ensures inside { IsInRange (type_of t) result.z }
{
    mul(m, t, *a, *b)
}
