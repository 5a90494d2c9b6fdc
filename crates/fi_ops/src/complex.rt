//! Operations on complex elements.

ghost use Rattle.std.specs.Prelude.{◌≡◌};
ghost use Rattle.num_type.specs.Types.{NumericType};
ghost use Rattle.num_type.specs.View.{type_of};
ghost use Rattle.fi_math.specs.Made.{Is};
ghost use Rattle.fi_math.specs.Rules.{add_made, sub_made, product_made, complex_product_made};
ghost use Rattle.fi_ops.specs.Complex.{complex_summed, complex_subtracted, complex_multiplied, conjugated, partial, real_of, imaginary_of};
ghost use Rattle.fi_ops.specs.View.{element_of, complex_of};

use crate::elem::Elem;
use crate::pair::Pair;
use crate::products::mul;
use crate::signs::neg;
use crate::sums::{add, sub};
use fi_math::{Fimath, product_type};
use num_type::NumType;

/// The sum of two complex elements, as one of the type `t` that `add_type` gives: both parts follow the rule of real sums.
pub fn cadd(m: &Fimath, t: NumType, a: Pair, b: Pair) -> Pair
    requires { add_made m.now (type_of a.num) (type_of b.num) ≡ Is (type_of t) }
    ensures { complex_of result ≡ complex_summed m.now (type_of t) (complex_of a) (complex_of b) }
{
    let re = add(m, t, real(&a), real(&b));
    let im = add(m, t, imaginary(&a), imaginary(&b));
    Pair {
        num: t,
        re: re.z,
        im: im.z,
    }
}

/// The difference of two complex elements, as one of the type `t` that `sub_type` gives.
pub fn csub(m: &Fimath, t: NumType, a: Pair, b: Pair) -> Pair
    requires { sub_made m.now (type_of a.num) (type_of b.num) ≡ Is (type_of t) }
    ensures { complex_of result ≡ complex_subtracted m.now (type_of t) (complex_of a) (complex_of b) }
{
    let re = sub(m, t, real(&a), real(&b));
    let im = sub(m, t, imaginary(&a), imaginary(&b));
    Pair {
        num: t,
        re: re.z,
        im: im.z,
    }
}

/// The product of two complex elements, as one of the type `t` that `complex_product_type` gives: four products in the product type,
/// then a difference and a sum of two of them.
pub fn cmul(m: &Fimath, t: NumType, a: Pair, b: Pair) -> Pair
    requires { complex_product_made m.now (type_of a.num) (type_of b.num) ≡ Is (type_of t) }
    ensures { (p : NumericType) → product_made m.now (type_of a.num) (type_of b.num) ≡ Is p → complex_of result ≡ complex_multiplied m.now p (type_of t) (complex_of a) (complex_of b) }
{
    match product_type(m, a.num, b.num) {
        Ok(p) => cmul_in(m, p, t, &a, &b),
        Err(_) => unreachable!(),
    }
}

/// The same, with the products in the type `p`.
fn cmul_in(m: &Fimath, p: NumType, t: NumType, a: &Pair, b: &Pair) -> Pair
    requires product { product_made m.now (type_of a.now.num) (type_of b.now.num) ≡ Is (type_of p) }
    requires sum { add_made m.now (type_of p) (type_of p) ≡ Is (type_of t) }
    ensures { complex_of result ≡ complex_multiplied m.now (type_of p) (type_of t) (complex_of a.now) (complex_of b.now) }
{
    let reals = part(m, p, real(a), real(b));
    let imaginaries = part(m, p, imaginary(a), imaginary(b));
    let left = part(m, p, real(a), imaginary(b));
    let right = part(m, p, imaginary(a), real(b));
    let re = sub(m, t, reals, imaginaries);
    let im = add(m, t, left, right);
    Pair {
        num: t,
        re: re.z,
        im: im.z,
    }
}

/// One of the products.
fn part(m: &Fimath, p: NumType, a: Elem, b: Elem) -> Elem
    requires { product_made m.now (type_of a.num) (type_of b.num) ≡ Is (type_of p) }
    ensures num { result.num ≡ p }
    ensures whole { element_of result ≡ partial m.now (type_of p) (element_of a) (element_of b) }
{
    mul(m, p, a, b)
}

/// The conjugate, of the type of `a`: the overflow action applies to the negated imaginary part.
pub fn conj(m: &Fimath, a: Pair) -> Pair
    ensures { complex_of result ≡ conjugated m.now (complex_of a) }
{
    let im = neg(m, imaginary(&a));
    Pair {
        num: a.num,
        re: a.re,
        im: im.z,
    }
}

/// The real part.
fn real(a: &Pair) -> Elem
    ensures { element_of result ≡ real_of (complex_of a.now) }
{
    Elem {
        num: a.num,
        z: a.re,
    }
}

/// The imaginary part.
fn imaginary(a: &Pair) -> Elem
    ensures { element_of result ≡ imaginary_of (complex_of a.now) }
{
    Elem {
        num: a.num,
        z: a.im,
    }
}
