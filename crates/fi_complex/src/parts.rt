//! Complex elements and their parts.

ghost use Rattle.std.specs.Prelude.{◌≡◌};
ghost use Rattle.fi_complex.specs.Real.{paired, widened};
ghost use Rattle.fi_ops.specs.Complex.{real_of, imaginary_of};
ghost use Rattle.fi_ops.specs.View.{element_of, complex_of};

use fi_ops::{Elem, Pair};
use num_type::Int;

/// The complex element with the parts `re` and `im`, two real elements of one type, which the result has too (complex).
pub fn complex(re: Elem, im: Elem) -> Pair
    requires { re.num ≡ im.num }
    ensures { complex_of result ≡ paired (element_of re) (element_of im) }
{
    Pair {
        num: re.num,
        re: re.z,
        im: im.z,
    }
}

/// A real element as a complex one of its type: the imaginary part is 0. So it stands in a sum or a difference beside a complex one.
pub fn as_complex(a: Elem) -> Pair
    ensures { complex_of result ≡ widened (element_of a) }
{
    Pair {
        num: a.num,
        re: a.z,
        im: Int::of(false, 0),
    }
}

/// The real part, of the same type (real).
pub fn real_part(a: &Pair) -> Elem
    ensures num { result.num ≡ a.now.num }
    ensures whole { element_of result ≡ real_of (complex_of a.now) }
{
    Elem {
        num: a.num,
        z: a.re,
    }
}

/// The imaginary part, of the same type (imag).
pub fn imaginary_part(a: &Pair) -> Elem
    ensures num { result.num ≡ a.now.num }
    ensures whole { element_of result ≡ imaginary_of (complex_of a.now) }
{
    Elem {
        num: a.num,
        z: a.im,
    }
}
