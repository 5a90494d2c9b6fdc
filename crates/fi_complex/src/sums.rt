//! Sums of many complex elements.

ghost use Rattle.std.specs.Prelude.{◌≡◌};
ghost use Rattle.num_type.specs.View.{type_of};
ghost use Rattle.fi_math.specs.Made.{Is};
ghost use Rattle.fi_math.specs.Rules.{stepped};
ghost use Rattle.fi_ops.specs.Complex.{complex_summed};
ghost use Rattle.fi_ops.specs.View.{complex_of};

use crate::parts::{imaginary_part, real_part};
use fi_math::Fimath;
use fi_ops::{Pair, accumulate};
use num_type::NumType;

/// One step of an accumulation of complex elements: `acc + a` by the rule of sums on both parts, in the type `t` of `acc`, which
/// `sum_type` gives for addends of the type of `a`.
pub fn caccumulate(m: &Fimath, t: NumType, acc: Pair, a: Pair) -> Pair
    requires kept { acc.num ≡ t }
    requires step { stepped m.now (type_of a.num) (type_of t) ≡ Is (type_of t) }
    ensures { complex_of result ≡ complex_summed m.now (type_of t) (complex_of acc) (complex_of a) }
{
    let acc_real = real_part(&acc);
    let acc_imaginary = imaginary_part(&acc);
    let real = real_part(&a);
    let imaginary = imaginary_part(&a);
    let re = accumulate(m, t, acc_real, real);
    let im = accumulate(m, t, acc_imaginary, imaginary);
    Pair {
        num: t,
        re: re.z,
        im: im.z,
    }
}
