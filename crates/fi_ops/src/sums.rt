//! Sums and differences of elements.

ghost use Rattle.std.specs.Prelude.{◌≡◌, ◌≤◌, ◌<◌, ◌+◌, ◌^◌, ◌+ℤ◌, ◌-ℤ◌, ◌≤ℤ◌, ℤ, nat_abs, false};
ghost use Rattle.std.specs.Int.{int_max};
ghost use Rattle.num_type.specs.Types.{IsInRange, word_limit};
ghost use Rattle.num_type.specs.View.{type_of};
ghost use Rattle.fi_quant.specs.Numbers.{fitted};
ghost use Rattle.fi_math.specs.Full.{full_sum};
ghost use Rattle.fi_math.specs.Made.{Is};
ghost use Rattle.fi_math.specs.Rules.{add_made, sub_made, stepped};
ghost use Rattle.fi_ops.specs.Operations.{common, aligned, taken, joined, summed, subtracted};
ghost use Rattle.fi_ops.specs.Parts.{plus_or_minus};
ghost use Rattle.fi_ops.specs.View.{element_of};

use crate::elem::Elem;
use crate::products::take;
use crate::whole::{opposite, plus, shifted};
use fi_math::Fimath;
use fi_quant::{fit_sum, gap};
use num_type::{Int, NumType};

/// The sum of two elements, as one of the type `t` that `add_type` gives. With CastBeforeSum both are taken to `t` first, and the
/// overflow action applies to their sum; else the sum is exact and then taken to `t`.
pub fn add(m: &Fimath, t: NumType, a: Elem, b: Elem) -> Elem
    requires { add_made m.now (type_of a.num) (type_of b.num) ≡ Is (type_of t) }
    ensures num { result.num ≡ t }
    ensures value { result.z ≡ summed m.now (type_of t) (element_of a) (element_of b) }
    ensures inside { IsInRange (type_of t) result.z }
{
    join(m, t, a, b, false)
}

/// The difference of two elements, as one of the type `t` that `sub_type` gives, by the rule of sums.
pub fn sub(m: &Fimath, t: NumType, a: Elem, b: Elem) -> Elem
    requires { sub_made m.now (type_of a.num) (type_of b.num) ≡ Is (type_of t) }
    ensures num { result.num ≡ t }
    ensures value { result.z ≡ subtracted m.now (type_of t) (element_of a) (element_of b) }
    ensures inside { IsInRange (type_of t) result.z }
{
    join(m, t, a, b, true)
}

/// One step of an accumulation: `acc + a` by the rule of sums, in the type `t` of `acc`, which `sum_type` gives for addends of the
/// type of `a`.
pub fn accumulate(m: &Fimath, t: NumType, acc: Elem, a: Elem) -> Elem
    requires kept { acc.num ≡ t }
    requires step { stepped m.now (type_of a.num) (type_of t) ≡ Is (type_of t) }
    ensures num { result.num ≡ t }
    ensures value { result.z ≡ summed m.now (type_of t) (element_of acc) (element_of a) }
    ensures inside { IsInRange (type_of t) result.z }
{
    join(m, t, acc, a, false)
}

/// The sum, or the difference where `minus` is set. An exact sum needs a full type within the limits.
fn join(m: &Fimath, t: NumType, a: Elem, b: Elem, minus: bool) -> Elem
    requires { m.now.cast_before_sum ≡ false → (full_sum (type_of a.num) (type_of b.num)).word ≤ word_limit }
    ensures num { result.num ≡ t }
    ensures value { result.z ≡ joined (plus_or_minus minus) m.now (type_of t) (element_of a) (element_of b) }
    ensures inside { IsInRange (type_of t) result.z }
{
    if m.cast_before_sum {
        join_cast(m, t, a, b, minus)
    } else {
        join_exact(m, t, a, b, minus)
    }
}

/// The operands are taken to the sum type first.
fn join_cast(m: &Fimath, t: NumType, a: Elem, b: Elem, minus: bool) -> Elem
    ensures num { result.num ≡ t }
    ensures value { result.z ≡ fitted m.now.overflow (type_of t) (plus_or_minus minus (taken m.now (type_of t) a.z a.num.fraction) (taken m.now (type_of t) b.z b.num.fraction)) }
    ensures inside { IsInRange (type_of t) result.z }
{
    let x = take(m, t, a.z, a.num.fraction()).z;
    let y = take(m, t, b.z, b.num.fraction()).z;
    Elem {
        num: t,
        z: fit_sum(m.overflow, t, x, turned(minus, y)),
    }
}

/// The exact sum is taken to the sum type.
fn join_exact(m: &Fimath, t: NumType, a: Elem, b: Elem, minus: bool) -> Elem
    requires { (full_sum (type_of a.num) (type_of b.num)).word ≤ word_limit }
    ensures num { result.num ≡ t }
    ensures value { result.z ≡ taken m.now (type_of t) (plus_or_minus minus (aligned (common (element_of a) (element_of b)) (element_of a)) (aligned (common (element_of a) (element_of b)) (element_of b))) (common (element_of a) (element_of b)) }
    ensures inside { IsInRange (type_of t) result.z }
{
    let fraction = common_fraction(a.num, b.num);
    let x = align(fraction, a);
    let y = align(fraction, b);
    take(m, t, plus(x, turned(minus, y)), fraction)
}

/// The greater of two fraction lengths, in bits.
fn common_fraction(a: NumType, b: NumType) -> i32
    ensures value { result ≡ int_max a.fraction b.fraction }
    ensures left { a.fraction ≤ℤ result }
    ensures right { b.fraction ≤ℤ result }
{
    a.fraction().max(b.fraction())
}

/// The number, or the opposite one where `minus` is set.
fn turned(minus: bool, y: Int) -> Int
    ensures value { (x : ℤ) → x +ℤ result ≡ plus_or_minus minus x y }
    ensures size { nat_abs result ≡ nat_abs y }
{
    if minus { opposite(y) } else { y }
}

/// The integer of an element at a fraction length that isn't below its own, in bits.
fn align(fraction: i32, a: Elem) -> Int
    requires least { a.num.fraction ≤ℤ fraction }
    requires bits { a.num.word + nat_abs (fraction -ℤ a.num.fraction) < 128 }
    ensures value { result ≡ aligned fraction (element_of a) }
    ensures size { nat_abs result ≤ 2 ^ (a.num.word + nat_abs (fraction -ℤ a.num.fraction)) }
{
    shifted(a.z, gap(fraction, a.num.fraction()))
}
