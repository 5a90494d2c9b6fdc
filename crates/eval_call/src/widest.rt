//! The widest of several numbers.

ghost use Rattle.std.specs.Prelude.{◌≡◌, ◌≤◌, ◌<ℤ◌, ◌+ℤ◌, negsuc, pos, map};
ghost use Rattle.num_type.specs.View.{exact_of};
ghost use Rattle.const_rules.specs.BestFraction.{width_of};
ghost use Rattle.fi_rules.specs.Pairs.{scalar_number};
ghost use Rattle.eval_value.specs.View.{number_view};
ghost use Rattle.eval_call.specs.Represented.{is_above, represented, top_of, wider, widest_from};

use eval_value::NumberValue;
use num_type::Dyadic;

/// The widest of constants, real and imaginary parts alike, as a type with a sign or without counts them; 0 where all count as 0.
#[tactic(auto, using(crate::proofs::Tops::widest_real))]
pub fn widest_of(signed: bool, v: &NumberValue) -> Dyadic
    ensures { scalar_number (exact_of result) ≡ represented signed (number_view v.now) }
{
    let widest = widest_from(signed, Dyadic::zero(), v.re.as_slice());
    match &v.im {
        None => widest,
        Some(parts) => widest_from(signed, widest, parts.as_slice()),
    }
}

// The widest from one number on.
fn widest_from(signed: bool, first: Dyadic, more: &[Dyadic]) -> Dyadic
    ensures { exact_of result ≡ widest_from signed (exact_of first) (map exact_of more.now) }
{
    let mut widest = first;
    for c in more {
        widest = wider(signed, widest, *c);
    }
    widest
}

// The wider of two numbers; the first where neither is.
fn wider(signed: bool, x: Dyadic, y: Dyadic) -> Dyadic
    ensures { exact_of result ≡ wider signed (exact_of x) (exact_of y) }
{
    if is_above(top_of(signed, &y), top_of(signed, &x)) {
        y
    } else {
        x
    }
}

// Whether a bound is above another one, or there is only that.
fn is_above(a: Option<i64>, b: Option<i64>) -> bool
    ensures { result ≡ is_above a b }
{
    match a {
        None => false,
        Some(x) => match b {
            None => true,
            Some(y) => y < x,
        },
    }
}

// The power of 2 below which a number is. None where it counts as 0.
#[tactic(auto, using(crate::proofs::Tops::top_above, crate::proofs::Tops::top_below, crate::proofs::Tops::top_none, crate::proofs::Tops::top_unsigned))]
fn top_of(signed: bool, c: &Dyadic) -> Option<i64>
    ensures { result ≡ top_of signed (exact_of c.now) }
{
    let m = c.significand();
    if m > 0 {
        Some(raised(c.exponent(), m as u64))
    } else if m == 0 {
        None
    } else if signed {
        Some(raised(c.exponent(), size_below(m)))
    } else {
        None
    }
}

// The power of 2 below which a size times a power of 2 is.
fn raised(exponent: i32, size: u64) -> i64
    ensures { result ≡ exponent +ℤ pos (width_of size) }
{
    exponent as i64 + width(size) as i64
}

// How far a number below 0 is below -1.
fn size_below(m: i64) -> u64
    requires { m <ℤ pos 0 }
    ensures { m ≡ negsuc result }
{
    (-1 - m) as u64
}

// The bits of a size.
fn width(size: u64) -> u32
    ensures value { result ≡ width_of size }
    ensures few { result ≤ 64 }
{
    64 - size.leading_zeros()
}
