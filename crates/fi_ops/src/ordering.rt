//! Comparisons of elements.

ghost use Rattle.std.specs.Prelude.{◌≡◌, ◌*◌, ◌^◌, ◌-ℤ◌, nat_abs};
ghost use Rattle.std.specs.Int.{int_max};
ghost use Rattle.std.specs.Ordering.{nat_cmp};
ghost use Rattle.fi_ops.specs.Operations.{compared};
ghost use Rattle.fi_ops.specs.View.{element_of};

use crate::elem::Elem;
use fi_quant::gap;
use std::cmp::Ordering;

/// The order of the exact values of two elements, of any types.
pub fn compare(a: Elem, b: Elem) -> Ordering
    ensures { result ≡ compared (element_of a) (element_of b) }
{
    let left = a.num.fraction();
    let right = b.num.fraction();
    match (a.z.is_negative(), b.z.is_negative()) {
        (true, false) => Ordering::Less,
        (false, true) => Ordering::Greater,
        (false, false) => compare_sizes(a.z.magnitude(), left, b.z.magnitude(), right),
        (true, true) => compare_sizes(b.z.magnitude(), right, a.z.magnitude(), left),
    }
}

/// The order of `x * 2^(-f)` and `y * 2^(-g)`.
fn compare_sizes(x: u128, f: i32, y: u128, g: i32) -> Ordering
    ensures { result ≡ nat_cmp (x * 2 ^ nat_abs (int_max f g -ℤ f)) (y * 2 ^ nat_abs (int_max f g -ℤ g)) }
{
    if f < g {
        compare_shifted(x, gap(g, f), y)
    } else {
        compare_shifted(y, gap(f, g), x).reverse()
    }
}

/// The order of `x * 2^n` and `y`.
fn compare_shifted(x: u128, n: u32, y: u128) -> Ordering
    ensures { result ≡ nat_cmp (x * 2 ^ n) y }
{
    if n >= 128 {
        return if x > 0 {
            Ordering::Greater
        } else if y > 0 {
            Ordering::Less
        } else {
            Ordering::Equal
        };
    }
    let whole = y >> n;
    if x > whole {
        Ordering::Greater
    } else if x < whole {
        Ordering::Less
    } else if whole << n < y {
        Ordering::Less
    } else {
        Ordering::Equal
    }
}
