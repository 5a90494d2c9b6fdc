//! Exact arithmetic on whole numbers that stay within 128 bits.

ghost use Rattle.std.specs.Prelude.{◌≡◌, ◌<◌, ◌+◌, ◌*◌, ◌^◌, ◌+ℤ◌, ◌*ℤ◌, nat_abs, neg_ℤ, pos};

use num_type::Int;

/// The exact product.
pub fn times(x: Int, y: Int) -> Int
    requires { nat_abs x * nat_abs y < 2 ^ 128 }
    ensures { result ≡ x *ℤ y }
{
    Int::of(
        x.is_negative() != y.is_negative(),
        x.magnitude() * y.magnitude(),
    )
}

/// The exact sum.
pub fn plus(x: Int, y: Int) -> Int
    requires { nat_abs x + nat_abs y < 2 ^ 128 }
    ensures { result ≡ x +ℤ y }
{
    let negative = x.is_negative();
    let a = x.magnitude();
    let b = y.magnitude();
    if negative == y.is_negative() {
        Int::of(negative, a + b)
    } else if b <= a {
        Int::of(negative, a - b)
    } else {
        Int::of(!negative, b - a)
    }
}

/// The number with the other sign.
pub fn opposite(x: Int) -> Int
    ensures { result ≡ neg_ℤ x }
{
    Int::of(!x.is_negative(), x.magnitude())
}

/// The exact `x * 2^n`.
pub fn shifted(x: Int, n: u32) -> Int
    requires few { n < 128 }
    requires fits { nat_abs x * 2 ^ n < 2 ^ 128 }
    ensures { result ≡ x *ℤ pos (2 ^ n) }
{
    Int::of(x.is_negative(), x.magnitude() << n)
}
