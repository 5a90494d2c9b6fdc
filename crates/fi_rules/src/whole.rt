//! Whole numbers that constants are.

ghost use Rattle.std.specs.Prelude.{◌≡◌, ◌≤ℤ◌, pos, negsuc, Option, option_map, IfSome};
ghost use Rattle.num_type.specs.View.{exact_of};
ghost use Rattle.const_rules.specs.Stored.{stored_at, whole_within};
ghost use Rattle.fi_rules.specs.Options.{◌|>◌};
ghost use Rattle.fi_rules.specs.Arguments.{bit_of, length_of, whole_of};
ghost use Rattle.fi_rules.specs.View.{stated_fraction, stated_word};

use const_eval::whole_exponent;
use num_type::Dyadic;

/// The whole number from -400 to 400 that a constant is. None where it is none.
pub fn small_whole(c: &Dyadic) -> Option<i32>
    ensures value { result ≡ whole_within (negsuc 399) (pos 400) (exact_of c.now) }
    ensures least { IfSome result (λ n. negsuc 399 ≤ℤ n) }
    ensures most { IfSome result (λ n. n ≤ℤ pos 400) }
{
    whole_exponent(c)
}

/// The truth that a constant 0 or 1 stands for.
pub fn bit(c: Dyadic) -> Option<bool>
    ensures { result ≡ (whole_of (exact_of c) |> bit_of) }
{
    match small_whole(&c) {
        Some(n) => bit_from(n),
        None => None,
    }
}

// The truth that 0 or 1 stands for.
fn bit_from(n: i32) -> Option<bool>
    ensures { result ≡ bit_of n }
{
    if n == 0 {
        Some(false)
    } else if n == 1 {
        Some(true)
    } else {
        None
    }
}

/// The constant, where it is a whole number.
pub fn whole(c: Dyadic) -> Option<Dyadic>
    ensures { option_map stated_fraction result ≡ whole_of (exact_of c) }
{
    if c.exponent() < 0 { None } else { Some(c) }
}

/// The constant, where it is a whole number from 1 on.
pub fn length(c: Dyadic) -> Option<Dyadic>
    ensures value { option_map stated_word result ≡ (whole_of (exact_of c) |> length_of) }
    ensures same { IfSome result (λ d. stored_at (exact_of d) (pos 0) ≡ pos (stated_word d)) }
{
    if c.exponent() < 0 {
        None
    } else if c.significand() <= 0 {
        None
    } else {
        Some(c)
    }
}

/// The whole number between two from -400 to 400 that a constant is. None where it is none.
pub fn between(least: i32, most: i32, c: Dyadic) -> Option<i32>
    requires least { negsuc 399 ≤ℤ least }
    requires most { most ≤ℤ pos 400 }
    ensures value { result ≡ whole_within least most (exact_of c) }
    ensures least { IfSome result (λ n. least ≤ℤ n) }
    ensures most { IfSome result (λ n. n ≤ℤ most) }
{
    match small_whole(&c) {
        Some(n) => {
            if n < least {
                None
            } else if n > most {
                None
            } else {
                Some(n)
            }
        }
        None => None,
    }
}

/// The constant 16.
pub fn sixteen() -> Dyadic
    ensures { stated_word result ≡ 16 }
{
    match Dyadic::make(16, 0) {
        Some(c) => c,
        None => Dyadic::zero(),
    }
}
