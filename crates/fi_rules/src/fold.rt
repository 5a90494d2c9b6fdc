//! Operators on two constants.

ghost use Rattle.std.specs.Prelude.{◌≡◌, ◌≤ℤ◌, pos, negsuc, [], ◌∷◌, option_map};
ghost use Rattle.num_type.specs.View.{exact_of};
ghost use Rattle.const_rules.specs.Folds as folds;
ghost use Rattle.fi_rules.specs.Pairs as rule;
ghost use Rattle.fi_rules.specs.Value.{scalar};
ghost use Rattle.fi_rules.specs.View.{checked_view, number_view};

use crate::missing::{Missing, itself};
use crate::whole::small_whole;
use crate::work::Work;
use const_eval::power;
use fic_base::Code;
use num_type::Dyadic;

/// The constant that a sum, a difference or a product of constants is. LiteralInexact where it is no constant.
pub fn fold(work: Work, x: Dyadic, y: Dyadic) -> Result<Dyadic, Missing>
    ensures { checked_view number_view result ≡ rule.constant_checked (rule.folded work (exact_of x) (exact_of y)) }
{
    checked(folded(work, x, y))
}

/// The constant that a power of constants is. BadArgument where the exponent isn't a whole number from -400 to 400, and LiteralInexact
/// where the power is no constant.
pub fn fold_power(x: Dyadic, y: Dyadic) -> Result<Dyadic, Missing>
    ensures { checked_view number_view result ≡ rule.power_folded scalar (exact_of x ∷ []) scalar (exact_of y ∷ []) }
{
    match small_whole(&y) {
        None => Err(itself(Code::BadArgument)),
        Some(exponent) => checked(raised(x, exponent)),
    }
}

// A result that has to be a constant.
#[tactic(auto, unfolding(crate::specs::Checked::bind, crate::specs::Checked::needed))]
fn checked(c: Option<Dyadic>) -> Result<Dyadic, Missing>
    ensures { checked_view number_view result ≡ rule.constant_checked (option_map exact_of c) }
{
    match c {
        Some(c) => Ok(c),
        None => Err(itself(Code::LiteralInexact)),
    }
}

/// The exact result of an operation on two constants. None where it is no constant, or the work is no sum, difference or product.
#[tactic(auto, unfolding(crate::specs::Pairs::folded))]
pub fn folded(work: Work, x: Dyadic, y: Dyadic) -> Option<Dyadic>
    ensures { option_map exact_of result ≡ rule.folded work (exact_of x) (exact_of y) }
{
    match work {
        Work::Sum => sum(x, y),
        Work::Difference => difference(x, y),
        Work::Product => product(x, y),
        Work::Power => None,
        Work::Division => None,
        Work::Later => None,
    }
}

fn sum(x: Dyadic, y: Dyadic) -> Option<Dyadic>
    ensures { option_map exact_of result ≡ folds.added (exact_of x) (exact_of y) }
{
    x.add(y)
}

fn difference(x: Dyadic, y: Dyadic) -> Option<Dyadic>
    ensures { option_map exact_of result ≡ folds.subtracted (exact_of x) (exact_of y) }
{
    x.sub(y)
}

fn product(x: Dyadic, y: Dyadic) -> Option<Dyadic>
    ensures { option_map exact_of result ≡ folds.multiplied (exact_of x) (exact_of y) }
{
    x.mul(y)
}

// A constant to a whole power from -400 to 400.
fn raised(x: Dyadic, exponent: i32) -> Option<Dyadic>
    requires least { negsuc 399 ≤ℤ exponent }
    requires most { exponent ≤ℤ pos 400 }
    ensures { option_map exact_of result ≡ folds.power (exact_of x) exponent }
{
    power(&x, exponent)
}
