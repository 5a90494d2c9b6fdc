//! Natural numbers of arguments.

ghost use Rattle.std.specs.Prelude.{◌≡◌, ◌<◌, ◌*◌, ◌^◌, min, option_map};
ghost use Rattle.num_type.specs.View.{exact_of};
ghost use Rattle.fi_rules.specs.Arguments.{size_of, whole_of};
ghost use Rattle.fi_rules.specs.Options.{◌|>◌};
ghost use Rattle.fi_meaning.specs.Functions as functions;
ghost use Rattle.eval_value.specs.View.{value_view};
ghost use Rattle.eval_call.specs.View.{capped};

use eval_bits::real_constant;
use eval_value::Value;
use num_type::Dyadic;

/// The real scalar whole number from 0 on that a value is, or 65536 where it is greater.
#[tactic(auto, using(crate::proofs::Capped::natural_none, crate::proofs::Capped::natural_some))]
pub fn natural(value: &Value) -> Option<u32>
    ensures { result ≡ option_map capped (functions.natural (value_view value.now)) }
{
    match real_constant(value) {
        None => None,
        Some(c) => natural_of(c),
    }
}

// The same of a constant.
#[tactic(auto, using(crate::proofs::Capped::fraction_none, crate::proofs::Capped::below_none, crate::proofs::Capped::raised_some))]
fn natural_of(c: Dyadic) -> Option<u32>
    ensures { result ≡ option_map capped (whole_of (exact_of c) |> size_of) }
{
    if c.exponent() < 0 {
        None
    } else if c.significand() < 0 {
        None
    } else {
        Some(doubled(c.significand() as u64, c.exponent() as u32))
    }
}

// A number doubled so often, or 65536 where that is less.
#[tactic(auto, using(crate::proofs::Capped::zero_doubled, crate::proofs::Capped::far_doubled, crate::proofs::Capped::big_doubled))]
fn doubled(m: u64, times: u32) -> u32
    requires { m < 2 ^ 53 }
    ensures { result ≡ min (m * 2 ^ times) 65536 }
{
    if m == 0 {
        0
    } else if times > 16 {
        65536
    } else if m > 65536 {
        65536
    } else {
        (m << times).min(65536) as u32
    }
}
