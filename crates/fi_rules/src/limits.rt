//! Types within the limits.

ghost use Rattle.std.specs.Prelude.{◌≡◌, ◌≤◌, IfOk};
ghost use Rattle.num_type.specs.View.{type_of};
ghost use Rattle.fi_math.specs.Made as made;
ghost use Rattle.fi_math.specs.View.{made_of};
ghost use Rattle.fi_rules.specs.Calls.{fixed};
ghost use Rattle.fi_rules.specs.Pairs.{limits_checked};
ghost use Rattle.fi_rules.specs.View.{checked_view};

use crate::missing::{Missing, Shown};
use fi_math::NoType;
use fic_base::Code;
use num_type::NumType;

/// A type within the limits, or the refusal of one that isn't: TooWide, and then FractionOut.
#[tactic(auto, unfolding(crate::specs::Pairs::limits_checked))]
pub fn limited(made: Result<NumType, NoType>) -> Result<NumType, Missing>
    ensures { checked_view type_of result ≡ limits_checked (made_of made) }
{
    match made {
        Ok(t) => Ok(t),
        Err(NoType::TooWide { word }) => Err(Missing {
            code: Code::TooWide,
            shown: Shown::Word(word),
        }),
        Err(NoType::FractionOut { fraction }) => Err(Missing {
            code: Code::FractionOut,
            shown: Shown::Fraction(fraction),
        }),
    }
}

/// The type of these parts, of a word length within the limits. FractionOut where the fraction length isn't.
pub fn typed(signed: bool, word: u32, fraction: i32) -> Result<NumType, Missing>
    requires some { 1 ≤ word }
    requires bits { word ≤ 64 }
    ensures value { checked_view type_of result ≡ limits_checked (made.limited 64 (fixed signed word fraction)) }
    ensures parts { IfOk result (λ t. type_of t ≡ fixed signed word fraction) }
{
    match NumType::make(signed, word, fraction) {
        Some(t) => Ok(t),
        None => Err(Missing {
            code: Code::FractionOut,
            shown: Shown::Fraction(fraction),
        }),
    }
}
