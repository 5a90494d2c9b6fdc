//! The limits of types that calls ask for.

ghost use Rattle.std.specs.Prelude.{◌≡◌, ◌<◌, ◌≤◌, ◌<ℤ◌, ◌⊎◌, pos, negsuc, IfOk, IfErr, IfSome, IfNone};
ghost use Rattle.fic_base.specs.declared.code.Code.TheVariants as code;
ghost use Rattle.num_type.specs.View.{exact_of, type_of};
ghost use Rattle.const_rules.specs.Stored.{stored_at};
ghost use Rattle.fi_math.specs.Made as made;
ghost use Rattle.fi_rules.specs.Calls as rule;
ghost use Rattle.fi_rules.specs.Pairs.{limits_checked};
ghost use Rattle.fi_rules.specs.Calls.{fixed};
ghost use Rattle.fi_rules.specs.Checked as checked;
ghost use Rattle.fi_rules.specs.View.{asked_view, best_fixed, built_view, checked_view, shown_view, stated_fraction, stated_view, stated_word};

use crate::asked::{Asked, Stated};
use crate::beside::best_of;
use crate::limits::typed;
use crate::missing::{Missing, Shown};
use crate::whole::{between, length};
use fi_math::Fimath;
use fic_base::Code;
use num_type::{Dyadic, NumType};

/// What a call gives.
#[derive(Clone, Copy)]
pub enum Built {
    /// Its first argument in this type, with this fimath, which quantises it, or else the default one.
    Taken(NumType, Option<Fimath>),
    /// Its first argument with this fimath in place of its own.
    Attached(Option<Fimath>),
    /// Its first argument without its sign.
    SignTaken,
    /// A numerictype object.
    Type(NumType),
    /// A fimath object.
    Math(Fimath),
}

/// What a call gives. Its first missing condition is the refusal: TooWide, and then FractionOut, for the type that it asks for.
#[tactic(auto, unfolding(crate::specs::Calls::built, crate::specs::Checked::bind))]
pub fn build(a: Asked) -> Result<Built, Missing>
    ensures { checked_view built_view result ≡ rule.built (asked_view a) }
{
    match a {
        Asked::Takes(t, m) => match within(t) {
            Ok(num) => Ok(Built::Taken(num, m)),
            Err(missing) => Err(missing),
        },
        Asked::Attaches(m) => Ok(Built::Attached(m)),
        Asked::TakesSign => Ok(Built::SignTaken),
        Asked::MakesType(t) => match within(t) {
            Ok(num) => Ok(Built::Type(num)),
            Err(missing) => Err(missing),
        },
        Asked::MakesMath(m) => Ok(Built::Math(m)),
    }
}

// A type within the limits.
fn within(t: Stated) -> Result<NumType, Missing>
    ensures { checked_view type_of result ≡ limits_checked (made.limited 64 (stated_view t)) }
{
    match t {
        Stated::Of(t) => Ok(t),
        Stated::Stated {
            signed,
            word,
            fraction,
        } => of_parts(signed, word, fraction),
        Stated::Best {
            signed,
            word,
            value,
        } => of_value(signed, word, value),
    }
}

// The type of stated parts.
fn of_parts(signed: bool, word: Dyadic, fraction: Dyadic) -> Result<NumType, Missing>
    ensures { checked_view type_of result ≡ limits_checked (made.limited 64 (fixed signed (stated_word word) (stated_fraction fraction))) }
{
    match short(word) {
        Ok(bits) => with_fraction(signed, bits, fraction),
        Err(shown) => Err(Missing {
            code: Code::TooWide,
            shown,
        }),
    }
}

// The type at the best fraction length of a constant.
fn of_value(signed: bool, word: Dyadic, c: Dyadic) -> Result<NumType, Missing>
    ensures { checked_view type_of result ≡ limits_checked (made.limited 64 (best_fixed signed (stated_word word) (exact_of c))) }
{
    match short(word) {
        Ok(bits) => with_best(signed, bits, c),
        Err(shown) => Err(Missing {
            code: Code::TooWide,
            shown,
        }),
    }
}

// A word length from 1 to 64, or another one as it is shown.
fn short(word: Dyadic) -> Result<u32, Shown>
    ensures value { IfOk result (λ w. w ≡ stated_word word) }
    ensures least { IfOk result (λ w. 1 ≤ w) }
    ensures most { IfOk result (λ w. w ≤ 64) }
    ensures shown { IfErr result (λ s. limits_checked (made.Wide (stated_word word)) ≡ checked.Missing code.TooWide (shown_view s)) }
    ensures limits { IfErr result (λ s. (stated_word word < 1) ⊎ (64 < stated_word word)) }
{
    match between(1, 64, word) {
        Some(bits) => Ok(bits as u32),
        None => Err(shown_word(word)),
    }
}

// A word length as it is shown.
fn shown_word(word: Dyadic) -> Shown
    ensures { shown_view result ≡ checked.Whole (pos (stated_word word)) }
{
    match length(word) {
        Some(word) => Shown::Whole(word),
        None => Shown::Word(0),
    }
}

// The type of a stated fraction length.
fn with_fraction(signed: bool, word: u32, fraction: Dyadic) -> Result<NumType, Missing>
    requires some { 1 ≤ word }
    requires bits { word ≤ 64 }
    ensures { checked_view type_of result ≡ limits_checked (made.limited 64 (fixed signed word (stated_fraction fraction))) }
{
    match near(fraction) {
        Some(bits) => typed(signed, word, bits),
        None => Err(Missing {
            code: Code::FractionOut,
            shown: Shown::Whole(fraction),
        }),
    }
}

// A fraction length from -256 to 256.
fn near(fraction: Dyadic) -> Option<i32>
    ensures some { IfSome result (λ f. f ≡ stated_fraction fraction) }
    ensures none { IfNone result ((stated_fraction fraction <ℤ negsuc 255) ⊎ (pos 256 <ℤ stated_fraction fraction)) }
    ensures shown { IfNone result (stored_at (exact_of fraction) (pos 0) ≡ stated_fraction fraction) }
{
    if fraction.exponent() < 0 {
        Some(0)
    } else {
        between(-256, 256, fraction)
    }
}

// The type at the best fraction length of a constant.
fn with_best(signed: bool, word: u32, c: Dyadic) -> Result<NumType, Missing>
    requires some { 1 ≤ word }
    requires bits { word ≤ 64 }
    ensures { checked_view type_of result ≡ limits_checked (made.limited 64 (best_fixed signed word (exact_of c))) }
{
    typed(signed, word, best_of(signed, word, c))
}
