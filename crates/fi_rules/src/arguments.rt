//! What built-in functions take of their arguments.

ghost use Rattle.std.specs.Prelude.{◌≡◌, option_map};
ghost use Rattle.fi_rules.specs.Arguments as rule;
ghost use Rattle.fi_rules.specs.Options.{named};
ghost use Rattle.fi_rules.specs.View.{number_view, stated_fraction, stated_word, ty_view};

use crate::names::is_text;
use crate::ty::Ty;
use crate::whole::{between, bit, length, whole};
use fi_math::{Fimath, Mode};
use num_type::{Dyadic, Overflow, Rounding};

/// The truth that an argument 0 or 1 stands for.
#[tactic(auto, unfolding(crate::specs::Arguments::constant_in, crate::specs::Options::and_then, crate::specs::Options::where_so))]
pub fn bit_in(t: &Ty) -> Option<bool>
    ensures { result ≡ rule.bit_in (ty_view t.now) }
{
    match t {
        Ty::Number(c) => bit(*c),
        Ty::Fi(_, _) => None,
        Ty::Words(_) => None,
        Ty::Math(_) => None,
        Ty::Type(_) => None,
        Ty::Other => None,
    }
}

/// The word length that an argument states: a whole constant from 1 on.
#[tactic(auto, unfolding(crate::specs::Arguments::constant_in, crate::specs::Options::and_then, crate::specs::Options::where_so))]
pub fn length_in(t: &Ty) -> Option<Dyadic>
    ensures { option_map stated_word result ≡ rule.length_in (ty_view t.now) }
{
    match t {
        Ty::Number(c) => length(*c),
        Ty::Fi(_, _) => None,
        Ty::Words(_) => None,
        Ty::Math(_) => None,
        Ty::Type(_) => None,
        Ty::Other => None,
    }
}

/// The fraction length that an argument states: a whole constant.
#[tactic(auto, unfolding(crate::specs::Arguments::constant_in, crate::specs::Options::and_then, crate::specs::Options::where_so))]
pub fn whole_in(t: &Ty) -> Option<Dyadic>
    ensures { option_map stated_fraction result ≡ rule.whole_in (ty_view t.now) }
{
    match t {
        Ty::Number(c) => whole(*c),
        Ty::Fi(_, _) => None,
        Ty::Words(_) => None,
        Ty::Math(_) => None,
        Ty::Type(_) => None,
        Ty::Other => None,
    }
}

/// The fimath object that an argument is.
#[tactic(auto, unfolding(crate::specs::Arguments::math_in))]
pub fn math_in(t: &Ty) -> Option<Fimath>
    ensures { result ≡ rule.math_in (ty_view t.now) }
{
    match t {
        Ty::Math(m) => Some(*m),
        Ty::Fi(_, _) => None,
        Ty::Number(_) => None,
        Ty::Words(_) => None,
        Ty::Type(_) => None,
        Ty::Other => None,
    }
}

/// The word length from 1 to 128 that the value of a property is.
#[tactic(auto, unfolding(crate::specs::Arguments::constant_in, crate::specs::Options::and_then, crate::specs::Options::where_so))]
pub fn word_in(t: &Ty) -> Option<u32>
    ensures { result ≡ rule.word_in (ty_view t.now) }
{
    match t {
        Ty::Number(c) => word_of(*c),
        Ty::Fi(_, _) => None,
        Ty::Words(_) => None,
        Ty::Math(_) => None,
        Ty::Type(_) => None,
        Ty::Other => None,
    }
}

// The word length from 1 to 128 that a constant is.
fn word_of(c: Dyadic) -> Option<u32>
    ensures { result ≡ rule.word_in (number_view c) }
{
    match between(1, 128, c) {
        Some(n) => Some(n as u32),
        None => None,
    }
}

/// The fraction length from -256 to 256 that the value of a property is.
#[tactic(auto, unfolding(crate::specs::Arguments::constant_in, crate::specs::Options::and_then, crate::specs::Options::where_so))]
pub fn fraction_in(t: &Ty) -> Option<i32>
    ensures { result ≡ rule.fraction_in (ty_view t.now) }
{
    match t {
        Ty::Number(c) => between(-256, 256, *c),
        Ty::Fi(_, _) => None,
        Ty::Words(_) => None,
        Ty::Math(_) => None,
        Ty::Type(_) => None,
        Ty::Other => None,
    }
}

/// The rounding method that the value of a property names.
#[tactic(auto, unfolding(crate::specs::Arguments::text_in, crate::specs::Options::and_then))]
pub fn rounding_in(t: &Ty) -> Option<Rounding>
    ensures { result ≡ rule.rounding_in (ty_view t.now) }
{
    match t {
        Ty::Words(text) => rounding_named(text.as_bytes()),
        Ty::Fi(_, _) => None,
        Ty::Number(_) => None,
        Ty::Math(_) => None,
        Ty::Type(_) => None,
        Ty::Other => None,
    }
}

/// The overflow action that the value of a property names.
#[tactic(auto, unfolding(crate::specs::Arguments::text_in, crate::specs::Options::and_then))]
pub fn overflow_in(t: &Ty) -> Option<Overflow>
    ensures { result ≡ rule.overflow_in (ty_view t.now) }
{
    match t {
        Ty::Words(text) => overflow_named(text.as_bytes()),
        Ty::Fi(_, _) => None,
        Ty::Number(_) => None,
        Ty::Math(_) => None,
        Ty::Type(_) => None,
        Ty::Other => None,
    }
}

/// The mode that the value of a property names.
#[tactic(auto, unfolding(crate::specs::Arguments::text_in, crate::specs::Options::and_then))]
pub fn mode_in(t: &Ty) -> Option<Mode>
    ensures { result ≡ rule.mode_in (ty_view t.now) }
{
    match t {
        Ty::Words(text) => mode_named(text.as_bytes()),
        Ty::Fi(_, _) => None,
        Ty::Number(_) => None,
        Ty::Math(_) => None,
        Ty::Type(_) => None,
        Ty::Other => None,
    }
}

// The rounding method of a name.
#[tactic(auto, unfolding(crate::specs::Options::named))]
fn rounding_named(name: &[u8]) -> Option<Rounding>
    ensures { result ≡ named rule.roundings name.now }
{
    if is_text(name, b"Ceiling".as_slice()) {
        Some(Rounding::Ceiling)
    } else if is_text(name, b"Floor".as_slice()) {
        Some(Rounding::Floor)
    } else if is_text(name, b"Zero".as_slice()) {
        Some(Rounding::Zero)
    } else if is_text(name, b"Nearest".as_slice()) {
        Some(Rounding::Nearest)
    } else if is_text(name, b"Round".as_slice()) {
        Some(Rounding::Round)
    } else if is_text(name, b"Convergent".as_slice()) {
        Some(Rounding::Convergent)
    } else {
        None
    }
}

// The overflow action of a name.
#[tactic(auto, unfolding(crate::specs::Options::named))]
fn overflow_named(name: &[u8]) -> Option<Overflow>
    ensures { result ≡ named rule.overflows name.now }
{
    if is_text(name, b"Saturate".as_slice()) {
        Some(Overflow::Saturate)
    } else if is_text(name, b"Wrap".as_slice()) {
        Some(Overflow::Wrap)
    } else {
        None
    }
}

// The mode of a name.
#[tactic(auto, unfolding(crate::specs::Options::named))]
fn mode_named(name: &[u8]) -> Option<Mode>
    ensures { result ≡ named rule.modes name.now }
{
    if is_text(name, b"FullPrecision".as_slice()) {
        Some(Mode::FullPrecision)
    } else if is_text(name, b"KeepLSB".as_slice()) {
        Some(Mode::KeepLSB)
    } else if is_text(name, b"KeepMSB".as_slice()) {
        Some(Mode::KeepMSB)
    } else if is_text(name, b"SpecifyPrecision".as_slice()) {
        Some(Mode::SpecifyPrecision)
    } else {
        None
    }
}
