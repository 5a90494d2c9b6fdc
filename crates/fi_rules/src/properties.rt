//! Fimath objects from the names and values of their properties.

ghost use Rattle.std.specs.Prelude.{◌≡◌, ◌≤◌, ◌+◌, ◌*◌, [], None, Some, if◌then◌else◌, drop, length, map, bytes_eq};
ghost use Rattle.std.specs.List.{list_any};
ghost use Rattle.fi_math.specs.Govern.{usual};
ghost use Rattle.fi_rules.specs.Arguments as arguments;
ghost use Rattle.fi_rules.specs.Options.{◌|>◌, named};
ghost use Rattle.fi_rules.specs.Properties as rule;
ghost use Rattle.fi_rules.specs.View.{ty_view};

use crate::arguments::{bit_in, fraction_in, mode_in, overflow_in, rounding_in, word_in};
use crate::names::is_text;
use crate::ty::Ty;
use fi_math::Fimath;

/// The fimath with these properties in place of the defaults: pairs of names and values. None where a name is no text, stands twice or is no
/// property's, or a value isn't one of it.
pub fn properties(args: &[Ty]) -> Option<Fimath>
    ensures { result ≡ rule.with_properties (map ty_view args.now) [] usual }
{
    from_pair(args, 0, Fimath::usual())
}

// The same for the pairs from one on, behind those that have been set.
fn from_pair(args: &[Ty], pairs: usize, m: Fimath) -> Option<Fimath>
    requires { pairs * 2 ≤ length args.now }
    ensures { result ≡ rule.with_properties (drop (pairs * 2) (map ty_view args.now)) (rule.names_before pairs (map ty_view args.now)) m }
{
    let left = args.len() - pairs * 2;
    if left == 0 {
        Some(m)
    } else if left == 1 {
        None
    } else {
        match set_pair(args, pairs, m) {
            Some(n) => from_pair(args, pairs + 1, n),
            None => None,
        }
    }
}

// The fimath with the property of one pair.
fn set_pair(args: &[Ty], pairs: usize, m: Fimath) -> Option<Fimath>
    requires { pairs * 2 + 2 ≤ length args.now }
    ensures { rule.with_properties (drop (pairs * 2) (map ty_view args.now)) (rule.names_before pairs (map ty_view args.now)) m ≡ (result |> rule.with_properties (drop ((pairs + 1) * 2) (map ty_view args.now)) (rule.names_before (pairs + 1) (map ty_view args.now))) }
{
    let at = pairs * 2;
    let next = at + 1;
    match &args[at] {
        Ty::Words(name) => set_new(args, pairs, name.as_bytes(), &args[next], m),
        Ty::Fi(_, _) => None,
        Ty::Number(_) => None,
        Ty::Math(_) => None,
        Ty::Type(_) => None,
        Ty::Other => None,
    }
}

// The fimath with a named property that stands in none of the first pairs.
fn set_new(args: &[Ty], pairs: usize, name: &[u8], t: &Ty, m: Fimath) -> Option<Fimath>
    requires { pairs * 2 ≤ length args.now }
    ensures { result ≡ (if list_any (bytes_eq name.now) (rule.names_before pairs (map ty_view args.now)) then None else rule.with_property name.now (ty_view t.now) m) }
{
    if is_set(args, pairs, name) {
        None
    } else {
        set(name, t, m)
    }
}

// Whether a name stands in one of the first pairs.
fn is_set(args: &[Ty], pairs: usize, name: &[u8]) -> bool
    requires { pairs * 2 ≤ length args.now }
    ensures { result ≡ list_any (bytes_eq name.now) (rule.names_before pairs (map ty_view args.now)) }
{
    if pairs == 0 {
        false
    } else if is_name(&args[(pairs - 1) * 2], name) {
        true
    } else {
        is_set(args, pairs - 1, name)
    }
}

// Whether an argument is this name; what is no text counts as the empty name.
#[tactic(auto, unfolding(crate::specs::Arguments::text_in))]
fn is_name(t: &Ty, name: &[u8]) -> bool
    ensures { result ≡ bytes_eq name.now (rule.name_in (ty_view t.now)) }
{
    match t {
        Ty::Words(text) => name == text.as_bytes(),
        Ty::Fi(_, _) => name.is_empty(),
        Ty::Number(_) => name.is_empty(),
        Ty::Math(_) => name.is_empty(),
        Ty::Type(_) => name.is_empty(),
        Ty::Other => name.is_empty(),
    }
}

// The fimath with the named property set.
#[tactic(auto, unfolding(crate::specs::Properties::with_property, crate::specs::Options::named, crate::specs::Options::and_then))]
fn set(name: &[u8], t: &Ty, m: Fimath) -> Option<Fimath>
    ensures { result ≡ rule.with_property name.now (ty_view t.now) m }
{
    if is_text(name, b"RoundingMethod".as_slice()) {
        set_rounding(t, m)
    } else if is_text(name, b"OverflowAction".as_slice()) {
        set_overflow(t, m)
    } else {
        set_of_product(name, t, m)
    }
}

// The same of the properties behind those of rounding and overflow.
#[tactic(auto, unfolding(crate::specs::Options::named, crate::specs::Options::and_then))]
fn set_of_product(name: &[u8], t: &Ty, m: Fimath) -> Option<Fimath>
    ensures { result ≡ (named (drop 2 rule.setters) name.now |> (λ set. set (ty_view t.now) m)) }
{
    if is_text(name, b"ProductMode".as_slice()) {
        set_product_mode(t, m)
    } else if is_text(name, b"ProductWordLength".as_slice()) {
        set_product_word(t, m)
    } else if is_text(name, b"ProductFractionLength".as_slice()) {
        set_product_fraction(t, m)
    } else {
        set_of_sum(name, t, m)
    }
}

// The same of the properties of sums.
#[tactic(auto, unfolding(crate::specs::Options::named, crate::specs::Options::and_then))]
fn set_of_sum(name: &[u8], t: &Ty, m: Fimath) -> Option<Fimath>
    ensures { result ≡ (named (drop 5 rule.setters) name.now |> (λ set. set (ty_view t.now) m)) }
{
    if is_text(name, b"SumMode".as_slice()) {
        set_sum_mode(t, m)
    } else if is_text(name, b"SumWordLength".as_slice()) {
        set_sum_word(t, m)
    } else if is_text(name, b"SumFractionLength".as_slice()) {
        set_sum_fraction(t, m)
    } else if is_text(name, b"CastBeforeSum".as_slice()) {
        set_cast(t, m)
    } else {
        None
    }
}

#[tactic(auto, unfolding(crate::specs::Options::and_then))]
fn set_rounding(t: &Ty, m: Fimath) -> Option<Fimath>
    ensures { result ≡ (arguments.rounding_in (ty_view t.now) |> (λ r. Some (record m { rounding = r }))) }
{
    match rounding_in(t) {
        Some(rounding) => Some(Fimath { rounding, ..m }),
        None => None,
    }
}

#[tactic(auto, unfolding(crate::specs::Options::and_then))]
fn set_overflow(t: &Ty, m: Fimath) -> Option<Fimath>
    ensures { result ≡ (arguments.overflow_in (ty_view t.now) |> (λ a. Some (record m { overflow = a }))) }
{
    match overflow_in(t) {
        Some(overflow) => Some(Fimath { overflow, ..m }),
        None => None,
    }
}

#[tactic(auto, unfolding(crate::specs::Options::and_then))]
fn set_product_mode(t: &Ty, m: Fimath) -> Option<Fimath>
    ensures { result ≡ (arguments.mode_in (ty_view t.now) |> (λ p. Some (record m { product_mode = p }))) }
{
    match mode_in(t) {
        Some(product_mode) => Some(Fimath { product_mode, ..m }),
        None => None,
    }
}

#[tactic(auto, unfolding(crate::specs::Options::and_then))]
fn set_product_word(t: &Ty, m: Fimath) -> Option<Fimath>
    ensures { result ≡ (arguments.word_in (ty_view t.now) |> (λ w. Some (record m { product_word = w }))) }
{
    match word_in(t) {
        Some(product_word) => Some(Fimath { product_word, ..m }),
        None => None,
    }
}

#[tactic(auto, unfolding(crate::specs::Options::and_then))]
fn set_product_fraction(t: &Ty, m: Fimath) -> Option<Fimath>
    ensures { result ≡ (arguments.fraction_in (ty_view t.now) |> (λ f. Some (record m { product_fraction = f }))) }
{
    match fraction_in(t) {
        Some(product_fraction) => Some(Fimath {
            product_fraction,
            ..m
        }),
        None => None,
    }
}

#[tactic(auto, unfolding(crate::specs::Options::and_then))]
fn set_sum_mode(t: &Ty, m: Fimath) -> Option<Fimath>
    ensures { result ≡ (arguments.mode_in (ty_view t.now) |> (λ p. Some (record m { sum_mode = p }))) }
{
    match mode_in(t) {
        Some(sum_mode) => Some(Fimath { sum_mode, ..m }),
        None => None,
    }
}

#[tactic(auto, unfolding(crate::specs::Options::and_then))]
fn set_sum_word(t: &Ty, m: Fimath) -> Option<Fimath>
    ensures { result ≡ (arguments.word_in (ty_view t.now) |> (λ w. Some (record m { sum_word = w }))) }
{
    match word_in(t) {
        Some(sum_word) => Some(Fimath { sum_word, ..m }),
        None => None,
    }
}

#[tactic(auto, unfolding(crate::specs::Options::and_then))]
fn set_sum_fraction(t: &Ty, m: Fimath) -> Option<Fimath>
    ensures { result ≡ (arguments.fraction_in (ty_view t.now) |> (λ f. Some (record m { sum_fraction = f }))) }
{
    match fraction_in(t) {
        Some(sum_fraction) => Some(Fimath { sum_fraction, ..m }),
        None => None,
    }
}

#[tactic(auto, unfolding(crate::specs::Options::and_then))]
fn set_cast(t: &Ty, m: Fimath) -> Option<Fimath>
    ensures { result ≡ (arguments.bit_in (ty_view t.now) |> (λ b. Some (record m { cast_before_sum = b }))) }
{
    match bit_in(t) {
        Some(cast_before_sum) => Some(Fimath {
            cast_before_sum,
            ..m
        }),
        None => None,
    }
}
