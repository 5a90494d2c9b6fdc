//! The built-in functions that are supported so far.

ghost use Rattle.std.specs.Prelude.{◌≡◌};
ghost use Rattle.fi_rules.specs.Calls.{built_in_named};

use crate::names::is_text;

/// A built-in function.
#[derive(Clone, Copy, Debug, PartialEq, Eq)]
pub enum BuiltIn {
    /// `abs`.
    Abs,
    /// `fi`.
    Fi,
    /// `numerictype`.
    Numerictype,
    /// `fimath`.
    Fimath,
    /// `setfimath`.
    SetFimath,
    /// `removefimath`.
    RemoveFimath,
    /// `cast`.
    Cast,
}

/// The built-in function of a name. None exactly where no supported one has it.
#[tactic(auto, unfolding(crate::specs::Calls::built_in_named, crate::specs::Options::named))]
pub fn built_in(name: &[u8]) -> Option<BuiltIn>
    ensures { result ≡ built_in_named name.now }
{
    if is_text(name, b"abs".as_slice()) {
        Some(BuiltIn::Abs)
    } else if is_text(name, b"fi".as_slice()) {
        Some(BuiltIn::Fi)
    } else if is_text(name, b"numerictype".as_slice()) {
        Some(BuiltIn::Numerictype)
    } else if is_text(name, b"fimath".as_slice()) {
        Some(BuiltIn::Fimath)
    } else if is_text(name, b"setfimath".as_slice()) {
        Some(BuiltIn::SetFimath)
    } else if is_text(name, b"removefimath".as_slice()) {
        Some(BuiltIn::RemoveFimath)
    } else if is_text(name, b"cast".as_slice()) {
        Some(BuiltIn::Cast)
    } else {
        None
    }
}
