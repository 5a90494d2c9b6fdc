//! Names that are looked up.

ghost use Rattle.std.specs.Prelude.{◌≡◌, bytes_eq};

/// Whether a name is this text.
pub fn is_text(name: &[u8], text: &[u8]) -> bool
    ensures { result ≡ bytes_eq text.now name.now }
{
    text == name
}
