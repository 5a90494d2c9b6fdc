//! Bytes of a source, and what its lines look like.

ghost use Rattle.std.specs.Prelude.{◌≡◌, slice_index, drop};
ghost use Rattle.mat_token.specs.Bytes.{is_line_byte, is_printable, starts_blank, starts_dots, rest_is_blank, starts_mark, line_marks};

/// The byte at an index, or 0 past the end.
pub(crate) fn byte(s: &[u8], at: usize) -> u8
    ensures { result ≡ slice_index s.now at }
{
    if at < s.len() { s[at] } else { 0 }
}

/// Whether a byte is no line feed.
pub(crate) fn is_line_byte(b: u8) -> bool
    ensures { result ≡ is_line_byte b }
{
    b != b'\n'
}

/// Whether a byte may stand in a text.
pub(crate) fn is_printable(b: u8) -> bool
    ensures { result ≡ is_printable b }
{
    32 <= b && b <= 126
}

/// Whether a blank comes first: a space, a tab, or a carriage return directly before a line feed.
pub(crate) fn starts_blank(s: &[u8]) -> bool
    ensures { result ≡ starts_blank s.now }
{
    let first = byte(s, 0);
    first == b' ' || first == b'\t' || (first == b'\r' && byte(s, 1) == b'\n')
}

/// Whether `...` comes first.
pub(crate) fn starts_dots(s: &[u8]) -> bool
    ensures { result ≡ starts_dots s.now }
{
    byte(s, 0) == b'.' && byte(s, 1) == b'.' && byte(s, 2) == b'.'
}

/// Whether only blanks stand before the end of the line.
pub(crate) fn rest_is_blank(s: &[u8]) -> bool
    ensures { result ≡ rest_is_blank s.now }
{
    let mut at = 0;
    while at < s.len() && starts_blank(s.split_at(at).1) {
        at += 1;
    }
    at == s.len() || s[at] == b'\n'
}

/// The bytes from an index on.
pub(crate) fn from(s: &[u8], at: usize) -> &[u8]
    ensures { result.now ≡ drop at s.now }
{
    if at <= s.len() {
        s.split_at(at).1
    } else {
        s.split_at(s.len()).1
    }
}

/// Whether `%`, this byte and nothing but blanks stand before the end of the line.
pub(crate) fn starts_mark(s: &[u8], brace: u8) -> bool
    ensures { result ≡ starts_mark brace s.now }
{
    byte(s, 0) == b'%' && byte(s, 1) == brace && rest_is_blank(from(s, 2))
}

/// Whether only blanks and `%` with this byte stand before the end of the line.
pub(crate) fn line_marks(s: &[u8], brace: u8) -> bool
    ensures { result ≡ line_marks brace s.now }
{
    let mut at = 0;
    while at < s.len() && starts_blank(s.split_at(at).1) {
        at += 1;
    }
    at < s.len() && starts_mark(from(s, at), brace)
}
