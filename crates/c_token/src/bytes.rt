//! Kinds of bytes, and how long runs of them are.

ghost use Rattle.std.specs.Prelude.{◌≡◌, ◌≤◌, ◌||◌, ◌==◌, length};
ghost use Rattle.std.specs.List.{prefix_len};
ghost use Rattle.fic_base.specs.Names.{is_letter, is_digit, is_name_byte};
ghost use Rattle.c_tree.specs.CText.{is_blank};

use fic_base::{is_digit, is_letter, is_name_byte};

/// Whether a word may begin with a byte: a letter or `_`.
pub(crate) fn begins_word(b: u8) -> bool
    ensures { result ≡ (is_letter b || b == 95) }
{
    is_letter(b) || b == b'_'
}

/// Whether a byte is a blank: a space, a tab or a newline.
fn is_blank(b: u8) -> bool
    ensures { result ≡ is_blank b }
{
    b == b' ' || b == b'\t' || b == b'\n'
}

/// How many letters, digits and `_` come first.
pub(crate) fn name_bytes(s: &[u8]) -> usize
    ensures exact { result ≡ prefix_len is_name_byte s.now }
    ensures within { result ≤ length s.now }
{
    let mut at = 0;
    while at < s.len() && is_name_byte(s[at]) {
        at += 1;
    }
    at
}

/// How many digits come first.
pub(crate) fn digits(s: &[u8]) -> usize
    ensures exact { result ≡ prefix_len is_digit s.now }
    ensures within { result ≤ length s.now }
{
    let mut at = 0;
    while at < s.len() && is_digit(s[at]) {
        at += 1;
    }
    at
}

/// How many blanks come first.
pub(crate) fn blanks(s: &[u8]) -> usize
    ensures exact { result ≡ prefix_len is_blank s.now }
    ensures within { result ≤ length s.now }
{
    let mut at = 0;
    while at < s.len() && is_blank(s[at]) {
        at += 1;
    }
    at
}
