//! The longest token that comes first.

ghost use Rattle.std.specs.Prelude.{◌≡◌, bytes_eq, IsFalse};
ghost use Rattle.std.specs.List.{list_any};
ghost use Rattle.c_tree.specs.CText.{is_sign};
ghost use Rattle.c_token.specs.Scan.{IsLength, begins_name_byte};

use crate::bytes::{begins_word, digits, name_bytes};
use fic_base::is_digit;

/// The operators, brackets, commas, colons and semicolons (6.4.6).
static SIGNS: [&str; 25] = [
    "(", ")", "[", "]", "{", "}", ",", ";", ":", "?", "=", "==", "!=", "<", "<=", ">", ">=", "+",
    "-", "*", "&", "|", "^", "<<", ">>",
];

/// Whether a text is one of these.
fn is_among(text: &[u8], texts: &[&str]) -> bool
    ensures { result ≡ list_any (λ t. bytes_eq text.now t.now) texts.now }
{
    texts.iter().any(|t| text == t.as_bytes())
}

/// Whether a text is a sign.
fn is_sign(text: &[u8]) -> bool
    ensures { result ≡ is_sign text.now }
{
    is_among(text, &SIGNS)
}

/// The length of the longest sign that comes first, in bytes; 0 where none does.
fn sign_len(s: &[u8]) -> usize
    requires { IsFalse (begins_name_byte s.now) }
    ensures { IsLength result s.now }
{
    if s.len() < 2 {
        if is_sign(s) {
            return s.len();
        }
        return 0;
    }
    if is_sign(s.split_at(2).0) {
        return 2;
    }
    if is_sign(s.split_at(1).0) {
        return 1;
    }
    0
}

/// The length of the longest token that comes first, in bytes; 0 where none does.
pub(crate) fn token_len(s: &[u8]) -> usize
    ensures { IsLength result s.now }
{
    match s.split_first() {
        None => 0,
        Some((first, rest)) => {
            if begins_word(*first) {
                return 1 + name_bytes(rest);
            }
            if is_digit(*first) {
                return 1 + digits(rest);
            }
            sign_len(s)
        }
    }
}
