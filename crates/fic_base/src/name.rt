//! Names of functions and variables, and the words that are none.

ghost use Rattle.std.specs.Prelude.{◌≡◌, ◌↔◌, IsTrue, bytes_eq};
ghost use Rattle.std.specs.List.{list_any, list_all};
ghost use Rattle.fic_base.specs.Names.{IsName, is_letter, is_digit, is_name_byte, is_keyword, begins_with_letter};

/// The most bytes of a name.
const NAME_MAX: usize = 63;

/// The keywords, and the words that are reserved.
static KEYWORDS: [&str; 20] = [
    "function",
    "end",
    "if",
    "elseif",
    "else",
    "for",
    "while",
    "break",
    "continue",
    "switch",
    "case",
    "otherwise",
    "return",
    "try",
    "catch",
    "global",
    "persistent",
    "parfor",
    "spmd",
    "classdef",
];

/// Whether a byte is a letter.
pub fn is_letter(b: u8) -> bool
    ensures { result ≡ is_letter b }
{
    (65 <= b && b <= 90) || (97 <= b && b <= 122)
}

/// Whether a byte is a decimal digit.
pub fn is_digit(b: u8) -> bool
    ensures { result ≡ is_digit b }
{
    48 <= b && b <= 57
}

/// Whether a byte may stand in a name: a letter, a digit or `_`.
pub fn is_name_byte(b: u8) -> bool
    ensures { result ≡ is_name_byte b }
{
    is_letter(b) || is_digit(b) || b == b'_'
}

/// Whether a word is a name: a letter and then letters, digits and `_`, at most 63 bytes, and no keyword.
pub fn is_name(word: &[u8]) -> bool
    ensures { IsTrue result ↔ IsName word.now }
{
    if !starts_with_letter(word) {
        return false;
    }
    if !has_name_bytes(word) {
        return false;
    }
    if word.len() > NAME_MAX {
        return false;
    }
    !is_keyword(word)
}

fn starts_with_letter(word: &[u8]) -> bool
    ensures { result ≡ begins_with_letter word.now }
{
    match word.split_first() {
        Some((b, _)) => is_letter(*b),
        None => false,
    }
}

fn has_name_bytes(word: &[u8]) -> bool
    ensures { result ≡ list_all is_name_byte word.now }
{
    word.iter().all(|b| is_name_byte(*b))
}

fn is_among(word: &[u8], words: &[&str]) -> bool
    ensures { result ≡ list_any (λ w. bytes_eq word.now w.now) words.now }
{
    words.iter().any(|w| word == w.as_bytes())
}

/// Whether a word is a keyword or reserved.
pub fn is_keyword(word: &[u8]) -> bool
    ensures { result ≡ is_keyword word.now }
{
    is_among(word, &KEYWORDS)
}
