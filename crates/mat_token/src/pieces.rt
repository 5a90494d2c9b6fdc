//! How long the pieces of a source are.

ghost use Rattle.std.specs.Prelude.{◌≡◌, ◌+◌, ◌<◌, ◌≤◌, ℕ, length, drop, slice_index, true, false, IfSome};
ghost use Rattle.fic_base.specs.Decimal.{is_exponent_letter};
ghost use Rattle.mat_token.specs.Pieces.{line_len, full_line_len, comment_len, word_len, head_len, digits_len, starts_point, fraction_len, mantissa_len, exponent_head, exponent_len, unit_len, real_len, number_len, closing_len, text_len, operator_len};
ghost use Rattle.mat_token.specs.Texts.{takes_point, is_operator, is_long_operator, is_one_of};
ghost use Rattle.mat_token.specs.Bytes.{is_name_byte};
ghost use Rattle.std.specs.List.{prefix_len};

use crate::bytes::{byte, is_line_byte, is_printable};
use fic_base::{is_digit, is_name_byte};

/// How many bytes stand before the end of the line.
fn line_len(s: &[u8]) -> usize
    ensures exact { result ≡ line_len s.now }
    ensures within { result ≤ length s.now }
{
    let mut at = 0;
    while at < s.len() && is_line_byte(s[at]) {
        at += 1;
    }
    at
}

/// The length of the line with its end.
pub(crate) fn full_line_len(s: &[u8]) -> usize
    requires { 0 < length s.now }
    ensures exact { result ≡ full_line_len s.now }
    ensures within { (0 < result) × (result ≤ length s.now) }
{
    let line = line_len(s);
    if line < s.len() { line + 1 } else { s.len() }
}

/// The length of a byte and the rest of its line.
pub(crate) fn comment_len(s: &[u8]) -> usize
    requires { 0 < length s.now }
    ensures exact { result ≡ comment_len s.now }
    ensures within { result ≤ length s.now }
{
    1 + line_len(s.split_at(1).1)
}

/// How many letters, digits and `_` come first.
fn name_bytes(s: &[u8]) -> usize
    ensures exact { result ≡ prefix_len is_name_byte s.now }
    ensures within { result ≤ length s.now }
{
    let mut at = 0;
    while at < s.len() && is_name_byte(s[at]) {
        at += 1;
    }
    at
}

/// The length of a byte and the letters, digits and `_` that follow.
pub(crate) fn word_len(s: &[u8]) -> usize
    requires { 0 < length s.now }
    ensures exact { result ≡ word_len s.now }
    ensures within { result ≤ length s.now }
{
    1 + name_bytes(s.split_at(1).1)
}

/// How many digits come first.
fn digits_len(s: &[u8]) -> usize
    ensures exact { result ≡ digits_len s.now }
    ensures within { result ≤ length s.now }
{
    let mut at = 0;
    while at < s.len() && is_digit(s[at]) {
        at += 1;
    }
    at
}

/// Whether a byte after the point of a number makes the point part of an operator.
fn takes_point(b: u8) -> bool
    ensures { result ≡ takes_point b }
{
    b == b'*' || b == b'/' || b == b'\\' || b == b'^' || b == b'\''
}

/// Whether a point that belongs to the digits before it comes first.
fn starts_point(s: &[u8]) -> bool
    ensures { result ≡ starts_point s.now }
{
    let next = byte(s, 1);
    byte(s, 0) == b'.' && !takes_point(next) && !(next == b'.' && byte(s, 2) == b'.')
}

/// The length of a point and the digits after it.
fn fraction_len(s: &[u8]) -> usize
    ensures exact { result ≡ fraction_len s.now }
    ensures within { result ≤ length s.now }
{
    if starts_point(s) && !s.is_empty() {
        1 + digits_len(s.split_at(1).1)
    } else {
        0
    }
}

/// The length of a digit or a point, and of the digits that follow.
fn head_len(s: &[u8]) -> usize
    requires { 0 < length s.now }
    ensures exact { result ≡ head_len s.now }
    ensures within { (0 < result) × (result ≤ length s.now) }
{
    1 + digits_len(s.split_at(1).1)
}

/// The length of digits, of digits with a point and digits, or of a point with digits.
fn mantissa_len(s: &[u8]) -> usize
    requires { 0 < length s.now }
    ensures exact { result ≡ mantissa_len s.now }
    ensures within { (0 < result) × (result ≤ length s.now) }
{
    let head = head_len(s);
    if is_digit(byte(s, 0)) {
        head + fraction_len(s.split_at(head).1)
    } else {
        head
    }
}

/// Whether a byte begins an exponent: `e`, `E`, `d` or `D`.
fn is_exponent_letter(b: u8) -> bool
    ensures { result ≡ is_exponent_letter b }
{
    b == b'e' || b == b'E' || b == b'd' || b == b'D'
}

/// The length of an exponent's letter with its sign.
fn exponent_head(s: &[u8]) -> usize
    ensures { result ≡ exponent_head s.now }
{
    let next = byte(s, 1);
    if next == b'+' || next == b'-' { 2 } else { 1 }
}

/// The length of an exponent, or 0 where none comes first.
fn exponent_len(s: &[u8]) -> usize
    ensures exact { result ≡ exponent_len s.now }
    ensures within { result ≤ length s.now }
{
    let head = exponent_head(s);
    if !is_exponent_letter(byte(s, 0)) || s.len() < head {
        return 0;
    }
    let digits = digits_len(s.split_at(head).1);
    if 0 < digits { head + digits } else { 0 }
}

/// 1 where the `i` or `j` of an imaginary number comes first, else 0.
fn unit_len(s: &[u8]) -> usize
    ensures exact { result ≡ unit_len s.now }
    ensures within { result ≤ length s.now }
{
    let first = byte(s, 0);
    if first == b'i' || first == b'j' {
        if is_name_byte(byte(s, 1)) { 0 } else { 1 }
    } else {
        0
    }
}

/// The length of a number without its `i` or `j`.
fn real_len(s: &[u8]) -> usize
    requires { 0 < length s.now }
    ensures exact { result ≡ real_len s.now }
    ensures within { (0 < result) × (result ≤ length s.now) }
{
    let mantissa = mantissa_len(s);
    mantissa + exponent_len(s.split_at(mantissa).1)
}

/// The length of a number.
pub(crate) fn number_len(s: &[u8]) -> usize
    requires { 0 < length s.now }
    ensures exact { result ≡ number_len s.now }
    ensures within { (0 < result) × (result ≤ length s.now) }
{
    let real = real_len(s);
    real + unit_len(s.split_at(real).1)
}

/// How long the rest of a text is, with its closing quote; None where nothing closes it.
fn closing_len(s: &[u8], quote: u8) -> Option<usize>
    ensures exact { result ≡ closing_len quote false s.now }
    ensures within { IfSome result (λ n. n ≤ length s.now) }
{
    let mut half = false;
    let mut at = 0;
    while at < s.len() {
        let b = s[at];
        if b == quote {
            half = !half;
        } else if half {
            return Some(at);
        } else if !is_printable(b) {
            return None;
        }
        at += 1;
    }
    if half { Some(at) } else { None }
}

/// The length of a text with its quotes; None where nothing closes it.
pub(crate) fn text_len(s: &[u8]) -> Option<usize>
    requires { 0 < length s.now }
    ensures exact { result ≡ text_len s.now }
    ensures within { IfSome result (λ n. (0 < n) × (n ≤ length s.now)) }
{
    match closing_len(s.split_at(1).1, byte(s, 0)) {
        None => None,
        Some(rest) => Some(1 + rest),
    }
}

/// Whether a byte is an operator.
fn is_operator(b: u8) -> bool
    ensures { result ≡ is_operator b }
{
    match b {
        b'+' | b'-' | b'*' | b'/' | b'\\' | b'^' | b'\'' | b'=' | b'<' | b'>' => true,
        b'&' | b'|' | b'~' | b':' | b',' | b';' | b'(' | b')' | b'[' | b']' => true,
        _ => false,
    }
}

/// Whether two bytes are an operator.
fn is_long_operator(first: u8, second: u8) -> bool
    ensures exact { result ≡ is_long_operator first second }
    ensures second { result ≡ true → 0 < second }
{
    match (first, second) {
        (b'.', b'*' | b'/' | b'\\' | b'^' | b'\'') => true,
        (b'=' | b'~' | b'<' | b'>', b'=') => true,
        (b'&', b'&') | (b'|', b'|') => true,
        _ => false,
    }
}

/// The length of the longest operator that comes first; None where none does.
pub(crate) fn operator_len(s: &[u8]) -> Option<usize>
    requires { 0 < length s.now }
    ensures exact { result ≡ operator_len s.now }
    ensures within { IfSome result (λ n. (0 < n) × (n ≤ length s.now)) }
{
    let first = byte(s, 0);
    if is_long_operator(first, byte(s, 1)) {
        Some(2)
    } else if is_operator(first) {
        Some(1)
    } else {
        None
    }
}
