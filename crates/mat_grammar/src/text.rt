//! The texts of numbers and texts.

ghost use Rattle.std.specs.Prelude.{◌≡◌, IfOk, ◌||◌, nat_eq};
ghost use Rattle.mat_grammar.specs.Spelling.{has_unit};
ghost use Rattle.mat_grammar.specs.Words.{digits_of, undoubled, unquoted};

use fic_base::Text;
use std::alloc::{AllocError, Global};

fn is_unit(byte: u8) -> bool
    ensures { result ≡ (nat_eq byte 105 || nat_eq byte 106) }
{
    byte == b'i' || byte == b'j'
}

fn is_quote(byte: u8) -> bool
    ensures { result ≡ (nat_eq byte 39 || nat_eq byte 34) }
{
    byte == b'\'' || byte == b'"'
}

/// Whether the text of a number ends in its imaginary unit.
pub fn has_unit(own: &[u8]) -> bool
    ensures { result ≡ has_unit own.now }
{
    match own.split_last() {
        None => false,
        Some((last, _)) => is_unit(*last),
    }
}

/// The digits of a number's text.
pub fn digits(own: &[u8]) -> &[u8]
    ensures { result.now ≡ digits_of own.now }
{
    match own.split_last() {
        None => own,
        Some((last, front)) => {
            if is_unit(*last) {
                return front;
            }
            own
        }
    }
}

/// What a text is behind its opening quote, up to its closing quote at the end; none if it has no such form.
fn unescaped(alloc: Global, quote: u8, own: &[u8]) -> Result<Option<Text>, AllocError>
    ensures { IfOk result (λ found. found ≡ undoubled quote own.now) }
{
    let mut text = Vec::new(alloc);
    let mut at = 0;
    while at < own.len() {
        let byte = own[at];
        if byte != quote {
            text.push(byte)?;
            at += 1;
        } else if own.len() - at == 1 {
            return Ok(Some(Text::from_vec(text)));
        } else if own[at + 1] == quote {
            text.push(byte)?;
            at += 2;
        } else {
            return Ok(None);
        }
    }
    Ok(None)
}

/// What stands between the quotes of a text; none if it has no such form. Want of memory is its only refusal.
pub fn unquoted(alloc: Global, own: &[u8]) -> Result<Option<Text>, AllocError>
    ensures { IfOk result (λ found. found ≡ unquoted own.now) }
{
    match own.split_first() {
        None => Ok(None),
        Some((quote, rest)) => {
            if is_quote(*quote) {
                return unescaped(alloc, *quote, rest);
            }
            Ok(None)
        }
    }
}
