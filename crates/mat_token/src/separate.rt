//! The separators of brackets: blanks between two elements.

ghost use Rattle.std.specs.Prelude.{◌≡◌, ◌++◌, IfOk, IfErr, OnOk, take, drop, false, []};
ghost use Rattle.num_type.specs.declared.memory.Stop.TheVariants.{Memory};
ghost use Rattle.mat_token.specs.Lexeme.{text_of};
ghost use Rattle.mat_token.specs.Brackets.{behind, op_begins_operand, begins_operand, is_separated, separator_at, with_separator, separated};

use crate::bytes::{from, starts_blank, starts_dots};
use crate::nesting::Nesting;
use crate::rule::ends_operand;
use crate::scan::add;
use crate::token::{Kind, Token};
use fic_base::{Place, Refusal};
use num_type::Stop;
use std::alloc::Global;

/// The first bytes, as many as there are.
fn up_to(s: &[u8], len: usize) -> &[u8]
    ensures { result.now ≡ take len s.now }
{
    if len <= s.len() { s.split_at(len).0 } else { s }
}

/// The text of a token of these bytes.
fn text_of(bytes: &[u8], token: Token) -> &[u8]
    ensures { result.now ≡ text_of bytes.now token }
{
    up_to(from(bytes, token.place.offset as usize), token.len as usize)
}

/// The bytes behind a token.
fn behind(bytes: &[u8], token: Token) -> &[u8]
    ensures { result.now ≡ behind bytes.now token }
{
    from(from(bytes, token.place.offset as usize), token.len as usize)
}

/// Whether an operand begins with an operator, behind which the rest stands.
fn op_begins_operand(text: &[u8], rest: &[u8]) -> bool
    ensures { result ≡ op_begins_operand text.now rest.now }
{
    match text {
        b"(" | b"[" | b"~" => true,
        b"+" | b"-" => !starts_blank(rest) && !starts_dots(rest),
        _ => false,
    }
}

/// Whether an operand begins with a token, behind which the rest stands.
fn begins_operand(kind: Kind, text: &[u8], rest: &[u8]) -> bool
    ensures { result ≡ begins_operand kind text.now rest.now }
{
    match kind {
        Kind::Name | Kind::Number | Kind::Words => true,
        Kind::Keyword => matches!(text, b"end"),
        Kind::Op => op_begins_operand(text, rest),
        Kind::Newline | Kind::Separator | Kind::Finish => false,
    }
}

/// Whether a separator stands before a token.
fn is_separated(bytes: &[u8], brackets: &Nesting, operand: bool, token: Token) -> bool
    ensures { result ≡ is_separated bytes.now brackets.now operand token }
{
    brackets.is_in_square()
        && operand
        && token.blank_before
        && begins_operand(token.kind, text_of(bytes, token), behind(bytes, token))
}

/// The separator before the token at a place.
fn separator_at(place: Place) -> Token
    ensures { result ≡ separator_at place }
{
    Token {
        place,
        len: 0,
        kind: Kind::Separator,
        blank_before: true,
    }
}

/// Adds a token, with a separator before it where one stands there. Want of memory is its only refusal.
fn add_separated(out: &mut Vec<Token>, separated: bool, token: Token) -> Result<(), Stop<Refusal>>
    ensures tokens { OnOk result (out.new.items ≡ out.old.items ++ with_separator separated token) }
    ensures memory { IfErr result (λ stop. stop ≡ Memory) }
{
    if separated {
        match add(out, separator_at(token.place)) {
            Err(stop) => return Err(stop),
            Ok(()) => {}
        }
    }
    add(out, token)
}

/// The tokens with the separators of brackets put in. Want of memory is its only refusal.
pub(crate) fn separate(
    alloc: Global,
    bytes: &[u8],
    tokens: &[Token],
) -> Result<Vec<Token>, Stop<Refusal>>
    ensures tokens { IfOk result (λ ts. ts.items ≡ separated bytes.now [] false tokens.now) }
    ensures memory { IfErr result (λ stop. stop ≡ Memory) }
{
    let mut out = Vec::new(alloc);
    let mut brackets = Nesting::new(alloc);
    let mut operand = false;
    for token in tokens {
        let separated = is_separated(bytes, &brackets, operand, *token);
        add_separated(&mut out, separated, *token)?;
        let text = text_of(bytes, *token);
        brackets.pass(text)?;
        operand = ends_operand(token.kind, text);
    }
    Ok(out)
}
