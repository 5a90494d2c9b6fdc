//! The pieces of a text one after another, and the tokens that they give.

ghost use Rattle.std.specs.Prelude.{◌≡◌, ◌≢◌, ◌+◌, ◌<◌, ◌≤◌, ◌^◌, ◌∷◌, [], Some, None, length, IfOk, IfErr, MatchResult, OnOk, ◌++◌, Ok, ◌==◌, if◌then◌else◌};
ghost use Rattle.num_type.specs.declared.memory.Stop.TheVariants.{Memory};
ghost use Rattle.mat_token.specs.Rules.{rule_at, kind_of};
ghost use Rattle.mat_token.specs.Pieces.{piece_len};
ghost use Rattle.mat_token.specs.Reads.{ReadsWhole, Gives, Refuses, RefusesOnly, hex_digit, hex, code_of, shown_of, refusal_of, after_piece, tokens_of, token_of, outcome_at_end};

use crate::bytes::byte;
use crate::place::place_after;
use crate::rule::{Context, Rule, after_gap, after_token, kind_of, piece_len, rule_at};
use crate::token::{Kind, Token};
use fic_base::{Code, Place, Refusal, Text};
use num_type::Stop;
use std::alloc::{AllocError, Global};

/// A piece of a text.
#[derive(Clone, Copy)]
struct Piece {
    /// The rule that gives it.
    rule: Rule,
    /// Its length in bytes.
    len: usize,
}

/// The piece that comes first; where none does, the rule that gives none.
fn piece_at(s: &[u8], context: Context) -> Result<Piece, Rule>
    requires some { 0 < length s.now }
    requires depth { context.depth < 2 ^ 31 }
    ensures exact { MatchResult result
        (λ p. (p.rule ≡ rule_at context s.now) × (piece_len context (rule_at context s.now) s.now ≡ Some p.len))
        (λ rule. (rule ≡ rule_at context s.now) × (piece_len context (rule_at context s.now) s.now ≡ None)) }
    ensures within { IfOk result (λ p. (0 < p.len) × (p.len ≤ length s.now)) }
{
    let rule = rule_at(s, context);
    match piece_len(s, context, rule) {
        None => Err(rule),
        Some(len) => Ok(Piece { rule, len }),
    }
}

/// What is known after a piece with this text, which is a token of this kind or none.
fn after_piece(
    context: Context,
    place: Place,
    rule: Rule,
    text: &[u8],
    s: &[u8],
    kind: Option<Kind>,
) -> Context
    requires { context.depth < 2 ^ 31 }
    ensures exact { result ≡ after_piece context place rule text.now s.now kind }
    ensures within { result.depth ≤ context.depth + 1 }
{
    match kind {
        None => after_gap(context, place, rule, s),
        Some(kind) => after_token(context, kind, text),
    }
}

/// The token that stands at a place.
fn token_of(context: Context, place: Place, kind: Kind, len: usize) -> Token
    requires { len < 2 ^ 31 }
    ensures { result ≡ token_of context place kind len }
{
    Token {
        place,
        len: len as u32,
        kind,
        blank_before: context.gap,
    }
}

/// A digit of base 16.
fn hex_digit(d: u8) -> u8
    requires { d < 16 }
    ensures { result ≡ hex_digit d }
{
    if d < 10 { b'0' + d } else { b'a' - 10 + d }
}

/// The two lower-case digits of a byte in base 16.
fn hex(alloc: Global, b: u8) -> Result<Text, AllocError>
    ensures { IfOk result (λ t. t ≡ hex b) }
{
    Text::from_bytes(alloc, &[hex_digit(b / 16), hex_digit(b % 16)])
}

/// What the refusal of a rule that gives no piece shows.
fn shown_of(alloc: Global, rule: Rule, s: &[u8]) -> Result<Text, AllocError>
    ensures { IfOk result (λ t. t ≡ shown_of rule s.now) }
{
    match rule {
        Rule::Word => Text::from_bytes(alloc, b"63"),
        Rule::Words => quote(alloc, byte(s, 0)),
        _ => hex(alloc, byte(s, 0)),
    }
}

/// A quote as a text.
fn quote(alloc: Global, b: u8) -> Result<Text, AllocError>
    ensures { IfOk result (λ t. t ≡ (if b == 34 then 34 ∷ [] else 39 ∷ [])) }
{
    if b == b'"' {
        Text::from_bytes(alloc, b"\"")
    } else {
        Text::from_bytes(alloc, b"'")
    }
}

/// The code of the refusal of a rule that gives no piece.
fn code_of(rule: Rule) -> Code
    ensures { result ≡ code_of rule }
{
    match rule {
        Rule::Word => Code::Limit,
        Rule::Words => Code::Unclosed,
        _ => Code::BadByte,
    }
}

/// A refusal, or want of memory for the text that it shows.
pub(crate) fn refused(code: Code, place: Place, shown: Result<Text, AllocError>) -> Stop<Refusal>
    ensures { RefusesOnly result (λ r. (r.code ≡ code) × (r.place ≡ place) × (shown ≡ Ok r.shown)) }
{
    match shown {
        Err(_) => Stop::Memory,
        Ok(shown) => Stop::Refused(Refusal { code, place, shown }),
    }
}

/// The refusal of a rule that gives no piece at a place, from which on the text is `s`.
fn refusal_of(alloc: Global, rule: Rule, place: Place, s: &[u8]) -> Stop<Refusal>
    ensures { RefusesOnly result (λ r. r ≡ refusal_of rule place s.now) }
{
    refused(code_of(rule), place, shown_of(alloc, rule, s))
}

/// The last token of a text, or the refusal of the block comment that is open at its end.
fn token_at_end(alloc: Global, context: Context, place: Place) -> Result<Token, Stop<Refusal>>
    ensures tokens { IfOk result (λ t. outcome_at_end context place ≡ Gives (t ∷ [])) }
    ensures refusal { IfErr result (λ stop. RefusesOnly stop (λ r. outcome_at_end context place ≡ Refuses r)) }
{
    if context.depth == 0 {
        return Ok(token_of(context, place, Kind::Finish, 0));
    }
    let shown = Text::from_bytes(alloc, b"%{");
    Err(refused(Code::Unclosed, context.opening, shown))
}

/// Adds a token at the end. Want of memory is its only refusal.
pub(crate) fn add(out: &mut Vec<Token>, token: Token) -> Result<(), Stop<Refusal>>
    ensures tokens { OnOk result (out.new.items ≡ out.old.items ++ token ∷ []) }
    ensures memory { IfErr result (λ stop. stop ≡ Memory) }
{
    match out.push(token) {
        Ok(()) => Ok(()),
        Err(_) => Err(Stop::Memory),
    }
}

/// Adds the token that a piece is, where it is one. Want of memory is its only refusal.
fn add_piece(
    out: &mut Vec<Token>,
    context: Context,
    place: Place,
    len: usize,
    kind: Option<Kind>,
) -> Result<(), Stop<Refusal>>
    requires { len < 2 ^ 31 }
    ensures tokens { OnOk result (out.new.items ≡ out.old.items ++ tokens_of context place len kind) }
    ensures memory { IfErr result (λ stop. stop ≡ Memory) }
{
    match kind {
        None => Ok(()),
        Some(kind) => add(out, token_of(context, place, kind, len)),
    }
}

/// The tokens of a text, without the separators of brackets.
pub(crate) fn scan(alloc: Global, bytes: &[u8]) -> Result<Vec<Token>, Stop<Refusal>>
    requires { length bytes.now ≤ 1048576 }
    ensures tokens { IfOk result (λ ts. ReadsWhole bytes.now (Gives ts.items)) }
    ensures refusal { IfErr result (λ stop. RefusesOnly stop (λ r. ReadsWhole bytes.now (Refuses r))) }
{
    let mut out = Vec::new(alloc);
    let mut at = 0;
    let mut place = Place::START;
    let mut context = Context::START;
    while at < bytes.len() {
        let rest = bytes.split_at(at).1;
        let piece = match piece_at(rest, context) {
            Err(rule) => return Err(refusal_of(alloc, rule, place, rest)),
            Ok(piece) => piece,
        };
        let text = rest.split_at(piece.len).0;
        let kind = kind_of(piece.rule, text);
        add_piece(&mut out, context, place, piece.len, kind)?;
        context = after_piece(context, place, piece.rule, text, rest, kind);
        place = place_after(place, text);
        at += piece.len;
    }
    let last = token_at_end(alloc, context, place)?;
    add(&mut out, last)?;
    Ok(out)
}
