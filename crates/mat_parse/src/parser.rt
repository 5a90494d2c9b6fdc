//! The parser: the tree of a source, or its refusal.

ghost use Rattle.std.specs.Prelude.{◌≡◌, ◌≤◌, ℕ, List, IfOk, IfErr, MatchOption, take, drop, codes};
ghost use Rattle.mat_ast.specs.View.{funcs_view};
ghost use Rattle.mat_token.specs.Lexeme.{lexeme_of, lexemes_of, text_of};
ghost use Rattle.mat_token.specs.Kept.{AreTokensOf};
ghost use Rattle.mat_token.specs.Outcome.{IsOutcome};
ghost use Rattle.mat_token.specs.Reads.{Gives, RefusesOnly};
ghost use Rattle.mat_grammar.specs.Machine.{Complete, step, finish};
ghost use Rattle.mat_grammar.specs.Least.{least};
ghost use Rattle.mat_parts.specs.Pending.{state_view};
ghost use Rattle.mat_grammar.specs.Refused.{shown};
ghost use Rattle.mat_parse.specs.Parsed.{Parsed, Tree, Refused, IsParseOf, IsParse};
ghost use Rattle.mat_parse.specs.Steps.{IsRefusalAt};

use crate::advance::advance;
use crate::least::is_shallow;
use fic_base::{Code, Place, Refusal, Text};
use mat_ast::File;
use mat_grammar::{Mode, word_of};
use mat_parts::body::{Funcs, no_funcs};
use mat_parts::pending::Reading;
use mat_token::{Kind, Token, TokenList, tokens};
use num_type::Stop;
use std::alloc::{AllocError, Global};

/// The bytes from an index on.
fn from(bytes: &[u8], at: usize) -> &[u8]
    ensures { result.now ≡ drop at bytes.now }
{
    if at <= bytes.len() {
        bytes.split_at(at).1
    } else {
        bytes.split_at(bytes.len()).1
    }
}

/// The first bytes, as many as there are.
fn up_to(bytes: &[u8], len: usize) -> &[u8]
    ensures { result.now ≡ take len bytes.now }
{
    if len <= bytes.len() {
        bytes.split_at(len).0
    } else {
        bytes
    }
}

/// The text of a token of these bytes.
fn text_of(bytes: &[u8], token: Token) -> &[u8]
    ensures { result.now ≡ text_of bytes.now token }
{
    up_to(from(bytes, token.place.offset as usize), token.len as usize)
}

/// A refusal, or want of memory for the text that it shows.
fn refused(code: Code, place: Place, shown: Result<Text, AllocError>) -> Stop<Refusal>
    ensures { RefusesOnly result (λ r. (r.code ≡ code) × (r.place ≡ place) × (shown ≡ Ok r.shown)) }
{
    match shown {
        Err(_) => Stop::Memory,
        Ok(shown) => Stop::Refused(Refusal { code, place, shown }),
    }
}

/// What a syntax error shows of a token. Want of memory is its only refusal.
fn shown(alloc: Global, kind: Kind, own: &[u8]) -> Result<Text, AllocError>
    ensures { IfOk result (λ t. t ≡ shown kind own.now) }
{
    match kind {
        Kind::Newline => Text::from_bytes(alloc, b"end of line"),
        Kind::Finish => Text::from_bytes(alloc, b"end of file"),
        _ => Text::from_bytes(alloc, up_to(own, 40)),
    }
}

/// The refusal at a token after which no file goes on.
fn syntax(alloc: Global, token: Token, own: &[u8]) -> Stop<Refusal>
    ensures { RefusesOnly result (λ r. r ≡ record { code = Code.Syntax; place = token.place; shown = shown token.kind own.now }) }
{
    refused(Code::Syntax, token.place, shown(alloc, token.kind, own))
}

/// The refusal at a token after which each file is too deep.
fn too_deep(alloc: Global, place: Place) -> Stop<Refusal>
    ensures { RefusesOnly result (λ r. r ≡ record { code = Code.Limit; place = place; shown = codes "100" }) }
{
    refused(Code::Limit, place, Text::from_bytes(alloc, b"100"))
}

/// The state behind a token, or the refusal at it.
fn step(
    alloc: Global,
    bytes: &[u8],
    token: Token,
    reading: Reading,
) -> Result<Reading, Stop<Refusal>>
    ensures read { IfOk result (λ next. (state_view next ≡ step (state_view reading) (lexeme_of bytes.now token)) × (least (state_view next) ≤ 100)) }
    ensures refusal { IfErr result (λ stop. RefusesOnly stop (λ r. IsRefusalAt (step (state_view reading) (lexeme_of bytes.now token))
        (lexeme_of bytes.now token) r)) }
{
    let own = text_of(bytes, token);
    match advance(alloc, reading, token.place, word_of(token.kind, own), own)? {
        None => Err(syntax(alloc, token, own)),
        Some(next) => {
            if is_shallow(&next) {
                Ok(next)
            } else {
                Err(too_deep(alloc, token.place))
            }
        }
    }
}

/// The functions of a file whose end was read; None elsewhere.
#[tactic(auto, unfolding(mat_parts::specs::Pending::state_view))]
fn whole(reading: Reading) -> Option<Funcs>
    ensures { MatchOption result (finish (state_view reading) ≡ None) (λ funcs. state_view reading ≡ Complete (funcs_view funcs.funcs.items)) }
{
    match reading {
        Reading::Complete(funcs) => Some(funcs),
        _ => None,
    }
}

/// The tree of a token list, or its refusal.
fn parse_tokens(alloc: Global, bytes: &[u8], tokens: &[Token]) -> Result<Funcs, Stop<Refusal>>
    requires { AreTokensOf bytes.now tokens.now }
    ensures tree { IfOk result (λ funcs. IsParseOf (lexemes_of bytes.now tokens.now) (Tree (funcs_view funcs.funcs.items))) }
    ensures refusal { IfErr result (λ stop. RefusesOnly stop (λ r. IsParseOf (lexemes_of bytes.now tokens.now) (Refused r))) }
{
    let mut reading = Reading::Top(Mode::Unknown, no_funcs(alloc));
    let mut index = 0;
    while index < tokens.len() {
        reading = step(alloc, bytes, tokens[index], reading)?;
        index += 1;
    }
    match whole(reading) {
        Some(funcs) => Ok(funcs),
        None => unreachable!(),
    }
}

/// The tree of the tokens of a source, or their refusal.
///
/// Refused, at the first token with which the tokens read so far no longer go on to a file of depth at most 100: `Limit` showing `100` where
/// they go on to a deeper one, and else `Syntax` showing the token: its first 40 bytes, `end of line` or `end of file`.
pub fn parse_list(alloc: Global, bytes: &[u8], list: &TokenList) -> Result<File, Stop<Refusal>>
    requires { IsOutcome bytes.now (Gives list.now) }
    ensures tree { IfOk result (λ f. IsParse bytes.now (Tree (funcs_view f))) }
    ensures refusal { IfErr result (λ stop. RefusesOnly stop (λ r. IsParse bytes.now (Refused r))) }
{
    let funcs = parse_tokens(alloc, bytes, list.tokens())?;
    match File::make(funcs.funcs) {
        Some(file) => Ok(file),
        None => unreachable!(),
    }
}

/// The tree of a source, or its refusal.
///
/// Refused, with the place of what is refused:
/// - what `mat_token::tokens` refuses, as it does;
/// - else at the first token with which the tokens read so far no longer go on to a file of depth at most 100: `Limit` showing `100` where
///   they go on to a deeper one, and else `Syntax` showing the token: its first 40 bytes, `end of line` or `end of file`.
pub fn parse(alloc: Global, bytes: &[u8]) -> Result<File, Stop<Refusal>>
    ensures tree { IfOk result (λ f. IsParse bytes.now (Tree (funcs_view f))) }
    ensures refusal { IfErr result (λ stop. RefusesOnly stop (λ r. IsParse bytes.now (Refused r))) }
{
    match tokens(alloc, bytes) {
        Err(stop) => Err(stop),
        Ok(list) => parse_list(alloc, bytes, &list),
    }
}

/// A law of the parser: a source has at most one tree or refusal.
pub fn one_parse()
    ensures { (bytes : List ℕ) (p q : Parsed) → IsParse bytes p → IsParse bytes q → p ≡ q }
{}
