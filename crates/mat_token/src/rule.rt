//! Which rule gives the piece of a source at a place, and how long the piece is.

ghost use Rattle.std.specs.Prelude.{◌≡◌, ◌+◌, ◌<◌, ◌≤◌, ◌^◌, length, true, false, IfSome};
ghost use Rattle.mat_token.specs.Rules.{depth_after, rule_at, kind_of, ends_operand, closes_operand, takes_transpose, word_kind, rule_of_comment, rule_of_token, after_token, after_gap};
ghost use Rattle.mat_token.specs.Pieces.{block_len, piece_len, name_len};
ghost use Rattle.mat_token.specs.declared.rule.Rule.TheVariants.{Block};

use crate::bytes::{byte, line_marks, starts_blank, starts_dots, starts_mark};
use crate::pieces::{comment_len, full_line_len, number_len, operator_len, text_len, word_len};
use crate::token::Kind;
use fic_base::{Place, is_digit, is_keyword, is_letter};

/// The most bytes of a name.
pub(crate) const NAME_MAX: usize = 63;

/// What is known of the bytes before a place.
#[derive(Clone, Copy)]
pub struct Context {
    /// Whether only blanks stand between the beginning of the line and the place.
    pub fresh: bool,
    /// Whether a blank or a comment stands directly before the place.
    pub gap: bool,
    /// Whether a token stands directly before the place after which a `'` is a transpose.
    pub operand: bool,
    /// How many block comments are open.
    pub depth: u32,
    /// Where the outermost open block comment begins.
    pub opening: Place,
}

/// The rules that give pieces of a source.
#[derive(Clone, Copy)]
pub enum Rule {
    /// A line of a block comment.
    Block,
    /// The end of a line.
    Newline,
    /// A blank.
    Blank,
    /// A comment to the end of its line.
    Comment,
    /// `...` and the rest of the line.
    Continued,
    /// A name or a keyword.
    Word,
    /// A number.
    Number,
    /// A text in quotes.
    Words,
    /// An operator.
    Op,
}

impl Context {
    /// Before the first byte.
    pub const START: Context = Context {
        fresh: true,
        gap: false,
        operand: false,
        depth: 0,
        opening: Place::START,
    };
}

/// Whether a comment that comes first is a line of a block comment.
fn rule_of_comment(s: &[u8], context: Context) -> Rule
    ensures { result ≡ rule_of_comment context s.now }
{
    if context.fresh && starts_mark(s, b'{') {
        Rule::Block
    } else {
        Rule::Comment
    }
}

/// The rule for a byte that is no blank, no comment and no end of a line.
fn rule_of_token(s: &[u8], context: Context) -> Rule
    ensures { result ≡ rule_of_token context s.now }
{
    let first = byte(s, 0);
    if is_letter(first) {
        Rule::Word
    } else if is_digit(first) || (first == b'.' && is_digit(byte(s, 1))) {
        Rule::Number
    } else if first == b'"' || (first == b'\'' && !context.operand) {
        Rule::Words
    } else {
        Rule::Op
    }
}

/// The rule that the first bytes call for.
pub(crate) fn rule_at(s: &[u8], context: Context) -> Rule
    ensures { result ≡ rule_at context s.now }
{
    let first = byte(s, 0);
    if 0 < context.depth {
        Rule::Block
    } else if first == b'\n' {
        Rule::Newline
    } else if starts_blank(s) {
        Rule::Blank
    } else if first == b'%' {
        rule_of_comment(s, context)
    } else if starts_dots(s) {
        Rule::Continued
    } else {
        rule_of_token(s, context)
    }
}

/// How many block comments are open after a line.
fn depth_after(s: &[u8], depth: u32) -> u32
    requires { depth < 2 ^ 31 }
    ensures exact { result ≡ depth_after depth s.now }
    ensures within { result ≤ depth + 1 }
{
    if line_marks(s, b'{') {
        depth + 1
    } else if line_marks(s, b'}') {
        if 0 < depth { depth - 1 } else { 0 }
    } else {
        depth
    }
}

/// The length of a line of a block comment.
fn block_len(s: &[u8], depth: u32) -> usize
    requires depth { depth < 2 ^ 31 }
    requires some { 0 < length s.now }
    ensures exact { result ≡ block_len depth s.now }
    ensures within { (0 < result) × (result ≤ length s.now) }
{
    if depth_after(s, depth) == 0 {
        comment_len(s)
    } else {
        full_line_len(s)
    }
}

/// The length of a word; None where it is longer than a name may be.
fn name_len(s: &[u8]) -> Option<usize>
    requires { 0 < length s.now }
    ensures exact { result ≡ name_len s.now }
    ensures within { IfSome result (λ n. (0 < n) × (n ≤ length s.now)) }
{
    let len = word_len(s);
    if NAME_MAX < len { None } else { Some(len) }
}

/// The length in bytes of the piece that a rule gives; None where it gives none.
pub(crate) fn piece_len(s: &[u8], context: Context, rule: Rule) -> Option<usize>
    requires some { 0 < length s.now }
    requires depth { context.depth < 2 ^ 31 }
    ensures exact { result ≡ piece_len context rule s.now }
    ensures within { IfSome result (λ n. (0 < n) × (n ≤ length s.now)) }
{
    match rule {
        Rule::Block => Some(block_len(s, context.depth)),
        Rule::Newline | Rule::Blank => Some(1),
        Rule::Comment => Some(comment_len(s)),
        Rule::Continued => Some(full_line_len(s)),
        Rule::Word => name_len(s),
        Rule::Number => Some(number_len(s)),
        Rule::Words => text_len(s),
        Rule::Op => operator_len(s),
    }
}

/// The kind of token that a piece is; None for blanks and comments.
pub(crate) fn kind_of(rule: Rule, text: &[u8]) -> Option<Kind>
    ensures { result ≡ kind_of rule text.now }
{
    match rule {
        Rule::Newline => Some(Kind::Newline),
        Rule::Word => Some(word_kind(text)),
        Rule::Number => Some(Kind::Number),
        Rule::Words => Some(Kind::Words),
        Rule::Op => Some(Kind::Op),
        Rule::Block | Rule::Blank | Rule::Comment | Rule::Continued => None,
    }
}

/// Whether a word is a keyword or a name.
fn word_kind(text: &[u8]) -> Kind
    ensures { result ≡ word_kind text.now }
{
    if is_keyword(text) {
        Kind::Keyword
    } else {
        Kind::Name
    }
}

/// Whether a token is a closing bracket or a transpose.
fn closes_operand(text: &[u8]) -> bool
    ensures { result ≡ closes_operand text.now }
{
    matches!(text, b")" | b"]" | b"'" | b".'")
}

/// Whether an operand ends with a token.
pub(crate) fn ends_operand(kind: Kind, text: &[u8]) -> bool
    ensures { result ≡ ends_operand kind text.now }
{
    match kind {
        Kind::Name | Kind::Number | Kind::Words => true,
        Kind::Keyword => matches!(text, b"end"),
        Kind::Op => closes_operand(text),
        Kind::Newline | Kind::Separator | Kind::Finish => false,
    }
}

/// Whether a `'` directly after a token transposes.
fn takes_transpose(kind: Kind, text: &[u8]) -> bool
    ensures { result ≡ takes_transpose kind text.now }
{
    match kind {
        Kind::Words => false,
        _ => ends_operand(kind, text),
    }
}

/// What is known after a token.
pub(crate) fn after_token(context: Context, kind: Kind, text: &[u8]) -> Context
    ensures { result ≡ after_token context kind text.now }
{
    let fresh = kind == Kind::Newline;
    let operand = takes_transpose(kind, text);
    Context {
        fresh,
        gap: false,
        operand,
        depth: context.depth,
        opening: context.opening,
    }
}

/// What is known after a blank or a comment, from whose place on the text is `s`.
pub(crate) fn after_gap(context: Context, place: Place, rule: Rule, s: &[u8]) -> Context
    requires { context.depth < 2 ^ 31 }
    ensures exact { result ≡ after_gap context place rule s.now }
    ensures within { result.depth ≤ context.depth + 1 }
{
    match rule {
        Rule::Block => after_block(context, place, s),
        Rule::Comment => gap(context, false),
        Rule::Continued => gap(context, true),
        _ => gap(context, context.fresh),
    }
}

/// A context behind a blank or a comment.
fn gap(context: Context, fresh: bool) -> Context
    ensures { result ≡ record context { fresh = fresh; gap = true; operand = false } }
{
    Context {
        fresh,
        gap: true,
        operand: false,
        depth: context.depth,
        opening: context.opening,
    }
}

/// What is known after a line of a block comment.
fn after_block(context: Context, place: Place, s: &[u8]) -> Context
    requires { context.depth < 2 ^ 31 }
    ensures exact { result ≡ after_gap context place Block s.now }
    ensures within { result.depth ≤ context.depth + 1 }
{
    let opening = if context.depth == 0 {
        place
    } else {
        context.opening
    };
    Context {
        fresh: false,
        gap: true,
        operand: false,
        depth: depth_after(s, context.depth),
        opening,
    }
}
