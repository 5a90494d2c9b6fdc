//! What a token is to the grammar.

ghost use Rattle.std.specs.Prelude.{◌≡◌, []};
ghost use Rattle.mat_grammar.specs.Spelling.{binary_text, post_text};
ghost use Rattle.mat_grammar.specs.Words.{spelling, looked_up, word_of};

use mat_ast::{BinOp, PostOp};
use mat_token::Kind;

/// What a token is to the grammar. The text of a name, a number or a text stands in the source.
#[derive(Clone, Copy, Debug, PartialEq, Eq)]
pub enum Word {
    /// A name.
    Name,
    /// A number.
    Number,
    /// A text, with its quotes.
    Quoted,
    /// An operator that stands between two operands; `+` and `-` are signs too.
    Infix(BinOp),
    /// `~`.
    Tilde,
    /// A transpose.
    Turn(PostOp),
    /// `=`.
    Equal,
    /// `:`.
    Colon,
    /// `,`.
    Comma,
    /// `;`.
    Semicolon,
    /// `(`.
    Open,
    /// `)`.
    Close,
    /// `[`.
    OpenSquare,
    /// `]`.
    CloseSquare,
    /// The end of a line.
    Newline,
    /// The blank between two elements of a bracket.
    Separator,
    /// The end of the file.
    Finish,
    /// `function`.
    Function,
    /// `end`.
    End,
    /// `if`.
    If,
    /// `elseif`.
    ElseIf,
    /// `else`.
    Else,
    /// `for`.
    For,
    /// `while`.
    While,
    /// `break`.
    Break,
    /// `continue`.
    Continue,
    /// An operator of no rule of the grammar.
    OtherOp,
    /// A keyword or reserved word of no rule of the grammar.
    Reserved,
}

/// Whether the functions of a file have their `end`.
#[derive(Clone, Copy, Debug, PartialEq, Eq)]
pub enum Mode {
    /// No function was read yet.
    Unknown,
    /// Each has its `end`.
    Ended,
    /// None has.
    Unended,
}

/// The operators, brackets and marks.
static OPERATORS: [Word; 31] = [
    Word::Infix(BinOp::OrOr),
    Word::Infix(BinOp::AndAnd),
    Word::Infix(BinOp::Or),
    Word::Infix(BinOp::And),
    Word::Infix(BinOp::Eq),
    Word::Infix(BinOp::Ne),
    Word::Infix(BinOp::Lt),
    Word::Infix(BinOp::Le),
    Word::Infix(BinOp::Gt),
    Word::Infix(BinOp::Ge),
    Word::Infix(BinOp::Add),
    Word::Infix(BinOp::Sub),
    Word::Infix(BinOp::Mul),
    Word::Infix(BinOp::ElemMul),
    Word::Infix(BinOp::Div),
    Word::Infix(BinOp::ElemDiv),
    Word::Infix(BinOp::LeftDiv),
    Word::Infix(BinOp::ElemLeftDiv),
    Word::Infix(BinOp::Pow),
    Word::Infix(BinOp::ElemPow),
    Word::Tilde,
    Word::Turn(PostOp::CTranspose),
    Word::Turn(PostOp::Transpose),
    Word::Equal,
    Word::Colon,
    Word::Comma,
    Word::Semicolon,
    Word::Open,
    Word::Close,
    Word::OpenSquare,
    Word::CloseSquare,
];

/// The keywords of the grammar.
static KEYWORDS: [Word; 9] = [
    Word::Function,
    Word::End,
    Word::If,
    Word::ElseIf,
    Word::Else,
    Word::For,
    Word::While,
    Word::Break,
    Word::Continue,
];

/// How an operator between two operands is spelled.
fn binary_text(op: BinOp) -> &'static [u8]
    ensures { result.now ≡ binary_text op }
{
    match op {
        BinOp::OrOr => b"||",
        BinOp::AndAnd => b"&&",
        BinOp::Or => b"|",
        BinOp::And => b"&",
        BinOp::Eq => b"==",
        BinOp::Ne => b"~=",
        BinOp::Lt => b"<",
        BinOp::Le => b"<=",
        BinOp::Gt => b">",
        BinOp::Ge => b">=",
        BinOp::Add => b"+",
        BinOp::Sub => b"-",
        BinOp::Mul => b"*",
        BinOp::ElemMul => b".*",
        BinOp::Div => b"/",
        BinOp::ElemDiv => b"./",
        BinOp::LeftDiv => b"\\",
        BinOp::ElemLeftDiv => b".\\",
        BinOp::Pow => b"^",
        BinOp::ElemPow => b".^",
    }
}

/// How a transpose is spelled.
fn post_text(mark: PostOp) -> &'static [u8]
    ensures { result.now ≡ post_text mark }
{
    match mark {
        PostOp::CTranspose => b"'",
        PostOp::Transpose => b".'",
    }
}

/// How a word is spelled; nothing where each of its tokens has a text of its own.
fn spelling(word: Word) -> &'static [u8]
    ensures { result.now ≡ spelling word [] }
{
    match word {
        Word::Infix(op) => binary_text(op),
        Word::Tilde => b"~",
        Word::Turn(mark) => post_text(mark),
        Word::Equal => b"=",
        Word::Colon => b":",
        Word::Comma => b",",
        Word::Semicolon => b";",
        Word::Open => b"(",
        Word::Close => b")",
        Word::OpenSquare => b"[",
        Word::CloseSquare => b"]",
        Word::Function => b"function",
        Word::End => b"end",
        Word::If => b"if",
        Word::ElseIf => b"elseif",
        Word::Else => b"else",
        Word::For => b"for",
        Word::While => b"while",
        Word::Break => b"break",
        Word::Continue => b"continue",
        Word::Name
        | Word::Number
        | Word::Quoted
        | Word::Newline
        | Word::Separator
        | Word::Finish
        | Word::OtherOp
        | Word::Reserved => b"",
    }
}

/// The first of the words that is spelled so, or else another one.
#[tactic(auto, using(crate::proofs::Words::same_bytes))]
fn looked_up(words: &[Word], other: Word, text: &[u8]) -> Word
    ensures { result ≡ looked_up words.now other text.now }
{
    match words.split_first() {
        None => other,
        Some((first, rest)) => {
            if spelling(*first) == text {
                return *first;
            }
            looked_up(rest, other, text)
        }
    }
}

/// What a token of this kind and text is.
pub fn word_of(kind: Kind, text: &[u8]) -> Word
    ensures { result ≡ word_of kind text.now }
{
    match kind {
        Kind::Name => Word::Name,
        Kind::Number => Word::Number,
        Kind::Words => Word::Quoted,
        Kind::Newline => Word::Newline,
        Kind::Separator => Word::Separator,
        Kind::Finish => Word::Finish,
        Kind::Op => looked_up(&OPERATORS, Word::OtherOp, text),
        Kind::Keyword => looked_up(&KEYWORDS, Word::Reserved, text),
    }
}
