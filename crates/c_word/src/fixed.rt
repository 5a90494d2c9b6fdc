//! Words that have the same text beside every interface.

ghost use Rattle.std.specs.Prelude.{◌≡◌};
ghost use Rattle.c_tree.specs.Texts as texts;
ghost use Rattle.c_grammar.specs.Words as words;
ghost use Rattle.c_word.specs.Fixed.{fixed_text};

use c_grammar::{CKeyword, CMacro, CSign, CWordToken};
use c_tree::{COp, CRel, container_text};
use num_type::Container;

/// The words that have the same text beside every interface.
pub(crate) static FIXED: [CWordToken; 44] = [
    CWordToken::Type(Container::I8),
    CWordToken::Type(Container::I16),
    CWordToken::Type(Container::I32),
    CWordToken::Type(Container::I64),
    CWordToken::Type(Container::U8),
    CWordToken::Type(Container::U16),
    CWordToken::Type(Container::U32),
    CWordToken::Type(Container::U64),
    CWordToken::Macro(CMacro::I32),
    CWordToken::Macro(CMacro::I64),
    CWordToken::Macro(CMacro::U64),
    CWordToken::Keyword(CKeyword::Const),
    CWordToken::Keyword(CKeyword::If),
    CWordToken::Keyword(CKeyword::Else),
    CWordToken::Keyword(CKeyword::For),
    CWordToken::Keyword(CKeyword::While),
    CWordToken::Keyword(CKeyword::Break),
    CWordToken::Keyword(CKeyword::Continue),
    CWordToken::Keyword(CKeyword::Return),
    CWordToken::Rel(CRel::Eq),
    CWordToken::Rel(CRel::Ne),
    CWordToken::Rel(CRel::Lt),
    CWordToken::Rel(CRel::Le),
    CWordToken::Rel(CRel::Gt),
    CWordToken::Rel(CRel::Ge),
    CWordToken::Op(COp::Add),
    CWordToken::Op(COp::Sub),
    CWordToken::Op(COp::Mul),
    CWordToken::Op(COp::And),
    CWordToken::Op(COp::Or),
    CWordToken::Op(COp::Xor),
    CWordToken::Op(COp::Shl),
    CWordToken::Op(COp::Shr),
    CWordToken::Sign(CSign::Open),
    CWordToken::Sign(CSign::Close),
    CWordToken::Sign(CSign::OpenSquare),
    CWordToken::Sign(CSign::CloseSquare),
    CWordToken::Sign(CSign::OpenBrace),
    CWordToken::Sign(CSign::CloseBrace),
    CWordToken::Sign(CSign::Comma),
    CWordToken::Sign(CSign::Semicolon),
    CWordToken::Sign(CSign::Colon),
    CWordToken::Sign(CSign::Question),
    CWordToken::Sign(CSign::Assign),
];

fn macro_text(name: CMacro) -> &'static [u8]
    ensures { result.now ≡ words.macro_name name }
{
    match name {
        CMacro::I32 => b"INT32_C",
        CMacro::I64 => b"INT64_C",
        CMacro::U64 => b"UINT64_C",
    }
}

fn keyword_text(keyword: CKeyword) -> &'static [u8]
    ensures { result.now ≡ words.keyword_text keyword }
{
    match keyword {
        CKeyword::Const => b"const",
        CKeyword::If => b"if",
        CKeyword::Else => b"else",
        CKeyword::For => b"for",
        CKeyword::While => b"while",
        CKeyword::Break => b"break",
        CKeyword::Continue => b"continue",
        CKeyword::Return => b"return",
    }
}

fn rel_text(rel: CRel) -> &'static [u8]
    ensures { result.now ≡ texts.rel_text rel }
{
    match rel {
        CRel::Eq => b"==",
        CRel::Ne => b"!=",
        CRel::Lt => b"<",
        CRel::Le => b"<=",
        CRel::Gt => b">",
        CRel::Ge => b">=",
    }
}

fn op_text(op: COp) -> &'static [u8]
    ensures { result.now ≡ texts.op_text op }
{
    match op {
        COp::Add => b"+",
        COp::Sub => b"-",
        COp::Mul => b"*",
        COp::And => b"&",
        COp::Or => b"|",
        COp::Xor => b"^",
        COp::Shl => b"<<",
        COp::Shr => b">>",
    }
}

fn sign_text(sign: CSign) -> &'static [u8]
    ensures { result.now ≡ words.sign_text sign }
{
    match sign {
        CSign::Open => b"(",
        CSign::Close => b")",
        CSign::OpenSquare => b"[",
        CSign::CloseSquare => b"]",
        CSign::OpenBrace => b"{",
        CSign::CloseBrace => b"}",
        CSign::Comma => b",",
        CSign::Semicolon => b";",
        CSign::Colon => b":",
        CSign::Question => b"?",
        CSign::Assign => b"=",
    }
}

/// The text of a word that has the same one beside every interface, and nothing for another word.
pub(crate) fn fixed_text(word: CWordToken) -> &'static [u8]
    ensures { result.now ≡ fixed_text word }
{
    match word {
        CWordToken::Type(container) => container_text(container),
        CWordToken::Macro(name) => macro_text(name),
        CWordToken::Keyword(keyword) => keyword_text(keyword),
        CWordToken::Rel(rel) => rel_text(rel),
        CWordToken::Op(op) => op_text(op),
        CWordToken::Sign(sign) => sign_text(sign),
        CWordToken::Function
        | CWordToken::Number(_)
        | CWordToken::Var(_)
        | CWordToken::Counter(_)
        | CWordToken::Array(_)
        | CWordToken::Other => b"",
    }
}
