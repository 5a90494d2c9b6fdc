//! When two words are one.

ghost use Rattle.std.specs.Prelude.{◌≡◌, ◌<◌, ◌↔◌, true};
ghost use Rattle.c_tree.specs.Counted.{container_number};
ghost use Rattle.c_grammar.specs.Equal.{counter_number, keyword_number, kind_number, macro_number, op_number, own_number, rel_number, same_word, sign_number};

use crate::word::{CKeyword, CMacro, CSign, CWordToken};
use c_tree::{CArray, COp, CRel, CounterKind};
use num_type::Container;

fn container_number(container: Container) -> u32
    ensures value { result ≡ container_number container }
    ensures small { result < 8 }
{
    match container {
        Container::I8 => 0,
        Container::I16 => 1,
        Container::I32 => 2,
        Container::I64 => 3,
        Container::U8 => 4,
        Container::U16 => 5,
        Container::U32 => 6,
        Container::U64 => 7,
    }
}

fn counter_number(kind: CounterKind) -> u32
    ensures value { result ≡ counter_number kind }
    ensures small { result < 4 }
{
    match kind {
        CounterKind::Group => 0,
        CounterKind::Barrier => 1,
        CounterKind::Source => 2,
        CounterKind::Turn => 3,
    }
}

fn macro_number(name: CMacro) -> u32
    ensures value { result ≡ macro_number name }
    ensures small { result < 3 }
{
    match name {
        CMacro::I32 => 0,
        CMacro::I64 => 1,
        CMacro::U64 => 2,
    }
}

fn keyword_number(keyword: CKeyword) -> u32
    ensures value { result ≡ keyword_number keyword }
    ensures small { result < 8 }
{
    match keyword {
        CKeyword::Const => 0,
        CKeyword::If => 1,
        CKeyword::Else => 2,
        CKeyword::For => 3,
        CKeyword::While => 4,
        CKeyword::Break => 5,
        CKeyword::Continue => 6,
        CKeyword::Return => 7,
    }
}

fn rel_number(rel: CRel) -> u32
    ensures value { result ≡ rel_number rel }
    ensures small { result < 6 }
{
    match rel {
        CRel::Eq => 0,
        CRel::Ne => 1,
        CRel::Lt => 2,
        CRel::Le => 3,
        CRel::Gt => 4,
        CRel::Ge => 5,
    }
}

fn op_number(op: COp) -> u32
    ensures value { result ≡ op_number op }
    ensures small { result < 8 }
{
    match op {
        COp::Add => 0,
        COp::Sub => 1,
        COp::Mul => 2,
        COp::And => 3,
        COp::Or => 4,
        COp::Xor => 5,
        COp::Shl => 6,
        COp::Shr => 7,
    }
}

fn sign_number(sign: CSign) -> u32
    ensures value { result ≡ sign_number sign }
    ensures small { result < 11 }
{
    match sign {
        CSign::Open => 0,
        CSign::Close => 1,
        CSign::OpenSquare => 2,
        CSign::CloseSquare => 3,
        CSign::OpenBrace => 4,
        CSign::CloseBrace => 5,
        CSign::Comma => 6,
        CSign::Semicolon => 7,
        CSign::Colon => 8,
        CSign::Question => 9,
        CSign::Assign => 10,
    }
}

/// What a word is, but for its own number.
fn kind_number(word: CWordToken) -> u32
    ensures { result ≡ kind_number word }
{
    match word {
        CWordToken::Other => 0,
        CWordToken::Function => 1,
        CWordToken::Number(_) => 2,
        CWordToken::Var(_) => 3,
        CWordToken::Array(CArray::Input(_)) => 4,
        CWordToken::Array(CArray::Output(_)) => 5,
        CWordToken::Array(CArray::Local(_)) => 6,
        CWordToken::Counter(counter) => 7 + counter_number(counter.kind),
        CWordToken::Type(container) => 11 + container_number(container),
        CWordToken::Macro(name) => 19 + macro_number(name),
        CWordToken::Keyword(keyword) => 22 + keyword_number(keyword),
        CWordToken::Rel(rel) => 30 + rel_number(rel),
        CWordToken::Op(op) => 36 + op_number(op),
        CWordToken::Sign(sign) => 44 + sign_number(sign),
    }
}

/// A word's own number, and 0 where it has none.
fn own_number(word: CWordToken) -> u64
    ensures { result ≡ own_number word }
{
    match word {
        CWordToken::Number(n) => n,
        CWordToken::Var(k) => k as u64,
        CWordToken::Array(CArray::Input(k)) => k as u64,
        CWordToken::Array(CArray::Output(k)) => k as u64,
        CWordToken::Array(CArray::Local(k)) => k as u64,
        CWordToken::Counter(counter) => counter.number as u64,
        _ => 0,
    }
}

fn compared(v: CWordToken, w: CWordToken) -> bool
    ensures { result ≡ same_word v w }
{
    kind_number(v) == kind_number(w) && own_number(v) == own_number(w)
}

/// Whether two words are one.
pub fn same_word(v: CWordToken, w: CWordToken) -> bool
    ensures value { result ≡ same_word v w }
    ensures decides { (result ≡ true) ↔ (v ≡ w) }
{
    compared(v, w)
}
