//! The lines on the error stream.

ghost use Rattle.std.specs.Prelude.{◌≡◌, IfOk};
ghost use Rattle.fi_cli.specs.Lines.{code_text, refusal_line, text_kind, text_line, case_kind, case_index, case_line, read_line, word_line, memory_line, write_line};

use c_read::{CBad, CRefusal};
use case_io::{CaseBad, CaseRefusal};
use fic_base::{Code, Refusal};
use num_type::Memory;
use std::alloc::Global;

/// The line about want of memory.
#[tactic(auto, unfolding(crate::specs::Lines::memory_line))]
pub fn memory_line() -> &'static [u8]
    ensures { result.now ≡ memory_line }
{
    b"memory\n"
}

/// The line about a failed write.
#[tactic(auto, unfolding(crate::specs::Lines::write_line))]
pub fn write_line() -> &'static [u8]
    ensures { result.now ≡ write_line }
{
    b"write\n"
}

// The number of a code.
#[tactic(auto, unfolding(crate::specs::Lines::code_text))]
fn code_text(code: Code) -> &'static str
    ensures { result.now ≡ code_text code }
{
    match code {
        Code::BadByte => "E01",
        Code::Unclosed => "E02",
        Code::Syntax => "E03",
        Code::NoEntry => "E04",
        Code::ArgCount => "E05",
        Code::UnknownName => "E06",
        Code::NotAssigned => "E07",
        Code::FloatOperand => "E08",
        Code::Division => "E09",
        Code::TypeChange => "E10",
        Code::SizeMismatch => "E11",
        Code::DynamicSize => "E12",
        Code::FimathDiffers => "E13",
        Code::TooWide => "E14",
        Code::FractionOut => "E15",
        Code::LiteralInexact => "E16",
        Code::Recursion => "E17",
        Code::BadArgument => "E18",
        Code::Unsupported => "E19",
        Code::Limit => "E20",
        Code::ComplexOrder => "E21",
        Code::LoopVariable => "E22",
    }
}

/// The line about a refused source: its line and column from 1, its code, and what it shows. Want of memory is the only refusal.
#[tactic(auto, unfolding(crate::specs::Lines::refusal_line))]
pub fn refusal_line(alloc: Global, refusal: &Refusal) -> Result<Vec<u8>, Memory>
    ensures { IfOk result (λ line. line.items ≡ refusal_line refusal.now) }
{
    let mut line = Vec::new(alloc);
    line.extend_from_slice(refusal.place.line.to_string(alloc)?.as_bytes())?;
    line.extend_from_slice(b":")?;
    line.extend_from_slice(refusal.place.col.to_string(alloc)?.as_bytes())?;
    line.extend_from_slice(b" ")?;
    line.extend_from_slice(code_text(refusal.code).as_bytes())?;
    line.extend_from_slice(b" ")?;
    line.extend_from_slice(refusal.shown.as_bytes())?;
    line.extend_from_slice(b"\n")?;
    Ok(line)
}

// What of a C text is refused.
#[tactic(auto, unfolding(crate::specs::Lines::text_kind))]
fn text_kind(kind: CBad) -> &'static str
    ensures { result.now ≡ text_kind kind }
{
    match kind {
        CBad::Include => "Include",
        CBad::Interface => "Interface",
        CBad::Token => "Token",
        CBad::Limit => "Limit",
    }
}

/// The line about a refused C text: its offset in bytes from 0, and what is refused. Want of memory is the only refusal.
#[tactic(auto, unfolding(crate::specs::Lines::text_line))]
pub fn text_line(alloc: Global, refusal: CRefusal) -> Result<Vec<u8>, Memory>
    ensures { IfOk result (λ line. line.items ≡ text_line refusal) }
{
    let mut line = Vec::new(alloc);
    line.extend_from_slice(b"byte ")?;
    line.extend_from_slice(refusal.offset.to_string(alloc)?.as_bytes())?;
    line.extend_from_slice(b" ")?;
    line.extend_from_slice(text_kind(refusal.kind).as_bytes())?;
    line.extend_from_slice(b"\n")?;
    Ok(line)
}

// Why cases are refused.
#[tactic(auto, unfolding(crate::specs::Lines::case_kind))]
fn case_kind(kind: CaseBad) -> &'static str
    ensures { result.now ≡ case_kind kind }
{
    match kind {
        CaseBad::Form => "Form",
        CaseBad::Value => "Value",
    }
}

// The number of a case, where there is one. Want of memory is the only refusal.
#[tactic(auto, unfolding(crate::specs::Lines::case_index))]
fn case_index(alloc: Global, index: Option<u64>) -> Result<Vec<u8>, Memory>
    ensures { IfOk result (λ text. text.items ≡ case_index index) }
{
    let mut text = Vec::new(alloc);
    match index {
        None => text.extend_from_slice(b"-")?,
        Some(n) => text.extend_from_slice(n.to_string(alloc)?.as_bytes())?,
    }
    Ok(text)
}

/// The line about refused cases: the number of the case from 0, where there is one, and why. Want of memory is the only refusal.
#[tactic(auto, unfolding(crate::specs::Lines::case_line))]
pub fn case_line(alloc: Global, refusal: CaseRefusal) -> Result<Vec<u8>, Memory>
    ensures { IfOk result (λ line. line.items ≡ case_line refusal) }
{
    let mut line = Vec::new(alloc);
    line.extend_from_slice(b"case ")?;
    line.extend_from_slice(case_index(alloc, refusal.index)?.as_slice())?;
    line.extend_from_slice(b" ")?;
    line.extend_from_slice(case_kind(refusal.kind).as_bytes())?;
    line.extend_from_slice(b"\n")?;
    Ok(line)
}

/// The line about a name that could not be read. Want of memory is the only refusal.
#[tactic(auto, unfolding(crate::specs::Lines::read_line))]
pub fn read_line(alloc: Global, name: &str) -> Result<Vec<u8>, Memory>
    ensures { IfOk result (λ line. line.items ≡ read_line name.now) }
{
    let mut line = Vec::new(alloc);
    line.extend_from_slice(b"read ")?;
    line.extend_from_slice(name.as_bytes())?;
    line.extend_from_slice(b"\n")?;
    Ok(line)
}

/// The line about words without a form, by the first position at which none goes on. Want of memory is the only refusal.
#[tactic(auto, unfolding(crate::specs::Lines::word_line))]
pub fn word_line(alloc: Global, at: usize) -> Result<Vec<u8>, Memory>
    ensures { IfOk result (λ line. line.items ≡ word_line at) }
{
    let mut line = Vec::new(alloc);
    line.extend_from_slice(b"word ")?;
    line.extend_from_slice(at.to_string(alloc)?.as_bytes())?;
    line.extend_from_slice(b"\n")?;
    Ok(line)
}
