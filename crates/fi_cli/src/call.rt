//! The top call.

ghost use Rattle.std.specs.Prelude.{◌≡◌, ◌≤◌, IfOk, IfErr, map, string_bytes};
ghost use Rattle.fi_cli.specs.Answers.{Answers};
ghost use Rattle.fi_cli.specs.Causes.{ShelfSide, SinkSide, Formless, Stands, IsAsked, Says, status_of, line_of};
ghost use Rattle.fi_cli.specs.View.{cause_view, StopIs, Delivers, PutsLine, TellsCause};

use crate::command::obey;
use crate::lines::{
    case_line, memory_line, read_line, refusal_line, text_line, word_line, write_line,
};
use crate::put::put_all;
use crate::words::read_words;
use c_read::{CRefusal, one_answer};
use case_io::CaseRefusal;
use fic_base::Refusal;
use fic_io::{Gate, Shelf, Sink};
use num_type::{Memory, Stop};
use std::alloc::Global;

/// Why a call writes nothing.
#[derive(Drop)]
pub enum Fault<'a> {
    /// The source is refused.
    Source(Refusal),
    /// The C text is refused.
    Text(CRefusal),
    /// The cases are refused.
    Cases(CaseRefusal),
    /// The file of this name could not be read.
    Unread(&'a str),
    /// Memory is wanting.
    Memory,
    /// The words have no form, by the first position at which none goes on.
    Formless(usize),
}

/// Carries out the words, which are those behind the program's name, and answers the status.
///
/// | Status | Comes | Line on `err` |
/// |---|---|---|
/// | 0 | the words were carried out and all bytes were written to `out` | none |
/// | 1 | the source, the C text or the cases are refused | `LINE:COL CODE SHOWN`, `byte OFFSET KIND`, `case INDEX KIND` |
/// | 2 | a file could not be read | `read NAME` |
/// | 3 | a sink failed | `write` if it was `out` |
/// | 4 | memory is wanting | `memory` |
/// | 5 | the words have no form | `word N` |
///
/// | Words | Written to `out` |
/// |---|---|
/// | `compile FILE ENTRY TYPE ..` | the text of the entry's program in C |
/// | `run CFILE CASES TURNS` | a line for each case: what the program of the C text comes to |
///
/// After the statuses 1, 2, 4 and 5 `out` is as before; after 3 it gained a part of the bytes from their front. Wherever another status than
/// 3 comes no put failed. What the shelf tells stays as it is, and its count of faults never falls.
pub fn top<S: Shelf, O: Sink, E: Sink, G: Gate>(
    alloc: Global,
    words: &[String],
    shelf: &mut S,
    out: &mut O,
    err: &mut E,
    _gate: &G,
) -> u8
    ensures says { Says result (map string_bytes words.now)
        (record { told = S.told shelf.old; before = S.faults shelf.old; now = S.faults shelf.new; last = S.last shelf.new })
        (record { old = O.taken out.old; new = O.taken out.new; before = O.faults out.old; now = O.faults out.new })
        (record { old = E.taken err.old; new = E.taken err.new; before = E.faults err.old; now = E.faults err.new }) }
    ensures answers { Answers result (map string_bytes words.now)
        (record { told = S.told shelf.old; before = S.faults shelf.old; now = S.faults shelf.new; last = S.last shelf.new })
        (record { old = O.taken out.old; new = O.taken out.new; before = O.faults out.old; now = O.faults out.new })
        (record { old = E.taken err.old; new = E.taken err.new; before = E.faults err.old; now = E.faults err.new }) }
    ensures keeps { S.told shelf.new ≡ S.told shelf.old }
    ensures rises { S.faults shelf.old ≤ S.faults shelf.new }
    ensures counts { (O.faults out.old ≤ O.faults out.new) × (E.faults err.old ≤ E.faults err.new) }
{
    one_answer();
    let answered = serve(alloc, words, shelf, out, err);
    answered
}

// Carries out the words, and answers the status.
fn serve<S: Shelf, O: Sink, E: Sink>(
    alloc: Global,
    words: &[String],
    shelf: &mut S,
    out: &mut O,
    err: &mut E,
) -> u8
    ensures says { Says result (map string_bytes words.now)
        (record { told = S.told shelf.old; before = S.faults shelf.old; now = S.faults shelf.new; last = S.last shelf.new })
        (record { old = O.taken out.old; new = O.taken out.new; before = O.faults out.old; now = O.faults out.new })
        (record { old = E.taken err.old; new = E.taken err.new; before = E.faults err.old; now = E.faults err.new }) }
    ensures keeps { S.told shelf.new ≡ S.told shelf.old }
    ensures rises { S.faults shelf.old ≤ S.faults shelf.new }
{
    match carry_out(alloc, words, shelf) {
        Ok(text) => deliver(out, err, text.as_slice()),
        Err(fault) => tell(alloc, err, &fault),
    }
}

// The bytes that the words ask for.
fn carry_out<'a, S: Shelf>(
    alloc: Global,
    words: &'a [String],
    shelf: &mut S,
) -> Result<Vec<u8>, Fault<'a>>
    ensures text { IfOk result (λ text. IsAsked (map string_bytes words.now)
        (record { told = S.told shelf.old; before = S.faults shelf.old; now = S.faults shelf.new; last = S.last shelf.new }) text.items) }
    ensures cause { IfErr result (λ fault. Stands (cause_view fault) (map string_bytes words.now)
        (record { told = S.told shelf.old; before = S.faults shelf.old; now = S.faults shelf.new; last = S.last shelf.new })) }
    ensures keeps { S.told shelf.new ≡ S.told shelf.old }
    ensures rises { S.faults shelf.old ≤ S.faults shelf.new }
{
    match read_words(alloc, words) {
        Ok(command) => obey(alloc, command, shelf),
        Err(stop) => Err(formless(stop)),
    }
}

// Why the words are not carried out.
fn formless<'a>(stop: Stop<usize>) -> Fault<'a>
    ensures { StopIs (cause_view result) Formless stop }
{
    match stop {
        Stop::Refused(at) => Fault::Formless(at),
        Stop::Memory => Fault::Memory,
    }
}

// Writes the text, and answers the status.
fn deliver<O: Sink, E: Sink>(out: &mut O, err: &mut E, text: &[u8]) -> u8
    ensures { Delivers result text.now
        (record { old = O.taken out.old; new = O.taken out.new; before = O.faults out.old; now = O.faults out.new })
        (record { old = E.taken err.old; new = E.taken err.new; before = E.faults err.old; now = E.faults err.new }) }
{
    match put_all(out, text) {
        Ok(()) => 0,
        Err(_) => {
            let _ = put_all(err, write_line());
            3
        }
    }
}

// The line about a fault. Want of memory is the only refusal.
fn line_of(alloc: Global, fault: &Fault<'_>) -> Result<Vec<u8>, Memory>
    ensures { IfOk result (λ line. line.items ≡ line_of (cause_view fault.now)) }
{
    match fault {
        Fault::Source(refusal) => refusal_line(alloc, refusal),
        Fault::Text(refusal) => text_line(alloc, *refusal),
        Fault::Cases(refusal) => case_line(alloc, *refusal),
        Fault::Unread(name) => read_line(alloc, name),
        Fault::Memory => Ok(Vec::from_slice(alloc, memory_line())?),
        Fault::Formless(at) => word_line(alloc, *at),
    }
}

// The status of a fault.
fn status_of(fault: &Fault<'_>) -> u8
    ensures { result ≡ status_of (cause_view fault.now) }
{
    match fault {
        Fault::Source(_) | Fault::Text(_) | Fault::Cases(_) => 1,
        Fault::Unread(_) => 2,
        Fault::Memory => 4,
        Fault::Formless(_) => 5,
    }
}

// Writes a line, and answers the status, or 3 where the stream failed.
fn put_line<E: Sink>(err: &mut E, status: u8, line: &[u8]) -> u8
    ensures { PutsLine result status line.now
        (record { old = E.taken err.old; new = E.taken err.new; before = E.faults err.old; now = E.faults err.new }) }
{
    match put_all(err, line) {
        Ok(()) => status,
        Err(_) => 3,
    }
}

// Tells a fault, or want of memory for its line, and answers the status.
fn tell<E: Sink>(alloc: Global, err: &mut E, fault: &Fault<'_>) -> u8
    ensures { TellsCause result (cause_view fault.now)
        (record { old = E.taken err.old; new = E.taken err.new; before = E.faults err.old; now = E.faults err.new }) }
{
    match line_of(alloc, fault) {
        Ok(line) => put_line(err, status_of(fault), line.as_slice()),
        Err(Memory) => put_line(err, 4, memory_line()),
    }
}
