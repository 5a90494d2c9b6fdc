//! The program of a C text.

ghost use Rattle.std.specs.Prelude.{◌≡◌, ◌<◌, ◌+◌, ◌^◌, ◌==◌, ℕ, List, drop, length};
ghost use Rattle.c_token.specs.Line.{IsSignature};
ghost use Rattle.c_token.specs.Scan.{AreLexed, lexemes_of, texts_of};
ghost use Rattle.c_tree.specs.View.{interface_view};
ghost use Rattle.c_read.specs.Front.{HasFront};
ghost use Rattle.c_read.specs.Program.{ReadsProgram, place};
ghost use Rattle.c_read.specs.Tokens.{ReadsTokens};

use crate::front::read_front;
use crate::function::{BadToken, read_tokens};
use crate::refusal::{CBad, CRefusal};
use c_token::{InterfaceLine, Scanned, read_to_the_end, tokens};
use c_tree::{CProgram, Interface};
use num_type::Stop;
use std::alloc::Global;

/// Where a token begins, and where the tokens stop behind the last one.
fn place(scanned: &Scanned, at: usize) -> usize
    ensures { (bytes : List ℕ) → result ≡ place (lexemes_of bytes scanned.now.tokens.items) scanned.now.stop at }
{
    if at < scanned.tokens.len() {
        return scanned.tokens[at].offset;
    }
    scanned.stop
}

/// The refusal at an offset behind the first two lines, which end at another.
fn refusal(end: usize, at: usize, kind: CBad) -> CRefusal
    requires { end + at < 2 ^ 64 }
    ensures kind { result.kind ≡ kind }
    ensures offset { result.offset ≡ end + at }
{
    CRefusal {
        offset: (end + at) as u64,
        kind,
    }
}

/// The program of the tokens of a function.
fn read_scanned(
    alloc: Global,
    interface: Interface,
    function: &[u8],
    scanned: &Scanned,
) -> Result<CProgram, Stop<BadToken>>
    requires { IsSignature (interface_view interface) }
    ensures { ReadsTokens result (interface_view interface) (texts_of (lexemes_of function.now scanned.now.tokens.items)) (scanned.now.stop == length function.now) }
{
    let at_end = scanned.stop == function.len();
    let r = read_tokens(alloc, interface, function, &scanned.tokens, at_end);
    r
}

/// The program of a text with these first two lines, which has these tokens behind them.
fn read_behind(
    alloc: Global,
    bytes: &[u8],
    line: InterfaceLine,
    scanned: &Scanned,
) -> Result<CProgram, Stop<CRefusal>>
    requires front { HasFront (interface_view line.interface) line.end bytes.now }
    requires lexed { AreLexed 0 (lexemes_of (drop line.end bytes.now) scanned.now.tokens.items) scanned.now.stop (drop line.end bytes.now) }
    ensures { ReadsProgram result bytes.now }
{
    read_to_the_end();
    let InterfaceLine { interface, end } = line;
    match read_scanned(alloc, interface, bytes.split_at(end).1, scanned) {
        Err(Stop::Memory) => Err(Stop::Memory),
        Err(Stop::Refused(bad)) => {
            let at = place(scanned, bad.at);
            Err(Stop::Refused(refusal(end, at, bad.kind)))
        }
        Ok(program) => Ok(program),
    }
}

/// Want of memory, which lets go of the line.
fn failed(line: InterfaceLine) -> Stop<CRefusal>
    ensures { result ≡ Stop.Memory }
{
    Stop::Memory
}

/// The program of a text with these first two lines.
fn read_function(
    alloc: Global,
    bytes: &[u8],
    line: InterfaceLine,
) -> Result<CProgram, Stop<CRefusal>>
    requires { HasFront (interface_view line.interface) line.end bytes.now }
    ensures { ReadsProgram result bytes.now }
{
    match tokens(alloc, bytes.split_at(line.end).1) {
        Err(_) => Err(failed(line)),
        Ok(scanned) => {
            let r = read_behind(alloc, bytes, line, &scanned);
            r
        }
    }
}

/// The program of a C text.
///
/// Ok exactly where the bytes are a text of a well-formed program of the part that is built, no brace, parenthesis or square bracket of which
/// is deeper than 500. The depth of such a token is the number of those that are open after it, and of the casts before it whose operand hasn't
/// ended. Otherwise refused, exactly at:
/// - `Include` at 0 and `Interface` at 20, as `read_front` says;
/// - `Limit` at the first token that is deeper than 500, if a program goes on behind it;
/// - `Token` at the first token, byte or end of the text up to which a program goes on, but not behind it, where no token before it is deeper
///   than 500. An interface without inputs and outputs has no program: what follows its line is refused.
///
/// Want of memory is the free answer.
pub fn read_c(alloc: Global, bytes: &[u8]) -> Result<CProgram, Stop<CRefusal>>
    ensures { ReadsProgram result bytes.now }
{
    match read_front(alloc, bytes) {
        Err(stop) => Err(stop),
        Ok(line) => {
            let r = read_function(alloc, bytes, line);
            r
        }
    }
}
