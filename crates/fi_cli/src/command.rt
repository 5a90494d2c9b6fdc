//! What commands give.

ghost use Rattle.std.specs.Prelude.{◌≡◌, ◌≤◌, ◌↔◌, length, IsTrue, IfOk, IfErr, IfSome, OnOk};
ghost use Rattle.fi_cli.specs.Forms as form;
ghost use Rattle.fi_cli.specs.Commands.{BadSource};
ghost use Rattle.fi_cli.specs.Causes.{ShelfSide, Refused, StandsAt, Yields};
ghost use Rattle.fi_cli.specs.View.{AreScalars, HasScalars, cause_view, command_view, run_cause, IsUnread, StopIs};

use crate::call::Fault;
use crate::results::{RunStop, run_text};
use crate::source::compile_source;
use crate::words::{Command, Compile, Run};
use fic_base::Refusal;
use fic_io::{Shelf, ShelfFault};
use num_type::Stop;
use std::alloc::Global;

/// What a command gives, or why it gives nothing.
pub fn obey<'a, S: Shelf>(
    alloc: Global,
    command: Command<'a>,
    shelf: &mut S,
) -> Result<Vec<u8>, Fault<'a>>
    requires { HasScalars (command_view command) }
    ensures bytes { IfOk result (λ bytes. Yields (command_view command.entry)
        (record { told = S.told shelf.old; before = S.faults shelf.old; now = S.faults shelf.new; last = S.last shelf.new }) bytes.items) }
    ensures cause { IfErr result (λ fault. StandsAt (cause_view fault) (command_view command.entry)
        (record { told = S.told shelf.old; before = S.faults shelf.old; now = S.faults shelf.new; last = S.last shelf.new })) }
    ensures keeps { S.told shelf.new ≡ S.told shelf.old }
    ensures rises { S.faults shelf.old ≤ S.faults shelf.new }
{
    match command {
        Command::Compile(command) => compile(alloc, command, shelf),
        Command::Run(command) => run(alloc, command, shelf),
    }
}

// Why the source has no program.
fn refused<'a>(stop: Stop<Refusal>) -> Fault<'a>
    ensures { StopIs (cause_view result) (λ r. Refused (BadSource r)) stop }
{
    match stop {
        Stop::Refused(refusal) => Fault::Source(refusal),
        Stop::Memory => Fault::Memory,
    }
}

// The text of the program of an entry.
fn compile<'a, S: Shelf>(
    alloc: Global,
    command: Compile<'a>,
    shelf: &mut S,
) -> Result<Vec<u8>, Fault<'a>>
    requires { AreScalars command.types.items }
    ensures bytes { IfOk result (λ bytes. Yields (form.Compile command.entry.file.now command.entry.entry.now command.entry.types.items)
        (record { told = S.told shelf.old; before = S.faults shelf.old; now = S.faults shelf.new; last = S.last shelf.new }) bytes.items) }
    ensures cause { IfErr result (λ fault. StandsAt (cause_view fault) (form.Compile command.entry.file.now command.entry.entry.now command.entry.types.items)
        (record { told = S.told shelf.old; before = S.faults shelf.old; now = S.faults shelf.new; last = S.last shelf.new })) }
    ensures keeps { S.told shelf.new ≡ S.told shelf.old }
    ensures rises { S.faults shelf.old ≤ S.faults shelf.new }
{
    let mut source = Vec::new(alloc);
    match shelf.read(command.file, 1_048_577, &mut source) {
        Ok(()) => {}
        Err(ShelfFault::Memory) => return Err(Fault::Memory),
        Err(ShelfFault::Failed) => return Err(Fault::Unread(command.file)),
    }
    match compile_source(
        alloc,
        source.as_slice(),
        command.entry,
        command.types.as_slice(),
    ) {
        Ok(text) => Ok(text),
        Err(stop) => Err(refused(stop)),
    }
}

// Why a C text has no results.
fn without_results<'a>(stop: RunStop) -> Fault<'a>
    ensures { cause_view result ≡ run_cause stop }
{
    match stop {
        RunStop::Text(refusal) => Fault::Text(refusal),
        RunStop::Cases(refusal) => Fault::Cases(refusal),
        RunStop::Memory => Fault::Memory,
    }
}

// Whether there are as many bytes as a read may give.
fn is_full(bytes: &[u8]) -> bool
    ensures { IsTrue result ↔ (length bytes.now ≡ 18446744073709551615) }
{
    bytes.len() == usize::MAX
}

// The bytes under a name.
fn read_whole<'a, S: Shelf>(
    alloc: Global,
    name: &'a str,
    shelf: &mut S,
) -> Result<Vec<u8>, Fault<'a>>
    ensures bytes { IfOk result (λ bytes. IfSome (S.told shelf.old name.now) (λ told. bytes.items ≡ told)) }
    ensures counts { OnOk result (S.faults shelf.new ≡ S.faults shelf.old) }
    ensures keeps { S.told shelf.new ≡ S.told shelf.old }
    ensures rises { S.faults shelf.old ≤ S.faults shelf.new }
    ensures cause { IfErr result (λ fault. IsUnread (cause_view fault) name.now (S.faults shelf.old) (S.faults shelf.new) (S.last shelf.new)) }
{
    let mut bytes = Vec::new(alloc);
    match shelf.read(name, u64::MAX, &mut bytes) {
        Ok(()) => {}
        Err(ShelfFault::Memory) => return Err(Fault::Memory),
        Err(ShelfFault::Failed) => return Err(Fault::Unread(name)),
    }
    if is_full(bytes.as_slice()) {
        return Err(Fault::Memory);
    }
    Ok(bytes)
}

// The results of the program of a C text.
fn run<'a, S: Shelf>(alloc: Global, command: Run<'a>, shelf: &mut S) -> Result<Vec<u8>, Fault<'a>>
    ensures bytes { IfOk result (λ bytes. Yields (form.Run command.entry.file.now command.entry.cases.now command.entry.turns)
        (record { told = S.told shelf.old; before = S.faults shelf.old; now = S.faults shelf.new; last = S.last shelf.new }) bytes.items) }
    ensures cause { IfErr result (λ fault. StandsAt (cause_view fault) (form.Run command.entry.file.now command.entry.cases.now command.entry.turns)
        (record { told = S.told shelf.old; before = S.faults shelf.old; now = S.faults shelf.new; last = S.last shelf.new })) }
    ensures keeps { S.told shelf.new ≡ S.told shelf.old }
    ensures rises { S.faults shelf.old ≤ S.faults shelf.new }
{
    let text = read_whole(alloc, command.file, shelf)?;
    let cases = read_whole(alloc, command.cases, shelf)?;
    match run_text(alloc, text.as_slice(), cases.as_slice(), command.turns) {
        Ok(bytes) => Ok(bytes),
        Err(stop) => Err(without_results(stop)),
    }
}
