//! From the bytes of a C text and of cases to their results.

ghost use Rattle.std.specs.Prelude.{◌≡◌, All, IfOk, IfErr, flat_map, map, vec_items};
ghost use Rattle.c_tree.specs.Whole.{program_of};
ghost use Rattle.c_read.specs.Program.{IsTextOf};
ghost use Rattle.case_io.specs.Cases.{AreInputs, input_ranges};
ghost use Rattle.batch_run.specs.Lines.{inputs_of};
ghost use Rattle.fi_cli.specs.Results.{AreResults, HasLines};
ghost use Rattle.fi_cli.specs.View.{StopsRun};

use batch_run::run_all;
use c_read::{CRefusal, read_c};
use c_tree::CProgram;
use case_io::{CaseRefusal, Cases, read_cases};
use num_type::{Memory, Stop};
use std::alloc::Global;

/// Why there are no results.
#[derive(Clone, Copy, Debug, PartialEq, Eq)]
pub enum RunStop {
    /// The C text is refused.
    Text(CRefusal),
    /// The cases are refused.
    Cases(CaseRefusal),
    /// Memory is wanting.
    Memory,
}

/// The lines of the cases: what the program of a C text comes to on their inputs, each `while` making at most so many turns. Refused where
/// the text is, and otherwise where the cases are.
pub fn run_text(alloc: Global, text: &[u8], cases: &[u8], turns: u64) -> Result<Vec<u8>, RunStop>
    ensures bytes { IfOk result (λ bytes. AreResults text.now cases.now turns bytes.items) }
    ensures cause { IfErr result (λ stop. StopsRun stop text.now cases.now) }
{
    match read_c(alloc, text) {
        Ok(program) => results_of(alloc, text, &program, cases, turns),
        Err(Stop::Refused(refusal)) => Err(RunStop::Text(refusal)),
        Err(Stop::Memory) => Err(RunStop::Memory),
    }
}

// The lines of the cases of the program of a text.
fn results_of(
    alloc: Global,
    text: &[u8],
    program: &CProgram,
    cases: &[u8],
    turns: u64,
) -> Result<Vec<u8>, RunStop>
    requires { IsTextOf (program_of program.now) text.now }
    ensures bytes { IfOk result (λ bytes. AreResults text.now cases.now turns bytes.items) }
    ensures cause { IfErr result (λ stop. StopsRun stop text.now cases.now) }
{
    match read_cases(alloc, cases, &program.tree().interface) {
        Ok(list) => match lines_of(alloc, program, &list, turns) {
            Ok(lines) => Ok(lines),
            Err(Memory) => Err(RunStop::Memory),
        },
        Err(Stop::Refused(refusal)) => Err(RunStop::Cases(refusal)),
        Err(Stop::Memory) => Err(RunStop::Memory),
    }
}

// The lines of cases, one behind the other. Want of memory is the only refusal.
fn lines_of(alloc: Global, program: &CProgram, cases: &Cases, turns: u64) -> Result<Vec<u8>, Memory>
    requires { All (AreInputs (input_ranges (program_of program.now).interface)) (inputs_of cases.now) }
    ensures { IfOk result (λ bytes. HasLines (program_of program.now) turns (inputs_of cases.now) bytes.items) }
{
    let lines = run_all(alloc, program, cases, turns)?;
    let bytes = joined(alloc, lines.as_slice())?;
    Ok(bytes)
}

// Lines, one behind the other. Want of memory is the only refusal.
fn joined(alloc: Global, lines: &[Vec<u8>]) -> Result<Vec<u8>, Memory>
    ensures { IfOk result (λ bytes. bytes.items ≡ flat_map (λ line. line) (map vec_items lines.now)) }
{
    let mut bytes = Vec::new(alloc);
    for line in lines {
        bytes.extend_from_slice(line.as_slice())?;
    }
    Ok(bytes)
}
