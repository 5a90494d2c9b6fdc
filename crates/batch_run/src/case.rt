//! One case.

ghost use Rattle.std.specs.Prelude.{◌≡◌, IfOk, length};
ghost use Rattle.c_tree.specs.Names.{arrays_of};
ghost use Rattle.c_tree.specs.Run.{Result as Outcome};
ghost use Rattle.c_tree.specs.Whole.{program_of};
ghost use Rattle.c_run.specs.Ran.{IsRan};
ghost use Rattle.c_run.specs.Within.{program_in, outputs_in};
ghost use Rattle.case_io.specs.Cases.{AreInputs, input_ranges};
ghost use Rattle.case_io.specs.Reads.{lists_of};
ghost use Rattle.batch_run.specs.Lines.{IsCaseLine, IsCaseResult};

use c_run::{Machine, Ran};
use c_tree::CProgram;
use case_io::{CaseResult, line_of};
use num_type::{Int, Memory};
use std::alloc::Global;

/// The line of a case, by its number and its inputs, on a machine of the program, which has so many output arrays. Want of memory is the only
/// refusal.
pub(crate) fn run_case(
    alloc: Global,
    p: &CProgram,
    machine: &mut Machine<'_>,
    count: usize,
    number: u64,
    inputs: &[Vec<Int>],
    turns: u64,
) -> Result<Vec<u8>, Memory>
    requires program { program_in machine.old ≡ program_of p.now }
    requires count { count ≡ length (arrays_of (program_of p.now)).outputs }
    requires inputs { AreInputs (input_ranges (program_of p.now).interface) (lists_of inputs.now) }
    ensures program { program_in machine.new ≡ program_of p.now }
    ensures line { IfOk result (λ line. IsCaseLine (program_of p.now) turns number (lists_of inputs.now) line.items) }
{
    let ran = machine.run(inputs, turns);
    let result = case_result(alloc, machine, count, ran)?;
    let line = line_of(alloc, number, &p.tree().interface, &result)?;
    Ok(line)
}

// What a case comes to, after this run of a machine with so many output arrays. Want of memory is the only refusal.
fn case_result(
    alloc: Global,
    machine: &Machine<'_>,
    count: usize,
    ran: Ran,
) -> Result<CaseResult, Memory>
    requires arrays { count ≡ length (arrays_of (program_in machine.now)).outputs }
    requires lists { count ≡ length (outputs_in machine.now) }
    ensures { IfOk result (λ case. (r : Outcome) → IsRan r ran (outputs_in machine.now) → IsCaseResult r case) }
{
    match ran {
        Ran::Over => Ok(CaseResult::Over),
        Ran::Undefined(token) => Ok(CaseResult::Undefined(token)),
        Ran::Ended(status) => {
            if status == 0 {
                let lists = outputs(alloc, machine, count)?;
                Ok(CaseResult::Ends(lists))
            } else {
                Ok(CaseResult::Fault(status.unsigned_abs()))
            }
        }
    }
}

// What the output arrays of a machine hold. Want of memory is the only refusal.
fn outputs(alloc: Global, machine: &Machine<'_>, count: usize) -> Result<Vec<Vec<Int>>, Memory>
    requires arrays { count ≡ length (arrays_of (program_in machine.now)).outputs }
    requires lists { count ≡ length (outputs_in machine.now) }
    ensures { IfOk result (λ lists. lists_of lists.items ≡ outputs_in machine.now) }
{
    let mut lists = Vec::new(alloc);
    let mut k = 0;
    while k < count {
        let list = Vec::from_slice(alloc, machine.output(k))?;
        lists.push(list)?;
        k += 1;
    }
    Ok(lists)
}
