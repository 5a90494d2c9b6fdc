//! All cases, one after the other.

ghost use Rattle.std.specs.Prelude.{◌≡◌, IfOk, All, map, vec_items};
ghost use Rattle.c_tree.specs.Whole.{program_of};
ghost use Rattle.case_io.specs.Cases.{AreInputs, input_ranges};
ghost use Rattle.case_io.specs.Reads.{lists_of};
ghost use Rattle.batch_run.specs.Lines.{AreLines, inputs_of};

use crate::case::run_case;
use c_run::Machine;
use c_tree::{Arrays, CProgram};
use case_io::Cases;
use num_type::{Int, Memory};
use std::alloc::Global;

/// The result lines of a program at cases, in their order, each with its newline. In a run each `while` makes at most `turns` turns, and the
/// output arrays hold zeros at first. Want of memory is the only refusal.
///
/// Each case has a list for each input array of the program's interface, in order, with its length and in the range of its type.
pub fn run_all(
    alloc: Global,
    p: &CProgram,
    cases: &Cases,
    turns: u64,
) -> Result<Vec<Vec<u8>>, Memory>
    requires { All (AreInputs (input_ranges (program_of p.now).interface)) (inputs_of cases.now) }
    ensures { IfOk result (λ lines. AreLines (program_of p.now) turns 0 (inputs_of cases.now) (map vec_items lines.items)) }
{
    let lines = run_each(alloc, p, cases.list.as_slice(), turns)?;
    Ok(lines)
}

// The result lines of cases in their order. Want of memory is the only refusal.
fn run_each(
    alloc: Global,
    p: &CProgram,
    cases: &[Vec<Vec<Int>>],
    turns: u64,
) -> Result<Vec<Vec<u8>>, Memory>
    requires { All (AreInputs (input_ranges (program_of p.now).interface)) (map (λ c. lists_of c.items) cases.now) }
    ensures { IfOk result (λ lines. AreLines (program_of p.now) turns 0 (map (λ c. lists_of c.items) cases.now) (map vec_items lines.items)) }
{
    let count = Arrays::of(alloc, p.tree())?.outputs.len();
    let mut machine = Machine::new(alloc, p)?;
    let mut lines = Vec::new(alloc);
    let mut number = 0;
    for case in cases {
        let line = run_case(
            alloc,
            p,
            &mut machine,
            count,
            number,
            case.as_slice(),
            turns,
        )?;
        lines.push(line)?;
        number += 1;
    }
    Ok(lines)
}
