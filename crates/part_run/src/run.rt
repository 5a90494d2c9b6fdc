//! A part, run by the machine of C programs.

ghost use Rattle.std.specs.Prelude.{◌≡◌, ◌∷◌, ◌<◌, [], IfOk, length, map, slice_get, vec_items};
ghost use Rattle.num_type.specs.View.{type_of};
ghost use Rattle.c_tree.specs.Names.{arrays_of};
ghost use Rattle.c_tree.specs.Run.{Result as Outcome};
ghost use Rattle.c_run.specs.Ran.{IsRan};
ghost use Rattle.c_run.specs.Within.{outputs_in, program_in};
ghost use Rattle.lower_scalar.specs.Part.{part_view};
ghost use Rattle.part_run.specs.Output.{first_output, part_output};
ghost use Rattle.part_run.specs.PartProgram.{Computes};

use crate::program::program_of;
use c_run::{Machine, Ran};
use c_tree::CPart;
use fi_ops::Elem;
use num_type::{Int, Memory, NumType};
use std::alloc::Global;

/// What the part of a result of the type `to` gives where variables 0 and 1 hold the stored integers of `first` and `second`.
///
/// The part is made a whole program. Its inputs, two arrays of one element of the narrowest containers of the operands' types, go to the
/// two variables, and its output, an array of one element of the narrowest container of `to`, takes the part's value. The number is what
/// this output holds behind a run by the machine, and None comes where the run doesn't end with the status 0. Want of memory is the only
/// refusal.
pub fn run_part(
    alloc: Global,
    part: CPart,
    first: Elem,
    second: Elem,
    to: NumType,
) -> Result<Option<Int>, Memory>
    requires { Computes (type_of first.num) (type_of second.num) to.signed (part_view part) }
    ensures { IfOk result (λ z. z ≡ part_output (type_of first.num) (type_of second.num) (type_of to) (part_view part) first.z second.z) }
{
    let program = program_of(alloc, part, first.num, second.num, to)?;
    let inputs = inputs_of(alloc, first.z, second.z)?;
    let mut machine = Machine::new(alloc, &program)?;
    let ran = machine.run(&inputs, 0);
    let z = output_of(&machine, ran);
    Ok(z)
}

// Two arrays of one number each.
fn inputs_of(alloc: Global, x: Int, y: Int) -> Result<Vec<Vec<Int>>, Memory>
    ensures { IfOk result (λ inputs. map vec_items inputs.items ≡ (x ∷ []) ∷ (y ∷ []) ∷ []) }
{
    let mut inputs = Vec::new(alloc);
    inputs.push(Vec::from_slice(alloc, &[x])?)?;
    inputs.push(Vec::from_slice(alloc, &[y])?)?;
    Ok(inputs)
}

// The first element of a machine's first output array after this run.
fn output_of(machine: &Machine<'_>, ran: Ran) -> Option<Int>
    requires { 0 < length (arrays_of (program_in machine.now)).outputs }
    ensures { (r : Outcome) → IsRan r ran (outputs_in machine.now) → result ≡ first_output r }
{
    match ran {
        Ran::Ended(status) => {
            if status == 0 {
                first_of(machine.output(0))
            } else {
                None
            }
        }
        Ran::Over => None,
        Ran::Undefined(_) => None,
    }
}

// The first number of some, and None where there is none.
fn first_of(numbers: &[Int]) -> Option<Int>
    ensures { result ≡ slice_get numbers.now 0 }
{
    match sqlite_items::at(numbers, 0) {
        Some(z) => Some(*z),
        None => None,
    }
}
