//! Result lines.

ghost use Rattle.std.specs.Prelude.{◌≡◌, length, IfOk};
ghost use Rattle.c_tree.specs.View.{interface_view, kind_view};
ghost use Rattle.c_tree.specs.Names.{is_complex, output_arrays};
ghost use Rattle.c_tree.specs.declared.interface.Interface.{Interface as AnInterface};
ghost use Rattle.case_io.specs.ResultLines.{HasLists};

use c_tree::{CKind, CSlot, Interface};
use case_io::{CaseResult, line_of};
use fic_base::Text;
use num_type::{Int, Memory, NumType};
use shape_rules::Shape;
use sqlite_items::Items;
use std::alloc::Global;
use std::test::Fail;

/// Stored integers of the type s17.8, complex or not.
fn fixed(complex: bool) -> Result<CKind, Memory>
    ensures { IfOk result (λ kind. is_complex (kind_view kind) ≡ complex) }
{
    match NumType::make(true, 17, 8) {
        None => Err(Memory),
        Some(num) => Ok(CKind::Fi { num, complex }),
    }
}

/// An output.
fn slot(alloc: Global, name: &[u8], kind: CKind, rows: u32, cols: u32) -> Result<CSlot, Memory>
    ensures { IfOk result (λ s. s.kind ≡ kind) }
{
    let name = Text::from_bytes(alloc, name)?;
    match Shape::make(rows, cols) {
        None => Err(Memory),
        Some(shape) => Ok(CSlot { name, kind, shape }),
    }
}

/// A function of these outputs.
fn interface(alloc: Global, outputs: Items<CSlot>) -> Result<Interface, Memory>
    ensures { IfOk result (λ i. i.outputs ≡ outputs) }
{
    let entry = Text::from_bytes(alloc, b"f")?;
    Ok(Interface {
        entry,
        inputs: Items::new(alloc),
        outputs,
    })
}

/// One output `y`, a real scalar.
fn one_output(alloc: Global) -> Result<Interface, Memory>
    ensures { IfOk result (λ i. length (output_arrays (interface_view i)) ≡ 1) }
{
    let mut outputs = Items::new(alloc);
    outputs.push(slot(alloc, b"y", fixed(false)?, 1, 1)?)?;
    interface(alloc, outputs)
}

/// Complex numbers `ab`, a matrix `B` and a truth value `a`.
fn three_outputs(alloc: Global) -> Result<Interface, Memory>
    ensures { IfOk result (λ i. length (output_arrays (interface_view i)) ≡ 4) }
{
    let mut outputs = Items::new(alloc);
    outputs.push(slot(alloc, b"ab", fixed(true)?, 1, 2)?)?;
    outputs.push(slot(alloc, b"B", fixed(false)?, 2, 2)?)?;
    outputs.push(slot(alloc, b"a", CKind::Logical, 1, 1)?)?;
    interface(alloc, outputs)
}

/// A list of numbers.
fn numbers(alloc: Global, all: &[i64]) -> Result<Vec<Int>, Memory> {
    let mut list = Vec::new(alloc);
    for n in all {
        list.push(Int::from_i128(*n as i128))?;
    }
    Ok(list)
}

/// The line of a case of the function with one output.
fn line_of_one(alloc: Global, case: u64, y: i64) -> Result<Vec<u8>, Memory> {
    let i = one_output(alloc)?;
    let mut lists = Vec::new(alloc);
    lists.push(numbers(alloc, &[y])?)?;
    line_of(alloc, case, &i, &CaseResult::Ends(lists))
}

/// The line of a case of the function with three outputs.
fn line_of_three(alloc: Global) -> Result<Vec<u8>, Memory> {
    let i = three_outputs(alloc)?;
    let mut lists = Vec::new(alloc);
    lists.push(numbers(alloc, &[1, -2])?)?;
    lists.push(numbers(alloc, &[3, 0])?)?;
    lists.push(numbers(alloc, &[1, 2, 3, 4])?)?;
    lists.push(numbers(alloc, &[1])?)?;
    line_of(alloc, 7, &i, &CaseResult::Ends(lists))
}

/// The line of a case that doesn't end with status 0.
fn other_line(alloc: Global, case: u64, r: &CaseResult) -> Result<Vec<u8>, Memory>
    requires { (i : AnInterface) → HasLists (interface_view i) r.now }
{
    let i = one_output(alloc)?;
    line_of(alloc, case, &i, r)
}

/// Whether a line is this one.
fn is_line(line: Result<Vec<u8>, Memory>, wanted: &[u8]) -> bool {
    match line {
        Ok(line) => line.as_slice() == wanted,
        Err(_) => false,
    }
}

#[test]
fn lines_of_cases_that_end(rt: HostRuntime) -> Result<(), Fail> {
    let alloc = rt.alloc();
    assert!(rt;
        is_line(
            line_of_one(alloc, 0, -384),
            b"{\"case\":0,\"ends\":{\"y\":[-384]}}\n"
        )
    );
    assert!(rt;
        is_line(
            line_of_one(alloc, 18446744073709551615, 0),
            b"{\"case\":18446744073709551615,\"ends\":{\"y\":[0]}}\n"
        )
    );
    assert!(rt;
        is_line(
            line_of_three(alloc),
            b"{\"case\":7,\"ends\":{\"B\":[1,2,3,4],\"a\":[1],\"ab\":{\"im\":[3,0],\"re\":[1,-2]}}}\n"
        )
    );
    Ok(())
}

#[test]
fn lines_of_other_cases(rt: HostRuntime) -> Result<(), Fail> {
    let alloc = rt.alloc();
    assert!(rt;
        is_line(
            other_line(alloc, 3, &CaseResult::Fault(30)),
            b"{\"case\":3,\"fault\":30}\n"
        )
    );
    assert!(rt;
        is_line(
            other_line(alloc, 0, &CaseResult::Over),
            b"{\"case\":0,\"over\":true}\n"
        )
    );
    assert!(rt;
        is_line(
            other_line(alloc, 0, &CaseResult::Undefined(91)),
            b"{\"case\":0,\"undefined\":91}\n"
        )
    );
    Ok(())
}
