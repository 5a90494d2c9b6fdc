//! The line of a case's result.

ghost use Rattle.std.specs.Prelude.{◌≡◌, ◌++◌, codes, IfOk, OnOk};
ghost use Rattle.std.specs.Fmt.{decimal};
ghost use Rattle.c_tree.specs.View.{interface_view};
ghost use Rattle.case_io.specs.ResultLines.{line_text, IsLine, HasLists};

use crate::json_text::{put_bytes, put_number};
use crate::outputs::outputs_text;
use crate::result::CaseResult;
use c_tree::Interface;
use num_type::Memory;
use std::alloc::Global;

// Begins the line of a case, up to the value of its other member.
fn put_front(case: u64, name: &[u8], out: &mut Vec<u8>) -> Result<(), Memory>
    ensures { OnOk result (out.new.items ≡ out.old.items ++ (codes "{\"case\":" ++ decimal case ++ codes ",\"" ++ name.now ++ codes "\":")) }
{
    put_bytes(b"{\"case\":", out)?;
    put_number(case, out)?;
    put_bytes(b",\"", out)?;
    put_bytes(name, out)?;
    put_bytes(b"\":", out)
}

// The line of a case with another member.
fn line(alloc: Global, case: u64, name: &[u8], value: &[u8]) -> Result<Vec<u8>, Memory>
    ensures { IfOk result (λ text. text.items ≡ line_text case name.now value.now) }
{
    let mut text = Vec::new(alloc);
    put_front(case, name, &mut text)?;
    put_bytes(value, &mut text)?;
    put_bytes(b"}\n", &mut text)?;
    Ok(text)
}

// The line of a case whose other member is a number.
fn number_line(alloc: Global, case: u64, name: &[u8], n: u64) -> Result<Vec<u8>, Memory>
    ensures { IfOk result (λ text. text.items ≡ line_text case name.now (decimal n)) }
{
    let mut value = Vec::new(alloc);
    put_number(n, &mut value)?;
    line(alloc, case, name, value.as_slice())
}

/// The line of a case, by its number from 0: compact JSON and a newline. Its members, and the outputs of a case that ends, stand in ascending
/// order of the bytes of their names; an output is a list of whole numbers by columns, or an object of two such lists where it is complex.
/// Want of memory is the only refusal.
///
/// A result that ends has one list for each output array of the interface, in order.
pub fn line_of(alloc: Global, case: u64, i: &Interface, r: &CaseResult) -> Result<Vec<u8>, Memory>
    requires { HasLists (interface_view i.now) r.now }
    ensures { IfOk result (λ text. IsLine (interface_view i.now) case r.now text.items) }
{
    match r {
        CaseResult::Ends(lists) => {
            let value = outputs_text(alloc, i.outputs.as_slice(), lists.as_slice())?;
            line(alloc, case, b"ends", value.as_slice())
        }
        CaseResult::Fault(status) => number_line(alloc, case, b"fault", *status as u64),
        CaseResult::Over => line(alloc, case, b"over", b"true"),
        CaseResult::Undefined(token) => number_line(alloc, case, b"undefined", *token),
    }
}
