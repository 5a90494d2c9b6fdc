//! The first two lines of a text.

ghost use Rattle.std.specs.Prelude.{◌≡◌, ◌≤◌, length, map, All, IfOk};
ghost use Rattle.fic_base.specs.Names.{IsName};
ghost use Rattle.c_tree.specs.Interface.{include_line};
ghost use Rattle.c_tree.specs.View.{slot_view};
ghost use Rattle.c_tree.specs.WellFormed.{IsSlot};
ghost use Rattle.c_token.specs.Line.{TestsFront, ReadsInterface, ReadsSides, ReadsOutputs};

use crate::slot::names_differ;
use crate::slots::read_slots;
use crate::text::has_front;
use c_tree::{CSlot, Interface};
use fic_base::{Text, is_name};
use num_type::Memory;
use shape_rules::split;
use sqlite_items::Items;
use std::alloc::Global;

/// The length of the first line with its end, in bytes.
const FIRST_LINE: usize = 20;

/// An interface, and where the text goes on behind its line.
#[derive(Drop)]
pub struct InterfaceLine {
    /// The entry's name, and the inputs and outputs in order.
    pub interface: Interface,
    /// How many bytes of the text stand before what follows the line.
    pub end: usize,
}

/// Whether a text begins with the line `#include <stdint.h>`, its end included.
#[tactic(auto, unfolding(c_tree::specs::Interface::include_line))]
pub fn has_include(bytes: &[u8]) -> bool
    ensures { TestsFront result include_line bytes.now }
{
    has_front(bytes, b"#include <stdint.h>\n")
}

/// The interface whose line stands at offset 20 of a text, which is behind the first line, and the offset behind that line. None exactly
/// where no interface with names, types and shapes within the limits has its line there, no two inputs and no two outputs having one name.
/// The interface may be one without inputs and outputs, of which there is no program. Want of memory is the only refusal.
pub fn read_interface(alloc: Global, bytes: &[u8]) -> Result<Option<InterfaceLine>, Memory>
    ensures { IfOk result (λ o. ReadsInterface o bytes.now) }
{
    if bytes.len() < FIRST_LINE {
        return Ok(None);
    }
    let line = bytes.split_at(FIRST_LINE).1;
    if !has_front(line, b"/* fic ") {
        return Ok(None);
    }
    match split(line.split_at(7).1, b' ') {
        None => Ok(None),
        Some((entry, _)) => {
            if !is_name(entry) {
                return Ok(None);
            }
            read_sides(alloc, entry, bytes, FIRST_LINE + 8 + entry.len())
        }
    }
}

/// Reads the inputs and outputs from an offset on. None exactly where no interface with this entry goes on so; want of memory is the only
/// refusal.
fn read_sides(
    alloc: Global,
    entry: &[u8],
    bytes: &[u8],
    start: usize,
) -> Result<Option<InterfaceLine>, Memory>
    requires within { start ≤ length bytes.now }
    requires name { IsName entry.now }
    ensures { IfOk result (λ o. ReadsSides o entry.now start bytes.now) }
{
    let mut inputs = Items::new(alloc);
    match read_slots(alloc, bytes, start, b"-> ", &mut inputs)? {
        None => Ok(None),
        Some(at) => {
            let r = read_outputs(alloc, entry, inputs, bytes, at)?;
            Ok(r)
        }
    }
}

/// Reads the outputs from an offset on. None exactly where no interface with this entry and these inputs goes on so; want of memory is the
/// only refusal.
fn read_outputs(
    alloc: Global,
    entry: &[u8],
    inputs: Items<CSlot>,
    bytes: &[u8],
    start: usize,
) -> Result<Option<InterfaceLine>, Memory>
    requires within { start ≤ length bytes.now }
    requires name { IsName entry.now }
    requires slots { All IsSlot (map slot_view inputs) }
    ensures { IfOk result (λ o. ReadsOutputs o entry.now inputs start bytes.now) }
{
    let mut outputs = Items::new(alloc);
    match read_slots(alloc, bytes, start, b"*/\n", &mut outputs)? {
        None => Ok(None),
        Some(end) => {
            if !names_differ(inputs.as_slice()) {
                return Ok(None);
            }
            if !names_differ(outputs.as_slice()) {
                return Ok(None);
            }
            let interface = make_interface(alloc, entry, inputs, outputs)?;
            Ok(Some(InterfaceLine { interface, end }))
        }
    }
}

/// An interface with a copy of the entry's name. Want of memory is its only refusal.
fn make_interface(
    alloc: Global,
    entry: &[u8],
    inputs: Items<CSlot>,
    outputs: Items<CSlot>,
) -> Result<Interface, Memory>
    ensures entry { IfOk result (λ i. i.entry ≡ entry.now) }
    ensures inputs { IfOk result (λ i. i.inputs ≡ inputs) }
    ensures outputs { IfOk result (λ i. i.outputs ≡ outputs) }
{
    let entry = Text::from_bytes(alloc, entry)?;
    Ok(Interface {
        entry,
        inputs,
        outputs,
    })
}
