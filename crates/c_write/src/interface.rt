//! The first two lines.

ghost use Rattle.std.specs.Prelude.{◌≡◌, ◌++◌, OnOk, codes, map};
ghost use Rattle.shape_rules.specs.Shapes.{rows_of, columns_of};
ghost use Rattle.shape_rules.specs.TypeText.{shape_text};
ghost use Rattle.c_tree.specs.View.{interface_view, slot_view, kind_view};
ghost use Rattle.c_tree.specs.Interface.{include_line, interface_line, slot_text, slots_text, kind_text};

use crate::pieces::put;
use c_tree::{CKind, CSlot, Interface};
use num_type::Memory;
use shape_rules::{Shape, write_num, write_shape};

/// The first line.
#[tactic(auto, unfolding(c_tree::specs::Interface::include_line))]
pub fn put_include(out: &mut Vec<u8>) -> Result<(), Memory>
    ensures { OnOk result (out.new.items ≡ out.old.items ++ include_line) }
{
    put(out, b"#include <stdint.h>\n")
}

/// The second line.
pub fn put_interface(out: &mut Vec<u8>, i: &Interface) -> Result<(), Memory>
    ensures { OnOk result (out.new.items ≡ out.old.items ++ interface_line (interface_view i.now)) }
{
    put(out, b"/* fic ")?;
    put(out, i.entry.as_bytes())?;
    put_slots(out, i.inputs.as_slice())?;
    put(out, b" ->")?;
    put_slots(out, i.outputs.as_slice())?;
    put(out, b" */\n")
}

fn put_slots(out: &mut Vec<u8>, slots: &[CSlot]) -> Result<(), Memory>
    ensures { OnOk result (out.new.items ≡ out.old.items ++ slots_text (map slot_view slots.now)) }
{
    for slot in slots {
        put_slot(out, slot)?;
    }
    Ok(())
}

fn put_slot(out: &mut Vec<u8>, slot: &CSlot) -> Result<(), Memory>
    ensures { OnOk result (out.new.items ≡ out.old.items ++ slot_text (slot_view slot.now)) }
{
    put(out, b" ")?;
    put(out, slot.name.as_bytes())?;
    put(out, b":")?;
    put_kind(out, slot.kind, slot.shape)
}

fn put_kind(out: &mut Vec<u8>, kind: CKind, shape: Shape) -> Result<(), Memory>
    ensures { OnOk result (out.new.items ≡ out.old.items ++ kind_text (kind_view kind) (shape_text (rows_of shape) (columns_of shape))) }
{
    match kind {
        CKind::Fi { num, complex } => {
            write_num(num, out)?;
            put(out, b":")?;
            write_shape(shape, out)?;
            if complex { put(out, b":c") } else { Ok(()) }
        }
        CKind::Logical => {
            put(out, b"b:")?;
            write_shape(shape, out)
        }
    }
}
