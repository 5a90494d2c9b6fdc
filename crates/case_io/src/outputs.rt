//! The outputs of a case as a JSON object.

ghost use Rattle.std.specs.Prelude.{◌≡◌, ◌≤◌, map, length, IfOk, vec_items};
ghost use Rattle.c_tree.specs.View.{slot_view};
ghost use Rattle.c_tree.specs.Names.{is_complex, slots_arrays, output_fronts};
ghost use Rattle.case_io.specs.View.{member_view, members_view};
ghost use Rattle.case_io.specs.ResultLines.{part_count, value_text, members, IsObject};

use crate::json_text::put_value;
use crate::member::{Member, put_object};
use crate::ranges::is_complex;
use c_tree::CSlot;
use num_type::{Int, Memory};
use std::alloc::Global;

// How many arrays a slot has.
fn part_count(is_complex: bool) -> usize
    ensures { result ≡ part_count is_complex }
{
    if is_complex { 2 } else { 1 }
}

// An output with its value, from the lists of its arrays.
fn output_member(alloc: Global, slot: &CSlot, lists: &[Vec<Int>]) -> Result<Member, Memory>
    requires { part_count (is_complex (slot_view slot.now).kind) ≤ length lists.now }
    ensures { IfOk result (λ m. member_view m ≡ record { name = slot.now.name; text = value_text (is_complex (slot_view slot.now).kind) (map vec_items lists.now) }) }
{
    let name = Vec::from_slice(alloc, slot.name.as_bytes())?;
    let mut text = Vec::new(alloc);
    put_value(is_complex(slot.kind), lists, &mut text)?;
    Ok(Member { name, text })
}

// The outputs in order with their values, from the lists of their arrays in order.
fn output_members(alloc: Global, slots: &[CSlot], lists: &[Vec<Int>]) -> Result<Vec<Member>, Memory>
    requires { length lists.now ≡ length (slots_arrays output_fronts (map slot_view slots.now)) }
    ensures { IfOk result (λ ms. members_view ms.items ≡ members (map slot_view slots.now) (map vec_items lists.now)) }
{
    let mut members = Vec::new(alloc);
    let mut at = 0;
    for slot in slots {
        let own = lists.split_at(at).1;
        let member = output_member(alloc, slot, own)?;
        members.push(member)?;
        at += part_count(is_complex(slot.kind));
    }
    Ok(members)
}

/// The object of the outputs, from the lists of their arrays in order. Want of memory is the only refusal.
pub fn outputs_text(alloc: Global, slots: &[CSlot], lists: &[Vec<Int>]) -> Result<Vec<u8>, Memory>
    requires { length lists.now ≡ length (slots_arrays output_fronts (map slot_view slots.now)) }
    ensures { IfOk result (λ text. IsObject (members (map slot_view slots.now) (map vec_items lists.now)) text.items) }
{
    let mut members = output_members(alloc, slots, lists)?;
    members.sort_unstable();
    let mut text = Vec::new(alloc);
    put_object(members.as_slice(), &mut text)?;
    Ok(text)
}
