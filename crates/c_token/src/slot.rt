//! One input or output.

ghost use Rattle.std.specs.Prelude.{◌≡◌, ◌↔◌, IsTrue, IfOk, bytes_eq, map};
ghost use Rattle.std.specs.List.{list_any};
ghost use Rattle.c_tree.specs.View.{slot_view};
ghost use Rattle.c_tree.specs.WellFormed.{AreNamedApart};
ghost use Rattle.c_token.specs.Line.{ReadsSlot, ReadsNext, differ};

use crate::kind::{Elements, read_kind};
use c_tree::CSlot;
use fic_base::{Text, is_name};
use num_type::Memory;
use shape_rules::split;
use sqlite_items::Items;
use std::alloc::Global;

/// A slot with a copy of its name. Want of memory is its only refusal.
fn make_slot(alloc: Global, name: &[u8], elements: Elements) -> Result<CSlot, Memory>
    ensures name { IfOk result (λ s. s.name ≡ name.now) }
    ensures kind { IfOk result (λ s. s.kind ≡ elements.kind) }
    ensures shape { IfOk result (λ s. s.shape ≡ elements.shape) }
{
    let name = Text::from_bytes(alloc, name)?;
    Ok(CSlot {
        name,
        kind: elements.kind,
        shape: elements.shape,
    })
}

/// The slot of a text such as `a:s8.4:1x1`. None exactly where the text is that of no slot; want of memory is the only refusal.
fn read_slot(alloc: Global, word: &[u8]) -> Result<Option<CSlot>, Memory>
    ensures { IfOk result (λ o. ReadsSlot o word.now) }
{
    match split(word, b':') {
        None => Ok(None),
        Some((name, text)) => {
            if !is_name(name) {
                return Ok(None);
            }
            match read_kind(text) {
                None => Ok(None),
                Some(elements) => {
                    let slot = make_slot(alloc, name, elements)?;
                    Ok(Some(slot))
                }
            }
        }
    }
}

/// Reads a slot and the blank behind it, adds the slot at the end, and gives the length of both in bytes. None exactly where no slot with a
/// blank behind it comes first; want of memory is the only refusal.
pub(crate) fn next_slot(
    alloc: Global,
    s: &[u8],
    slots: &mut Items<CSlot>,
) -> Result<Option<usize>, Memory>
    ensures { IfOk result (λ o. ReadsNext o slots.old slots.new s.now) }
{
    match split(s, b' ') {
        None => Ok(None),
        Some((word, _)) => match read_slot(alloc, word)? {
            None => Ok(None),
            Some(slot) => {
                slots.push(slot)?;
                Ok(Some(word.len() + 1))
            }
        },
    }
}

/// Whether one of the slots has this name.
fn has_name(name: &[u8], slots: &[CSlot]) -> bool
    ensures { result ≡ list_any (λ s. bytes_eq name.now s.name) slots.now }
{
    slots.iter().any(|s| name == s.name.as_bytes())
}

/// Whether no two slots have one name.
pub(crate) fn names_differ(slots: &[CSlot]) -> bool
    ensures { IsTrue result ↔ AreNamedApart (map slot_view slots.now) }
{
    differ(slots)
}

fn differ(slots: &[CSlot]) -> bool
    ensures { result ≡ differ slots.now }
{
    let mut rest = slots;
    while let Some((slot, more)) = rest.split_first() {
        if has_name(slot.name.as_bytes(), more) {
            return false;
        }
        rest = more;
    }
    true
}
