//! Inputs or outputs in order.

ghost use Rattle.std.specs.Prelude.{◌≡◌, ◌≤◌, [], length, IfOk};
ghost use Rattle.c_token.specs.Line.{ReadsSlots};

use crate::slot::next_slot;
use crate::text::has_front;
use c_tree::CSlot;
use num_type::Memory;
use sqlite_items::Items;
use std::alloc::Global;

/// Reads slots from an offset on, with a blank behind each, up to a mark, and gives the offset behind the mark. None exactly where no slots
/// with the mark behind them come; want of memory is the only refusal.
pub(crate) fn read_slots(
    alloc: Global,
    bytes: &[u8],
    start: usize,
    mark: &[u8],
    slots: &mut Items<CSlot>,
) -> Result<Option<usize>, Memory>
    requires within { start ≤ length bytes.now }
    requires none { slots.old ≡ [] }
    ensures { IfOk result (λ o. ReadsSlots o slots.new start mark.now bytes.now) }
{
    let mut at = start;
    while !has_front(bytes.split_at(at).1, mark) {
        match next_slot(alloc, bytes.split_at(at).1, slots)? {
            None => return Ok(None),
            Some(len) => at += len,
        }
    }
    Ok(Some(at + mark.len()))
}
