//! The input arrays of an interface.

ghost use Rattle.std.specs.Prelude.{◌≡◌, ◌++◌, ◌∷◌, [], ◌*◌, ◌≤ℤ◌, ◌↔◌, IfOk, OnOk, nat_eq, IsTrue};
ghost use Rattle.shape_rules.specs.Shapes.{elements_of};
ghost use Rattle.c_tree.specs.View.{slot_view, kind_view, interface_view};
ghost use Rattle.c_tree.specs.Names.{is_complex};
ghost use Rattle.case_io.specs.View.{range_view, ranges_view};
ghost use Rattle.case_io.specs.Cases.{IsWithin, kind_range, slot_ranges, input_ranges, elements};

use crate::range::Range;
use c_tree::{CKind, CSlot, Interface};
use num_type::{Int, Memory};
use std::alloc::Global;

// So many elements of a kind.
fn kind_range(kind: CKind, count: u32) -> Range
    ensures { range_view result ≡ kind_range (kind_view kind) count }
{
    match kind {
        CKind::Fi { num, complex: _ } => Range {
            count,
            least: num.low(),
            most: num.high(),
        },
        CKind::Logical => Range {
            count,
            least: Int::of(false, 0),
            most: Int::of(false, 1),
        },
    }
}

/// Whether elements of a kind have two parts.
pub fn is_complex(kind: CKind) -> bool
    ensures { result ≡ is_complex (kind_view kind) }
{
    match kind {
        CKind::Fi { num: _, complex } => complex,
        CKind::Logical => false,
    }
}

// Adds an array of so many elements of a kind.
fn put_range(kind: CKind, count: u32, ranges: &mut Vec<Range>) -> Result<(), Memory>
    ensures { OnOk result (ranges_view ranges.new.items ≡ ranges_view ranges.old.items ++ kind_range (kind_view kind) count ∷ []) }
{
    ranges.push(kind_range(kind, count))?;
    Ok(())
}

// Adds the arrays of an input.
fn put_slot(slot: &CSlot, ranges: &mut Vec<Range>) -> Result<(), Memory>
    ensures { OnOk result (ranges_view ranges.new.items ≡ ranges_view ranges.old.items ++ slot_ranges (slot_view slot.now)) }
{
    let kind = slot.kind;
    let count = slot.shape.elements();
    put_range(kind, count, ranges)?;
    if is_complex(kind) {
        put_range(kind, count, ranges)?;
    }
    Ok(())
}

/// The input arrays of an interface, in order. Want of memory is the only refusal.
pub fn input_ranges(alloc: Global, i: &Interface) -> Result<Vec<Range>, Memory>
    ensures { IfOk result (λ ranges. ranges_view ranges.items ≡ input_ranges (interface_view i.now)) }
{
    let mut ranges = Vec::new(alloc);
    for slot in i.inputs.as_slice() {
        put_slot(slot, &mut ranges)?;
    }
    Ok(ranges)
}

/// Whether there are so many elements in all.
pub fn is_count(count: usize, ranges: &[Range]) -> bool
    ensures { result ≡ nat_eq count (elements (ranges_view ranges.now)) }
{
    let mut left = count;
    for range in ranges {
        let want = range.count as usize;
        if left < want {
            return false;
        }
        left -= want;
    }
    left == 0
}

/// Whether a number is in range.
pub fn is_within(range: &Range, z: Int) -> bool
    ensures { IsTrue result ↔ IsWithin (range_view range.now) z }
{
    range.least.at_most(z) && z.at_most(range.most)
}
