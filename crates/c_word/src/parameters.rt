//! The names of parameters.

ghost use Rattle.std.specs.Prelude.{◌≡◌, ◌+◌, ◌≤◌, ◌^◌, ◌++◌, ℕ, suc, length, map, IfErr, IfOk, OnOk};
ghost use Rattle.c_tree.specs.View.{kind_view, slot_view};
ghost use Rattle.c_tree.specs.Names as names;
ghost use Rattle.c_tree.specs.Names.{slot_arrays, slots_arrays};
ghost use Rattle.c_word.specs.Table.{array_of, array_rows, found_in, fronts_of, with_rows, with_word};

use crate::table::WordTable;
use c_grammar::CWordToken;
use c_tree::{CArray, CKind, CSlot};
use num_type::Memory;
use std::alloc::Global;

/// The inputs or the outputs of an interface.
#[derive(Clone, Copy)]
pub(crate) enum Side {
    Input,
    Output,
}

fn array_of(side: Side, number: u32) -> CArray
    ensures { result ≡ array_of side number }
{
    match side {
        Side::Input => CArray::Input(number),
        Side::Output => CArray::Output(number),
    }
}

/// What the name of a real slot's array begins with.
fn plain_front(side: Side) -> &'static [u8]
    ensures { result.now ≡ (fronts_of side).plain }
{
    match side {
        Side::Input => b"in_",
        Side::Output => b"out_",
    }
}

/// What the name of the array of real parts begins with.
fn real_front(side: Side) -> &'static [u8]
    ensures { result.now ≡ (fronts_of side).re }
{
    match side {
        Side::Input => b"inr_",
        Side::Output => b"outr_",
    }
}

/// What the name of the array of imaginary parts begins with.
fn imaginary_front(side: Side) -> &'static [u8]
    ensures { result.now ≡ (fronts_of side).im }
{
    match side {
        Side::Input => b"ini_",
        Side::Output => b"outi_",
    }
}

fn is_complex(kind: CKind) -> bool
    ensures { result ≡ names.is_complex (kind_view kind) }
{
    match kind {
        CKind::Fi { num: _, complex } => complex,
        CKind::Logical => false,
    }
}

/// The number behind a number of an array. It refuses as want of memory where a `u32` has none.
fn behind(number: u32) -> Result<u32, Memory>
    ensures next { IfOk result (λ next. next ≡ suc number) }
    ensures limit { IfErr result (λ e. 2 ^ 32 ≤ suc number) }
{
    match number.checked_add(1) {
        None => Err(Memory),
        Some(next) => Ok(next),
    }
}

/// One text behind another. Want of memory is the only refusal.
pub(crate) fn joined(alloc: Global, front: &[u8], name: &[u8]) -> Result<Vec<u8>, Memory>
    ensures { IfOk result (λ text. text.items ≡ front.now ++ name.now) }
{
    let mut text = Vec::from_slice(alloc, front)?;
    text.extend_from_slice(name)?;
    Ok(text)
}

/// Puts an array in, whose name is a slot's behind a front. Want of memory is the only refusal.
fn put_array(
    alloc: Global,
    table: &mut WordTable,
    front: &[u8],
    name: &[u8],
    array: CArray,
) -> Result<(), Memory>
    ensures { OnOk result (found_in table.new ≡ with_word (found_in table.old) (front.now ++ name.now) (CWordToken.Array array)) }
{
    let text = joined(alloc, front, name)?;
    table.put(text, CWordToken::Array(array))?;
    Ok(())
}

/// Puts the arrays of a slot in, numbered from a number on, and gives the number behind theirs. Want of memory is the only refusal, and a
/// number that a `u32` doesn't hold counts as such.
fn put_slot(
    alloc: Global,
    table: &mut WordTable,
    side: Side,
    slot: &CSlot,
    number: u32,
) -> Result<u32, Memory>
    ensures rows { OnOk result (found_in table.new ≡ with_rows (found_in table.old) (array_rows side number (slot_arrays (fronts_of side) (slot_view slot.now)))) }
    ensures next { IfOk result (λ next. next ≡ number + length (slot_arrays (fronts_of side) (slot_view slot.now))) }
{
    let name = slot.name.as_bytes();
    if is_complex(slot.kind) {
        put_array(alloc, table, real_front(side), name, array_of(side, number))?;
        let imaginary = behind(number)?;
        put_array(
            alloc,
            table,
            imaginary_front(side),
            name,
            array_of(side, imaginary),
        )?;
        let next = behind(imaginary)?;
        Ok(next)
    } else {
        put_array(
            alloc,
            table,
            plain_front(side),
            name,
            array_of(side, number),
        )?;
        let next = behind(number)?;
        Ok(next)
    }
}

/// Puts the arrays of inputs or outputs in, numbered from 0. Want of memory is the only refusal, and 2^32 arrays count as such.
pub(crate) fn put_slots(
    alloc: Global,
    table: &mut WordTable,
    side: Side,
    slots: &[CSlot],
) -> Result<(), Memory>
    ensures { OnOk result (found_in table.new ≡ with_rows (found_in table.old) (array_rows side 0 (slots_arrays (fronts_of side) (map slot_view slots.now)))) }
{
    let mut number = 0;
    for slot in slots {
        number = put_slot(alloc, table, side, slot, number)?;
    }
    Ok(())
}
