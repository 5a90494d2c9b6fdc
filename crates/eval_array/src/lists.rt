//! Lists of elements of any class.

ghost use Rattle.std.specs.Prelude.{◌≡◌, ◌+◌, ◌*◌, ◌<◌, ◌≤◌, ◌++◌, map, length, take, drop, slice_set, IfOk};
ghost use Rattle.fi_values.specs.Elements as elements;
ghost use Rattle.fi_values.specs.Stores as stores;

use num_type::Memory;
use std::alloc::Global;

/// One element so many times. Want of memory is the only refusal.
#[tactic(auto, using(std::proofs::lemmas::Grind::common_steps, crate::proofs::Counts::map_more, crate::proofs::Counts::map_all))]
pub fn repeated<T: Copy>(alloc: Global, x: T, many: usize) -> Result<Vec<T>, Memory>
    ensures { IfOk result (λ v. v.items ≡ map (λ k. x) (elements.below many)) }
{
    let mut out = Vec::new(alloc);
    for _k in 0..many {
        out.push(x)?;
    }
    Ok(out)
}

/// A single element so many times, or the list itself. Want of memory is the only refusal.
pub fn spread<T: Copy>(alloc: Global, many: usize, all: &[T]) -> Result<Vec<T>, Memory>
    ensures { IfOk result (λ v. v.items ≡ elements.spread many all.now) }
{
    if all.len() == 1 {
        let v = repeated(alloc, all[0], many)?;
        Ok(v)
    } else {
        let v = Vec::from_slice(alloc, all)?;
        Ok(v)
    }
}

/// A list with these values written at the places, one after the other. Want of memory is the only refusal.
pub fn written<T: Copy>(
    alloc: Global,
    all: &[T],
    places: &[u32],
    values: &[T],
) -> Result<Vec<T>, Memory>
    ensures { IfOk result (λ v. v.items ≡ elements.written all.now places.now values.now) }
{
    let mut out = Vec::from_slice(alloc, all)?;
    for k in 0..places.len() {
        write_at(&mut out, places, values, k);
    }
    Ok(out)
}

// Writes the value of a place, if there is one.
#[tactic(auto, using(crate::proofs::Elements::written_skip, crate::proofs::Elements::written_step))]
fn write_at<T: Copy>(all: &mut Vec<T>, places: &[u32], values: &[T], k: usize)
    requires { k < length places.now }
    ensures { elements.written all.new.items (drop (k + 1) places.now) (drop (k + 1) values.now) ≡ elements.written all.old.items (drop k places.now) (drop k values.now) }
{
    if k < values.len() {
        write(all, places[k], values[k]);
    }
}

// Writes one element where the list has the place.
fn write<T: Copy>(all: &mut Vec<T>, place: u32, value: T)
    ensures { all.new.items ≡ slice_set all.old.items place value }
{
    let k = place as usize;
    if k < all.len() {
        all[k] = value;
    }
}

/// A list with a value written at each of the places: a single one at all of them, or one for each. Want of memory is the only refusal.
pub fn put<T: Copy>(
    alloc: Global,
    all: &[T],
    places: &[u32],
    values: &[T],
) -> Result<Vec<T>, Memory>
    ensures { IfOk result (λ v. v.items ≡ stores.put all.now places.now values.now) }
{
    let each = spread(alloc, places.len(), values)?;
    let v = written(alloc, all, places, each.as_slice())?;
    Ok(v)
}

/// The rows of two arrays of so many columns, one above the other. Want of memory is the only refusal.
#[tactic(auto, using(std::proofs::lemmas::Grind::common_steps, crate::proofs::Elements::stacked_more, crate::proofs::Elements::stacked_all))]
pub fn stacked<T: Copy>(
    alloc: Global,
    columns: usize,
    upper_rows: usize,
    lower_rows: usize,
    upper: &[T],
    lower: &[T],
) -> Result<Vec<T>, Memory>
    requires upper { length upper.now ≡ columns * upper_rows }
    requires lower { length lower.now ≡ columns * lower_rows }
    ensures { IfOk result (λ v. v.items ≡ elements.stacked columns upper_rows lower_rows upper.now lower.now) }
{
    let mut out = Vec::new(alloc);
    for k in 0..columns {
        out.extend_from_slice(column(upper, k, upper_rows, columns))?;
        out.extend_from_slice(column(lower, k, lower_rows, columns))?;
    }
    Ok(out)
}

// A column of an array of so many rows and columns, counted from 0.
fn column<T: Copy>(all: &[T], k: usize, rows: usize, columns: usize) -> &[T]
    requires column { k + 1 ≤ columns }
    requires count { length all.now ≡ columns * rows }
    ensures { result.now ≡ take rows (drop (k * rows) all.entry.now) }
{
    let from = k * rows;
    &all[from..from + rows]
}

/// The elements of two arrays of the same height beside each other. Want of memory is the only refusal.
pub fn joined<T: Copy>(alloc: Global, left: &[T], right: &[T]) -> Result<Vec<T>, Memory>
    ensures { IfOk result (λ v. v.items ≡ left.now ++ right.now) }
{
    let mut out = Vec::from_slice(alloc, left)?;
    out.extend_from_slice(right)?;
    Ok(out)
}
