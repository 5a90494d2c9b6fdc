//! Lists of places, counted from 0 by columns.

ghost use Rattle.std.specs.Prelude.{◌≡◌, ◌+◌, ◌*◌, ◌<◌, ◌≤◌, ◌++◌, map, All, IfOk, OnOk};
ghost use Rattle.fi_values.specs.Elements.{below, turned_places};
ghost use Rattle.fi_values.specs.Subscripts.{grid};
ghost use Rattle.eval_value.specs.View.{shape_view};

use num_type::Memory;
use shape_rules::Shape;
use std::alloc::Global;

/// The numbers below one. Want of memory is the only refusal.
#[tactic(auto, using(std::proofs::lemmas::Grind::common_steps, crate::proofs::Counts::count_more, crate::proofs::Counts::count_all))]
pub fn counted(alloc: Global, many: u32) -> Result<Vec<u32>, Memory>
    ensures { IfOk result (λ v. v.items ≡ below many) }
{
    let mut out = Vec::new(alloc);
    for k in 0..many {
        out.push(k)?;
    }
    Ok(out)
}

/// The places of the elements of the turned shape in the shape itself. Want of memory is the only refusal.
#[tactic(auto, using(std::proofs::lemmas::Grind::common_steps, crate::proofs::Counts::flat_more, crate::proofs::Counts::flat_all))]
pub fn turned_places(alloc: Global, shape: Shape) -> Result<Vec<u32>, Memory>
    ensures { IfOk result (λ v. v.items ≡ turned_places (shape_view shape)) }
{
    let rows = shape.rows();
    let columns = shape.cols();
    let mut out = Vec::new(alloc);
    for i in 0..rows {
        push_row(&mut out, rows, columns, i)?;
    }
    Ok(out)
}

// Appends the places of a row.
#[tactic(auto, using(std::proofs::lemmas::Grind::common_steps, crate::proofs::Counts::map_more, crate::proofs::Counts::map_all))]
fn push_row(out: &mut Vec<u32>, rows: u32, columns: u32, i: u32) -> Result<(), Memory>
    requires rows { rows ≤ 4096 }
    requires columns { columns ≤ 4096 }
    requires row { i < rows }
    ensures { OnOk result (out.new.items ≡ out.old.items ++ map (λ j. i + rows * j) (below columns)) }
{
    for j in 0..columns {
        out.push(i + rows * j)?;
    }
    Ok(())
}

/// The places of these rows in each of these columns, all counted from 0, in an array of so many rows. Want of memory is the only refusal.
pub fn grid(
    alloc: Global,
    rows: u32,
    row_places: &[u32],
    column_places: &[u32],
) -> Result<Vec<u32>, Memory>
    requires rows { rows ≤ 4096 }
    requires row_places { All (λ k. k < 4096) row_places.now }
    requires column_places { All (λ k. k < 4096) column_places.now }
    ensures { IfOk result (λ v. v.items ≡ grid rows row_places.now column_places.now) }
{
    let mut out = Vec::new(alloc);
    for j in column_places {
        push_column(&mut out, rows, row_places, *j)?;
    }
    Ok(out)
}

// Appends the places of these rows in a column.
fn push_column(out: &mut Vec<u32>, rows: u32, row_places: &[u32], j: u32) -> Result<(), Memory>
    requires rows { rows ≤ 4096 }
    requires row_places { All (λ k. k < 4096) row_places.now }
    requires column { j < 4096 }
    ensures { OnOk result (out.new.items ≡ out.old.items ++ map (λ i. i + rows * j) row_places.now) }
{
    for i in row_places {
        out.push(*i + rows * j)?;
    }
    Ok(())
}
