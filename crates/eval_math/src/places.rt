//! Places of elements, which stand by columns.

ghost use Rattle.std.specs.Prelude.{◌≡◌, ◌≤◌, ◌+◌, ◌*◌, IfOk};
ghost use Rattle.fi_values.specs.Sums as sums;
ghost use Rattle.eval_value.specs.View.{shape_view};

use num_type::Memory;
use shape_rules::Shape;
use std::alloc::Global;

/// The places of the elements of a column, counted from 0. Want of memory is the only refusal.
pub fn column_places(alloc: Global, shape: Shape, column: u32) -> Result<Vec<u32>, Memory>
    requires { column ≤ 4096 }
    ensures { IfOk result (λ v. v.items ≡ sums.column_places (shape_view shape) column) }
{
    let rows = shape.rows();
    let mut out = Vec::new(alloc);
    for i in 0..rows {
        out.push(place(i, rows, column))?;
    }
    Ok(out)
}

/// The places of the elements of a row, counted from 0. Want of memory is the only refusal.
pub fn row_places(alloc: Global, shape: Shape, row: u32) -> Result<Vec<u32>, Memory>
    requires { row ≤ 4096 }
    ensures { IfOk result (λ v. v.items ≡ sums.row_places (shape_view shape) row) }
{
    let rows = shape.rows();
    let mut out = Vec::new(alloc);
    for j in 0..shape.cols() {
        out.push(place(row, rows, j))?;
    }
    Ok(out)
}

// The place of the element in a row and a column, counted from 0.
fn place(row: u32, rows: u32, column: u32) -> u32
    requires row { row ≤ 4096 }
    requires rows { rows ≤ 4096 }
    requires column { column ≤ 4096 }
    ensures { result ≡ row + rows * column }
{
    row + rows * column
}
