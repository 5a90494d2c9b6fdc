//! The elements of matrix products by rows and columns.

ghost use Rattle.std.specs.Prelude.{◌≡◌, All, IfOk, IfSome, map, option_map, vec_len};
ghost use Rattle.shape_rules.specs.Shapes.{columns_of, elements_of, rows_of};
ghost use Rattle.fi_values.specs.Elements.{below};
ghost use Rattle.fi_values.specs.Products as products;
ghost use Rattle.eval_value.specs.View.{shape_view};
ghost use Rattle.eval_math.specs.Matrices.{IsCell, cells};

use num_type::Memory;
use shape_rules::Shape;
use std::alloc::Global;

/// The shape of a matrix product: the rows of the first operand and the columns of the second. None where the inner extents differ, or there
/// would be too many elements.
pub fn product_shape(s: Shape, t: Shape) -> Option<Shape>
    ensures value { option_map shape_view result ≡ products.product_shape (shape_view s) (shape_view t) }
    ensures inner { IfSome result (λ r. columns_of s ≡ rows_of t) }
    ensures rows { IfSome result (λ r. rows_of r ≡ rows_of s) }
    ensures columns { IfSome result (λ r. columns_of r ≡ columns_of t) }
{
    let rows = s.rows();
    let columns = t.cols();
    if s.cols() == t.rows() {
        Shape::make(rows, columns)
    } else {
        None
    }
}

/// The row and the column of each element of an array of this shape, counted from 0, by columns. Want of memory is the only refusal.
pub fn cells(alloc: Global, shape: Shape) -> Result<Vec<(u32, u32)>, Memory>
    ensures value { IfOk result (λ v. v.items ≡ cells (rows_of shape) (columns_of shape)) }
    ensures many { IfOk result (λ v. vec_len v ≡ elements_of shape) }
    ensures inside { IfOk result (λ v. All (IsCell (rows_of shape) (columns_of shape)) v.items) }
{
    let rows = shape.rows();
    let columns = shape.cols();
    let mut out = Vec::new(alloc);
    for j in 0..columns {
        let column = column_cells(alloc, rows, j)?;
        out.extend_from_slice(column.as_slice())?;
    }
    Ok(out)
}

// Those of a column.
fn column_cells(alloc: Global, rows: u32, j: u32) -> Result<Vec<(u32, u32)>, Memory>
    ensures { IfOk result (λ v. v.items ≡ map (λ i. (i, j)) (below rows)) }
{
    let mut out = Vec::new(alloc);
    for i in 0..rows {
        out.push((i, j))?;
    }
    Ok(out)
}
