//! The shape of an operation element by element.

ghost use Rattle.std.specs.Prelude.{◌≡◌, ◌≤◌, IfSome, option_map};
ghost use Rattle.shape_rules.specs.Shapes.{columns_of, elements_of, rows_of};
ghost use Rattle.fi_rules.specs.Types.{same_shape};
ghost use Rattle.fi_rules.specs.Value.{is_scalar};
ghost use Rattle.fi_values.specs.Shapes as shapes;
ghost use Rattle.eval_value.specs.View.{shape_view};
ghost use Rattle.eval_math.specs.View.{IsMet};

use shape_rules::Shape;

/// The shape of an operation element by element: both have it, or one has a single element. None where they differ else.
#[tactic(auto, unfolding(fi_values::specs::Shapes::common))]
pub fn common(s: Shape, t: Shape) -> Option<Shape>
    ensures value { option_map shape_view result ≡ shapes.common (shape_view s) (shape_view t) }
    ensures met { IfSome result (λ r. IsMet (elements_of r) (elements_of s) (elements_of t)) }
{
    if is_same(s, t) {
        Some(s)
    } else if is_single(s) {
        Some(t)
    } else if is_single(t) {
        Some(s)
    } else {
        None
    }
}

/// Whether two shapes have the same rows and columns.
fn is_same(s: Shape, t: Shape) -> bool
    ensures { result ≡ same_shape (shape_view s) (shape_view t) }
{
    s.rows() == t.rows() && s.cols() == t.cols()
}

/// Whether a shape has a single element.
pub fn is_single(s: Shape) -> bool
    ensures { result ≡ is_scalar (shape_view s) }
{
    s.rows() == 1 && s.cols() == 1
}

/// The shape of a single row.
pub fn row_of(columns: u32) -> Shape
    requires least { 1 ≤ columns }
    requires most { columns ≤ 4096 }
    ensures rows { rows_of result ≡ 1 }
    ensures columns { columns_of result ≡ columns }
{
    match Shape::make(1, columns) {
        Some(shape) => shape,
        None => unreachable!(),
    }
}

/// The shape of a single column.
pub fn column_of(rows: u32) -> Shape
    requires least { 1 ≤ rows }
    requires most { rows ≤ 4096 }
    ensures rows { rows_of result ≡ rows }
    ensures columns { columns_of result ≡ 1 }
{
    match Shape::make(rows, 1) {
        Some(shape) => shape,
        None => unreachable!(),
    }
}
