//! Shapes of what is selected.

ghost use Rattle.std.specs.Prelude.{◌≡◌, ◌≤◌, if◌then◌else◌};
ghost use Rattle.shape_rules.specs.Shapes.{elements_of};
ghost use Rattle.fi_rules.specs.Options.{where_so};
ghost use Rattle.fi_rules.specs.Types.{same_shape};
ghost use Rattle.fi_rules.specs.Value as values;
ghost use Rattle.fi_values.specs.Reads.{shape_of};
ghost use Rattle.fi_values.specs.Shapes as shapes;
ghost use Rattle.fi_values.specs.Subscripts as subscripts;
ghost use Rattle.eval_value.specs.View.{shape_view, value_view};
ghost use Rattle.eval_array.specs.Choices as choices;
ghost use Rattle.eval_array.specs.Views.{shape_answer};

use eval_value::Value;
use shape_rules::Shape;

/// A single row.
pub fn row(columns: u32) -> Shape
    requires some { 1 ≤ columns }
    requires few { columns ≤ 4096 }
    ensures { shape_view result ≡ record { rows = 1; columns = columns } }
{
    match Shape::make(1, columns) {
        Some(s) => s,
        None => unreachable!(),
    }
}

/// A single column.
pub fn column(rows: u32) -> Shape
    requires some { 1 ≤ rows }
    requires few { rows ≤ 4096 }
    ensures { shape_view result ≡ record { rows = rows; columns = 1 } }
{
    match Shape::make(rows, 1) {
        Some(s) => s,
        None => unreachable!(),
    }
}

/// Columns for rows.
pub fn turned(s: Shape) -> Shape
    ensures { shape_view result ≡ shapes.turned (shape_view s) }
{
    match Shape::make(s.cols(), s.rows()) {
        Some(t) => t,
        None => unreachable!(),
    }
}

/// Whether there is one element.
pub fn is_scalar(s: Shape) -> bool
    ensures { result ≡ values.is_scalar (shape_view s) }
{
    s.rows() == 1 && s.cols() == 1
}

/// Whether the rows and the columns are the same.
pub fn is_same(s: Shape, rows: u32, columns: u32) -> bool
    ensures { result ≡ same_shape (shape_view s) (record { rows = rows; columns = columns }) }
{
    s.rows() == rows && s.cols() == columns
}

// Whether there is a single row or a single column.
fn is_line(s: Shape) -> bool
    ensures { result ≡ shapes.is_line (shape_view s) }
{
    s.rows() == 1 || s.cols() == 1
}

// Whether there is a single row, of more than one element.
fn is_row(s: Shape) -> bool
    ensures { result ≡ shapes.is_row (shape_view s) }
{
    s.rows() == 1 && s.cols() != 1
}

// Whether there is a single column, of more than one element.
fn is_column(s: Shape) -> bool
    ensures { result ≡ shapes.is_column (shape_view s) }
{
    s.cols() == 1 && s.rows() != 1
}

/// The shape of what an only subscript selects of a matrix of shape s, by the shape that it has itself: a constant's is oriented.
pub fn only_shape(s: Shape, own: Shape, is_oriented: bool) -> Shape
    ensures value { shape_view result ≡ (if is_oriented then choices.oriented_shape (shape_view s) (shape_view own) else shape_view own) }
    ensures count { elements_of result ≡ elements_of own }
{
    if is_oriented { oriented(s, own) } else { own }
}

// The shape that a constant of shape t selects of a matrix of shape s: a line takes the orientation of a row or a column.
fn oriented(s: Shape, t: Shape) -> Shape
    ensures value { shape_view result ≡ choices.oriented_shape (shape_view s) (shape_view t) }
    ensures count { elements_of result ≡ elements_of t }
{
    if is_line(t) { laid(s, t) } else { t }
}

// The same of a line.
fn laid(s: Shape, t: Shape) -> Shape
    ensures value { shape_view result ≡ choices.laid_shape (shape_view s) (shape_view t) }
    ensures count { elements_of result ≡ elements_of t }
{
    if is_row(s) {
        row(t.elements())
    } else if is_column(s) {
        column(t.elements())
    } else {
        t
    }
}

/// What `end` means in subscript number `number`, counted from 0, of so many: the number of elements for the only one, of two the rows or
/// the columns, and 1 for any further one.
pub fn extent(value: &Value, number: usize, many: usize) -> u32
    ensures { result ≡ subscripts.extent (shape_of (value_view value.now)) number many }
{
    let s = value.shape();
    if number == 0 {
        if many == 1 { s.elements() } else { s.rows() }
    } else if number == 1 {
        s.cols()
    } else {
        1
    }
}

/// The shape of so many rows and columns. None exactly where they have more than 4,096 elements.
pub fn small_shape(rows: u32, columns: u32) -> Option<Shape>
    requires rows { 1 ≤ rows }
    requires columns { 1 ≤ columns }
    ensures { shape_answer result ≡ where_so (shapes.is_small (record { rows = rows; columns = columns })) (record { rows = rows; columns = columns }) }
{
    Shape::make(rows, columns)
}

/// The shape of an operation element by element: both have it, or one has a single element. None where there is none.
#[tactic(auto, unfolding(fi_values::specs::Shapes::common))]
pub fn common(s: Shape, t: Shape) -> Option<Shape>
    ensures { shape_answer result ≡ shapes.common (shape_view s) (shape_view t) }
{
    if is_same(s, t.rows(), t.cols()) {
        Some(s)
    } else if is_scalar(s) {
        Some(t)
    } else if is_scalar(t) {
        Some(s)
    } else {
        None
    }
}
