//! Places of elements, and shapes of elementwise operations.

ghost use Rattle.std.specs.Prelude.{◌≡◌, ◌<◌, ◌≤◌, ◌+◌, ◌*◌, ◌+ℤ◌, ◌↔◌, ◌⊎◌, pos, IfSome, IsSome};
ghost use Rattle.shape_rules.specs.Shapes.{rows_of, columns_of, elements_of};
ghost use Rattle.shape_rules.specs.Places.{IsElementwise, IsSameShape, IsOne, IsSubscript, place};

use crate::shape::Shape;

/// The shape of an elementwise operation on arrays of these shapes: the other's where one has one element. None exactly where they
/// differ and none has one element.
pub fn same_or_scalar(a: Shape, b: Shape) -> Option<Shape>
    ensures limits { IsSome result ↔ (IsSameShape a b ⊎ IsOne a ⊎ IsOne b) }
    ensures shape { IfSome result (λ s. IsElementwise a b s) }
{
    if a.rows() == 1 && a.cols() == 1 {
        Some(b)
    } else if b.rows() == 1 && b.cols() == 1 {
        Some(a)
    } else if a.rows() == b.rows() && a.cols() == b.cols() {
        Some(a)
    } else {
        None
    }
}

// A subscript from 1, counted from 0. None exactly where it isn't within the extent.
fn subscript(extent: u32, k: i64) -> Option<u32>
    ensures limits { IsSome result ↔ IsSubscript extent k }
    ensures value { IfSome result (λ p. pos p +ℤ pos 1 ≡ k) }
    ensures below { IfSome result (λ p. p < extent) }
{
    if k >= 1 && k <= extent as i64 {
        Some((k - 1) as u32)
    } else {
        None
    }
}

/// The place of the element at one subscript from 1, counted from 0 by columns. None exactly where the subscript is out of the extent.
pub fn linear_one(s: Shape, k: i64) -> Option<u32>
    ensures limits { IsSome result ↔ IsSubscript (elements_of s) k }
    ensures value { IfSome result (λ p. pos p +ℤ pos 1 ≡ k) }
{
    subscript(s.elements(), k)
}

/// The place of the element in a row and a column from 1, counted from 0 by columns. None exactly where one of them is out of its extent.
pub fn linear(s: Shape, row: i64, col: i64) -> Option<u32>
    ensures limits { IsSome result ↔ (IsSubscript (rows_of s) row × IsSubscript (columns_of s) col) }
    ensures value { IfSome result (λ p. pos p ≡ place (rows_of s) row col) }
{
    match subscript(s.rows(), row) {
        None => None,
        Some(above) => match subscript(s.cols(), col) {
            None => None,
            Some(left) => Some(place_of(s.rows(), above, left)),
        },
    }
}

// The place behind so many whole columns and so many rows.
fn place_of(rows: u32, above: u32, left: u32) -> u32
    requires rows { rows ≤ 4096 }
    requires above { above ≤ 4096 }
    requires left { left ≤ 4096 }
    ensures { result ≡ left * rows + above }
{
    left * rows + above
}
