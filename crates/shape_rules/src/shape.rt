//! Shapes of arrays: rows and columns.

ghost use Rattle.std.specs.Prelude.{◌≡◌, ◌≤◌, ◌*◌};

/// The greatest number of elements of an array.
pub const ELEMENTS_MAX: u32 = 4096;

/// The rows and columns of an array: at least 1 each, and at most 4,096 elements.
#[derive(Clone, Copy, Debug, PartialEq, Eq)]
pub struct Shape {
    rows: u32,
    cols: u32,
    ghost a_row: { 1 ≤ rows },
    ghost a_column: { 1 ≤ cols },
    ghost few: { rows * cols ≤ 4096 },
}

impl Shape {
    ghost use Rattle.std.specs.Prelude.{◌≡◌, ◌≤◌, ◌*◌, ◌↔◌, IfSome, IsSome};
    ghost use Rattle.shape_rules.specs.Shapes.{IsShape, rows_of, columns_of, elements_of};

    /// The shape of one element.
    pub fn scalar() -> Shape
        ensures rows { rows_of result ≡ 1 }
        ensures columns { columns_of result ≡ 1 }
    {
        Shape { rows: 1, cols: 1 }
    }

    /// The shape with so many rows and columns. None exactly where it isn't within the limits.
    pub fn make(rows: u32, cols: u32) -> Option<Shape>
        ensures limits { IsSome result ↔ IsShape rows cols }
        ensures rows { IfSome result (λ s. rows_of s ≡ rows) }
        ensures columns { IfSome result (λ s. columns_of s ≡ cols) }
    {
        if rows >= 1
            && cols >= 1
            && rows <= ELEMENTS_MAX
            && cols <= ELEMENTS_MAX
            && rows * cols <= ELEMENTS_MAX
        {
            Some(Shape { rows, cols })
        } else {
            None
        }
    }

    /// How many rows there are, from 1 to 4,096.
    pub fn rows(self) -> u32
        ensures value { result ≡ rows_of self }
        ensures least { 1 ≤ result }
        ensures most { result ≤ 4096 }
    {
        self.rows
    }

    /// How many columns there are, from 1 to 4,096.
    pub fn cols(self) -> u32
        ensures value { result ≡ columns_of self }
        ensures least { 1 ≤ result }
        ensures most { result ≤ 4096 }
    {
        self.cols
    }

    /// How many elements there are, from 1 to 4,096.
    pub fn elements(self) -> u32
        ensures value { result ≡ elements_of self }
        ensures least { 1 ≤ result }
        ensures most { result ≤ 4096 }
    {
        self.rows * self.cols
    }
}
