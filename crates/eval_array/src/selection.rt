//! What subscripts select.

ghost use Rattle.std.specs.Prelude.{◌≡◌, ◌*◌, ◌≤◌, vec_len};
ghost use Rattle.std.specs.Option.{ForSome};

/// What subscripts select of a matrix.
#[derive(Drop)]
pub struct Selection {
    /// The rows of what is selected.
    pub rows: u32,
    /// Its columns.
    pub columns: u32,
    /// The places, counted from 0 by columns of the matrix, in the order of what is selected. None where a subscript is out of its extent.
    pub places: Option<Vec<u32>>,
    /// Whether all subscripts are `:` or constants.
    pub fixed: bool,
    ghost as_many: { ForSome places (λ ks. vec_len ks ≡ rows * columns) },
    ghost a_row: { 1 ≤ rows },
    ghost a_column: { 1 ≤ columns },
    ghost few_rows: { rows ≤ 4096 },
    ghost few_columns: { columns ≤ 4096 },
}
