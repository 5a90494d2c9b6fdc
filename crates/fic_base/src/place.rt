//! Places in a source.

/// A place in a source: an offset in bytes from 0, and a line and a column that count from 1, the column in bytes.
#[derive(Clone, Copy, Debug, PartialEq, Eq)]
pub struct Place {
    /// Bytes before the place.
    pub offset: u32,
    /// Lines from 1.
    pub line: u32,
    /// Bytes of the line from 1.
    pub col: u32,
}

impl Place {
    /// The first place of a source: offset 0, line 1, column 1.
    pub const START: Place = Place {
        offset: 0,
        line: 1,
        col: 1,
    };
}
