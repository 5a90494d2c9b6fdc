//! What a token is.

use fic_base::Place;

/// The kinds of tokens.
#[derive(Clone, Copy, Debug, PartialEq, Eq)]
pub enum Kind {
    /// A name that is no keyword and no reserved word.
    Name,
    /// A number, with its `i` or `j` where it has one.
    Number,
    /// A text, with its quotes.
    Words,
    /// A keyword or a reserved word.
    Keyword,
    /// An operator, a bracket, a comma, a semicolon or a colon.
    Op,
    /// The end of a line.
    Newline,
    /// The blank that separates two elements of a bracket, of length 0.
    Separator,
    /// The end of the file, of length 0.
    Finish,
}

/// A token: the `len` bytes of the source from its place.
#[derive(Clone, Copy, Debug, PartialEq, Eq)]
pub struct Token {
    /// Where it starts.
    pub place: Place,
    /// Its length in bytes.
    pub len: u32,
    /// What it is.
    pub kind: Kind,
    /// Whether a blank or a comment stands directly before it.
    pub blank_before: bool,
}
