//! What each token of a function is to the grammar.

use c_tree::{CArray, COp, CRel, Counter};
use num_type::Container;

/// A macro for constants (ISO/IEC 9899:1999, 7.18.4.1).
#[derive(Clone, Copy, Debug, PartialEq, Eq)]
pub enum CMacro {
    /// `INT32_C`
    I32,
    /// `INT64_C`
    I64,
    /// `UINT64_C`
    U64,
}

/// A keyword that is no type (6.4.1).
#[derive(Clone, Copy, Debug, PartialEq, Eq)]
pub enum CKeyword {
    /// `const`
    Const,
    /// `if`
    If,
    /// `else`
    Else,
    /// `for`
    For,
    /// `while`
    While,
    /// `break`
    Break,
    /// `continue`
    Continue,
    /// `return`
    Return,
}

/// A sign that is no relation and no operator between two operands (6.4.6).
#[derive(Clone, Copy, Debug, PartialEq, Eq)]
pub enum CSign {
    /// `(`
    Open,
    /// `)`
    Close,
    /// `[`
    OpenSquare,
    /// `]`
    CloseSquare,
    /// `{`
    OpenBrace,
    /// `}`
    CloseBrace,
    /// `,`
    Comma,
    /// `;`
    Semicolon,
    /// `:`
    Colon,
    /// `?`
    Question,
    /// `=`
    Assign,
}

/// A token of a function, read beside the interface of its program.
#[derive(Clone, Copy, Debug, PartialEq, Eq)]
pub enum CWordToken {
    /// A type of `stdint.h`, as `int8_t`.
    Type(Container),
    /// The function's name, `fic_` and the entry's name.
    Function,
    /// A decimal below 2^64 without a zero in front.
    Number(u64),
    /// A variable `v0, v1, ..`, by its number.
    Var(u32),
    /// A counter `g0, b0, k0, w0, ..`.
    Counter(Counter),
    /// A parameter of the interface, or a local array `m0, m1, ..`.
    Array(CArray),
    /// A macro for constants.
    Macro(CMacro),
    /// A keyword that is no type.
    Keyword(CKeyword),
    /// A relational or equality operator.
    Rel(CRel),
    /// An operator; `Sub` is unary minus too.
    Op(COp),
    /// One of the other signs.
    Sign(CSign),
    /// A token that stands in no program of the interface.
    Other,
}
