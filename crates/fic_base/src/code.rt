//! The codes of refused sources.

/// Why a source is refused, in the order E01 to E22.
#[derive(Clone, Copy, Debug, PartialEq, Eq)]
pub enum Code {
    /// E01: a byte begins no token.
    BadByte,
    /// E02: a text or a block comment isn't closed.
    Unclosed,
    /// E03: the first token after which no file continues.
    Syntax,
    /// E04: no function has the entry's name.
    NoEntry,
    /// E05: a wrong number of types, arguments or outputs.
    ArgCount,
    /// E06: a name that stands for nothing.
    UnknownName,
    /// E07: a name that isn't assigned on every path, or has no type yet.
    NotAssigned,
    /// E08: an operand or an output of a class that has no fixed-point type.
    FloatOperand,
    /// E09: a division.
    Division,
    /// E10: a variable's type changes.
    TypeChange,
    /// E11: shapes don't meet an operator's rule.
    SizeMismatch,
    /// E12: a size that isn't constant.
    DynamicSize,
    /// E13: both operands have a fimath, and the two differ.
    FimathDiffers,
    /// E14: a needed word length exceeds its limit.
    TooWide,
    /// E15: a needed fraction length is out of its limits.
    FractionOut,
    /// E16: a literal or a constant result isn't exact.
    LiteralInexact,
    /// E17: a call of a function whose body is being walked.
    Recursion,
    /// E18: an argument of a class or a value that its rule excludes.
    BadArgument,
    /// E19: a form that isn't supported.
    Unsupported,
    /// E20: a limit is passed.
    Limit,
    /// E21: an ordering of complex operands.
    ComplexOrder,
    /// E22: a rule of loop variables and indices is broken.
    LoopVariable,
}
