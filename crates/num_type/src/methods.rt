//! The rounding methods and overflow actions of fixed-point arithmetic.

/// How an exact value becomes a whole number (RoundingMethod).
#[derive(Clone, Copy, Debug, PartialEq, Eq)]
pub enum Rounding {
    /// The least whole number not below.
    Ceiling,
    /// The greatest whole number not above.
    Floor,
    /// Toward 0.
    Zero,
    /// The nearest; a tie goes up.
    Nearest,
    /// The nearest; a tie goes away from 0.
    Round,
    /// The nearest; a tie goes to the even one.
    Convergent,
}

/// What becomes of a whole number that is out of a type's range (OverflowAction).
#[derive(Clone, Copy, Debug, PartialEq, Eq)]
pub enum Overflow {
    /// The nearest number of the range.
    Saturate,
    /// The one number of the range that is congruent modulo `2^W`.
    Wrap,
}
