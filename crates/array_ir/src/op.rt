//! Operations of an element.

use fi_math::Fimath;
use num_type::NumType;

/// An operator or a built-in of an element, or a step of an accumulation.
#[derive(Clone, Copy, Debug, PartialEq, Eq)]
pub enum Op {
    /// `a + b`
    Add,
    /// `a - b`
    Sub,
    /// `a .* b`, and `a * b` with a scalar
    Mul,
    /// `-a`
    Neg,
    /// `~a`
    Not,
    /// `a & b`, `a && b`
    And,
    /// `a | b`, `a || b`
    Or,
    /// `a == b`
    Eq,
    /// `a ~= b`
    Ne,
    /// `a < b`
    Lt,
    /// `a <= b`
    Le,
    /// `a > b`
    Gt,
    /// `a >= b`
    Ge,
    /// `a.'`
    Transpose,
    /// `a'`
    CTranspose,
    /// `fi(a, ..)`
    Fi,
    /// `cast(a, ..)`
    Cast,
    /// `setfimath(a, ..)`
    SetFimath,
    /// `removefimath(a)`
    RemoveFimath,
    /// `abs(a)`
    Abs,
    /// `real(a)`
    Real,
    /// `imag(a)`
    Imag,
    /// `conj(a)`
    Conj,
    /// `complex(a, b)`
    Complex,
    /// `bitand(a, b)`
    BitAnd,
    /// `bitor(a, b)`
    BitOr,
    /// `bitxor(a, b)`
    BitXor,
    /// `bitcmp(a)`
    BitCmp,
    /// `bitsll(a, n)`, n in bits
    BitSll(u32),
    /// `bitsrl(a, n)`, n in bits
    BitSrl(u32),
    /// `bitsra(a, n)`, n in bits
    BitSra(u32),
    /// `bitconcat(a, b)`
    BitConcat,
    /// `bitsliceget(a, left, right)`: bits are counted from 1, the least first
    BitSlice {
        /// The greatest bit taken.
        left: u32,
        /// The least bit taken.
        right: u32,
    },
    /// A step of a sum: the sum so far and the next addend.
    Accumulate,
}

/// An operation with what governs it.
#[derive(Clone, Copy, Debug, PartialEq, Eq)]
pub struct FlatOp {
    /// The operation.
    pub op: Op,
    /// The fimath under which its result is taken to its type.
    pub math: Fimath,
    /// The type of the result, and None for a logical one.
    pub result: Option<NumType>,
    /// The part of the result, from 0: the real one before the imaginary one.
    pub part: u32,
}
