//! Arguments.

use c_tree::CExpr;
use num_type::NumType;

/// An argument of an operation.
#[derive(Drop)]
pub enum CArg {
    /// A real value of a type.
    Real(NumType, CExpr),
    /// A complex value: its type, its real part and its imaginary part.
    Complex(NumType, CExpr, CExpr),
    /// A logical value, 0 or 1.
    Bool(CExpr),
}
