//! The integer types of C that hold stored integers.

/// An exact-width integer type of `stdint.h` (ISO/IEC 9899:1999, 7.18.1.1).
#[derive(Clone, Copy, Debug, PartialEq, Eq)]
pub enum Container {
    I8,
    I16,
    I32,
    I64,
    U8,
    U16,
    U32,
    U64,
}
