//! Declared types, and readers of their texts.

ghost use Rattle.std.specs.Prelude.{◌≡◌};
ghost use Rattle.shape_rules.specs.Declarations.{ReadsType, ReadsNum, ReadsLengths, ReadsShape, ReadsBehind, ReadsMarked};

use crate::piece::{read_fraction, read_sign, read_u32, split};
use crate::shape::Shape;
use num_type::NumType;

/// A declared type: of its elements, of how many parts each has, and its shape.
#[derive(Clone, Copy, Debug, PartialEq, Eq)]
pub struct Declared {
    /// The type of an element.
    pub num: NumType,
    /// Whether each element has an imaginary part.
    pub complex: bool,
    /// The rows and columns.
    pub shape: Shape,
}

/// The type of a text, such as `s16.15`, `u8.0:1x4` or `s8.4:2x2:c`; without a shape it has one element. None exactly where the text is
/// that of no type. It takes no memory.
pub fn read_type(bytes: &[u8]) -> Option<Declared>
    ensures { ReadsType result bytes.now }
{
    match split(bytes, b':') {
        None => match read_num(bytes) {
            None => None,
            Some(num) => Some(Declared {
                num,
                complex: false,
                shape: Shape::scalar(),
            }),
        },
        Some((text, rest)) => match read_num(text) {
            None => None,
            Some(num) => read_behind(num, rest),
        },
    }
}

// What stands behind a numeric type and its colon: a shape, `c`, or both.
fn read_behind(num: NumType, rest: &[u8]) -> Option<Declared>
    ensures { ReadsBehind result num rest.now }
{
    if rest == b"c".as_slice() {
        return Some(Declared {
            num,
            complex: true,
            shape: Shape::scalar(),
        });
    }
    match split(rest, b':') {
        None => match read_shape(rest) {
            None => None,
            Some(shape) => Some(Declared {
                num,
                complex: false,
                shape,
            }),
        },
        Some((text, mark)) => read_complex(num, text, mark),
    }
}

// A shape, and what stands behind its colon.
fn read_complex(num: NumType, text: &[u8], mark: &[u8]) -> Option<Declared>
    ensures { ReadsMarked result num text.now mark.now }
{
    if mark != b"c".as_slice() {
        return None;
    }
    match read_shape(text) {
        None => None,
        Some(shape) => Some(Declared {
            num,
            complex: true,
            shape,
        }),
    }
}

// The type of a text such as `s16.15`. None exactly where the text is that of no type.
fn read_num(bytes: &[u8]) -> Option<NumType>
    ensures { ReadsNum result bytes.now }
{
    match bytes.split_first() {
        None => None,
        Some((letter, rest)) => match read_sign(*letter) {
            None => None,
            Some(signed) => read_lengths(signed, rest),
        },
    }
}

// The type of this signedness with the lengths of a text such as `16.15`. None exactly where the text is that of no type.
fn read_lengths(signed: bool, bytes: &[u8]) -> Option<NumType>
    ensures { ReadsLengths result signed bytes.now }
{
    match split(bytes, b'.') {
        None => None,
        Some((word, fraction)) => match read_u32(word) {
            None => None,
            Some(word) => match read_fraction(fraction) {
                None => None,
                Some(fraction) => NumType::make(signed, word, fraction),
            },
        },
    }
}

/// The shape of a text such as `1x4`. None exactly where the text is that of no shape.
pub fn read_shape(bytes: &[u8]) -> Option<Shape>
    ensures { ReadsShape result bytes.now }
{
    match split(bytes, b'x') {
        None => None,
        Some((rows, cols)) => match read_u32(rows) {
            None => None,
            Some(rows) => match read_u32(cols) {
                None => None,
                Some(cols) => Shape::make(rows, cols),
            },
        },
    }
}
