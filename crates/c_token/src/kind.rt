//! What the elements of a slot are, and their shape.

ghost use Rattle.std.specs.Prelude.{◌≡◌};
ghost use Rattle.c_token.specs.Line.{ReadsFixed, ReadsKind};

use crate::text::has_front;
use c_tree::CKind;
use shape_rules::{Shape, read_shape, read_type, split};

/// What the elements of a slot are, and its shape.
#[derive(Clone, Copy)]
pub struct Elements {
    /// What the elements are.
    pub kind: CKind,
    /// The rows and columns.
    pub shape: Shape,
}

// Stored integers of a type, with their shape: a text such as s8.4:1x1:c. None exactly where the text is none of these.
fn read_fixed(text: &[u8]) -> Option<Elements>
    ensures { ReadsFixed result text.now }
{
    match split(text, b'x') {
        None => None,
        Some(_) => match read_type(text) {
            None => None,
            Some(declared) => Some(Elements {
                kind: CKind::Fi {
                    num: declared.num,
                    complex: declared.complex,
                },
                shape: declared.shape,
            }),
        },
    }
}

/// The elements of a text such as `s8.4:1x1:c` or `b:1x1`. None exactly where the text is none of these.
pub(crate) fn read_kind(text: &[u8]) -> Option<Elements>
    ensures { ReadsKind result text.now }
{
    if !has_front(text, b"b:") {
        return read_fixed(text);
    }
    match read_shape(text.split_at(2).1) {
        None => None,
        Some(shape) => Some(Elements {
            kind: CKind::Logical,
            shape,
        }),
    }
}
