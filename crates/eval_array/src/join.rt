//! Arrays beside or above each other.

ghost use Rattle.std.specs.Prelude.{◌≡◌, length, IfOk};
ghost use Rattle.shape_rules.specs.Shapes.{elements_of};
ghost use Rattle.fi_values.specs.Brackets as brackets;
ghost use Rattle.eval_value.specs.View.{shape_view};
ghost use Rattle.eval_array.specs.Joints.{IsJoint};
ghost use Rattle.eval_array.specs.Views.{join_view, shape_answer};

use crate::lists::{joined, stacked};
use crate::shapes::small_shape;
use num_type::Memory;
use shape_rules::Shape;
use std::alloc::Global;

/// How two arrays are joined.
#[derive(Clone, Copy, Debug, PartialEq, Eq)]
pub enum Join {
    /// The second one to the right of the first.
    Beside,
    /// The second one below the first.
    Above,
}

/// The joined shape: beside each other they have the same height, above each other the same width. None where they don't, or the shape has
/// more than 4,096 elements.
#[tactic(auto, unfolding(fi_rules::specs::Options::and_then, fi_rules::specs::Options::where_so))]
pub fn joined_shape(join: Join, s: Shape, t: Shape) -> Option<Shape>
    ensures { shape_answer result ≡ brackets.shape_by (join_view join) (shape_view s) (shape_view t) }
{
    match join {
        Join::Beside => {
            if s.rows() == t.rows() {
                small_shape(s.rows(), s.cols() + t.cols())
            } else {
                None
            }
        }
        Join::Above => {
            if s.cols() == t.cols() {
                small_shape(s.rows() + t.rows(), s.cols())
            } else {
                None
            }
        }
    }
}

/// The elements of both arrays, in the joined shape. Want of memory is the only refusal.
pub fn joined_lists<T: Copy>(
    alloc: Global,
    join: Join,
    s: Shape,
    t: Shape,
    left: &[T],
    right: &[T],
) -> Result<Vec<T>, Memory>
    requires fits { IsJoint (join_view join) (shape_view s) (shape_view t) }
    requires left { length left.now ≡ elements_of s }
    requires right { length right.now ≡ elements_of t }
    ensures { IfOk result (λ v. v.items ≡ brackets.lists (join_view join) (shape_view s) (shape_view t) left.now right.now) }
{
    match join {
        Join::Beside => {
            let v = joined(alloc, left, right)?;
            Ok(v)
        }
        Join::Above => {
            let v = stacked(
                alloc,
                s.cols() as usize,
                s.rows() as usize,
                t.rows() as usize,
                left,
                right,
            )?;
            Ok(v)
        }
    }
}
