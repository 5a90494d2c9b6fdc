//! What a subscript selects of a dimension.

ghost use Rattle.std.specs.Prelude.{◌<◌, ◌≡◌, All, vec_len};
ghost use Rattle.std.specs.Option.{ForSome};
ghost use Rattle.shape_rules.specs.Shapes.{elements_of};

use shape_rules::Shape;

/// What a subscript selects of a dimension.
#[derive(Drop)]
pub struct Chosen {
    /// The shape that it has as the only subscript of a matrix.
    pub own: Shape,
    /// The places, counted from 0, as many as that shape has elements. None where one is out of the extent.
    pub places: Option<Vec<u32>>,
    /// Whether it is all of the dimension or a constant.
    pub fixed: bool,
    /// Whether it is a constant, which as the only subscript of a row or a column takes its orientation.
    pub oriented: bool,
    ghost as_many: { ForSome places (λ ks. vec_len ks ≡ elements_of own) },
    ghost small: { ForSome places (λ ks. All (λ k. k < 4096) ks.items) },
}
