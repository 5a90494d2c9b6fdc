//! Two operands side by side.

ghost use Rattle.std.specs.Prelude.{◌≡◌, IfOk, IfSome, length, map, option_map, vec_len};
ghost use Rattle.shape_rules.specs.Shapes.{elements_of};
ghost use Rattle.fi_rules.specs.Types.{same_shape};
ghost use Rattle.fi_rules.specs.Value.{is_scalar};
ghost use Rattle.fi_eval.specs.Operators.{pairwise};
ghost use Rattle.fi_values.specs.Shapes.{common};
ghost use Rattle.eval_value.specs.View.{shape_view};
ghost use Rattle.eval_bits.specs.Joints.{IsFitting, beside, paired_count};

use num_type::Memory;
use shape_rules::Shape;
use std::alloc::Global;

/// The shape of an operation element by element: that of both, or that of the other where one has a single element. None where they differ
/// else.
#[tactic(auto, unfolding(fi_values::specs::Shapes::common))]
pub fn common_shape(a: Shape, b: Shape) -> Option<Shape>
    ensures value { option_map shape_view result ≡ common (shape_view a) (shape_view b) }
    ensures fitting { IfSome result (λ s. IsFitting (elements_of a) (elements_of b)) }
    ensures count { IfSome result (λ s. elements_of s ≡ paired_count (elements_of a) (elements_of b)) }
{
    if is_same_shape(a, b) {
        Some(a)
    } else if is_scalar(a) {
        Some(b)
    } else if is_scalar(b) {
        Some(a)
    } else {
        None
    }
}

/// Whether an array of this shape has a single element.
pub fn is_scalar(s: Shape) -> bool
    ensures { result ≡ is_scalar (shape_view s) }
{
    s.rows() == 1 && s.cols() == 1
}

// Whether two shapes have as many rows and columns.
fn is_same_shape(a: Shape, b: Shape) -> bool
    ensures { result ≡ same_shape (shape_view a) (shape_view b) }
{
    a.rows() == b.rows() && a.cols() == b.cols()
}

/// The elements of two operands side by side; a single element stands beside each of the other. Want of memory is the only refusal.
pub fn paired<T: Copy>(alloc: Global, xs: &[T], ys: &[T]) -> Result<Vec<(T, T)>, Memory>
    requires { IsFitting (length xs.now) (length ys.now) }
    ensures pairs { IfOk result (λ v. v.items ≡ pairwise beside xs.now ys.now) }
    ensures count { IfOk result (λ v. vec_len v ≡ paired_count (length xs.now) (length ys.now)) }
{
    if xs.len() == 1 {
        let pairs = first_with_each(alloc, xs[0], ys)?;
        Ok(pairs)
    } else if ys.len() == 1 {
        let pairs = each_with_last(alloc, xs, ys[0])?;
        Ok(pairs)
    } else {
        let pairs = side_by_side(alloc, xs, ys)?;
        Ok(pairs)
    }
}

// One element beside each to its right. Want of memory is the only refusal.
fn first_with_each<T: Copy>(alloc: Global, x: T, ys: &[T]) -> Result<Vec<(T, T)>, Memory>
    ensures pairs { IfOk result (λ v. v.items ≡ map (beside x) ys.now) }
    ensures count { IfOk result (λ v. vec_len v ≡ length ys.now) }
{
    let mut out = Vec::new(alloc);
    for y in ys {
        out.push((x, *y))?;
    }
    Ok(out)
}

// One element beside each to its left. Want of memory is the only refusal.
fn each_with_last<T: Copy>(alloc: Global, xs: &[T], y: T) -> Result<Vec<(T, T)>, Memory>
    ensures pairs { IfOk result (λ v. v.items ≡ map (λ x. beside x y) xs.now) }
    ensures count { IfOk result (λ v. vec_len v ≡ length xs.now) }
{
    let mut out = Vec::new(alloc);
    for x in xs {
        out.push((*x, y))?;
    }
    Ok(out)
}

// As many elements on either side. Want of memory is the only refusal.
fn side_by_side<T: Copy>(alloc: Global, xs: &[T], ys: &[T]) -> Result<Vec<(T, T)>, Memory>
    requires { length xs.now ≡ length ys.now }
    ensures pairs { IfOk result (λ v. v.items ≡ pairwise beside xs.now ys.now) }
    ensures count { IfOk result (λ v. vec_len v ≡ length xs.now) }
{
    let mut out = Vec::new(alloc);
    for k in 0..xs.len() {
        out.push((xs[k], ys[k]))?;
    }
    Ok(out)
}
