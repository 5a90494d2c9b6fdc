//! Elements that meet in an operation element by element.

ghost use Rattle.std.specs.Prelude.{◌≡◌, IfOk, length, map, vec_len};
ghost use Rattle.eval_math.specs.View.{IsMet, paired, side_by_side};

use num_type::Memory;
use std::alloc::Global;

/// The pairs of elements that meet in an operation with so many results: those at the same place, or a single one with each of the others.
/// Want of memory is the only refusal.
pub fn pairs<T: Copy>(alloc: Global, count: u32, xs: &[T], ys: &[T]) -> Result<Vec<(T, T)>, Memory>
    requires { IsMet count (length xs.now) (length ys.now) }
    ensures value { IfOk result (λ v. v.items ≡ paired xs.now ys.now) }
    ensures many { IfOk result (λ v. vec_len v ≡ count) }
{
    if xs.len() == 1 {
        let v = one_with_each(alloc, xs[0], ys)?;
        Ok(v)
    } else if ys.len() == 1 {
        let v = each_with_one(alloc, xs, ys[0])?;
        Ok(v)
    } else {
        let v = each_with_each(alloc, count, xs, ys)?;
        Ok(v)
    }
}

// A single element with each of these.
fn one_with_each<T: Copy>(alloc: Global, x: T, ys: &[T]) -> Result<Vec<(T, T)>, Memory>
    ensures value { IfOk result (λ v. v.items ≡ map (λ y. (x, y)) ys.now) }
    ensures many { IfOk result (λ v. vec_len v ≡ length ys.now) }
{
    let mut out = Vec::new(alloc);
    for y in ys {
        out.push((x, *y))?;
    }
    Ok(out)
}

// Each of these with a single element.
fn each_with_one<T: Copy>(alloc: Global, xs: &[T], y: T) -> Result<Vec<(T, T)>, Memory>
    ensures value { IfOk result (λ v. v.items ≡ map (λ x. (x, y)) xs.now) }
    ensures many { IfOk result (λ v. vec_len v ≡ length xs.now) }
{
    let mut out = Vec::new(alloc);
    for x in xs {
        out.push((*x, y))?;
    }
    Ok(out)
}

/// The pairs of those at the same place. Want of memory is the only refusal.
pub fn each_with_each<T: Copy>(
    alloc: Global,
    count: u32,
    xs: &[T],
    ys: &[T],
) -> Result<Vec<(T, T)>, Memory>
    requires left { length xs.now ≡ count }
    requires right { length ys.now ≡ count }
    ensures value { IfOk result (λ v. v.items ≡ side_by_side xs.now ys.now) }
    ensures many { IfOk result (λ v. vec_len v ≡ count) }
{
    let mut out = Vec::new(alloc);
    for k in 0..count {
        out.push((xs[k as usize], ys[k as usize]))?;
    }
    Ok(out)
}
