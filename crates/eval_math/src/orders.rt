//! Comparisons by the orders of elements.

ghost use Rattle.std.specs.Prelude.{◌≡◌, ◌||◌, All, IfOk, length, map, vec_len};
ghost use Rattle.num_type.specs.Constants.{order_of};
ghost use Rattle.num_type.specs.Types.{IsInRange};
ghost use Rattle.num_type.specs.View.{exact_of, type_of};
ghost use Rattle.shape_rules.specs.Shapes.{elements_of};
ghost use Rattle.fi_ops.specs.Operations as operations;
ghost use Rattle.fi_rules.specs.Options as options;
ghost use Rattle.fi_rules.specs.Value.{Logical};
ghost use Rattle.fi_eval.specs.Operators.{pairwise};
ghost use Rattle.fi_values.specs.Comparisons.{exacts};
ghost use Rattle.eval_value.specs.View.{item_view, shape_view};
ghost use Rattle.eval_math.specs.Orders.{orders, truths_of};
ghost use Rattle.eval_math.specs.View.{IsMet};

use crate::comparison::{Comparison, equal, ordered};
use crate::elements::pairs;
use eval_value::{LogicalValue, Value};
use fi_ops::{Elem, compare};
use num_type::{Dyadic, Int, Memory, NumType};
use shape_rules::Shape;
use std::alloc::Global;
use std::cmp::Ordering;

/// The logical array that a comparison makes of the orders of real and imaginary parts: by order none where a value is complex. Want of memory
/// is the only refusal.
#[tactic(auto, unfolding(fi_rules::specs::Options::and_then, fi_rules::specs::Options::where_so))]
pub fn truths(
    alloc: Global,
    k: Comparison,
    shape: Shape,
    complex: bool,
    re: &[Ordering],
    im: &[Ordering],
) -> Result<Option<Value>, Memory>
    requires real { length re.now ≡ elements_of shape }
    requires imaginary { length im.now ≡ elements_of shape }
    ensures { IfOk result (λ r. item_view r ≡ options.and_then (truths_of k complex re.now im.now) (λ bs. Some (Logical (shape_view shape) bs))) }
{
    match k {
        Comparison::Orders(order) => {
            if complex {
                Ok(None)
            } else {
                let truths = ordered(alloc, order, re)?;
                Ok(Some(Value::Logical(LogicalValue { shape, truths })))
            }
        }
        Comparison::Equals(same) => {
            let truths = equal(alloc, same, shape.elements(), re, im)?;
            Ok(Some(Value::Logical(LogicalValue { shape, truths })))
        }
    }
}

/// The orders of the stored integers of two types that meet. Want of memory is the only refusal.
pub fn fi_orders(
    alloc: Global,
    count: u32,
    a: NumType,
    xs: &[Int],
    b: NumType,
    ys: &[Int],
) -> Result<Vec<Ordering>, Memory>
    requires met { IsMet count (length xs.now) (length ys.now) }
    requires left { All (IsInRange (type_of a)) xs.now }
    requires right { All (IsInRange (type_of b)) ys.now }
    ensures value { IfOk result (λ v. v.items ≡ orders (exacts (type_of a) xs.now) (exacts (type_of b) ys.now)) }
    ensures many { IfOk result (λ v. vec_len v ≡ count) }
{
    let met = pairs(alloc, count, xs, ys)?;
    let v = fi_pair_orders(alloc, a, b, met.as_slice())?;
    Ok(v)
}

// The same of the pairs that meet.
fn fi_pair_orders(
    alloc: Global,
    a: NumType,
    b: NumType,
    met: &[(Int, Int)],
) -> Result<Vec<Ordering>, Memory>
    requires left { All (λ p. IsInRange (type_of a) p.0) met.now }
    requires right { All (λ p. IsInRange (type_of b) p.1) met.now }
    ensures value { IfOk result (λ v. v.items ≡ map (λ p. operations.compared (record { num = type_of a; z = p.0 }) (record { num = type_of b; z = p.1 })) met.now) }
    ensures many { IfOk result (λ v. vec_len v ≡ length met.now) }
{
    let mut out = Vec::new(alloc);
    for p in met {
        let x = Elem { num: a, z: p.0 };
        let y = Elem { num: b, z: p.1 };
        out.push(compare(x, y))?;
    }
    Ok(out)
}

/// The orders of the constants that meet. Want of memory is the only refusal.
pub fn number_orders(
    alloc: Global,
    count: u32,
    xs: &[Dyadic],
    ys: &[Dyadic],
) -> Result<Vec<Ordering>, Memory>
    requires { IsMet count (length xs.now) (length ys.now) }
    ensures value { IfOk result (λ v. v.items ≡ orders (map exact_of xs.now) (map exact_of ys.now)) }
    ensures many { IfOk result (λ v. vec_len v ≡ count) }
{
    let met = pairs(alloc, count, xs, ys)?;
    let v = number_pair_orders(alloc, met.as_slice())?;
    Ok(v)
}

// The same of the pairs that meet.
fn number_pair_orders(alloc: Global, met: &[(Dyadic, Dyadic)]) -> Result<Vec<Ordering>, Memory>
    ensures value { IfOk result (λ v. v.items ≡ map (λ p. order_of (exact_of p.0) (exact_of p.1)) met.now) }
    ensures many { IfOk result (λ v. vec_len v ≡ length met.now) }
{
    let mut out = Vec::new(alloc);
    for p in met {
        let x = p.0;
        out.push(x.compare(p.1))?;
    }
    Ok(out)
}
