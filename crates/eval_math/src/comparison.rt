//! Comparison operators, and what they ask of the orders of values.

ghost use Rattle.std.specs.Prelude.{◌≡◌, ◌&&◌, IfOk, length, map, option_map, vec_len};
ghost use Rattle.fi_values.specs.Comparisons as comparisons;
ghost use Rattle.eval_math.specs.Orders.{asked, comparison_view, paired_equal};
ghost use Rattle.eval_math.specs.View.{side_by_side};

use crate::elements::each_with_each;
use mat_ast::BinOp;
use num_type::Memory;
use std::alloc::Global;
use std::cmp::Ordering;

/// The comparisons by order, of real values alone.
#[derive(Clone, Copy, Debug, PartialEq, Eq)]
pub enum Order {
    /// `<`.
    Below,
    /// `<=`.
    UpTo,
    /// `>`.
    Above,
    /// `>=`.
    From,
}

/// The comparisons.
#[derive(Clone, Copy, Debug, PartialEq, Eq)]
pub enum Comparison {
    /// By order.
    Orders(Order),
    /// Whether values are equal, for `==`; or differ, for `~=`.
    Equals(bool),
}

/// The comparison of an operator. None where it is another operator.
#[tactic(auto, unfolding(fi_values::specs::Comparisons::comparison_of))]
pub fn comparison_of(op: BinOp) -> Option<Comparison>
    ensures { option_map comparison_view result ≡ comparisons.comparison_of op }
{
    match op {
        BinOp::Eq => Some(Comparison::Equals(true)),
        BinOp::Ne => Some(Comparison::Equals(false)),
        BinOp::Lt => Some(Comparison::Orders(Order::Below)),
        BinOp::Le => Some(Comparison::Orders(Order::UpTo)),
        BinOp::Gt => Some(Comparison::Orders(Order::Above)),
        BinOp::Ge => Some(Comparison::Orders(Order::From)),
        _ => None,
    }
}

/// Whether the order of two values is the one asked for.
fn holds(order: Order, found: Ordering) -> bool
    ensures { result ≡ asked order found }
{
    match order {
        Order::Below => is_less(found),
        Order::UpTo => !is_greater(found),
        Order::Above => is_greater(found),
        Order::From => !is_less(found),
    }
}

// Whether the first value is below the second.
fn is_less(found: Ordering) -> bool
    ensures { result ≡ comparisons.is_less found }
{
    match found {
        Ordering::Less => true,
        Ordering::Equal => false,
        Ordering::Greater => false,
    }
}

// Whether it is above the second.
fn is_greater(found: Ordering) -> bool
    ensures { result ≡ comparisons.is_greater found }
{
    match found {
        Ordering::Less => false,
        Ordering::Equal => false,
        Ordering::Greater => true,
    }
}

/// Whether each of these orders is the one asked for. Want of memory is the only refusal.
pub fn ordered(alloc: Global, order: Order, found: &[Ordering]) -> Result<Vec<bool>, Memory>
    ensures value { IfOk result (λ v. v.items ≡ map (asked order) found.now) }
    ensures many { IfOk result (λ v. vec_len v ≡ length found.now) }
{
    let mut out = Vec::new(alloc);
    for o in found {
        out.push(holds(order, *o))?;
    }
    Ok(out)
}

/// Whether the orders of the real parts and those of the imaginary parts say that values are equal, or differ. Want of memory is the only
/// refusal.
pub fn equal(
    alloc: Global,
    same: bool,
    count: u32,
    re: &[Ordering],
    im: &[Ordering],
) -> Result<Vec<bool>, Memory>
    requires real { length re.now ≡ count }
    requires imaginary { length im.now ≡ count }
    ensures value { IfOk result (λ v. v.items ≡ map (paired_equal same) (side_by_side re.now im.now)) }
    ensures many { IfOk result (λ v. vec_len v ≡ count) }
{
    let met = each_with_each(alloc, count, re, im)?;
    let v = equal_pairs(alloc, same, met.as_slice())?;
    Ok(v)
}

// The same of pairs of orders.
fn equal_pairs(alloc: Global, same: bool, met: &[(Ordering, Ordering)]) -> Result<Vec<bool>, Memory>
    ensures value { IfOk result (λ v. v.items ≡ map (paired_equal same) met.now) }
    ensures many { IfOk result (λ v. vec_len v ≡ length met.now) }
{
    let mut out = Vec::new(alloc);
    for p in met {
        out.push(are_equal(p.0, p.1) == same)?;
    }
    Ok(out)
}

// Whether both orders say equal.
fn are_equal(re: Ordering, im: Ordering) -> bool
    ensures { result ≡ (comparisons.is_equal re && comparisons.is_equal im) }
{
    is_equal(re) && is_equal(im)
}

// Whether an order says equal.
fn is_equal(found: Ordering) -> bool
    ensures { result ≡ comparisons.is_equal found }
{
    match found {
        Ordering::Less => false,
        Ordering::Equal => true,
        Ordering::Greater => false,
    }
}
