//! Full types: those of exact products, sums and differences.

ghost use Rattle.std.specs.Prelude.{◌≡◌, IsTrue};
ghost use Rattle.num_type.specs.Types.{IsWithin};
ghost use Rattle.num_type.specs.View.{type_of};
ghost use Rattle.fi_math.specs.Full;
ghost use Rattle.lower_scalar.specs.Operators;
ghost use Rattle.lower_op.specs.Arguments.{truth_num};

use fi_math::aligned;
use num_type::NumType;

/// The full type of a product.
pub fn full_product(p: NumType, q: NumType) -> NumType
    requires { IsWithin (Full.full_product (type_of p) (type_of q)) }
    ensures { type_of result ≡ Full.full_product (type_of p) (type_of q) }
{
    made(
        p.signed() | q.signed(),
        p.word() + q.word(),
        p.fraction() + q.fraction(),
    )
}

/// The full type of a sum.
pub fn full_sum(p: NumType, q: NumType) -> NumType
    requires { IsWithin (Full.full_sum (type_of p) (type_of q)) }
    ensures { type_of result ≡ Full.full_sum (type_of p) (type_of q) }
{
    let signed = p.signed() | q.signed();
    let fraction = p.fraction().max(q.fraction());
    let word = aligned(signed, fraction, p).max(aligned(signed, fraction, q)) + 1;
    made(signed, word, fraction)
}

/// The type that holds an exact difference, by the full type of the sum.
pub fn difference_type(full: NumType) -> NumType
    ensures { type_of result ≡ Operators.difference_type (type_of full) }
{
    made(true, 64, full.fraction())
}

/// The type of whose stored integers logical values are 0 and 1.
pub fn truth_type() -> NumType
    ensures { type_of result ≡ truth_num }
{
    made(true, 2, 0)
}

/// Whether two types are the same.
pub fn is_same(t: NumType, other: NumType) -> bool
    ensures { IsTrue result → type_of t ≡ type_of other }
{
    if t.signed() != other.signed() {
        return false;
    }
    if t.word() != other.word() {
        return false;
    }
    t.fraction() == other.fraction()
}

// The type with these parts, which are within the limits.
fn made(signed: bool, word: u32, fraction: i32) -> NumType
    requires { IsWithin (record { signed = signed; word = word; fraction = fraction }) }
    ensures { type_of result ≡ record { signed = signed; word = word; fraction = fraction } }
{
    match NumType::make(signed, word, fraction) {
        Some(t) => t,
        None => unreachable!(),
    }
}
