//! The types of products, sums and differences.

ghost use Rattle.std.specs.Prelude.{IfOk, ◌≡◌, ◌≤◌, ◌+◌, ◌≤ℤ◌, ◌-ℤ◌, pos};
ghost use Rattle.num_type.specs.Types.{word_limit};
ghost use Rattle.num_type.specs.View.{type_of};
ghost use Rattle.fi_math.specs.Full.{product_limit, full_product, full_sum, full_sum_of, aligned_word};
ghost use Rattle.fi_math.specs.Logs.{log2_up};
ghost use Rattle.fi_math.specs.Made.{Is, limited, and_then};
ghost use Rattle.fi_math.specs.Rules.{mode_type, product_by, sum_by, stepped, product_made, add_made, sub_made, sum_made, complex_product_made};
ghost use Rattle.fi_math.specs.View.{made_of};

use crate::fimath::{Fimath, Mode};
use num_type::{NumType, WORD_MAX};

/// The greatest word length of a product's full type, in bits.
pub const PRODUCT_WORD_MAX: u32 = 64;

/// Why there is no type: the first type made (the full one, then the mode's) is out of its limits; the word length is tested first.
#[derive(Clone, Copy, Debug, PartialEq, Eq)]
pub enum NoType {
    /// The word length, in bits, is below 1 or above the limit.
    TooWide {
        /// That word length.
        word: u32,
    },
    /// The fraction length, in bits, isn't from -256 to 256.
    FractionOut {
        /// That fraction length.
        fraction: i32,
    },
}

/// The type of `a * b` under the fimath. The full type has at most 64 bits in every mode.
#[tactic(auto, using(crate::proofs::Limits::none_is), unfolding(crate::specs::Rules::product_made))]
pub fn product_type(m: &Fimath, a: NumType, b: NumType) -> Result<NumType, NoType>
    ensures { made_of result ≡ product_made m.now (type_of a) (type_of b) }
{
    match full_product_type(a, b) {
        Ok(full) => product_mode_type(m, full),
        Err(none) => Err(none),
    }
}

/// The type of `a + b` under the fimath.
#[tactic(auto, using(crate::proofs::Limits::none_is), unfolding(crate::specs::Rules::add_made))]
pub fn add_type(m: &Fimath, a: NumType, b: NumType) -> Result<NumType, NoType>
    ensures { made_of result ≡ add_made m.now (type_of a) (type_of b) }
{
    match full_sum_type(a, b) {
        Ok(full) => sum_mode_type(m, full),
        Err(none) => Err(none),
    }
}

/// The type of `a - b` under the fimath.
#[tactic(auto, using(crate::proofs::Limits::none_is), unfolding(crate::specs::Rules::sub_made))]
pub fn sub_type(m: &Fimath, a: NumType, b: NumType) -> Result<NumType, NoType>
    ensures { made_of result ≡ sub_made m.now (type_of a) (type_of b) }
{
    match full_sum_type(a, b) {
        Ok(full) => sum_mode_type(m, full),
        Err(none) => Err(none),
    }
}

/// The type of a sum of `n` addends of one type under the fimath. Without CastBeforeSum the full type of a sum of it and an addend
/// must be within the limits, too.
#[tactic(auto, using(crate::proofs::Limits::none_is), unfolding(crate::specs::Rules::sum_made))]
pub fn sum_type(m: &Fimath, a: NumType, n: u32) -> Result<NumType, NoType>
    ensures made { made_of result ≡ sum_made m.now (type_of a) n }
    ensures step { IfOk result (λ t. stepped m.now (type_of a) (type_of t) ≡ Is (type_of t)) }
{
    match addends_type(m, a, n) {
        Ok(t) => stepped_type(m, a, t),
        Err(none) => Err(none),
    }
}

/// The type of a product of two complex numbers under the fimath: that of a sum of two operands of the product type.
#[tactic(auto, using(crate::proofs::Limits::none_is), unfolding(crate::specs::Rules::complex_product_made))]
pub fn complex_product_type(m: &Fimath, a: NumType, b: NumType) -> Result<NumType, NoType>
    ensures { made_of result ≡ complex_product_made m.now (type_of a) (type_of b) }
{
    match product_type(m, a, b) {
        Ok(product) => add_type(m, product, product),
        Err(none) => Err(none),
    }
}

/// The sum type of `n` addends.
#[tactic(auto, using(crate::proofs::Limits::none_is))]
fn addends_type(m: &Fimath, a: NumType, n: u32) -> Result<NumType, NoType>
    ensures { made_of result ≡ and_then (limited word_limit (full_sum_of n (type_of a))) (sum_by m.now) }
{
    match full_addends_type(a, n) {
        Ok(full) => sum_mode_type(m, full),
        Err(none) => Err(none),
    }
}

/// The sum type `t`, where a step that adds an addend to it has a full type.
#[tactic(auto, using(crate::proofs::Limits::cast_is, crate::proofs::Limits::no_step_is))]
fn stepped_type(m: &Fimath, a: NumType, t: NumType) -> Result<NumType, NoType>
    ensures { made_of result ≡ stepped m.now (type_of a) (type_of t) }
{
    if m.cast_before_sum {
        return Ok(t);
    }
    match full_sum_type(t, a) {
        Ok(_) => Ok(t),
        Err(none) => Err(none),
    }
}

/// The full type of a sum of `n` addends.
fn full_addends_type(a: NumType, n: u32) -> Result<NumType, NoType>
    ensures { made_of result ≡ limited word_limit (full_sum_of n (type_of a)) }
{
    within(WORD_MAX, a.signed(), a.word() + log2(n), a.fraction())
}

/// The logarithm of base 2, rounded up.
fn log2(n: u32) -> u32
    ensures value { result ≡ log2_up n }
    ensures most { result ≤ 32 }
{
    if n <= 1 {
        0
    } else {
        32 - (n - 1).leading_zeros()
    }
}

/// The product type of a full type.
#[tactic(auto, unfolding(crate::specs::Rules::product_by))]
fn product_mode_type(m: &Fimath, full: NumType) -> Result<NumType, NoType>
    ensures { made_of result ≡ product_by m.now (type_of full) }
{
    by_mode(m.product_mode, m.product_word, m.product_fraction, full)
}

/// The sum type of a full type.
#[tactic(auto, unfolding(crate::specs::Rules::sum_by))]
fn sum_mode_type(m: &Fimath, full: NumType) -> Result<NumType, NoType>
    ensures { made_of result ≡ sum_by m.now (type_of full) }
{
    by_mode(m.sum_mode, m.sum_word, m.sum_fraction, full)
}

/// The full type of a product.
fn full_product_type(a: NumType, b: NumType) -> Result<NumType, NoType>
    ensures { made_of result ≡ limited product_limit (full_product (type_of a) (type_of b)) }
{
    within(
        PRODUCT_WORD_MAX,
        a.signed() | b.signed(),
        a.word() + b.word(),
        a.fraction() + b.fraction(),
    )
}

/// The full type of a sum or a difference of two.
fn full_sum_type(a: NumType, b: NumType) -> Result<NumType, NoType>
    ensures { made_of result ≡ limited word_limit (full_sum (type_of a) (type_of b)) }
{
    let signed = a.signed() | b.signed();
    let fraction = a.fraction().max(b.fraction());
    let word = aligned(signed, fraction, a).max(aligned(signed, fraction, b)) + 1;
    within(WORD_MAX, signed, word, fraction)
}

/// The word length of an operand of a sum, in bits, at the fraction length of the sum, in a sum that is signed or not.
pub fn aligned(signed: bool, fraction: i32, t: NumType) -> u32
    requires least { t.fraction ≤ℤ fraction }
    requires most { fraction ≤ℤ pos 256 }
    ensures value { result ≡ aligned_word signed fraction (type_of t) }
    ensures most { result ≤ 1000 }
{
    let more = (fraction - t.fraction()) as u32;
    if signed && !t.signed() {
        t.word() + 1 + more
    } else {
        t.word() + more
    }
}

/// The type that the mode makes of the full one.
#[tactic(auto, using(crate::proofs::Limits::at_mode, crate::proofs::Limits::full_is), unfolding(crate::specs::Rules::mode_type))]
fn by_mode(mode: Mode, word: u32, fraction: i32, full: NumType) -> Result<NumType, NoType>
    ensures { made_of result ≡ limited word_limit (mode_type mode word fraction (type_of full)) }
{
    match mode {
        Mode::FullPrecision => Ok(full),
        Mode::KeepLSB => within(WORD_MAX, full.signed(), word, full.fraction()),
        Mode::KeepMSB => keep_msb(word, full),
        Mode::SpecifyPrecision => within(WORD_MAX, full.signed(), word, fraction),
    }
}

/// The type that keeps the bits before the point.
fn keep_msb(word: u32, full: NumType) -> Result<NumType, NoType>
    ensures { made_of result ≡ limited word_limit (record { signed = full.signed; word = word; fraction = pos word -ℤ (pos full.word -ℤ full.fraction) }) }
{
    if word > WORD_MAX {
        return Err(NoType::TooWide { word });
    }
    let whole = full.word() as i32 - full.fraction();
    within(WORD_MAX, full.signed(), word, word as i32 - whole)
}

/// The type with these parts, within the limits and with at most `limit` bits.
fn within(limit: u32, signed: bool, word: u32, fraction: i32) -> Result<NumType, NoType>
    requires { limit ≤ word_limit }
    ensures { made_of result ≡ limited limit (record { signed = signed; word = word; fraction = fraction }) }
{
    if word < 1 || word > limit {
        return Err(NoType::TooWide { word });
    }
    match NumType::make(signed, word, fraction) {
        Some(t) => Ok(t),
        None => Err(NoType::FractionOut { fraction }),
    }
}
