//! Built-in functions on the bits of fis.

ghost use Rattle.std.specs.Prelude.{◌≡◌, ◌&&◌, ◌≤◌, IfOk, None, nat_le};
ghost use Rattle.std.specs.Bool.{OnTrue};
ghost use Rattle.num_type.specs.View.{type_of};
ghost use Rattle.fi_rules.specs.Types.{same_type};
ghost use Rattle.fi_values.specs.Arithmetic.{governing};
ghost use Rattle.fi_values.specs.Bits as bits;
ghost use Rattle.eval_value.specs.View.{fi_view, item_view, value_view};
ghost use Rattle.eval_bits.specs.Changes.{moved};
ghost use Rattle.eval_bits.specs.Joints.{bits_met};

use crate::change::{Change, Shift, changed};
use crate::joint::{Bitwise, Joint, joined};
use crate::pair::common_shape;
use crate::real::real_fi;
use eval_value::{FiValue, Value};
use fi_math::{Fimath, Governed, govern};
use num_type::{Memory, NumType};
use std::alloc::Global;

/// A fi with every bit turned (bitcmp), in its own type with its fimath. None of a value that is no fi; want of memory is the only refusal.
pub fn complemented_bits(alloc: Global, value: &Value) -> Result<Option<Value>, Memory>
    ensures { IfOk result (λ r. item_view r ≡ bits.turned_bits (value_view value.now)) }
{
    match value {
        Value::Fi(v) => {
            let r = changed(alloc, &Change::Complemented, v.math, v)?;
            Ok(Some(Value::Fi(r)))
        }
        _ => Ok(None),
    }
}

/// A fi with its bits moved by so many places (bitsll, bitsrl, bitsra), in its own type with its fimath. None of a value that is no fi, and
/// where its word has no more bits than that; want of memory is the only refusal.
pub fn shifted(
    alloc: Global,
    shift: Shift,
    places: u32,
    value: &Value,
) -> Result<Option<Value>, Memory>
    ensures { IfOk result (λ r. item_view r ≡ bits.shifted (moved shift) places (value_view value.now)) }
{
    match value {
        Value::Fi(v) => {
            let r = fi_shifted(alloc, shift, places, v)?;
            Ok(r)
        }
        _ => Ok(None),
    }
}

// The same of a fi.
fn fi_shifted(
    alloc: Global,
    shift: Shift,
    places: u32,
    v: &FiValue,
) -> Result<Option<Value>, Memory>
    ensures { IfOk result (λ r. item_view r ≡ bits.shifted (moved shift) places (fi_view v.now)) }
{
    if places < v.num.word() {
        let r = changed(alloc, &Change::Shifted(shift, places), v.math, v)?;
        Ok(Some(Value::Fi(r)))
    } else {
        Ok(None)
    }
}

/// The bits of a fi from `left` down to `right`, 1 the least, in an unsigned type without a fraction, with no fimath (bitsliceget). None of a
/// value that is no fi, and unless `1 <= right <= left` and its word has as many bits as `left`; want of memory is the only refusal.
pub fn bits_between(
    alloc: Global,
    left: u32,
    right: u32,
    value: &Value,
) -> Result<Option<Value>, Memory>
    ensures { IfOk result (λ r. item_view r ≡ bits.bits_between left right (value_view value.now)) }
{
    match value {
        Value::Fi(v) => {
            let r = fi_bits_between(alloc, left, right, v)?;
            Ok(r)
        }
        _ => Ok(None),
    }
}

// The same of a fi.
fn fi_bits_between(
    alloc: Global,
    left: u32,
    right: u32,
    v: &FiValue,
) -> Result<Option<Value>, Memory>
    ensures { IfOk result (λ r. item_view r ≡ bits.bits_between left right (fi_view v.now)) }
{
    if has_bits(left, right, v.num.word()) {
        let r = changed(alloc, &Change::Sliced(left, right), None, v)?;
        Ok(Some(Value::Fi(r)))
    } else {
        Ok(None)
    }
}

// Whether a word of so many bits has those from one down to another, 1 the least.
fn has_bits(left: u32, right: u32, word: u32) -> bool
    ensures value { result ≡ (nat_le 1 right && (nat_le right left && nat_le left word)) }
    ensures parts { OnTrue result ((1 ≤ right) × (right ≤ left) × (left ≤ word)) }
{
    1 <= right && (right <= left && left <= word)
}

/// The bits of two real fis of one type, element by element (bitand, bitor, bitxor): in their type, with the fimath that governs. None of other
/// values, of unequal types or fimaths, and where the shapes don't fit; want of memory is the only refusal.
pub fn bitwise(alloc: Global, op: Bitwise, x: &Value, y: &Value) -> Result<Option<Value>, Memory>
    ensures { IfOk result (λ r. item_view r ≡ bits.two_typed (bits_met op) (value_view x.now) (value_view y.now)) }
{
    match real_fi(x) {
        None => Ok(None),
        Some(a) => match real_fi(y) {
            None => Ok(None),
            Some(b) => {
                let r = fis_met(alloc, op, a, b)?;
                Ok(r)
            }
        },
    }
}

// The same of two real fis.
fn fis_met(alloc: Global, op: Bitwise, a: &FiValue, b: &FiValue) -> Result<Option<Value>, Memory>
    requires left { a.now.im ≡ None }
    requires right { b.now.im ≡ None }
    ensures { IfOk result (λ r. item_view r ≡ bits.two_typed (bits_met op) (fi_view a.now) (fi_view b.now)) }
{
    if !is_same_type(a.num, b.num) {
        return Ok(None);
    }
    match common_shape(a.shape, b.shape) {
        None => Ok(None),
        Some(shape) => match governing(a.math, b.math) {
            None => Ok(None),
            Some(g) => {
                let re = joined(
                    alloc,
                    &Joint::Met(op),
                    a.num,
                    a.num,
                    a.re.as_slice(),
                    b.re.as_slice(),
                )?;
                Ok(Some(Value::Fi(FiValue {
                    num: a.num,
                    math: g.attached,
                    shape,
                    re,
                    im: None,
                })))
            }
        },
    }
}

// The fimath that governs an operation of two fis with these attached. None where they are unequal.
#[tactic(auto, unfolding(fi_values::specs::Arithmetic::governing))]
fn governing(m: Option<Fimath>, n: Option<Fimath>) -> Option<Governed>
    ensures { result ≡ governing m n }
{
    match govern(m, n) {
        Ok(g) => Some(g),
        Err(_) => None,
    }
}

// Whether two types have the same parts.
fn is_same_type(a: NumType, b: NumType) -> bool
    ensures value { result ≡ same_type (type_of a) (type_of b) }
    ensures same { OnTrue result (type_of a ≡ type_of b) }
{
    a.signed() == b.signed() && a.word() == b.word() && a.fraction() == b.fraction()
}
