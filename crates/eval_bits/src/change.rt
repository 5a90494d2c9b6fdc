//! What is done to each stored integer of a fi.

ghost use Rattle.std.specs.Prelude.{◌≡◌, ◌<◌, ◌≤◌, ◌+◌, ◌-◌, All, IfOk, length, map, vec_len};
ghost use Rattle.num_type.specs.Types.{IsInRange};
ghost use Rattle.num_type.specs.View.{type_of};
ghost use Rattle.fi_quant.specs.Numbers.{quantised};
ghost use Rattle.fi_ops.specs.Bits.{word_type};
ghost use Rattle.fi_ops.specs.View.{element_of};
ghost use Rattle.fi_eval.specs.Operators.{math_of};
ghost use Rattle.eval_value.specs.View.{fi_view};
ghost use Rattle.eval_bits.specs.Changes.{CanApply, applied, changed, moved, target_of};

use eval_value::FiValue;
use fi_math::Fimath;
use fi_ops::{Elem, abs, bit_not, bit_slice, bit_sll, bit_sra, bit_srl, neg};
use fi_quant::quantise;
use num_type::{Int, Memory, NumType};
use std::alloc::Global;

/// Where the bits of an element move.
#[derive(Clone, Copy, Debug, PartialEq, Eq)]
pub enum Shift {
    /// To the left; zeros come in (bitsll).
    Left,
    /// To the right; zeros come in (bitsrl).
    Right,
    /// To the right; the sign comes in (bitsra).
    Sign,
}

/// What is done to an element.
#[derive(Clone, Copy)]
pub enum Change {
    /// The other sign, by the attached fimath or else by the default one.
    Negated(Option<Fimath>),
    /// No sign, in the same way.
    Absolute(Option<Fimath>),
    /// Every bit turned.
    Complemented,
    /// The bits moved by so many places, fewer than the word has.
    Shifted(Shift, u32),
    /// The bits from the first down to the second, 1 the least, in an unsigned type without a fraction.
    Sliced(u32, u32),
    /// Taken into a type by a fimath or else by the default one.
    Taken(NumType, Option<Fimath>),
}

/// A fi with each stored integer changed, part by part, and this fimath attached. Want of memory is the only refusal.
pub fn changed(
    alloc: Global,
    change: &Change,
    math: Option<Fimath>,
    v: &FiValue,
) -> Result<FiValue, Memory>
    requires { CanApply change.now (type_of v.now.num) }
    ensures { IfOk result (λ r. fi_view r ≡ changed (applied change.now (type_of v.now.num)) (target_of change.now (type_of v.now.num)) math (fi_view v.now)) }
{
    let num = target(change, v.num);
    let re = each(alloc, change, &v.num, v.re.as_slice())?;
    match &v.im {
        None => Ok(FiValue {
            num,
            math,
            shape: v.shape,
            re,
            im: None,
        }),
        Some(parts) => {
            let im = each(alloc, change, &v.num, parts.as_slice())?;
            Ok(FiValue {
                num,
                math,
                shape: v.shape,
                re,
                im: Some(im),
            })
        }
    }
}

/// The fimath of an operation with one operand: the attached one, or else the default.
#[tactic(auto, unfolding(fi_eval::specs::Operators::math_of))]
pub fn fimath_of(attached: Option<Fimath>) -> Fimath
    ensures { result ≡ math_of attached }
{
    match attached {
        None => Fimath::usual(),
        Some(m) => m,
    }
}

// The type of what a change gives.
#[tactic(auto, unfolding(crate::specs::Changes::target_of))]
fn target(change: &Change, num: NumType) -> NumType
    requires { CanApply change.now (type_of num) }
    ensures { type_of result ≡ target_of change.now (type_of num) }
{
    match change {
        Change::Negated(_) => num,
        Change::Absolute(_) => num,
        Change::Complemented => num,
        Change::Shifted(_, _) => num,
        Change::Sliced(left, right) => bits_type(*left - *right + 1),
        Change::Taken(to, _) => *to,
    }
}

// The changed stored integers of elements of a type. Want of memory is the only refusal.
fn each(alloc: Global, change: &Change, num: &NumType, all: &[Int]) -> Result<Vec<Int>, Memory>
    requires can { CanApply change.now (type_of num.now) }
    requires inside { All (IsInRange (type_of num.now)) all.now }
    ensures elements { IfOk result (λ v. v.items ≡ map (applied change.now (type_of num.now)) all.now) }
    ensures count { IfOk result (λ v. vec_len v ≡ length all.now) }
    ensures inside { IfOk result (λ v. All (IsInRange (target_of change.now (type_of num.now))) v.items) }
{
    let mut out = Vec::new(alloc);
    for z in all {
        out.push(stored(change, num, *z))?;
    }
    Ok(out)
}

// The changed stored integer of an element of a type.
fn stored(change: &Change, num: &NumType, z: Int) -> Int
    requires can { CanApply change.now (type_of num.now) }
    requires inside { IsInRange (type_of num.now) z }
    ensures value { result ≡ applied change.now (type_of num.now) z }
    ensures inside { IsInRange (target_of change.now (type_of num.now)) result }
{
    let e = apply(change, Elem { num: *num, z });
    e.z
}

// The changed element.
#[tactic(auto, unfolding(crate::specs::Changes::applied, crate::specs::Changes::target_of))]
fn apply(change: &Change, a: Elem) -> Elem
    requires { CanApply change.now (type_of a.num) }
    ensures num { type_of result.num ≡ target_of change.now (type_of a.num) }
    ensures value { result.z ≡ applied change.now (type_of a.num) a.z }
{
    match change {
        Change::Negated(m) => neg(&fimath_of(*m), a),
        Change::Absolute(m) => abs(&fimath_of(*m), a),
        Change::Complemented => bit_not(a),
        Change::Shifted(shift, k) => moved(*shift, *k, a),
        Change::Sliced(left, right) => bit_slice(a, *left, *right),
        Change::Taken(num, m) => taken(*num, fimath_of(*m), a),
    }
}

// The element with its bits moved.
fn moved(shift: Shift, k: u32, a: Elem) -> Elem
    requires { k < a.num.word }
    ensures num { result.num ≡ a.num }
    ensures value { result.z ≡ moved shift k (element_of a) }
{
    match shift {
        Shift::Left => bit_sll(a, k),
        Shift::Right => bit_srl(a, k),
        Shift::Sign => bit_sra(a, k),
    }
}

// The element taken into a type by a fimath.
fn taken(num: NumType, m: Fimath, a: Elem) -> Elem
    ensures num { result.num ≡ num }
    ensures value { result.z ≡ quantised m.rounding m.overflow (type_of num) a.z a.num.fraction }
{
    Elem {
        num,
        z: quantise(num, m.rounding, m.overflow, a.z, a.num.fraction()),
    }
}

/// The unsigned type of so many bits without a fraction.
pub fn bits_type(word: u32) -> NumType
    requires some { 1 ≤ word }
    requires bits { word ≤ 64 }
    ensures { type_of result ≡ word_type word }
{
    match NumType::make(false, word, 0) {
        Some(num) => num,
        None => unreachable!(),
    }
}
