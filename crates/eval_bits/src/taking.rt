//! Values taken into a type, and fis with another fimath.

ghost use Rattle.std.specs.Prelude.{◌≡◌, IfOk, Some, length, map, vec_len, All};
ghost use Rattle.num_type.specs.Types.{IsInRange};
ghost use Rattle.num_type.specs.View.{exact_of, type_of};
ghost use Rattle.fi_eval.specs.Calls.{taken_constant};
ghost use Rattle.fi_meaning.specs.Calls as calls;
ghost use Rattle.eval_value.specs.View.{fi_view, item_view, logical_view, number_view, value_view};
ghost use Rattle.eval_bits.specs.Changes.{taken_truth};

use crate::change::{Change, changed, fimath_of};
use eval_value::{FiValue, LogicalValue, NumberValue, Value};
use fi_math::Fimath;
use fi_quant::quantise;
use num_type::{Dyadic, Int, Memory, NumType};
use std::alloc::Global;

/// A value taken into a type, part by part, by a fimath or else by the default one, with that fimath attached: a fi, constants, or truth values as
/// 1 and 0. None of other values; want of memory is the only refusal.
pub fn taken_value(
    alloc: Global,
    num: NumType,
    math: Option<Fimath>,
    value: &Value,
) -> Result<Option<Value>, Memory>
    ensures { IfOk result (λ r. item_view r ≡ calls.taken_value (type_of num) math (value_view value.now)) }
{
    match value {
        Value::Fi(v) => {
            let r = changed(alloc, &Change::Taken(num, math), math, v)?;
            Ok(Some(Value::Fi(r)))
        }
        Value::Number(v) => {
            let r = constants_taken(alloc, num, math, v)?;
            Ok(Some(Value::Fi(r)))
        }
        Value::Logical(v) => {
            let r = truths_taken(alloc, num, math, v)?;
            Ok(Some(Value::Fi(r)))
        }
        _ => Ok(None),
    }
}

/// A fi with another fimath, or with none. None of other values; want of memory is the only refusal.
pub fn attached(alloc: Global, math: Option<Fimath>, value: &Value) -> Result<Option<Value>, Memory>
    ensures { IfOk result (λ r. item_view r ≡ calls.attached math (value_view value.now)) }
{
    match value {
        Value::Fi(v) => {
            let mut r = v.copied(alloc)?;
            r.math = math;
            Ok(Some(Value::Fi(r)))
        }
        _ => Ok(None),
    }
}

// Constants taken into a type. Want of memory is the only refusal.
fn constants_taken(
    alloc: Global,
    num: NumType,
    math: Option<Fimath>,
    v: &NumberValue,
) -> Result<FiValue, Memory>
    ensures { IfOk result (λ r. Some (fi_view r) ≡ calls.taken_value (type_of num) math (number_view v.now)) }
{
    let re = each_constant(alloc, &num, &math, v.re.as_slice())?;
    match &v.im {
        None => Ok(FiValue {
            num,
            math,
            shape: v.shape,
            re,
            im: None,
        }),
        Some(parts) => {
            let im = each_constant(alloc, &num, &math, parts.as_slice())?;
            Ok(FiValue {
                num,
                math,
                shape: v.shape,
                re,
                im: Some(im),
            })
        }
    }
}

// Truth values taken into a type as 1 and 0. Want of memory is the only refusal.
#[tactic(auto, unfolding(fi_meaning::specs::Calls::taken_value))]
fn truths_taken(
    alloc: Global,
    num: NumType,
    math: Option<Fimath>,
    v: &LogicalValue,
) -> Result<FiValue, Memory>
    ensures { IfOk result (λ r. Some (fi_view r) ≡ calls.taken_value (type_of num) math (logical_view v.now)) }
{
    let re = each_truth(alloc, &num, &math, v.truths.as_slice())?;
    Ok(FiValue {
        num,
        math,
        shape: v.shape,
        re,
        im: None,
    })
}

// The stored integers of constants in a type. Want of memory is the only refusal.
fn each_constant(
    alloc: Global,
    num: &NumType,
    math: &Option<Fimath>,
    all: &[Dyadic],
) -> Result<Vec<Int>, Memory>
    ensures elements { IfOk result (λ v. v.items ≡ map (taken_constant (type_of num.now) math.now) (map exact_of all.now)) }
    ensures count { IfOk result (λ v. vec_len v ≡ length all.now) }
    ensures inside { IfOk result (λ v. All (IsInRange (type_of num.now)) v.items) }
{
    let mut out = Vec::new(alloc);
    for c in all {
        out.push(stored(num, math, c))?;
    }
    Ok(out)
}

// The stored integers of truth values in a type. Want of memory is the only refusal.
fn each_truth(
    alloc: Global,
    num: &NumType,
    math: &Option<Fimath>,
    all: &[bool],
) -> Result<Vec<Int>, Memory>
    ensures elements { IfOk result (λ v. v.items ≡ map (taken_truth (type_of num.now) math.now) all.now) }
    ensures count { IfOk result (λ v. vec_len v ≡ length all.now) }
    ensures inside { IfOk result (λ v. All (IsInRange (type_of num.now)) v.items) }
{
    let mut out = Vec::new(alloc);
    for b in all {
        out.push(stored_truth(num, math, *b))?;
    }
    Ok(out)
}

// The stored integer of a truth value in a type.
fn stored_truth(num: &NumType, math: &Option<Fimath>, truth: bool) -> Int
    ensures value { result ≡ taken_truth (type_of num.now) math.now truth }
    ensures inside { IsInRange (type_of num.now) result }
{
    stored(num, math, &truth_number(truth))
}

/// The constant that a truth value stands for: 1 or 0.
pub fn truth_number(truth: bool) -> Dyadic
    ensures { exact_of result ≡ calls.truth_number truth }
{
    if truth { Dyadic::one() } else { Dyadic::zero() }
}

// The stored integer of a constant in a type, by a fimath or else by the default one.
fn stored(num: &NumType, math: &Option<Fimath>, c: &Dyadic) -> Int
    ensures value { result ≡ taken_constant (type_of num.now) math.now (exact_of c.now) }
    ensures inside { IsInRange (type_of num.now) result }
{
    let m = fimath_of(*math);
    quantise(
        *num,
        m.rounding,
        m.overflow,
        Int::from_i128(c.significand() as i128),
        -c.exponent(),
    )
}
