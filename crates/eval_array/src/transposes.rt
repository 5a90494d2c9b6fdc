//! Transposes.

ghost use Rattle.std.specs.Prelude.{◌≡◌, All, IfOk, map};
ghost use Rattle.num_type.specs.Types.{IsInRange};
ghost use Rattle.num_type.specs.View.{exact_of, type_of};
ghost use Rattle.const_rules.specs.Folds.{negated};
ghost use Rattle.fi_eval.specs.Operators.{Negate, turned_element};
ghost use Rattle.fi_values.specs.Transposes as transposes;
ghost use Rattle.eval_value.specs.View.{fi_view, item_view, number_view, value_view};

use crate::parts::{complex_fi, complex_number};
use crate::places::turned_places;
use crate::reads::is_readable;
use crate::rearranged::rearranged;
use crate::shapes::turned;
use crate::taken::math_of;
use eval_value::{FiValue, NumberValue, Value};
use fi_math::Fimath;
use fi_ops::{Elem, neg};
use mat_ast::PostOp;
use num_type::{Dyadic, Int, Memory, NumType};
use std::alloc::Global;

/// The transpose, for a quote of the conjugate. None for a text or an object. Want of memory is the only refusal.
pub fn transposed(alloc: Global, mark: PostOp, value: &Value) -> Result<Option<Value>, Memory>
    ensures { IfOk result (λ r. item_view r ≡ transposes.transposed mark (value_view value.now)) }
{
    match mark {
        PostOp::CTranspose => {
            let v = conjugate(alloc, value)?;
            let r = flipped(alloc, &v)?;
            Ok(r)
        }
        PostOp::Transpose => {
            let r = flipped(alloc, value)?;
            Ok(r)
        }
    }
}

// Rows for columns.
fn flipped(alloc: Global, value: &Value) -> Result<Option<Value>, Memory>
    ensures { IfOk result (λ r. item_view r ≡ transposes.flipped (value_view value.now)) }
{
    if is_readable(value, true) {
        let shape = value.shape();
        let places = turned_places(alloc, shape)?;
        let v = rearranged(alloc, value, turned(shape), places.as_slice())?;
        Ok(Some(v))
    } else {
        Ok(None)
    }
}

/// The value with its imaginary parts negated: those of a fi by the rule of negation, under its fimath. Any other value stays. Want of memory
/// is the only refusal.
#[tactic(auto, unfolding(fi_values::specs::Transposes::conjugate))]
pub fn conjugate(alloc: Global, value: &Value) -> Result<Value, Memory>
    ensures { IfOk result (λ r. value_view r ≡ transposes.conjugate (value_view value.now)) }
{
    match value {
        Value::Fi(v) => {
            let r = conjugate_fi(alloc, v)?;
            Ok(r)
        }
        Value::Number(v) => {
            let r = conjugate_number(alloc, v)?;
            Ok(r)
        }
        Value::Logical(v) => {
            let c = v.copied(alloc)?;
            Ok(Value::Logical(c))
        }
        Value::Words(_) => {
            let c = value.copied(alloc)?;
            Ok(c)
        }
        Value::Math(m) => Ok(Value::Math(*m)),
        Value::Type(t) => Ok(Value::Type(*t)),
    }
}

// Of a fi.
#[tactic(auto, unfolding(fi_values::specs::Transposes::conjugate))]
fn conjugate_fi(alloc: Global, v: &FiValue) -> Result<Value, Memory>
    ensures { IfOk result (λ r. value_view r ≡ transposes.conjugate (fi_view v.now)) }
{
    match &v.im {
        None => {
            let c = v.copied(alloc)?;
            Ok(Value::Fi(c))
        }
        Some(parts) => {
            let re = Vec::from_slice(alloc, v.re.as_slice())?;
            let im = negatives(alloc, &math_of(v.math), v.num, parts.as_slice())?;
            Ok(complex_fi(v.num, v.math, v.shape, re, im))
        }
    }
}

// Of constants.
#[tactic(auto, unfolding(fi_values::specs::Transposes::conjugate))]
fn conjugate_number(alloc: Global, v: &NumberValue) -> Result<Value, Memory>
    ensures { IfOk result (λ r. value_view r ≡ transposes.conjugate (number_view v.now)) }
{
    match &v.im {
        None => {
            let c = v.copied(alloc)?;
            Ok(Value::Number(c))
        }
        Some(parts) => {
            let re = Vec::from_slice(alloc, v.re.as_slice())?;
            let im = negative_numbers(alloc, parts.as_slice())?;
            Ok(complex_number(v.shape, re, im))
        }
    }
}

// Stored integers of a type negated in it.
fn negatives(alloc: Global, math: &Fimath, num: NumType, all: &[Int]) -> Result<Vec<Int>, Memory>
    requires { All (IsInRange (type_of num)) all.now }
    ensures value { IfOk result (λ v. v.items ≡ map (turned_element Negate math.now (type_of num)) all.now) }
    ensures inside { IfOk result (λ v. All (IsInRange (type_of num)) v.items) }
{
    let mut out = Vec::new(alloc);
    for z in all {
        out.push(negative(math, num, *z))?;
    }
    Ok(out)
}

// One of them.
fn negative(math: &Fimath, num: NumType, z: Int) -> Int
    requires { IsInRange (type_of num) z }
    ensures value { result ≡ turned_element Negate math.now (type_of num) z }
    ensures inside { IsInRange (type_of num) result }
{
    neg(math, Elem { num, z }).z
}

// Constants negated.
fn negative_numbers(alloc: Global, all: &[Dyadic]) -> Result<Vec<Dyadic>, Memory>
    ensures { IfOk result (λ v. map exact_of v.items ≡ map negated (map exact_of all.now)) }
{
    let mut out = Vec::new(alloc);
    for c in all {
        out.push(c.neg())?;
    }
    Ok(out)
}
