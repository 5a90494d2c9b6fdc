//! The stored integers that a fi takes of values.

ghost use Rattle.std.specs.Prelude.{◌≡◌, All, IfOk, map};
ghost use Rattle.std.specs.Option.{ForSome};
ghost use Rattle.num_type.specs.Types.{IsInRange};
ghost use Rattle.num_type.specs.View.{exact_of, type_of};
ghost use Rattle.fi_eval.specs.Calls as calls;
ghost use Rattle.fi_eval.specs.Operators as operators;
ghost use Rattle.fi_rules.specs.Options.{and_then};
ghost use Rattle.fi_values.specs.Stores as stores;
ghost use Rattle.eval_value.specs.View.{value_view};
ghost use Rattle.eval_array.specs.Fitting.{with_noughts};
ghost use Rattle.eval_array.specs.Views.{listed, parts_answer};

use crate::lists::repeated;
use crate::parts::Parts;
use crate::rearranged::zero;
use eval_value::Value;
use fi_math::Fimath;
use fi_quant::quantise;
use num_type::{Dyadic, Int, Memory, NumType};
use std::alloc::Global;

/// The fimath of an operation with one operand: the attached one, or the default one.
#[tactic(auto, unfolding(fi_eval::specs::Operators::math_of))]
pub fn math_of(math: Option<Fimath>) -> Fimath
    ensures { result ≡ operators.math_of math }
{
    match math {
        None => Fimath::usual(),
        Some(m) => m,
    }
}

/// The exact z * 2^-fraction in a type, by a fimath or by the default one.
pub fn taken(num: NumType, math: Option<Fimath>, z: Int, fraction: i32) -> Int
    ensures value { result ≡ calls.taken (type_of num) math z fraction }
    ensures inside { IsInRange (type_of num) result }
{
    let m = math_of(math);
    quantise(num, m.rounding, m.overflow, z, fraction)
}

/// A constant there.
pub fn taken_constant(num: NumType, math: Option<Fimath>, c: Dyadic) -> Int
    ensures value { result ≡ calls.taken_constant (type_of num) math (exact_of c) }
    ensures inside { IsInRange (type_of num) result }
{
    taken(num, math, significand(c), -c.exponent())
}

// The significand of a constant.
fn significand(c: Dyadic) -> Int
    ensures { result ≡ (exact_of c).significand }
{
    Int::from_i128(c.significand() as i128)
}

// A stored integer of a type in another one.
fn taken_from(num: NumType, math: Option<Fimath>, from: NumType, z: Int) -> Int
    ensures value { result ≡ calls.taken (type_of num) math z (type_of from).fraction }
    ensures inside { IsInRange (type_of num) result }
{
    taken(num, math, z, from.fraction())
}

// Stored integers of a type in another one.
fn all_taken(
    alloc: Global,
    num: NumType,
    math: Option<Fimath>,
    from: NumType,
    all: &[Int],
) -> Result<Vec<Int>, Memory>
    ensures value { IfOk result (λ v. v.items ≡ map (λ y. calls.taken (type_of num) math y (type_of from).fraction) all.now) }
    ensures inside { IfOk result (λ v. All (IsInRange (type_of num)) v.items) }
{
    let mut out = Vec::new(alloc);
    for z in all {
        out.push(taken_from(num, math, from, *z))?;
    }
    Ok(out)
}

// Constants in a type.
fn constants_taken(
    alloc: Global,
    num: NumType,
    math: Option<Fimath>,
    all: &[Dyadic],
) -> Result<Vec<Int>, Memory>
    ensures value { IfOk result (λ v. v.items ≡ map (calls.taken_constant (type_of num) math) (map exact_of all.now)) }
    ensures inside { IfOk result (λ v. All (IsInRange (type_of num)) v.items) }
{
    let mut out = Vec::new(alloc);
    for c in all {
        out.push(taken_constant(num, math, *c))?;
    }
    Ok(out)
}

/// The stored integers that a real fi of this type and fimath takes of a value. None where it takes none: of a complex value, or of one that
/// is no fi and no number. Want of memory is the only refusal.
#[tactic(auto, unfolding(fi_values::specs::Stores::real_taken))]
pub fn real_taken(
    alloc: Global,
    num: NumType,
    math: Option<Fimath>,
    value: &Value,
) -> Result<Option<Vec<Int>>, Memory>
    ensures value { IfOk result (λ r. listed r ≡ stores.real_taken (type_of num) math (value_view value.now)) }
    ensures inside { IfOk result (λ r. ForSome r (λ v. All (IsInRange (type_of num)) v.items)) }
{
    match value {
        Value::Fi(v) => match &v.im {
            None => {
                let re = all_taken(alloc, num, math, v.num, v.re.as_slice())?;
                Ok(Some(re))
            }
            Some(_) => Ok(None),
        },
        Value::Number(v) => match &v.im {
            None => {
                let re = constants_taken(alloc, num, math, v.re.as_slice())?;
                Ok(Some(re))
            }
            Some(_) => Ok(None),
        },
        Value::Logical(_) => Ok(None),
        Value::Words(_) => Ok(None),
        Value::Math(_) => Ok(None),
        Value::Type(_) => Ok(None),
    }
}

/// Those of both parts that a complex one takes: of a real value, zeros for the imaginary parts. None where it takes none. Want of memory is
/// the only refusal.
#[tactic(auto, unfolding(fi_values::specs::Stores::complex_taken, fi_values::specs::Stores::real_taken, fi_rules::specs::Options::and_then))]
pub fn complex_taken(
    alloc: Global,
    num: NumType,
    math: Option<Fimath>,
    value: &Value,
) -> Result<Option<Parts>, Memory>
    ensures value { IfOk result (λ r. parts_answer r ≡ stores.complex_taken (type_of num) math (value_view value.now)) }
    ensures real { IfOk result (λ r. ForSome r (λ p. All (IsInRange (type_of num)) p.re.items)) }
    ensures imaginary { IfOk result (λ r. ForSome r (λ p. All (IsInRange (type_of num)) p.im.items)) }
{
    match value {
        Value::Fi(v) => match &v.im {
            Some(parts) => {
                let re = all_taken(alloc, num, math, v.num, v.re.as_slice())?;
                let im = all_taken(alloc, num, math, v.num, parts.as_slice())?;
                Ok(Some(Parts { re, im }))
            }
            None => {
                let p = real_parts(alloc, num, math, value)?;
                Ok(p)
            }
        },
        Value::Number(v) => match &v.im {
            Some(parts) => {
                let re = constants_taken(alloc, num, math, v.re.as_slice())?;
                let im = constants_taken(alloc, num, math, parts.as_slice())?;
                Ok(Some(Parts { re, im }))
            }
            None => {
                let p = real_parts(alloc, num, math, value)?;
                Ok(p)
            }
        },
        Value::Logical(_) => Ok(None),
        Value::Words(_) => Ok(None),
        Value::Math(_) => Ok(None),
        Value::Type(_) => Ok(None),
    }
}

// What a real fi takes, with zeros for the imaginary parts.
#[tactic(auto, unfolding(fi_rules::specs::Options::and_then))]
fn real_parts(
    alloc: Global,
    num: NumType,
    math: Option<Fimath>,
    value: &Value,
) -> Result<Option<Parts>, Memory>
    ensures value { IfOk result (λ r. parts_answer r ≡ and_then (stores.real_taken (type_of num) math (value_view value.now)) with_noughts) }
    ensures real { IfOk result (λ r. ForSome r (λ p. All (IsInRange (type_of num)) p.re.items)) }
    ensures imaginary { IfOk result (λ r. ForSome r (λ p. All (IsInRange (type_of num)) p.im.items)) }
{
    let found = real_taken(alloc, num, math, value)?;
    match found {
        None => Ok(None),
        Some(re) => {
            let im = noughts(alloc, re.as_slice())?;
            Ok(Some(Parts { re, im }))
        }
    }
}

/// Zeros for imaginary parts. Want of memory is the only refusal.
pub fn noughts(alloc: Global, re: &[Int]) -> Result<Vec<Int>, Memory>
    ensures { IfOk result (λ v. v.items ≡ stores.noughts re.now) }
{
    let v = repeated(alloc, zero(), re.len())?;
    Ok(v)
}
