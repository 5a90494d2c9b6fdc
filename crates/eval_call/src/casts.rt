//! Casts to what is like a fi.

ghost use Rattle.std.specs.Prelude.{◌≡◌, IfNone, IfOk, IfSome, None, OnOk, Some, ◌++◌, ◌∷◌, [], codes, map, pos};
ghost use Rattle.num_type.specs.View.{type_of};
ghost use Rattle.fi_rules.specs.Value.{ComplexFi, Words};
ghost use Rattle.fi_meaning.specs.Calls as calls;
ghost use Rattle.fi_meaning.specs.Functions.{shape_of_fi};
ghost use Rattle.eval_value.specs.Tells.{Tells};
ghost use Rattle.eval_value.specs.View.{fi_view, item_view, shape_view, value_view};
ghost use Rattle.eval_call.specs.Casts.{cast_arguments, complex_form, plain, real_only};
ghost use Rattle.eval_call.specs.View.{argument_view};

use crate::argument::Argument;
use crate::rules::by_rules;
use eval_value::{FiValue, Halt, Value};
use fi_rules::BuiltIn;
use fic_base::{Place, Text};
use num_type::{Int, Memory};
use std::alloc::Global;

/// A cast that is like a fi: complex where that is; none of a complex value where that is real, and none where either is no fi. Want of memory is
/// the only refusal.
#[tactic(auto, using(crate::proofs::Forms::like_none))]
pub fn cast_like(alloc: Global, v: Value, like: &Value) -> Result<Option<Value>, Memory>
    ensures { IfOk result (λ r. item_view r ≡ calls.cast_like (value_view v) (value_view like.now)) }
{
    match fi_in(like) {
        None => Ok(let_go(v)),
        Some(p) => {
            let r = value_like(alloc, v, p)?;
            Ok(r)
        }
    }
}

// The fi that a value is.
#[tactic(auto, using(crate::proofs::Forms::no_fi))]
fn fi_in(value: &Value) -> Option<&FiValue>
    ensures same { IfSome result (λ v. value_view value.now ≡ fi_view v.now) }
    ensures other { IfNone result (shape_of_fi (value_view value.now) ≡ None) }
{
    match value {
        Value::Fi(v) => Some(v),
        _ => None,
    }
}

// No value.
fn let_go(v: Value) -> Option<Value>
    ensures { item_view result ≡ None }
{
    None
}

// A cast to a value that is like a fi. Want of memory is the only refusal.
#[tactic(auto, using(crate::proofs::Forms::other_like))]
fn value_like(alloc: Global, v: Value, like: &FiValue) -> Result<Option<Value>, Memory>
    ensures { IfOk result (λ r. item_view r ≡ calls.cast_like (value_view v) (fi_view like.now)) }
{
    match v {
        Value::Fi(a) => fi_like(alloc, a, like),
        other => Ok(let_go(other)),
    }
}

// A cast to a fi that is like another one. Want of memory is the only refusal.
#[tactic(auto, using(crate::proofs::Forms::like_real, crate::proofs::Forms::like_complex))]
fn fi_like(alloc: Global, a: FiValue, like: &FiValue) -> Result<Option<Value>, Memory>
    ensures { IfOk result (λ r. item_view r ≡ calls.cast_like (fi_view a) (fi_view like.now)) }
{
    match &like.im {
        None => Ok(real_like(a)),
        Some(_) => {
            let r = complex_like(alloc, a)?;
            Ok(Some(Value::Fi(r)))
        }
    }
}

// A fi where it is real.
#[tactic(auto, using(crate::proofs::Forms::real_stays, crate::proofs::Forms::complex_goes))]
fn real_like(a: FiValue) -> Option<Value>
    ensures { item_view result ≡ real_only (fi_view a) }
{
    if a.im.is_none() {
        Some(Value::Fi(a))
    } else {
        let_go(Value::Fi(a))
    }
}

// A fi as a complex one. Want of memory is the only refusal.
#[tactic(auto, using(crate::proofs::Forms::made_complex, crate::proofs::Forms::is_complex))]
fn complex_like(alloc: Global, a: FiValue) -> Result<FiValue, Memory>
    ensures { IfOk result (λ r. Some (fi_view r) ≡ complex_form (fi_view a)) }
{
    if a.im.is_none() {
        match zeros(alloc, a.re.as_slice()) {
            Ok(im) => Ok(with_imaginary(a, im)),
            Err(e) => Err(not_made(a, e)),
        }
    } else {
        Ok(a)
    }
}

// Want of memory for a fi.
fn not_made(a: FiValue, e: Memory) -> Memory {
    e
}

// A fi with zeros for the imaginary parts.
fn with_imaginary(a: FiValue, im: Vec<Int>) -> FiValue
    requires { im.items ≡ map (λ x. pos 0) a.re.items }
    ensures { fi_view result ≡ ComplexFi (type_of a.num) a.math (shape_view a.shape) a.re.items (map (λ x. pos 0) a.re.items) }
{
    let mut r = a;
    r.im = Some(im);
    r
}

// As many zeros. Want of memory is the only refusal.
fn zeros(alloc: Global, xs: &[Int]) -> Result<Vec<Int>, Memory>
    ensures { IfOk result (λ v. v.items ≡ map (λ x. pos 0) xs.now) }
{
    let mut out = Vec::new(alloc);
    for x in xs {
        out.push(nought())?;
    }
    Ok(out)
}

// The stored integer 0.
fn nought() -> Int
    ensures { result ≡ pos 0 }
{
    Int::of(false, 0)
}

/// A value in the type of a fi, with its fimath, complex where that is. Wrong at the place where it is no number and no fi, or where the other value
/// is no fi.
#[tactic(auto, using(crate::proofs::Granting::cast_told))]
pub fn cast_of(alloc: Global, at: Place, value: Value, like: &Value) -> Result<Value, Halt>
    ensures { Tells result value_view (calls.cast_of at (value_view value) (value_view like.now)) }
{
    let args = cast_arguments(alloc, value, like)?;
    by_rules(alloc, at, BuiltIn::Cast, args.as_slice())
}

// The arguments of a cast: a value, the word like, and a fi. Want of memory is the only refusal.
#[tactic(auto, using(crate::proofs::Granting::three_passed))]
fn cast_arguments(alloc: Global, value: Value, like: &Value) -> Result<Vec<Argument>, Memory>
    ensures { IfOk result (λ v. map argument_view v.items ≡ cast_arguments (value_view value) (value_view like.now)) }
{
    let mut args = Vec::new(alloc);
    pass(&mut args, value)?;
    pass_word(alloc, &mut args)?;
    pass_copy(alloc, &mut args, like)?;
    Ok(args)
}

// Adds an argument that is no word of its own. Want of memory is the only refusal.
fn pass(args: &mut Vec<Argument>, value: Value) -> Result<(), Memory>
    ensures { OnOk result (map argument_view args.new.items ≡ map argument_view args.old.items ++ plain (value_view value) ∷ []) }
{
    args.push(Argument {
        value,
        is_word: false,
    })?;
    Ok(())
}

// Adds the word like.
fn pass_word(alloc: Global, args: &mut Vec<Argument>) -> Result<(), Memory>
    ensures { OnOk result (map argument_view args.new.items ≡ map argument_view args.old.items ++ plain (Words (codes "like")) ∷ []) }
{
    let word = Text::from_bytes(alloc, b"like".as_slice())?;
    pass(args, Value::Words(word))?;
    Ok(())
}

// Adds a copy of a value.
fn pass_copy(alloc: Global, args: &mut Vec<Argument>, value: &Value) -> Result<(), Memory>
    ensures { OnOk result (map argument_view args.new.items ≡ map argument_view args.old.items ++ plain (value_view value.now) ∷ []) }
{
    let copy = value.copied(alloc)?;
    pass(args, copy)?;
    Ok(())
}
