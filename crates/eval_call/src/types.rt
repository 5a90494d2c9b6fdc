//! The types of arguments, as the rules of calls take them.

ghost use Rattle.std.specs.Prelude.{◌≡◌, ◌<◌, IfOk, get_or, length, map, option_map};
ghost use Rattle.num_type.specs.View.{exact_of, type_of};
ghost use Rattle.fi_rules.specs.Arguments.{constant_in};
ghost use Rattle.fi_rules.specs.Types.{OtherTy, TextTy};
ghost use Rattle.fi_rules.specs.View.{ty_view};
ghost use Rattle.fi_meaning.specs.Calls as calls;
ghost use Rattle.eval_value.specs.View.{value_view};
ghost use Rattle.eval_call.specs.Represented.{is_signed, other_type, represented, represented_types};
ghost use Rattle.eval_call.specs.View.{argument_view};

use crate::argument::{Argument, truth_of_word};
use crate::widest::widest_of;
use eval_bits::{real_constant, truth_number};
use eval_value::Value;
use fi_rules::{BuiltIn, Ty};
use fic_base::Text;
use num_type::{Dyadic, Memory, NumType};
use std::alloc::Global;

/// The types of arguments, where one number stands for an array of them that is taken into a type. Want of memory is the only refusal.
#[tactic(auto, using(crate::proofs::Arguments::type_taken, crate::proofs::Arguments::types_taken))]
pub fn argument_types(alloc: Global, b: BuiltIn, args: &[Argument]) -> Result<Vec<Ty>, Memory>
    ensures { IfOk result (λ ts. map ty_view ts.items ≡ represented_types (calls.takes b) (map argument_view args.now)) }
{
    let mut types = Vec::new(alloc);
    for k in 0..args.len() {
        let t = type_at(alloc, b, args, k)?;
        types.push(t)?;
    }
    Ok(types)
}

// The type of the argument at a place. Want of memory is the only refusal.
#[tactic(auto, using(crate::proofs::Arguments::type_behind, crate::proofs::Arguments::type_first, crate::proofs::Arguments::type_constant))]
fn type_at(alloc: Global, b: BuiltIn, args: &[Argument], k: usize) -> Result<Ty, Memory>
    requires { k < length args.now }
    ensures { IfOk result (λ t. ty_view t ≡ get_or (represented_types (calls.takes b) (map argument_view args.now)) k OtherTy) }
{
    if k > 0 {
        let t = constant_type(alloc, &args[k])?;
        Ok(t)
    } else if takes(b) {
        let t = value_type(alloc, are_signed(args), &args[0].value)?;
        Ok(t)
    } else {
        let t = constant_type(alloc, &args[0])?;
        Ok(t)
    }
}

// Whether a function takes its first argument into a type.
#[tactic(auto, unfolding(fi_meaning::specs::Calls::takes))]
fn takes(b: BuiltIn) -> bool
    ensures { result ≡ calls.takes b }
{
    match b {
        BuiltIn::Fi => true,
        BuiltIn::Cast => true,
        _ => false,
    }
}

// Whether the argument behind a value states a type with a sign; it does unless it is 0.
#[tactic(auto, using(crate::proofs::Arguments::signed_alone, crate::proofs::Arguments::signed_else))]
fn are_signed(args: &[Argument]) -> bool
    ensures { result ≡ is_signed (map argument_view args.now) }
{
    if args.len() < 2 {
        true
    } else {
        match constant_of(&args[1]) {
            Some(c) => c.significand() != 0,
            None => true,
        }
    }
}

// The constant that an argument is where one is wanted.
#[tactic(auto, using(crate::proofs::Arguments::own_constant))]
fn constant_of(a: &Argument) -> Option<Dyadic>
    ensures { option_map exact_of result ≡ constant_in (calls.constant_ty (value_view a.now.value) a.now.is_word) }
{
    match truth_of_word(a) {
        Some(truth) => Some(truth_number(truth)),
        None => real_constant(&a.value),
    }
}

// The type of an argument where a constant is wanted. Want of memory is the only refusal.
#[tactic(auto, using(crate::proofs::Arguments::number_typed, crate::proofs::Arguments::other_typed))]
fn constant_type(alloc: Global, a: &Argument) -> Result<Ty, Memory>
    ensures { IfOk result (λ t. ty_view t ≡ calls.constant_ty (value_view a.now.value) a.now.is_word) }
{
    match constant_of(a) {
        Some(c) => Ok(Ty::Number(c)),
        None => {
            let t = other_type(alloc, &a.value)?;
            Ok(t)
        }
    }
}

// The type of an argument that is no constant. Want of memory is the only refusal.
#[tactic(auto, using(crate::proofs::Arguments::fi_typed, crate::proofs::Arguments::numbers_typed), unfolding(crate::specs::Represented::other_type, fi_meaning::specs::Calls::element_ty))]
fn other_type(alloc: Global, value: &Value) -> Result<Ty, Memory>
    ensures { IfOk result (λ t. ty_view t ≡ other_type (value_view value.now)) }
{
    match value {
        Value::Fi(v) => Ok(Ty::Fi(v.num, v.math)),
        Value::Words(text) => words_type(alloc, text),
        Value::Math(m) => Ok(Ty::Math(*m)),
        Value::Type(t) => Ok(Ty::Type(*t)),
        Value::Logical(_) => Ok(Ty::Other),
        Value::Number(_) => Ok(Ty::Other),
    }
}

// The type of a text. Want of memory is the only refusal.
fn words_type(alloc: Global, text: &Text) -> Result<Ty, Memory>
    ensures { IfOk result (λ t. ty_view t ≡ TextTy text.now) }
{
    let copy = Text::from_bytes(alloc, text.as_bytes())?;
    Ok(Ty::Words(copy))
}

// The type of a value that is taken into one with a sign or without. Want of memory is the only refusal.
#[tactic(auto, using(crate::proofs::Arguments::fi_represented), unfolding(crate::specs::Represented::represented, fi_meaning::specs::Calls::value_ty, fi_meaning::specs::Calls::element_ty))]
fn value_type(alloc: Global, signed: bool, value: &Value) -> Result<Ty, Memory>
    ensures { IfOk result (λ t. ty_view t ≡ represented signed (value_view value.now)) }
{
    match value {
        Value::Fi(v) => Ok(Ty::Fi(v.num, v.math)),
        Value::Logical(_) => Ok(Ty::Fi(truth_type(), None)),
        Value::Number(v) => Ok(Ty::Number(widest_of(signed, v))),
        Value::Words(text) => words_type(alloc, text),
        Value::Math(m) => Ok(Ty::Math(*m)),
        Value::Type(t) => Ok(Ty::Type(*t)),
    }
}

// The type that truth values are taken like.
fn truth_type() -> NumType
    ensures { type_of result ≡ calls.truth_type }
{
    match NumType::make(false, 1, 0) {
        Some(t) => t,
        None => unreachable!(),
    }
}
