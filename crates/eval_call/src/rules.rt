//! Calls by the rules on the types of their arguments.

ghost use Rattle.std.specs.Prelude.{◌≡◌, [], ◌∷◌, IfOk, map, option_map};
ghost use Rattle.fi_eval.specs.Outcome.{bind, or_wrong};
ghost use Rattle.fi_rules.specs.Calls as rule;
ghost use Rattle.fi_rules.specs.declared.built_ins.BuiltIn.TheVariants as built_in;
ghost use Rattle.fi_rules.specs.View.{built_view, ty_view};
ghost use Rattle.fi_meaning.specs.Calls as calls;
ghost use Rattle.eval_value.specs.Tells.{Tells};
ghost use Rattle.eval_value.specs.View.{value_view};
ghost use Rattle.eval_call.specs.View.{argument_view, found};

use crate::argument::Argument;
use crate::casts::cast_like;
use crate::settled::settled;
use crate::types::argument_types;
use eval_bits::{absolute, attached, taken_value};
use eval_value::{Halt, Value};
use fi_rules::{Built, BuiltIn, Ty, ask, build};
use fic_base::Place;
use num_type::Memory;
use std::alloc::Global;

/// A call of a built-in function by its rule on the types of the arguments. Wrong at the place where a condition of the rule is missing, and where
/// it gives no result.
#[tactic(auto, using(crate::proofs::Granting::ungranted))]
pub fn by_rules(alloc: Global, at: Place, b: BuiltIn, args: &[Argument]) -> Result<Value, Halt>
    ensures { Tells result value_view (calls.by_rules at b (map argument_view args.now)) }
{
    let rule = rule_of(alloc, b, args)?;
    match rule {
        None => Err(Halt::Wrong(at)),
        Some(r) => by_rule(alloc, at, b, r, args),
    }
}

// What the rule of a call gives. None where a condition of it is missing; want of memory is the only refusal.
#[tactic(auto, using(crate::proofs::Stands::same_rule))]
fn rule_of(alloc: Global, b: BuiltIn, args: &[Argument]) -> Result<Option<Built>, Memory>
    ensures { IfOk result (λ r. option_map built_view r ≡ found (rule.call_checked b (calls.argument_types (calls.takes b) (map argument_view args.now)))) }
{
    let types = argument_types(alloc, b, args)?;
    Ok(granted_on(b, types))
}

// What a rule grants on these types, which are let go.
fn granted_on(b: BuiltIn, types: Vec<Ty>) -> Option<Built>
    ensures { option_map built_view result ≡ found (rule.call_checked b (map ty_view types.items)) }
{
    granted(b, types.as_slice())
}

// The same of types that stay.
#[tactic(auto, using(crate::proofs::Granting::not_built))]
fn granted(b: BuiltIn, types: &[Ty]) -> Option<Built>
    ensures { option_map built_view result ≡ found (rule.call_checked b (map ty_view types.now)) }
{
    match ask(b, types) {
        Err(_) => None,
        Ok(asked) => match build(asked) {
            Err(_) => None,
            Ok(built) => Some(built),
        },
    }
}

// What a call gives by what its rule grants.
#[tactic(auto, using(crate::proofs::Follow::after_err, crate::proofs::Follow::after_ok), unfolding(fi_eval::specs::Outcome::bind))]
fn by_rule(alloc: Global, at: Place, b: BuiltIn, r: Built, args: &[Argument]) -> Result<Value, Halt>
    ensures { Tells result value_view (bind (calls.built_value at (built_view r) (calls.values_of (map argument_view args.now))) (λ v. or_wrong at (calls.after_rules b (calls.values_of (map argument_view args.now)) v))) }
{
    let v = built_value(alloc, at, r, args)?;
    after_rules(alloc, at, b, args, v)
}

// What a call gives from its first argument.
#[tactic(auto, using(crate::proofs::Granting::first_of, crate::proofs::Granting::without))]
fn built_value(alloc: Global, at: Place, r: Built, args: &[Argument]) -> Result<Value, Halt>
    ensures { Tells result value_view (calls.built_value at (built_view r) (calls.values_of (map argument_view args.now))) }
{
    if args.len() == 0 {
        made_of_none(at, r)
    } else {
        made(alloc, at, r, &args[0].value)
    }
}

// The same of a call without arguments: an object.
#[tactic(auto, unfolding(fi_meaning::specs::Calls::built_value, fi_eval::specs::Outcome::or_wrong, fi_rules::specs::Types::known_value))]
fn made_of_none(at: Place, r: Built) -> Result<Value, Halt>
    ensures { Tells result value_view (calls.built_value at (built_view r) []) }
{
    match r {
        Built::Taken(_, _) => Err(Halt::Wrong(at)),
        Built::Attached(_) => Err(Halt::Wrong(at)),
        Built::SignTaken => Err(Halt::Wrong(at)),
        Built::Type(t) => Ok(Value::Type(t)),
        Built::Math(m) => Ok(Value::Math(m)),
    }
}

// The same of a call with a first argument.
#[tactic(auto, using(crate::proofs::Follow::known), unfolding(fi_meaning::specs::Calls::built_value, fi_eval::specs::Outcome::or_wrong, fi_rules::specs::Types::known_value))]
fn made(alloc: Global, at: Place, r: Built, value: &Value) -> Result<Value, Halt>
    ensures { Tells result value_view (calls.built_value at (built_view r) (value_view value.now ∷ [])) }
{
    match r {
        Built::Taken(t, m) => {
            let v = taken_value(alloc, t, m, value)?;
            settled(at, v)
        }
        Built::Attached(m) => {
            let v = attached(alloc, m, value)?;
            settled(at, v)
        }
        Built::SignTaken => absolute(alloc, at, value),
        Built::Type(t) => Ok(Value::Type(t)),
        Built::Math(m) => Ok(Value::Math(m)),
    }
}

// The value as it leaves its rule: a cast is complex where the fi that it is like is.
#[tactic(auto, using(crate::proofs::Granting::no_cast))]
fn after_rules(
    alloc: Global,
    at: Place,
    b: BuiltIn,
    args: &[Argument],
    v: Value,
) -> Result<Value, Halt>
    ensures { Tells result value_view (or_wrong at (calls.after_rules b (calls.values_of (map argument_view args.now)) (value_view v))) }
{
    match b {
        BuiltIn::Cast => after_cast(alloc, at, args, v),
        _ => Ok(v),
    }
}

// The same of a cast.
#[tactic(auto, using(crate::proofs::Granting::cast_of_three, crate::proofs::Granting::cast_of_others))]
fn after_cast(alloc: Global, at: Place, args: &[Argument], v: Value) -> Result<Value, Halt>
    ensures { Tells result value_view (or_wrong at (calls.after_rules built_in.Cast (calls.values_of (map argument_view args.now)) (value_view v))) }
{
    if args.len() == 3 {
        let r = cast_like(alloc, v, &args[2].value)?;
        settled(at, r)
    } else {
        Ok(v)
    }
}
