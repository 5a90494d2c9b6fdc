//! Signs.

ghost use Rattle.std.specs.Prelude.{◌≡◌, IfOk, Some, length, map, vec_len};
ghost use Rattle.num_type.specs.View.{exact_of};
ghost use Rattle.const_rules.specs.Folds.{negated};
ghost use Rattle.fi_eval.specs.Operators.{Remove, turned};
ghost use Rattle.fi_meaning.specs.Operators as operators;
ghost use Rattle.eval_value.specs.Tells.{Tells};
ghost use Rattle.eval_value.specs.View.{fi_view, item_view, number_view, value_view};

use crate::change::{Change, changed};
use crate::logicals::complement;
use crate::real::real_fi;
use eval_value::{Halt, NumberValue, Value};
use fic_base::Place;
use mat_ast::UnOp;
use num_type::{Dyadic, Memory};
use std::alloc::Global;

/// A value behind a sign, or behind `~`: a fi or a constant behind `+` is itself. None of other values; want of memory is the only refusal.
#[tactic(auto, unfolding(fi_meaning::specs::Operators::by_sign))]
pub fn signed(alloc: Global, sign: UnOp, value: &Value) -> Result<Option<Value>, Memory>
    ensures { IfOk result (λ r. item_view r ≡ operators.by_sign sign (value_view value.now)) }
{
    match sign {
        UnOp::Plus => {
            let r = plus(alloc, value)?;
            Ok(r)
        }
        UnOp::Minus => {
            let r = minus(alloc, value)?;
            Ok(r)
        }
        UnOp::Not => {
            let r = complement(alloc, value)?;
            Ok(r)
        }
    }
}

// A fi or constants themselves.
fn plus(alloc: Global, value: &Value) -> Result<Option<Value>, Memory>
    ensures { IfOk result (λ r. item_view r ≡ operators.signed_class (value_view value.now)) }
{
    match value {
        Value::Fi(v) => {
            let r = v.copied(alloc)?;
            Ok(Some(Value::Fi(r)))
        }
        Value::Number(v) => {
            let r = v.copied(alloc)?;
            Ok(Some(Value::Number(r)))
        }
        _ => Ok(None),
    }
}

/// A value with the other sign: a fi by the rule of negation, under its fimath or else under the default one, and constants exactly. None of other
/// values; want of memory is the only refusal.
pub fn minus(alloc: Global, value: &Value) -> Result<Option<Value>, Memory>
    ensures { IfOk result (λ r. item_view r ≡ operators.minus (value_view value.now)) }
{
    match value {
        Value::Fi(v) => {
            let r = changed(alloc, &Change::Negated(v.math), v.math, v)?;
            Ok(Some(Value::Fi(r)))
        }
        Value::Number(v) => {
            let r = opposite(alloc, v)?;
            Ok(Some(Value::Number(r)))
        }
        _ => Ok(None),
    }
}

// Constants with the other sign. Want of memory is the only refusal.
#[tactic(auto, unfolding(fi_meaning::specs::Operators::minus))]
fn opposite(alloc: Global, v: &NumberValue) -> Result<NumberValue, Memory>
    ensures { IfOk result (λ r. Some (number_view r) ≡ operators.minus (number_view v.now)) }
{
    let re = opposites(alloc, v.re.as_slice())?;
    match &v.im {
        None => Ok(NumberValue {
            shape: v.shape,
            re,
            im: None,
        }),
        Some(parts) => {
            let im = opposites(alloc, parts.as_slice())?;
            Ok(NumberValue {
                shape: v.shape,
                re,
                im: Some(im),
            })
        }
    }
}

// Each constant with the other sign. Want of memory is the only refusal.
fn opposites(alloc: Global, all: &[Dyadic]) -> Result<Vec<Dyadic>, Memory>
    ensures elements { IfOk result (λ v. map exact_of v.items ≡ map negated (map exact_of all.now)) }
    ensures count { IfOk result (λ v. vec_len v ≡ length all.now) }
{
    let mut out = Vec::new(alloc);
    for c in all {
        out.push(c.neg())?;
    }
    Ok(out)
}

/// A real fi without signs (abs), under its fimath or else under the default one, in its own type with its fimath. Wrong at the place of any other
/// value.
pub fn absolute(alloc: Global, at: Place, value: &Value) -> Result<Value, Halt>
    ensures { Tells result value_view (turned at Remove (value_view value.now)) }
{
    match real_fi(value) {
        None => Err(Halt::Wrong(at)),
        Some(v) => {
            let r = changed(alloc, &Change::Absolute(v.math), v.math, v)?;
            Ok(Value::Fi(r))
        }
    }
}
