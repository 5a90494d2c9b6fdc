//! Logical values element by element.

ghost use Rattle.std.specs.Prelude.{◌≡◌, ◌&&◌, ◌||◌, IfOk, length, map, not, vec_len};
ghost use Rattle.fi_values.specs.Logicals as logicals;
ghost use Rattle.eval_value.specs.View.{item_view, logical_view, value_view};
ghost use Rattle.eval_bits.specs.Joints.{connected_pair, connects};

use crate::pair::{common_shape, paired};
use crate::real::logical;
use eval_value::{LogicalValue, Value};
use num_type::Memory;
use std::alloc::Global;

/// What an operator makes of two truth values.
#[derive(Clone, Copy, Debug, PartialEq, Eq)]
pub enum Connective {
    /// Whether both are true.
    And,
    /// Whether either is true.
    Or,
}

/// A logical value with each element turned (`~`). None of another value; want of memory is the only refusal.
#[tactic(auto, unfolding(fi_values::specs::Logicals::complement))]
pub fn complement(alloc: Global, value: &Value) -> Result<Option<Value>, Memory>
    ensures { IfOk result (λ r. item_view r ≡ logicals.complement (value_view value.now)) }
{
    match value {
        Value::Logical(v) => {
            let truths = turned(alloc, v.truths.as_slice())?;
            Ok(Some(Value::Logical(LogicalValue {
                shape: v.shape,
                truths,
            })))
        }
        _ => Ok(None),
    }
}

/// Whether both elements of two logical values are true (`&`); a single element goes with each of the other. None of other values, and where
/// the shapes don't fit; want of memory is the only refusal.
pub fn both(alloc: Global, x: &Value, y: &Value) -> Result<Option<Value>, Memory>
    ensures { IfOk result (λ r. item_view r ≡ logicals.connected (λ b c. b && c) (value_view x.now) (value_view y.now)) }
{
    let r = connected(alloc, Connective::And, x, y)?;
    Ok(r)
}

/// Whether either element of two logical values is true (`|`), in the same way.
pub fn either(alloc: Global, x: &Value, y: &Value) -> Result<Option<Value>, Memory>
    ensures { IfOk result (λ r. item_view r ≡ logicals.connected (λ b c. b || c) (value_view x.now) (value_view y.now)) }
{
    let r = connected(alloc, Connective::Or, x, y)?;
    Ok(r)
}

// What an operator makes of two logical values.
fn connected(alloc: Global, op: Connective, x: &Value, y: &Value) -> Result<Option<Value>, Memory>
    ensures { IfOk result (λ r. item_view r ≡ logicals.connected (connects op) (value_view x.now) (value_view y.now)) }
{
    match logical(x) {
        None => Ok(None),
        Some(a) => match logical(y) {
            None => Ok(None),
            Some(b) => {
                let r = logicals_connected(alloc, op, a, b)?;
                Ok(r)
            }
        },
    }
}

// The same where both are logical.
fn logicals_connected(
    alloc: Global,
    op: Connective,
    a: &LogicalValue,
    b: &LogicalValue,
) -> Result<Option<Value>, Memory>
    ensures { IfOk result (λ r. item_view r ≡ logicals.connected (connects op) (logical_view a.now) (logical_view b.now)) }
{
    match common_shape(a.shape, b.shape) {
        None => Ok(None),
        Some(shape) => {
            let pairs = paired(alloc, a.truths.as_slice(), b.truths.as_slice())?;
            let truths = each(alloc, &op, pairs.as_slice())?;
            Ok(Some(Value::Logical(LogicalValue { shape, truths })))
        }
    }
}

// What an operator makes of pairs of truth values. Want of memory is the only refusal.
fn each(alloc: Global, op: &Connective, pairs: &[(bool, bool)]) -> Result<Vec<bool>, Memory>
    ensures elements { IfOk result (λ v. v.items ≡ map (connected_pair op.now) pairs.now) }
    ensures count { IfOk result (λ v. vec_len v ≡ length pairs.now) }
{
    let mut out = Vec::new(alloc);
    for (b, c) in pairs {
        out.push(connect(op, *b, *c))?;
    }
    Ok(out)
}

// What an operator makes of two truth values.
fn connect(op: &Connective, b: bool, c: bool) -> bool
    ensures { result ≡ connects op.now b c }
{
    match op {
        Connective::And => b && c,
        Connective::Or => b || c,
    }
}

// Each truth value turned. Want of memory is the only refusal.
fn turned(alloc: Global, truths: &[bool]) -> Result<Vec<bool>, Memory>
    ensures elements { IfOk result (λ v. v.items ≡ map not truths.now) }
    ensures count { IfOk result (λ v. vec_len v ≡ length truths.now) }
{
    let mut out = Vec::new(alloc);
    for b in truths {
        out.push(!*b)?;
    }
    Ok(out)
}
