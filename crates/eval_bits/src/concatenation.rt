//! The bits of fis put together.

ghost use Rattle.std.specs.Prelude.{◌≡◌, IfOk, None, map};
ghost use Rattle.fi_rules.specs.Options.{◌|>◌};
ghost use Rattle.fi_values.specs.Bits as bits;
ghost use Rattle.eval_value.specs.View.{fi_view, item_view, value_view};

use crate::change::bits_type;
use crate::joint::{Joint, joined};
use crate::pair::common_shape;
use crate::real::real_fi;
use eval_value::{FiValue, Value};
use num_type::{Memory, WORD_MAX};
use std::alloc::Global;

/// The bits of two real fis or more put together element by element, the first on top (bitconcat): in an unsigned type without a fraction, with no
/// fimath; a single element goes with each of the others. None of fewer or other values, where the shapes don't fit, and of more than 64 bits; want
/// of memory is the only refusal.
pub fn concatenated(alloc: Global, values: &[Value]) -> Result<Option<Value>, Memory>
    ensures { IfOk result (λ r. item_view r ≡ bits.bits_joined (map value_view values.now)) }
{
    if values.len() < 2 {
        return Ok(None);
    }
    let mut so_far = pair_concatenated(alloc, &values[0], &values[1])?;
    for k in 2..values.len() {
        so_far = with_next(alloc, so_far, &values[k])?;
    }
    Ok(so_far)
}

// What there is so far on top of one more value.
#[tactic(auto, unfolding(fi_rules::specs::Options::and_then))]
fn with_next(alloc: Global, so_far: Option<Value>, next: &Value) -> Result<Option<Value>, Memory>
    ensures { IfOk result (λ r. item_view r ≡ (item_view so_far |> (λ u. bits.concatenated_pair u (value_view next.now)))) }
{
    match so_far {
        None => Ok(None),
        Some(top) => {
            let r = pair_concatenated(alloc, &top, next)?;
            Ok(r)
        }
    }
}

// The bits of one value on top of those of another.
fn pair_concatenated(alloc: Global, x: &Value, y: &Value) -> Result<Option<Value>, Memory>
    ensures { IfOk result (λ r. item_view r ≡ bits.concatenated_pair (value_view x.now) (value_view y.now)) }
{
    match real_fi(x) {
        None => Ok(None),
        Some(a) => match real_fi(y) {
            None => Ok(None),
            Some(b) => {
                let r = fis_concatenated(alloc, a, b)?;
                Ok(r)
            }
        },
    }
}

// The same of two real fis.
fn fis_concatenated(alloc: Global, a: &FiValue, b: &FiValue) -> Result<Option<Value>, Memory>
    requires left { a.now.im ≡ None }
    requires right { b.now.im ≡ None }
    ensures { IfOk result (λ r. item_view r ≡ bits.concatenated_pair (fi_view a.now) (fi_view b.now)) }
{
    let word = a.num.word() + b.num.word();
    if word > WORD_MAX {
        return Ok(None);
    }
    match common_shape(a.shape, b.shape) {
        None => Ok(None),
        Some(shape) => {
            let re = joined(
                alloc,
                &Joint::Concatenated,
                a.num,
                b.num,
                a.re.as_slice(),
                b.re.as_slice(),
            )?;
            Ok(Some(Value::Fi(FiValue {
                num: bits_type(word),
                math: None,
                shape,
                re,
                im: None,
            })))
        }
    }
}
