//! Ranges of whole numbers.

ghost use Rattle.std.specs.Prelude.{◌≡◌, ◌≤◌, map, IfOk};
ghost use Rattle.shape_rules.specs.Places.{IsBound};
ghost use Rattle.fi_rules.specs.Value.{Number};
ghost use Rattle.fi_values.specs.Numbers.{constant};
ghost use Rattle.fi_values.specs.Ranges as ranges;
ghost use Rattle.eval_value.specs.View.{item_view, value_view};
ghost use Rattle.eval_array.specs.Ranged.{items_answer, items_view};

use crate::items::Items;
use crate::numbers::bound_of;
use crate::parts::real_number;
use crate::shapes::row;
use eval_value::Value;
use num_type::Memory;
use shape_rules::range_items;
use std::alloc::Global;

/// The items of the range `first:step:last`: there is none beyond the last bound, and none with a step 0. None where one of the three is no
/// real scalar constant that is a whole number within 2^31 - 1 of 0.
#[tactic(auto, unfolding(fi_rules::specs::Options::and_then))]
pub fn items_between(first: &Value, step: &Value, last: &Value) -> Option<Items>
    ensures { items_answer result ≡ ranges.items_of (value_view first.now) (value_view step.now) (value_view last.now) }
{
    match bound_of(first) {
        None => None,
        Some(x) => match bound_of(step) {
            None => None,
            Some(s) => match bound_of(last) {
                None => None,
                Some(y) => Some(items(x, s, y)),
            },
        },
    }
}

// The same of numbers.
fn items(first: i64, step: i64, last: i64) -> Items
    requires first { IsBound first }
    requires step { IsBound step }
    requires last { IsBound last }
    ensures { items_view result ≡ ranges.items first step last }
{
    let count = range_items(first, step, last);
    Items { first, step, count }
}

/// The range `first:step:last` as a row of constants. None where there are no items, as `items_between` says, or none or more than 4,096 of
/// them. Want of memory is the only refusal.
pub fn ranged(
    alloc: Global,
    first: &Value,
    step: &Value,
    last: &Value,
) -> Result<Option<Value>, Memory>
    ensures { IfOk result (λ r. item_view r ≡ ranges.ranged (value_view first.now) (value_view step.now) (value_view last.now)) }
{
    match items_between(first, step, last) {
        None => Ok(None),
        Some(r) => {
            if r.count == 0 {
                Ok(None)
            } else if r.count > 4096 {
                Ok(None)
            } else {
                let v = row_of(alloc, &r)?;
                Ok(Some(v))
            }
        }
    }
}

// Items as a row.
fn row_of(alloc: Global, r: &Items) -> Result<Value, Memory>
    requires some { 1 ≤ r.now.count }
    requires few { r.now.count ≤ 4096 }
    ensures { IfOk result (λ v. value_view v ≡ Number (record { rows = 1; columns = r.now.count }) (map constant (items_view r.now))) }
{
    let mut re = Vec::new(alloc);
    for k in 0..r.count {
        re.push(r.item(k))?;
    }
    Ok(real_number(row(r.count as u32), re))
}
