//! What built-in functions give, by the number of their arguments.

ghost use Rattle.std.specs.Prelude.{◌≡◌, [], ◌∷◌, IfOk, Some, map, option_map};
ghost use Rattle.fi_rules.specs.Options.{◌|>◌};
ghost use Rattle.fi_values.specs.Bits as bits;
ghost use Rattle.fi_values.specs.Logicals.{truth_value};
ghost use Rattle.fi_values.specs.Queries.{extent_of};
ghost use Rattle.fi_values.specs.Sums as sums;
ghost use Rattle.fi_values.specs.Sums.{summed_value};
ghost use Rattle.fi_meaning.specs.Functions as functions;
ghost use Rattle.eval_value.specs.View.{item_view, value_view};
ghost use Rattle.eval_math.specs.Totals.{along_view};
ghost use Rattle.eval_bits.specs.Changes.{moved};
ghost use Rattle.eval_call.specs.View.{IsCounted, function_view};

use crate::filling::filled_by;
use crate::function::Function;
use crate::naturals::natural;
use eval_array::{
    complex_of, conjugate, element_count, extent_along, greater_extent, imaginary_part, real_part,
};
use eval_bits::{Bitwise, Shift, bits_between, bitwise, complemented_bits, concatenated, shifted};
use eval_math::{Along, first_along, summed};
use eval_value::{Value, make_truth};
use num_type::{Dyadic, Memory};
use std::alloc::Global;

/// What a function gives on values. None where no rule gives a result; want of memory is the only refusal.
#[tactic(auto, using(crate::proofs::Numbered::counted_so), unfolding(fi_meaning::specs::Functions::given))]
pub fn given(alloc: Global, f: Function, values: &[Value]) -> Result<Option<Value>, Memory>
    ensures { IfOk result (λ r. item_view r ≡ functions.given (function_view f) (map value_view values.now)) }
{
    match f {
        Function::Zeros => filled_by(alloc, Dyadic::zero(), values),
        Function::Ones => filled_by(alloc, Dyadic::one(), values),
        Function::BitConcat => concatenated(alloc, values),
        _ => counted(alloc, f, values),
    }
}

// The same of a function of so many values.
#[tactic(auto, using(crate::proofs::Numbered::with_none, crate::proofs::Numbered::with_one, crate::proofs::Numbered::with_two, crate::proofs::Numbered::with_three, crate::proofs::Numbered::with_more))]
fn counted(alloc: Global, f: Function, values: &[Value]) -> Result<Option<Value>, Memory>
    requires { IsCounted f }
    ensures { IfOk result (λ r. item_view r ≡ functions.given (function_view f) (map value_view values.now)) }
{
    if values.len() == 0 {
        let r = of_none(alloc, f)?;
        Ok(r)
    } else if values.len() == 1 {
        let r = of_one(alloc, f, &values[0])?;
        Ok(r)
    } else if values.len() == 2 {
        let r = of_two(alloc, f, &values[0], &values[1])?;
        Ok(r)
    } else if values.len() == 3 {
        let r = of_three(alloc, f, &values[0], &values[1], &values[2])?;
        Ok(r)
    } else {
        Ok(None)
    }
}

// Without values: the words true and false.
#[tactic(auto, using(crate::proofs::Numbered::no_more_of_none), unfolding(fi_meaning::specs::Functions::given))]
fn of_none(alloc: Global, f: Function) -> Result<Option<Value>, Memory>
    requires { IsCounted f }
    ensures { IfOk result (λ r. item_view r ≡ functions.given (function_view f) []) }
{
    match f {
        Function::True => truth_made(alloc, true),
        Function::False => truth_made(alloc, false),
        _ => Ok(None),
    }
}

// A scalar logical value.
fn truth_made(alloc: Global, truth: bool) -> Result<Option<Value>, Memory>
    ensures { IfOk result (λ r. item_view r ≡ Some (truth_value truth)) }
{
    let r = make_truth(alloc, truth)?;
    Ok(Some(r))
}

// Of one value.
#[tactic(auto, using(crate::proofs::Numbered::no_more_of_one), unfolding(fi_meaning::specs::Functions::given))]
fn of_one(alloc: Global, f: Function, v: &Value) -> Result<Option<Value>, Memory>
    requires { IsCounted f }
    ensures { IfOk result (λ r. item_view r ≡ functions.given (function_view f) (value_view v.now ∷ [])) }
{
    match f {
        Function::Numel => element_count(alloc, v),
        Function::Length => greater_extent(alloc, v),
        Function::Real => real_part(alloc, v),
        Function::Imag => imaginary_part(alloc, v),
        Function::Conj => conjugate_of(alloc, v),
        Function::Sum => first_summed(alloc, v),
        Function::BitCmp => complemented_bits(alloc, v),
        _ => Ok(None),
    }
}

// The conjugate of a fi.
#[tactic(auto, using(crate::proofs::Numbered::no_conjugate, crate::proofs::Numbered::fi_conjugate))]
fn conjugate_of(alloc: Global, v: &Value) -> Result<Option<Value>, Memory>
    ensures { IfOk result (λ r. item_view r ≡ functions.conjugate_of (value_view v.now)) }
{
    match v {
        Value::Fi(_) => {
            let r = conjugate(alloc, v)?;
            Ok(Some(r))
        }
        _ => Ok(None),
    }
}

// The sum of a fi along its first dimension of more than one element.
fn first_summed(alloc: Global, v: &Value) -> Result<Option<Value>, Memory>
    ensures { IfOk result (λ r. item_view r ≡ (functions.shape_of_fi (value_view v.now) |> (λ s. summed_value (sums.first_along s) (value_view v.now)))) }
{
    match v {
        Value::Fi(a) => {
            let r = summed(alloc, first_along(a.shape), v)?;
            Ok(r)
        }
        _ => Ok(None),
    }
}

// Of two values.
#[tactic(auto, using(crate::proofs::Numbered::no_more_of_two), unfolding(fi_meaning::specs::Functions::given))]
fn of_two(alloc: Global, f: Function, v: &Value, w: &Value) -> Result<Option<Value>, Memory>
    requires { IsCounted f }
    ensures { IfOk result (λ r. item_view r ≡ functions.given (function_view f) (value_view v.now ∷ value_view w.now ∷ [])) }
{
    match f {
        Function::Size => extent_by(alloc, v, w),
        Function::Complex => complex_of(alloc, v, w),
        Function::Sum => summed_by(alloc, v, w),
        Function::BitAnd => bitwise(alloc, Bitwise::And, v, w),
        Function::BitOr => bitwise(alloc, Bitwise::Or, v, w),
        Function::BitXor => bitwise(alloc, Bitwise::Xor, v, w),
        Function::BitShiftLeft => shifted_by(alloc, Shift::Left, v, w),
        Function::BitShiftRight => shifted_by(alloc, Shift::Right, v, w),
        Function::BitShiftSign => shifted_by(alloc, Shift::Sign, v, w),
        _ => Ok(None),
    }
}

// The extent of a value along a stated dimension.
#[tactic(auto, using(crate::proofs::Numbered::none_stated))]
fn extent_by(alloc: Global, v: &Value, d: &Value) -> Result<Option<Value>, Memory>
    ensures { IfOk result (λ r. item_view r ≡ (functions.natural (value_view d.now) |> (λ d. extent_of d (value_view v.now)))) }
{
    match natural(d) {
        None => Ok(None),
        Some(dimension) => {
            let r = extent_along(alloc, dimension, v)?;
            Ok(r)
        }
    }
}

// The sum of a fi along a stated dimension.
fn summed_by(alloc: Global, v: &Value, d: &Value) -> Result<Option<Value>, Memory>
    ensures { IfOk result (λ r. item_view r ≡ (functions.natural (value_view d.now) |> functions.along |> (λ a. summed_value a (value_view v.now)))) }
{
    match along_of(d) {
        None => Ok(None),
        Some(along) => {
            let r = summed(alloc, along, v)?;
            Ok(r)
        }
    }
}

// What a sum goes along by a stated dimension.
#[tactic(auto, using(crate::proofs::Numbered::none_stated, crate::proofs::Numbered::columns_stated, crate::proofs::Numbered::rows_stated, crate::proofs::Numbered::none_along))]
fn along_of(d: &Value) -> Option<Along>
    ensures { option_map along_view result ≡ (functions.natural (value_view d.now) |> functions.along) }
{
    match natural(d) {
        None => None,
        Some(dimension) => {
            if dimension == 1 {
                Some(Along::Columns)
            } else if dimension == 2 {
                Some(Along::Rows)
            } else {
                None
            }
        }
    }
}

// The bits of a fi moved by a stated number of places.
#[tactic(auto, using(crate::proofs::Numbered::none_stated))]
fn shifted_by(alloc: Global, shift: Shift, v: &Value, k: &Value) -> Result<Option<Value>, Memory>
    ensures { IfOk result (λ r. item_view r ≡ (functions.natural (value_view k.now) |> (λ k. bits.shifted (moved shift) k (value_view v.now)))) }
{
    match natural(k) {
        None => Ok(None),
        Some(places) => {
            let r = shifted(alloc, shift, places, v)?;
            Ok(r)
        }
    }
}

// Of three values: the bits of the first from the second down to the third.
#[tactic(auto, using(crate::proofs::Numbered::no_more_of_three), unfolding(fi_meaning::specs::Functions::given))]
fn of_three(
    alloc: Global,
    f: Function,
    v: &Value,
    l: &Value,
    r: &Value,
) -> Result<Option<Value>, Memory>
    requires { IsCounted f }
    ensures { IfOk result (λ u. item_view u ≡ functions.given (function_view f) (value_view v.now ∷ value_view l.now ∷ value_view r.now ∷ [])) }
{
    match f {
        Function::BitSlice => sliced_by(alloc, v, l, r),
        _ => Ok(None),
    }
}

// The bits of a fi from one stated place down to another.
fn sliced_by(alloc: Global, v: &Value, l: &Value, r: &Value) -> Result<Option<Value>, Memory>
    ensures { IfOk result (λ u. item_view u ≡ (functions.natural (value_view l.now) |> (λ l. functions.natural (value_view r.now) |> (λ r. bits.bits_between l r (value_view v.now))))) }
{
    match natural(l) {
        None => Ok(None),
        Some(left) => match natural(r) {
            None => Ok(None),
            Some(right) => {
                let u = bits_between(alloc, left, right, v)?;
                Ok(u)
            }
        },
    }
}
