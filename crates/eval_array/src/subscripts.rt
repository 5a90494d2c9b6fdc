//! Subscripts.

ghost use Rattle.std.specs.Prelude.{◌≡◌, ◌<◌, ◌≤◌, ◌&&◌, nat_le, pos, map, length, All, IfOk, IfSome, vec_len};
ghost use Rattle.std.specs.Ordering.{int_eq};
ghost use Rattle.std.specs.Option.{ForSome};
ghost use Rattle.num_type.specs.View.{exact_of, type_of};
ghost use Rattle.fi_rules.specs.Options.{and_then};
ghost use Rattle.fi_rules.specs.Value.{is_scalar};
ghost use Rattle.fi_values.specs.Subscripts as subscripts;
ghost use Rattle.eval_value.specs.View.{fi_view, number_view, shape_view, value_view};
ghost use Rattle.eval_array.specs.Choices.{choice, item_subscript, number_place, number_places};
ghost use Rattle.eval_array.specs.Views.{choice_answer, choice_view, listed};

use crate::chosen::Chosen;
use crate::numbers::{are_whole, bounded};
use crate::places::counted;
use crate::shapes::{column, is_scalar};
use eval_value::{FiValue, NumberValue, Value};
use num_type::{Dyadic, Int, Memory, NumType};
use shape_rules::Shape;
use std::alloc::Global;

/// What a subscript selects of a dimension of this extent: all of it for none, or the numbers from 1 of a constant, or that of a fi. None
/// where the value is no subscript: one is a real constant of whole numbers, or a real scalar fi without a fraction and of at most 31 bits.
pub fn chosen(
    alloc: Global,
    extent: u32,
    subscript: &Option<Value>,
) -> Result<Option<Chosen>, Memory>
    requires some { 1 ≤ extent }
    requires few { extent ≤ 4096 }
    ensures { IfOk result (λ r. choice_answer r ≡ and_then (item_subscript subscript.now) (λ k. Some (choice extent k))) }
{
    match subscript {
        None => {
            let c = whole(alloc, extent)?;
            Ok(Some(c))
        }
        Some(value) => {
            let c = chosen_by(alloc, extent, value)?;
            Ok(c)
        }
    }
}

// The same of a value.
#[tactic(auto, unfolding(fi_values::specs::Subscripts::subscript_of, fi_rules::specs::Options::and_then))]
fn chosen_by(alloc: Global, extent: u32, value: &Value) -> Result<Option<Chosen>, Memory>
    requires { extent ≤ 4096 }
    ensures { IfOk result (λ r. choice_answer r ≡ and_then (subscripts.subscript_of (value_view value.now)) (λ k. Some (choice extent k))) }
{
    match value {
        Value::Number(v) => {
            let c = constant(alloc, extent, v)?;
            Ok(c)
        }
        Value::Fi(v) => {
            let c = computed(alloc, extent, v)?;
            Ok(c)
        }
        Value::Logical(_) => Ok(None),
        Value::Words(_) => Ok(None),
        Value::Math(_) => Ok(None),
        Value::Type(_) => Ok(None),
    }
}

// All of a dimension.
fn whole(alloc: Global, extent: u32) -> Result<Chosen, Memory>
    requires some { 1 ≤ extent }
    requires few { extent ≤ 4096 }
    ensures { IfOk result (λ c. choice_view c ≡ choice extent subscripts.Whole) }
{
    let places = counted(alloc, extent)?;
    Ok(Chosen {
        own: column(extent),
        places: Some(places),
        fixed: true,
        oriented: false,
    })
}

// The numbers of a constant.
fn constant(alloc: Global, extent: u32, v: &NumberValue) -> Result<Option<Chosen>, Memory>
    requires { extent ≤ 4096 }
    ensures { IfOk result (λ r. choice_answer r ≡ and_then (subscripts.subscript_of (number_view v.now)) (λ k. Some (choice extent k))) }
{
    match &v.im {
        Some(_) => Ok(None),
        None => {
            if are_whole(v.re.as_slice()) {
                let places = number_places(alloc, extent, v.re.as_slice())?;
                Ok(Some(Chosen {
                    own: v.shape,
                    places,
                    fixed: true,
                    oriented: true,
                }))
            } else {
                Ok(None)
            }
        }
    }
}

// The places of numbers of a constant. None where one is out of the extent.
fn number_places(alloc: Global, extent: u32, numbers: &[Dyadic]) -> Result<Option<Vec<u32>>, Memory>
    requires { extent ≤ 4096 }
    ensures value { IfOk result (λ r. listed r ≡ number_places extent (map exact_of numbers.now)) }
    ensures as_many { IfOk result (λ r. ForSome r (λ v. vec_len v ≡ length numbers.now)) }
    ensures small { IfOk result (λ r. ForSome r (λ v. All (λ k. k < 4096) v.items)) }
{
    let mut out = Vec::new(alloc);
    for c in numbers {
        match number_place(extent, *c) {
            None => return Ok(None),
            Some(k) => out.push(k)?,
        }
    }
    Ok(Some(out))
}

// The place of the number that a constant is. None where it is out of the extent.
fn number_place(extent: u32, c: Dyadic) -> Option<u32>
    requires { extent ≤ 4096 }
    ensures value { result ≡ number_place extent (exact_of c) }
    ensures below { IfSome result (λ k. k < 4096) }
{
    match bounded(c) {
        None => None,
        Some(z) => place_of(extent, z),
    }
}

// The place of a subscript, from 1, counted from 0. None where it is out of the extent.
fn place_of(extent: u32, z: i64) -> Option<u32>
    requires { extent ≤ 4096 }
    ensures value { result ≡ subscripts.place_of extent z }
    ensures below { IfSome result (λ k. k < 4096) }
{
    if z < 1 {
        None
    } else if z > extent as i64 {
        None
    } else {
        Some((z - 1) as u32)
    }
}

// The number of a real scalar fi without a fraction and of at most 31 bits.
fn computed(alloc: Global, extent: u32, v: &FiValue) -> Result<Option<Chosen>, Memory>
    requires { extent ≤ 4096 }
    ensures { IfOk result (λ r. choice_answer r ≡ and_then (subscripts.subscript_of (fi_view v.now)) (λ k. Some (choice extent k))) }
{
    match &v.im {
        Some(_) => Ok(None),
        None => {
            if is_index(v) {
                let c = at_number(alloc, extent, v.re[0])?;
                Ok(Some(c))
            } else {
                Ok(None)
            }
        }
    }
}

// Whether the elements of a fi are one, without a fraction and of at most 31 bits.
fn is_index(v: &FiValue) -> bool
    ensures { result ≡ (is_scalar (shape_view v.now.shape) && (int_eq (type_of v.now.num).fraction (pos 0) && nat_le (type_of v.now.num).word 31)) }
{
    is_scalar(v.shape) && is_index_type(v.num)
}

// Whether a type has no fraction and at most 31 bits.
fn is_index_type(t: NumType) -> bool
    ensures { result ≡ (int_eq (type_of t).fraction (pos 0) && nat_le (type_of t).word 31) }
{
    t.fraction() == 0 && t.word() <= 31
}

// The number of a fi.
#[tactic(auto, unfolding(fi_rules::specs::Options::and_then))]
fn at_number(alloc: Global, extent: u32, z: Int) -> Result<Chosen, Memory>
    requires { extent ≤ 4096 }
    ensures { IfOk result (λ c. choice_view c ≡ choice extent (subscripts.Computed z)) }
{
    match int_place(extent, z) {
        None => Ok(Chosen {
            own: Shape::scalar(),
            places: None,
            fixed: false,
            oriented: false,
        }),
        Some(k) => {
            let mut places = Vec::new(alloc);
            places.push(k)?;
            Ok(Chosen {
                own: Shape::scalar(),
                places: Some(places),
                fixed: false,
                oriented: false,
            })
        }
    }
}

// Its place. None where it is out of the extent.
fn int_place(extent: u32, z: Int) -> Option<u32>
    requires { extent ≤ 4096 }
    ensures value { result ≡ subscripts.place_of extent z }
    ensures below { IfSome result (λ k. k < 4096) }
{
    match z.to_i64() {
        None => None,
        Some(k) => place_of(extent, k),
    }
}
