//! Values of one element.

ghost use Rattle.std.specs.Prelude.{◌≡◌, ◌<◌, ◌^◌, [], ◌∷◌, IfOk, nat_abs};
ghost use Rattle.num_type.specs.View.{exact_of};
ghost use Rattle.fi_rules.specs.Value.{scalar, Number, ComplexNumber};
ghost use Rattle.fi_values.specs.Logicals.{truth_value};
ghost use Rattle.fi_values.specs.Numbers.{constant, nought, whole_value};
ghost use Rattle.eval_value.specs.View.{value_view};

use crate::logical_value::LogicalValue;
use crate::number_value::NumberValue;
use crate::value::Value;
use num_type::{Dyadic, Memory};
use shape_rules::Shape;
use std::alloc::Global;

/// A scalar logical value. Want of memory is the only refusal.
pub fn make_truth(alloc: Global, truth: bool) -> Result<Value, Memory>
    ensures { IfOk result (λ v. value_view v ≡ truth_value truth) }
{
    let mut truths = Vec::new(alloc);
    truths.push(truth)?;
    Ok(Value::Logical(LogicalValue {
        shape: Shape::scalar(),
        truths,
    }))
}

/// A real scalar constant. Want of memory is the only refusal.
pub fn make_number(alloc: Global, number: Dyadic) -> Result<Value, Memory>
    ensures { IfOk result (λ v. value_view v ≡ Number scalar (exact_of number ∷ [])) }
{
    let mut re = Vec::new(alloc);
    re.push(number)?;
    Ok(Value::Number(NumberValue {
        shape: Shape::scalar(),
        re,
        im: None,
    }))
}

/// An imaginary scalar constant, whose real part is 0. Want of memory is the only refusal.
pub fn make_imaginary(alloc: Global, number: Dyadic) -> Result<Value, Memory>
    ensures { IfOk result (λ v. value_view v ≡ ComplexNumber scalar (nought ∷ []) (exact_of number ∷ [])) }
{
    let mut re = Vec::new(alloc);
    re.push(Dyadic::zero())?;
    let mut im = Vec::new(alloc);
    im.push(number)?;
    Ok(Value::Number(NumberValue {
        shape: Shape::scalar(),
        re,
        im: Some(im),
    }))
}

/// A whole number from 0 on as a real scalar constant. Want of memory is the only refusal.
pub fn make_whole(alloc: Global, number: u32) -> Result<Value, Memory>
    ensures { IfOk result (λ v. value_view v ≡ whole_value number) }
{
    make_number(alloc, whole_number(number as i64))
}

/// A whole number as a constant.
pub fn whole_number(number: i64) -> Dyadic
    requires { nat_abs number < 2 ^ 53 }
    ensures { exact_of result ≡ constant number }
{
    match Dyadic::make(number, 0) {
        Some(d) => d,
        None => unreachable!(),
    }
}
