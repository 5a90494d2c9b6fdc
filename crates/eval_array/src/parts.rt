//! Values from their parts.

ghost use Rattle.std.specs.Prelude.{◌≡◌, All, map, vec_len};
ghost use Rattle.num_type.specs.Types.{IsInRange};
ghost use Rattle.num_type.specs.View.{exact_of, type_of};
ghost use Rattle.shape_rules.specs.Shapes.{elements_of};
ghost use Rattle.fi_rules.specs.Value.{Fi, ComplexFi, Logical, Number, ComplexNumber};
ghost use Rattle.eval_value.specs.View.{shape_view, value_view};

use eval_value::{FiValue, LogicalValue, NumberValue, Value};
use fi_math::Fimath;
use num_type::{Dyadic, Int, NumType};
use shape_rules::Shape;

/// Stored integers of real and imaginary parts.
#[derive(Drop)]
pub struct Parts {
    /// Those of the real parts.
    pub re: Vec<Int>,
    /// Those of the imaginary parts.
    pub im: Vec<Int>,
}

/// A real fi of integers in the range of its type.
pub fn real_fi(num: NumType, math: Option<Fimath>, shape: Shape, re: Vec<Int>) -> Value
    requires count { vec_len re ≡ elements_of shape }
    requires in_range { All (IsInRange (type_of num)) re.items }
    ensures { value_view result ≡ Fi (type_of num) math (shape_view shape) re.items }
{
    Value::Fi(FiValue {
        num,
        math,
        shape,
        re,
        im: None,
    })
}

/// A complex one.
pub fn complex_fi(
    num: NumType,
    math: Option<Fimath>,
    shape: Shape,
    re: Vec<Int>,
    im: Vec<Int>,
) -> Value
    requires real { vec_len re ≡ elements_of shape }
    requires imaginary { vec_len im ≡ elements_of shape }
    requires real_in_range { All (IsInRange (type_of num)) re.items }
    requires imaginary_in_range { All (IsInRange (type_of num)) im.items }
    ensures { value_view result ≡ ComplexFi (type_of num) math (shape_view shape) re.items im.items }
{
    Value::Fi(FiValue {
        num,
        math,
        shape,
        re,
        im: Some(im),
    })
}

/// A logical value.
pub fn logical(shape: Shape, truths: Vec<bool>) -> Value
    requires { vec_len truths ≡ elements_of shape }
    ensures { value_view result ≡ Logical (shape_view shape) truths.items }
{
    Value::Logical(LogicalValue { shape, truths })
}

/// Real constants.
pub fn real_number(shape: Shape, re: Vec<Dyadic>) -> Value
    requires { vec_len re ≡ elements_of shape }
    ensures { value_view result ≡ Number (shape_view shape) (map exact_of re.items) }
{
    Value::Number(NumberValue {
        shape,
        re,
        im: None,
    })
}

/// Complex constants.
pub fn complex_number(shape: Shape, re: Vec<Dyadic>, im: Vec<Dyadic>) -> Value
    requires real { vec_len re ≡ elements_of shape }
    requires imaginary { vec_len im ≡ elements_of shape }
    ensures { value_view result ≡ ComplexNumber (shape_view shape) (map exact_of re.items) (map exact_of im.items) }
{
    Value::Number(NumberValue {
        shape,
        re,
        im: Some(im),
    })
}
