//! The parts of numbers, and complex numbers of them.

ghost use Rattle.std.specs.Prelude.{◌≡◌, IfOk, length, map, vec_len};
ghost use Rattle.num_type.specs.View.{exact_of};
ghost use Rattle.shape_rules.specs.Shapes.{elements_of};
ghost use Rattle.const_eval.specs.Complex.{complex_of};
ghost use Rattle.fi_values.specs.Arithmetic as arithmetic;
ghost use Rattle.fi_values.specs.Arithmetic.{zipped};
ghost use Rattle.fi_values.specs.Numbers.{nought_parts};
ghost use Rattle.eval_value.specs.View.{number_view, shape_view};
ghost use Rattle.eval_math.specs.Numbers as numbers;

use const_eval::Complex;
use eval_value::NumberValue;
use num_type::{Dyadic, Memory};
use shape_rules::Shape;
use std::alloc::Global;

/// Whether a number is complex.
pub fn is_complex_number(n: &NumberValue) -> bool
    ensures { result ≡ numbers.is_complex_number n.now }
{
    n.im.is_some()
}

/// The imaginary parts of a number: zeros where it is real. Want of memory is the only refusal.
pub fn imaginary_constants(alloc: Global, n: &NumberValue) -> Result<Vec<Dyadic>, Memory>
    ensures value { IfOk result (λ v. map exact_of v.items ≡ numbers.imaginary_exacts n.now) }
    ensures many { IfOk result (λ v. vec_len v ≡ elements_of n.now.shape) }
{
    match &n.im {
        None => {
            let v = noughts(alloc, n.re.as_slice())?;
            Ok(v)
        }
        Some(parts) => {
            let v = Vec::from_slice(alloc, parts.as_slice())?;
            Ok(v)
        }
    }
}

// A zero for each of these.
fn noughts(alloc: Global, parts: &[Dyadic]) -> Result<Vec<Dyadic>, Memory>
    ensures value { IfOk result (λ v. map exact_of v.items ≡ nought_parts (map exact_of parts.now)) }
    ensures many { IfOk result (λ v. vec_len v ≡ length parts.now) }
{
    let mut out = Vec::new(alloc);
    for k in 0..parts.len() {
        out.push(Dyadic::zero())?;
    }
    Ok(out)
}

/// The elements of a number as complex ones. Want of memory is the only refusal.
pub fn complex_elements(alloc: Global, n: &NumberValue) -> Result<Vec<Complex>, Memory>
    ensures value { IfOk result (λ v. map complex_of v.items ≡ numbers.complex_numbers n.now) }
    ensures many { IfOk result (λ v. vec_len v ≡ elements_of n.now.shape) }
{
    let im = imaginary_constants(alloc, n)?;
    let v = of_parts(alloc, n.shape.elements(), n.re.as_slice(), im.as_slice())?;
    Ok(v)
}

// The complex numbers of their parts.
fn of_parts(alloc: Global, count: u32, re: &[Dyadic], im: &[Dyadic]) -> Result<Vec<Complex>, Memory>
    requires real { length re.now ≡ count }
    requires imaginary { length im.now ≡ count }
    ensures value { IfOk result (λ v. map complex_of v.items ≡ zipped (map exact_of re.now) (map exact_of im.now)) }
    ensures many { IfOk result (λ v. vec_len v ≡ count) }
{
    let mut out = Vec::new(alloc);
    for k in 0..count {
        out.push(Complex {
            re: re[k as usize],
            im: im[k as usize],
        })?;
    }
    Ok(out)
}

/// The number of complex elements. Want of memory is the only refusal.
pub fn complex_value(alloc: Global, shape: Shape, zs: &[Complex]) -> Result<NumberValue, Memory>
    requires { length zs.now ≡ elements_of shape }
    ensures { IfOk result (λ v. number_view v ≡ arithmetic.complex_value (shape_view shape) (map complex_of zs.now)) }
{
    let re = real_parts(alloc, zs)?;
    let im = imaginary_parts(alloc, zs)?;
    Ok(NumberValue {
        shape,
        re,
        im: Some(im),
    })
}

// The real parts of complex numbers.
fn real_parts(alloc: Global, zs: &[Complex]) -> Result<Vec<Dyadic>, Memory>
    ensures value { IfOk result (λ v. v.items ≡ map (λ z. z.re) zs.now) }
    ensures many { IfOk result (λ v. vec_len v ≡ length zs.now) }
{
    let mut out = Vec::new(alloc);
    for z in zs {
        out.push(z.re)?;
    }
    Ok(out)
}

// The imaginary parts of complex numbers.
fn imaginary_parts(alloc: Global, zs: &[Complex]) -> Result<Vec<Dyadic>, Memory>
    ensures value { IfOk result (λ v. v.items ≡ map (λ z. z.im) zs.now) }
    ensures many { IfOk result (λ v. vec_len v ≡ length zs.now) }
{
    let mut out = Vec::new(alloc);
    for z in zs {
        out.push(z.im)?;
    }
    Ok(out)
}
