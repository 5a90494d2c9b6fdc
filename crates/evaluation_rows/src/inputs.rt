//! Values of inputs as rows write them: `s8.4 16`, `s8.0[2x1]:c 1 2 ; 3 4`, `bool[1x2] 1 0`.

ghost use Rattle.std.specs.Prelude.{◌≡◌, All, IfOk, IfSome, vec_len};
ghost use Rattle.num_type.specs.Types.{IsInRange};
ghost use Rattle.num_type.specs.View.{type_of};

use eval_value::{FiValue, LogicalValue, Value};
use fi_quant::fit;
use num_type::{Int, NumType, Overflow, read_decimal};
use shape_rules::{Declared, Shape, read_shape, read_type};
use std::alloc::{AllocError, Global};

// The stored integers of a text in which blanks stand between them. None where one is no number in the range of the type.
fn stored(alloc: Global, num: NumType, text: &str) -> Result<Option<Vec<Int>>, AllocError>
    ensures { IfOk result (λ r. IfSome r (λ v. All (IsInRange (type_of num)) v.items)) }
{
    let mut list = Vec::new(alloc);
    for word in text.split_whitespace() {
        match read_decimal(word.as_bytes()) {
            Some(z) => {
                let kept = fit(Overflow::Saturate, num, z);
                if kept.is_negative() != z.is_negative() || kept.magnitude() != z.magnitude() {
                    return Ok(None);
                }
                list.push(kept)?
            }
            None => return Ok(None),
        }
    }
    Ok(Some(list))
}

// The truth values of a text of zeros and ones. None where another word stands in it.
fn truths(alloc: Global, text: &str) -> Result<Option<Vec<bool>>, AllocError> {
    let mut list = Vec::new(alloc);
    for word in text.split_whitespace() {
        if word == "0" {
            list.push(false)?;
        } else if word == "1" {
            list.push(true)?;
        } else {
            return Ok(None);
        }
    }
    Ok(Some(list))
}

// A real fi of a type and a shape.
fn real(alloc: Global, t: &Declared, text: &str) -> Result<Option<Value>, AllocError> {
    let Some(re) = stored(alloc, t.num, text)? else {
        return Ok(None);
    };
    if re.len() == t.shape.elements() as usize {
        Ok(Some(Value::Fi(FiValue {
            num: t.num,
            math: None,
            shape: t.shape,
            re,
            im: None,
        })))
    } else {
        Ok(None)
    }
}

// A complex one, whose imaginary parts stand behind a semicolon.
fn complex(alloc: Global, t: &Declared, text: &str) -> Result<Option<Value>, AllocError> {
    let Some((left, right)) = text.split_once(';') else {
        return Ok(None);
    };
    let Some(re) = stored(alloc, t.num, left)? else {
        return Ok(None);
    };
    let Some(im) = stored(alloc, t.num, right)? else {
        return Ok(None);
    };
    let many = t.shape.elements() as usize;
    if re.len() == many && im.len() == many {
        Ok(Some(Value::Fi(FiValue {
            num: t.num,
            math: None,
            shape: t.shape,
            re,
            im: Some(im),
        })))
    } else {
        Ok(None)
    }
}

fn logical(alloc: Global, shape: Shape, text: &str) -> Result<Option<Value>, AllocError> {
    let Some(truths) = truths(alloc, text)? else {
        return Ok(None);
    };
    if truths.len() == shape.elements() as usize {
        Ok(Some(Value::Logical(LogicalValue { shape, truths })))
    } else {
        Ok(None)
    }
}

// The shape in square brackets, of one element where there are none, and what stands behind.
fn shape_of(text: &str) -> Option<(Shape, &str)> {
    match text.strip_prefix('[') {
        None => Some((Shape::scalar(), text)),
        Some(inside) => {
            let (shape, rest) = inside.split_once(']')?;
            Some((read_shape(shape.as_bytes())?, rest))
        }
    }
}

// A word such as `s8.0[1x2]:c`: the name of the class or type, the shape, and whether it is complex.
fn head_of(word: &str) -> Option<(&str, Shape, bool)> {
    let (word, complex) = match word.strip_suffix(":c") {
        Some(front) => (front, true),
        None => (word, false),
    };
    let at = word.find('[').unwrap_or(word.len());
    let (name, rest) = word.split_at(at);
    let (shape, _) = shape_of(rest)?;
    Some((name, shape, complex))
}

/// The value of a text, by columns. None where it is none. Want of memory is the only refusal.
pub fn read_value(alloc: Global, text: &str) -> Result<Option<Value>, AllocError> {
    let Some((word, numbers)) = text.split_once(' ') else {
        return Ok(None);
    };
    let Some((name, shape, is_complex)) = head_of(word) else {
        return Ok(None);
    };
    if name == "bool" {
        return logical(alloc, shape, numbers);
    }
    let Some(found) = read_type(name.as_bytes()) else {
        return Ok(None);
    };
    let t = Declared {
        num: found.num,
        complex: is_complex,
        shape,
    };
    if is_complex {
        complex(alloc, &t, numbers)
    } else {
        real(alloc, &t, numbers)
    }
}
