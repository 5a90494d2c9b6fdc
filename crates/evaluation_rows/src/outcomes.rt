//! Outcomes as rows write them: `ends s8.0 3 , bool 1`, `fault 26`, `over`, `wrong 2:9`. A fi with a fimath has `@` behind its type, and a
//! constant is `num`.

use eval_source::Outcome;
use eval_value::{FiValue, LogicalValue, NumberValue, Value};
use num_type::{Dyadic, Int, Memory, write_decimal};
use shape_rules::{Shape, write_num, write_shape};
use std::alloc::Global;

// A shape in square brackets, and nothing for one element.
fn put_shape(shape: Shape, out: &mut Vec<u8>) -> Result<(), Memory> {
    if shape.elements() != 1 {
        out.extend_from_slice(b"[")?;
        write_shape(shape, out)?;
        out.extend_from_slice(b"]")?;
    }
    Ok(())
}

fn put_stored(list: &[Int], out: &mut Vec<u8>) -> Result<(), Memory> {
    for z in list {
        out.extend_from_slice(b" ")?;
        write_decimal(*z, out)?;
    }
    Ok(())
}

fn put_fi(v: &FiValue, out: &mut Vec<u8>) -> Result<(), Memory> {
    write_num(v.num, out)?;
    put_shape(v.shape, out)?;
    if v.im.is_some() {
        out.extend_from_slice(b":c")?;
    }
    if v.math.is_some() {
        out.extend_from_slice(b"@")?;
    }
    put_stored(v.re.as_slice(), out)?;
    if let Some(parts) = &v.im {
        out.extend_from_slice(b" ;")?;
        put_stored(parts.as_slice(), out)?;
    }
    Ok(())
}

fn put_logical(v: &LogicalValue, out: &mut Vec<u8>) -> Result<(), Memory> {
    out.extend_from_slice(b"bool")?;
    put_shape(v.shape, out)?;
    for truth in v.truths.as_slice() {
        out.extend_from_slice(if *truth { b" 1" } else { b" 0" })?;
    }
    Ok(())
}

// A constant: a whole number below 2 ^ 100 as it is, and another one by its significand and exponent of 2.
fn put_constant(c: Dyadic, out: &mut Vec<u8>) -> Result<(), Memory> {
    let exponent = c.exponent();
    if 0 <= exponent && exponent <= 36 {
        write_decimal(Int::from_i128((c.significand() as i128) << exponent), out)
    } else {
        write_decimal(Int::from_i128(c.significand() as i128), out)?;
        out.extend_from_slice(b"*2^")?;
        write_decimal(Int::from_i128(exponent as i128), out)
    }
}

fn put_constants(list: &[Dyadic], out: &mut Vec<u8>) -> Result<(), Memory> {
    for c in list {
        out.extend_from_slice(b" ")?;
        put_constant(*c, out)?;
    }
    Ok(())
}

fn put_number(v: &NumberValue, out: &mut Vec<u8>) -> Result<(), Memory> {
    out.extend_from_slice(b"num")?;
    put_shape(v.shape, out)?;
    if v.im.is_some() {
        out.extend_from_slice(b":c")?;
    }
    put_constants(v.re.as_slice(), out)?;
    if let Some(parts) = &v.im {
        out.extend_from_slice(b" ;")?;
        put_constants(parts.as_slice(), out)?;
    }
    Ok(())
}

fn put_value(v: &Value, out: &mut Vec<u8>) -> Result<(), Memory> {
    match v {
        Value::Fi(v) => put_fi(v, out),
        Value::Logical(v) => put_logical(v, out),
        Value::Number(v) => put_number(v, out),
        Value::Words(_) | Value::Math(_) | Value::Type(_) => {
            out.extend_from_slice(b"no value of an entry")?;
            Ok(())
        }
    }
}

fn put_values(list: &[Value], out: &mut Vec<u8>) -> Result<(), Memory> {
    out.extend_from_slice(b"ends")?;
    for (k, v) in list.iter().enumerate() {
        out.extend_from_slice(if k == 0 {
            b" ".as_slice()
        } else {
            b" , ".as_slice()
        })?;
        put_value(v, out)?;
    }
    Ok(())
}

fn put_whole(number: u64, out: &mut Vec<u8>) -> Result<(), Memory> {
    write_decimal(Int::of(false, number as u128), out)
}

fn put_outcome(outcome: &Outcome, out: &mut Vec<u8>) -> Result<(), Memory> {
    match outcome {
        Outcome::Ends(values) => put_values(values.as_slice(), out),
        Outcome::Fault(site) => {
            out.extend_from_slice(b"fault ")?;
            put_whole(*site, out)
        }
        Outcome::Over => {
            out.extend_from_slice(b"over")?;
            Ok(())
        }
        Outcome::Wrong(at) => {
            out.extend_from_slice(b"wrong ")?;
            put_whole(at.line as u64, out)?;
            out.extend_from_slice(b":")?;
            put_whole(at.col as u64, out)
        }
    }
}

/// The text of an outcome. Want of memory is the only refusal.
pub fn text_of(alloc: Global, outcome: &Outcome) -> Result<Vec<u8>, Memory> {
    let mut out = Vec::new(alloc);
    put_outcome(outcome, &mut out)?;
    Ok(out)
}
