//! Constants as rows write them: `1x2 3 -4`, `1x1 2 ; 0`, and `1*2^-15` for a number that isn't whole.

use const_eval::Const;
use num_type::{Dyadic, Int, Memory, read_decimal, write_decimal};
use shape_rules::{read_shape, write_shape};
use std::alloc::{AllocError, Global};

fn whole(word: &str) -> Option<i64> {
    read_decimal(word.as_bytes())?.to_i64()
}

/// The number of a word. None where it is none.
pub fn read_number(word: &str) -> Option<Dyadic> {
    match word.split_once("*2^") {
        None => Dyadic::make(whole(word)?, 0),
        Some((significand, exponent)) => {
            let exponent = i32::try_from(whole(exponent)?).ok()?;
            Dyadic::make(whole(significand)?, exponent)
        }
    }
}

fn read_numbers(alloc: Global, text: &str) -> Result<Option<Vec<Dyadic>>, AllocError> {
    let mut list = Vec::new(alloc);
    for word in text.split_whitespace() {
        match read_number(word) {
            Some(number) => list.push(number)?,
            None => return Ok(None),
        }
    }
    Ok(Some(list))
}

fn read_parts(
    alloc: Global,
    text: &str,
) -> Result<Option<(Vec<Dyadic>, Option<Vec<Dyadic>>)>, AllocError> {
    match text.split_once(';') {
        None => match read_numbers(alloc, text)? {
            Some(re) => Ok(Some((re, None))),
            None => Ok(None),
        },
        Some((left, right)) => {
            let Some(re) = read_numbers(alloc, left)? else {
                return Ok(None);
            };
            let Some(im) = read_numbers(alloc, right)? else {
                return Ok(None);
            };
            Ok(Some((re, Some(im))))
        }
    }
}

/// The constant of a text, by columns. None where it is none. Want of memory is the only refusal.
pub fn read_constant(alloc: Global, text: &str) -> Result<Option<Const>, AllocError> {
    let Some((shape, numbers)) = text.split_once(' ') else {
        return Ok(None);
    };
    let Some(shape) = read_shape(shape.as_bytes()) else {
        return Ok(None);
    };
    let Some((re, im)) = read_parts(alloc, numbers)? else {
        return Ok(None);
    };
    let count = shape.elements() as usize;
    if re.len() != count {
        return Ok(None);
    }
    match im {
        None => Ok(Some(Const::make(shape, re, None))),
        Some(parts) => {
            if parts.len() == count {
                Ok(Some(Const::make(shape, re, Some(parts))))
            } else {
                Ok(None)
            }
        }
    }
}

/// Writes a number behind a blank.
pub fn put_number(number: Dyadic, out: &mut Vec<u8>) -> Result<(), Memory> {
    out.extend_from_slice(b" ")?;
    let exponent = number.exponent();
    if 0 <= exponent && exponent <= 36 {
        write_decimal(
            Int::from_i128((number.significand() as i128) << exponent),
            out,
        )
    } else {
        write_decimal(Int::from_i128(number.significand() as i128), out)?;
        out.extend_from_slice(b"*2^")?;
        write_decimal(Int::from_i128(exponent as i128), out)
    }
}

/// Writes a constant.
pub fn put_constant(c: &Const, out: &mut Vec<u8>) -> Result<(), Memory> {
    write_shape(c.shape(), out)?;
    for k in 0..c.shape().elements() {
        put_number(c.at(k).re, out)?;
    }
    if c.is_complex() {
        out.extend_from_slice(b" ;")?;
        for k in 0..c.shape().elements() {
            put_number(c.at(k).im, out)?;
        }
    }
    Ok(())
}
