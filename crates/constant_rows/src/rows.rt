//! What the words of a row make.

use crate::texts::{put_constant, put_number, read_constant, read_number};
use const_eval::{Const, ElementOp, elementwise, fold_unary, literal, power, whole_exponent};
use const_fold::fold_binary;
use fic_base::{Code, Place, Refusal};
use mat_ast::{BinOp, UnOp};
use num_type::{Dyadic, Int, Memory, Stop, write_decimal};
use std::alloc::Global;

fn code_text(code: Code) -> &'static [u8] {
    match code {
        Code::SizeMismatch => b"E11 ",
        Code::LiteralInexact => b"E16 ",
        Code::BadArgument => b"E18 ",
        Code::Limit => b"E20 ",
        _ => b"another code ",
    }
}

fn put_stop(stop: &Stop<Refusal>, out: &mut Vec<u8>) -> Result<(), Memory> {
    match stop {
        Stop::Memory => Err(Memory),
        Stop::Refused(r) => {
            if r.place != Place::START {
                out.extend_from_slice(b"elsewhere ")?;
            }
            out.extend_from_slice(code_text(r.code))?;
            out.extend_from_slice(r.shown.as_bytes())?;
            Ok(())
        }
    }
}

fn put_fold(made: &Result<Const, Stop<Refusal>>, out: &mut Vec<u8>) -> Result<(), Memory> {
    match made {
        Ok(c) => put_constant(c, out),
        Err(stop) => put_stop(stop, out),
    }
}

fn put_literal(alloc: Global, text: &str, out: &mut Vec<u8>) -> Result<(), Memory> {
    match literal(alloc, text.as_bytes(), Place::START) {
        Ok(number) => {
            out.extend_from_slice(b"number")?;
            put_number(number, out)
        }
        Err(stop) => put_stop(&stop, out),
    }
}

fn put_option(number: Option<Dyadic>, out: &mut Vec<u8>) -> Result<(), Memory> {
    match number {
        Some(number) => {
            out.extend_from_slice(b"number")?;
            put_number(number, out)
        }
        None => {
            out.extend_from_slice(b"none")?;
            Ok(())
        }
    }
}

fn put_exponent(text: &str, out: &mut Vec<u8>) -> Result<(), Memory> {
    match read_number(text) {
        None => unread(out),
        Some(value) => match whole_exponent(&value) {
            Some(n) => write_decimal(Int::from_i128(n as i128), out),
            None => {
                out.extend_from_slice(b"none")?;
                Ok(())
            }
        },
    }
}

fn unread(out: &mut Vec<u8>) -> Result<(), Memory> {
    out.extend_from_slice(b"no row")?;
    Ok(())
}

fn put_power(text: &str, out: &mut Vec<u8>) -> Result<(), Memory> {
    match power_of(text) {
        Some(made) => put_option(made, out),
        None => unread(out),
    }
}

fn power_of(text: &str) -> Option<Option<Dyadic>> {
    let (base, exponent) = text.split_once(' ')?;
    let base = read_number(base)?;
    let exponent = whole_exponent(&read_number(exponent)?)?;
    if -400 <= exponent && exponent <= 400 {
        Some(power(&base, exponent))
    } else {
        None
    }
}

fn element_op(word: &str) -> Option<ElementOp> {
    match word {
        "each+" => Some(ElementOp::Sum),
        "each-" => Some(ElementOp::Difference),
        "each.*" => Some(ElementOp::Product),
        _ => None,
    }
}

fn shown_of(op: ElementOp) -> &'static [u8] {
    match op {
        ElementOp::Sum => b"+",
        ElementOp::Difference => b"-",
        ElementOp::Product => b".*",
    }
}

fn made_of(
    alloc: Global,
    word: &str,
    a: &Const,
    b: &Const,
) -> Option<Result<Const, Stop<Refusal>>> {
    match element_op(word) {
        Some(op) => Some(elementwise(alloc, op, shown_of(op), a, b, Place::START)),
        None => match word {
            "+" => Some(fold_binary(alloc, BinOp::Add, a, b, Place::START)),
            "-" => Some(fold_binary(alloc, BinOp::Sub, a, b, Place::START)),
            "*" => Some(fold_binary(alloc, BinOp::Mul, a, b, Place::START)),
            ".*" => Some(fold_binary(alloc, BinOp::ElemMul, a, b, Place::START)),
            "^" => Some(fold_binary(alloc, BinOp::Pow, a, b, Place::START)),
            ".^" => Some(fold_binary(alloc, BinOp::ElemPow, a, b, Place::START)),
            _ => None,
        },
    }
}

fn put_binary(alloc: Global, text: &str, out: &mut Vec<u8>) -> Result<(), Memory> {
    let Some((left, rest)) = text.split_once(" | ") else {
        return unread(out);
    };
    let Some((word, right)) = rest.split_once(" | ") else {
        return unread(out);
    };
    let Some(a) = read_constant(alloc, left)? else {
        return unread(out);
    };
    let Some(b) = read_constant(alloc, right)? else {
        return unread(out);
    };
    match made_of(alloc, word, &a, &b) {
        Some(made) => put_fold(&made, out),
        None => unread(out),
    }
}

fn put_sign(alloc: Global, op: UnOp, text: &str, out: &mut Vec<u8>) -> Result<(), Memory> {
    match read_constant(alloc, text)? {
        None => unread(out),
        Some(a) => match op {
            UnOp::Minus => put_constant(&fold_unary(alloc, UnOp::Minus, &a)?, out),
            _ => put_constant(&fold_unary(alloc, UnOp::Plus, &a)?, out),
        },
    }
}

/// Writes what the words of a row make. Want of memory is the only refusal.
pub fn put_outcome(alloc: Global, text: &str, out: &mut Vec<u8>) -> Result<(), Memory> {
    if let Some(text) = text.strip_prefix("literal ") {
        put_literal(alloc, text, out)
    } else if let Some(text) = text.strip_prefix("power ") {
        put_power(text, out)
    } else if let Some(text) = text.strip_prefix("exponent ") {
        put_exponent(text, out)
    } else if let Some(text) = text.strip_prefix("minus ") {
        put_sign(alloc, UnOp::Minus, text, out)
    } else if let Some(text) = text.strip_prefix("plus ") {
        put_sign(alloc, UnOp::Plus, text, out)
    } else {
        put_binary(alloc, text, out)
    }
}
