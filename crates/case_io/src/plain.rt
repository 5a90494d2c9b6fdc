//! The plain form of a case.

ghost use Rattle.std.specs.Prelude.{◌≡◌, IfOk, IfSome, IsNone, All, IsTrue, length};
ghost use Rattle.c_tree.specs.View.{interface_view};
ghost use Rattle.case_io.specs.View.{range_view, ranges_view};
ghost use Rattle.case_io.specs.Cases.{IsWithin, elements, input_ranges};
ghost use Rattle.case_io.specs.Plain.{is_canonical, value_of};
ghost use Rattle.case_io.specs.Reads.{texts_of, ReadsArray, ReadsArrays, ReadsCases};

use crate::line::read_lines;
use crate::range::Range;
use crate::ranges::{input_ranges, is_count, is_within};
use crate::refusal::{CaseBad, CaseRefusal, Cases};
use c_tree::Interface;
use num_type::{Int, Memory, Stop, read_decimal};
use std::alloc::Global;

// The number of a canonical decimal. None exactly where it is out of range.
fn read_value(text: &[u8], range: &Range) -> Option<Int>
    requires { IsTrue (is_canonical text.now) }
    ensures some { IfSome result (λ z. (z ≡ value_of text.now) × IsWithin (range_view range.now) z) }
    ensures none { IsNone result → IsWithin (range_view range.now) (value_of text.now) → ⊥ }
{
    match read_decimal(text) {
        None => None,
        Some(z) => { if is_within(range, z) { Some(z) } else { None } }
    }
}

// The numbers of canonical decimals. None exactly where one is out of range; want of memory is the only refusal.
fn read_array(alloc: Global, texts: &[&[u8]], range: &Range) -> Result<Option<Vec<Int>>, Memory>
    requires { All (λ t. IsTrue (is_canonical t)) (texts_of texts.now) }
    ensures { IfOk result (λ found. ReadsArray found (range_view range.now) (texts_of texts.now)) }
{
    let mut values = Vec::new(alloc);
    for text in texts {
        match read_value(text, range) {
            None => return Ok(None),
            Some(z) => values.push(z)?,
        }
    }
    Ok(Some(values))
}

// The numbers of canonical decimals, a list for each array. None exactly where one is out of its range; want of memory is the only refusal.
fn read_arrays(
    alloc: Global,
    texts: &[&[u8]],
    ranges: &[Range],
) -> Result<Option<Vec<Vec<Int>>>, Memory>
    requires canonical { All (λ t. IsTrue (is_canonical t)) (texts_of texts.now) }
    requires count { length texts.now ≡ elements (ranges_view ranges.now) }
    ensures { IfOk result (λ found. ReadsArrays found (ranges_view ranges.now) (texts_of texts.now)) }
{
    let mut arrays = Vec::new(alloc);
    let mut at = 0;
    for range in ranges {
        let count = range.count as usize;
        let own = texts.split_at(at).1.split_at(count).0;
        match read_array(alloc, own, range)? {
            None => return Ok(None),
            Some(values) => arrays.push(values)?,
        }
        at += count;
    }
    Ok(Some(arrays))
}

/// The case of bytes of the plain form: for each element of the input arrays, in order, its canonical decimal and a newline.
///
/// Refused:
/// - `Form`, without a number, exactly where the bytes aren't so many canonical decimals, each with its newline;
/// - `Value` in case 0, exactly where they are, and one is out of its range: that of the input's type, or 0 and 1 for truth values.
///
/// Want of memory is the free answer.
pub fn read_cases(alloc: Global, bytes: &[u8], i: &Interface) -> Result<Cases, Stop<CaseRefusal>>
    ensures { ReadsCases result (input_ranges (interface_view i.now)) bytes.now }
{
    let ranges = input_ranges(alloc, i)?;
    let Some(found) = read_lines(alloc, bytes)? else {
        return Err(Stop::Refused(FORM));
    };
    let texts = found.as_slice();
    if !is_count(texts.len(), ranges.as_slice()) {
        return Err(Stop::Refused(FORM));
    }
    let Some(inputs) = read_arrays(alloc, texts, ranges.as_slice())? else {
        return Err(Stop::Refused(VALUE));
    };
    let mut list = Vec::new(alloc);
    list.push(inputs)?;
    Ok(Cases { list })
}

// The bytes have no form.
const FORM: CaseRefusal = CaseRefusal {
    index: None,
    kind: CaseBad::Form,
};

// A decimal of the one case is out of range.
const VALUE: CaseRefusal = CaseRefusal {
    index: Some(0),
    kind: CaseBad::Value,
};
