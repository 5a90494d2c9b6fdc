//! Lines of bytes.

ghost use Rattle.std.specs.Prelude.{IfOk};
ghost use Rattle.case_io.specs.Reads.{ReadsLines};

use crate::decimal_text::is_canonical;
use num_type::Memory;
use shape_rules::split;
use std::alloc::Global;

/// The decimals of bytes that are lines of canonical decimals, each with its newline. None exactly where they aren't. Want of memory is the
/// only refusal.
pub fn read_lines(alloc: Global, bytes: &[u8]) -> Result<Option<Vec<&[u8]>>, Memory>
    ensures { IfOk result (λ found. ReadsLines found bytes.now) }
{
    let mut texts = Vec::new(alloc);
    let mut rest = bytes;
    while !rest.is_empty() {
        match split(rest, b'\n') {
            None => return Ok(None),
            Some((text, behind)) => {
                if !is_canonical(text) {
                    return Ok(None);
                }
                texts.push(text)?;
                rest = behind;
            }
        }
    }
    Ok(Some(texts))
}
