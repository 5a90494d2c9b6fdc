//! The first two lines of a C text.

ghost use Rattle.c_read.specs.Front.{ReadsFront};

use crate::refusal::{CBad, CRefusal};
use c_token::{InterfaceLine, has_include, read_interface};
use num_type::Stop;
use std::alloc::Global;

/// The interface of a C text, and the offset in bytes at which its function begins.
///
/// Refused:
/// - `Include` at offset 0, exactly where the text doesn't begin with the line `#include <stdint.h>`;
/// - `Interface` at offset 20, exactly where it does, and no interface with names, types and shapes within the limits has its line there, no
///   two inputs and no two outputs having one name.
///
/// Want of memory is the free answer.
pub fn read_front(alloc: Global, bytes: &[u8]) -> Result<InterfaceLine, Stop<CRefusal>>
    ensures { ReadsFront result bytes.now }
{
    if !has_include(bytes) {
        return Err(Stop::Refused(NO_INCLUDE));
    }
    match read_interface(alloc, bytes)? {
        None => Err(Stop::Refused(NO_INTERFACE)),
        Some(line) => Ok(line),
    }
}

// The text doesn't begin with its first line.
const NO_INCLUDE: CRefusal = CRefusal {
    offset: 0,
    kind: CBad::Include,
};

// No interface has its line behind the first one, which has 20 bytes.
const NO_INTERFACE: CRefusal = CRefusal {
    offset: 20,
    kind: CBad::Interface,
};
