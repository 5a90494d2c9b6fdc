//! Texts of programs, and texts that are refused, with their places worked by hand.

ghost use Rattle.std.specs.Prelude.{◌<◌};

use c_read::{CBad, CRefusal, read_c, read_front};
use c_tree::CProgram;
use num_type::Stop;
use std::alloc::Global;
use std::test::Fail;

/// Whether the first two lines are refused so.
fn refuses(alloc: Global, bytes: &[u8], offset: u64, kind: CBad) -> bool {
    match read_front(alloc, bytes) {
        Err(Stop::Refused(r)) => r == CRefusal { offset, kind },
        _ => false,
    }
}

/// Whether the text's function begins at this offset.
fn goes_on(alloc: Global, bytes: &[u8], offset: usize) -> bool {
    match read_front(alloc, bytes) {
        Ok(line) => line.end == offset,
        Err(_) => false,
    }
}

#[test]
fn first_two_lines(rt: HostRuntime) {
    let alloc = rt.alloc();
    assert!(rt; refuses(alloc, b"", 0, CBad::Include));
    assert!(rt; refuses(alloc, b"#include <stdint.h>", 0, CBad::Include));
    assert!(rt; refuses(alloc, b"#include <stdint.h>\n", 20, CBad::Interface));
    assert!(rt;
        refuses(
            alloc,
            b"#include <stdint.h>\n/* fic f a:s8.4:1x1 a:s8.4:1x1 -> */\n",
            20,
            CBad::Interface
        )
    );
    assert!(rt;
        goes_on(
            alloc,
            b"#include <stdint.h>\n/* fic f a:s8.4:1x1 -> y:b:1x1 */\nint",
            54
        )
    );
}

/// What a text gives: nothing where it is a program, and where it is refused.
#[derive(Clone, Copy, Debug, PartialEq, Eq)]
enum Answer {
    Program,
    Refused(CRefusal),
    Memory,
}

fn of_program(program: CProgram) -> Answer {
    Answer::Program
}

fn read(alloc: Global, bytes: &[u8]) -> Answer {
    match read_c(alloc, bytes) {
        Ok(program) => of_program(program),
        Err(Stop::Refused(refusal)) => Answer::Refused(refusal),
        Err(Stop::Memory) => Answer::Memory,
    }
}

/// The first two lines of the texts below, 57 bytes.
const FRONT: &str = "#include <stdint.h>\n/* fic f a:s8.4:1x1 -> y:s8.4:1x1 */\n";

/// The function up to the value of its one variable, 83 bytes.
const HEAD: &str =
    "int32_t fic_f(const int8_t in_a[1], int8_t out_y[1]) { int64_t v0 = INT64_C(0); v0=";

/// The function behind this value.
const TAIL: &str = "; out_y[INT64_C(0)] = (int8_t)v0; return INT32_C(0); }";

/// What a function gives behind these two lines.
fn behind_front(alloc: Global, function: &str) -> Result<Answer, Fail> {
    let text = format!(in alloc; "{FRONT}{function}")?;
    Ok(read(alloc, text.as_bytes()))
}

/// What a value of the variable gives.
fn valued(alloc: Global, value: &str) -> Result<Answer, Fail> {
    let text = format!(in alloc; "{FRONT}{HEAD}{value}{TAIL}")?;
    Ok(read(alloc, text.as_bytes()))
}

/// A refusal with `Token` so many bytes behind the first two lines.
fn token(at: u64) -> Answer
    requires { at < 65536 }
{
    Answer::Refused(CRefusal {
        offset: 57 + at,
        kind: CBad::Token,
    })
}

#[test]
fn worked_program(rt: HostRuntime) {
    let alloc = rt.alloc();
    let text = b"#include <stdint.h>
/* fic f a:s8.4:1x1 b:s8.4:1x1 -> y:s17.8:1x1 */
int32_t fic_f(const int8_t in_a[1], const int8_t in_b[1], int32_t out_y[1]) {
  int64_t v0 = INT64_C(0);
  int64_t v1 = INT64_C(0);
  v0 = ((int64_t)in_a[INT64_C(0)] * (int64_t)in_b[INT64_C(0)]);
  v1 = (v0 + ((int64_t)in_a[INT64_C(0)] * INT64_C(16)));
  out_y[INT64_C(0)] = (int32_t)v1;
  return INT32_C(0);
}
";
    assert_eq!(rt; read(alloc, text), Answer::Program);
}

#[test]
fn interface_without_slots(rt: HostRuntime) {
    let alloc = rt.alloc();
    let text = b"#include <stdint.h>\n/* fic f -> */\nint32_t fic_f() { return INT32_C(0); }";
    let want = Answer::Refused(CRefusal {
        offset: 35,
        kind: CBad::Token,
    });
    assert_eq!(rt; read(alloc, text), want);
}

#[test]
fn values(rt: HostRuntime) -> Result<(), Fail> {
    let alloc = rt.alloc();
    assert_eq!(rt;
        valued(alloc, "(int64_t)in_a[INT64_C(0)]")?,
        Answer::Program
    );
    // an element read has its cast
    assert_eq!(rt; valued(alloc, "in_a[INT64_C(0)]")?, token(83));
    // a decimal has no 0 in front
    assert_eq!(rt; valued(alloc, "INT64_C(00)")?, token(91));
    // a number, and then a word
    assert_eq!(rt; valued(alloc, "INT64_C(8x)")?, token(92));
    // a variable that isn't declared
    assert_eq!(rt; valued(alloc, "v1")?, token(83));
    // a byte that begins no token
    assert_eq!(rt; valued(alloc, "@")?, token(83));
    // a carriage return is no blank
    assert_eq!(rt; valued(alloc, "v0\r")?, token(85));
    assert_eq!(rt; valued(alloc, "\tv0\n")?, Answer::Program);
    Ok(())
}

#[test]
fn ends_of_a_function(rt: HostRuntime) -> Result<(), Fail> {
    let alloc = rt.alloc();
    assert_eq!(rt; behind_front(alloc, "")?, token(0));
    assert_eq!(rt; behind_front(alloc, " int32_t")?, token(0));
    assert_eq!(rt; behind_front(alloc, "int32_t fic_f(const")?, token(19));
    // a word that is cut off is refused at its first byte
    assert_eq!(rt; behind_front(alloc, "int32_t fic_")?, token(8));
    let whole = "int32_t fic_f(const int8_t in_a[1],int8_t out_y[1]){return INT32_C(0);";
    let text = format!(in alloc; "{FRONT}{whole}")?;
    assert_eq!(rt; read(alloc, text.as_bytes()), token(70));
    let text = format!(in alloc; "{FRONT}{whole}}} ")?;
    assert_eq!(rt; read(alloc, text.as_bytes()), Answer::Program);
    let text = format!(in alloc; "{FRONT}{whole}}} }}")?;
    assert_eq!(rt; read(alloc, text.as_bytes()), token(72));
    let text = format!(in alloc; "{FRONT}{whole}}}\r")?;
    assert_eq!(rt; read(alloc, text.as_bytes()), token(71));
    Ok(())
}

/// A value with so many parentheses, and what stands within the innermost one.
fn nested(alloc: Global, count: usize, inner: &str) -> Result<Answer, Fail> {
    let mut value = String::new(alloc);
    for _ in 0..count {
        value.push('(')?;
    }
    value.push_str(inner)?;
    for _ in 0..count {
        value.push_str("+v0)")?;
    }
    valued(alloc, value.as_str())
}

#[test]
fn depths(rt: HostRuntime) -> Result<(), Fail> {
    let alloc = rt.alloc();
    // the brace of the function is one deep, so the last of 499 parentheses is 500 deep
    assert_eq!(rt; nested(alloc, 499, "v0")?, Answer::Program);
    let limit = Answer::Refused(CRefusal {
        offset: 57 + 83 + 499,
        kind: CBad::Limit,
    });
    assert_eq!(rt; nested(alloc, 500, "v0")?, limit);
    // a cast counts in what follows it, here in the parenthesis of its constant
    assert_eq!(rt;
        nested(alloc, 497, "(int64_t)UINT64_C(1)")?,
        Answer::Program
    );
    let limit = Answer::Refused(CRefusal {
        offset: 57 + 83 + 498 + 17,
        kind: CBad::Limit,
    });
    assert_eq!(rt; nested(alloc, 498, "(int64_t)UINT64_C(1)")?, limit);
    // where a parenthesis is deep and no program goes on with it, it is a bad token
    assert_eq!(rt; nested(alloc, 499, "v0(")?, token(83 + 499 + 2));
    Ok(())
}
