//! Texts of rows, in which a backslash begins what has no place in a line.

ghost use Rattle.std.specs.Prelude.{◌<◌, IfSome};

use std::alloc::Global;

/// The bytes that a text of a row stands for: `\n`, `\t` and `\r` are a line feed, a tab and a carriage return, and `\x` with two hex
/// digits is that byte.
pub fn bytes_of(alloc: Global, text: &str) -> anyhow::Result<Vec<u8>> {
    let mut out = Vec::new(alloc);
    let mut is_first = true;
    for piece in text.split('\\') {
        if is_first {
            out.extend_from_slice(piece.as_bytes())?;
        } else {
            put_escaped(&mut out, piece.as_bytes())?;
        }
        is_first = false;
    }
    Ok(out)
}

// What stands behind a backslash.
fn put_escaped(out: &mut Vec<u8>, piece: &[u8]) -> anyhow::Result<()> {
    let Some((byte, rest)) = escaped(piece) else {
        anyhow::bail!("no byte behind a backslash");
    };
    out.push(byte)?;
    out.extend_from_slice(rest)?;
    Ok(())
}

// The byte that a letter behind a backslash stands for, and what comes behind it.
fn escaped(piece: &[u8]) -> Option<(u8, &[u8])> {
    let (kind, rest) = piece.split_first()?;
    match *kind {
        b'n' => Some((b'\n', rest)),
        b't' => Some((b'\t', rest)),
        b'r' => Some((b'\r', rest)),
        b'x' => hex_byte(rest),
        _ => None,
    }
}

// The byte that two hex digits are, and what stands behind them.
fn hex_byte(text: &[u8]) -> Option<(u8, &[u8])> {
    let (high, more) = text.split_first()?;
    let (low, behind) = more.split_first()?;
    Some((hex_digit(*high)? * 16 + hex_digit(*low)?, behind))
}

// The number that a hex digit is.
fn hex_digit(digit: u8) -> Option<u8>
    ensures { IfSome result (λ d. d < 16) }
{
    match digit {
        b'0'..=b'9' => Some(digit - b'0'),
        b'a'..=b'f' => Some(digit - b'a' + 10),
        _ => None,
    }
}
