//! Pieces of the text of a type.

ghost use Rattle.std.specs.Prelude.{◌≡◌, ◌++◌, ◌∷◌, take};
ghost use Rattle.shape_rules.specs.Pieces.{place_of, Splits, ReadsU32, ReadsFraction, ReadsSign};

use num_type::{FRACTION_MAX, FRACTION_MIN, read_decimal, read_digits};

// Where the first such byte stands, or how many bytes there are.
fn position(bytes: &[u8], mark: u8) -> usize
    ensures { result ≡ place_of mark bytes.now }
{
    let mut k = 0;
    for b in bytes {
        if *b == mark {
            return k;
        }
        k += 1;
    }
    k
}

/// What stands before the first such byte and what behind it. None exactly where there is none.
pub fn split(bytes: &[u8], mark: u8) -> Option<(&[u8], &[u8])>
    ensures { Splits result bytes.now mark }
{
    let k = position(bytes, mark);
    if k < bytes.len() {
        Some((bytes.split_at(k).0, bytes.split_at(k + 1).1))
    } else {
        None
    }
}

/// The number of a canonical decimal below `2^32`. None exactly where the bytes are none.
pub fn read_u32(bytes: &[u8]) -> Option<u32>
    ensures { ReadsU32 result bytes.now }
{
    match read_digits(bytes) {
        None => None,
        Some(n) => {
            if n <= u32::MAX as u128 {
                Some(n as u32)
            } else {
                None
            }
        }
    }
}

/// The fraction length of a canonical decimal, in bits. None exactly where the bytes are that of no fraction length within the limits.
pub fn read_fraction(bytes: &[u8]) -> Option<i32>
    ensures { ReadsFraction result bytes.now }
{
    match read_decimal(bytes) {
        None => None,
        Some(number) => match number.to_i64() {
            None => None,
            Some(f) => {
                if f >= FRACTION_MIN as i64 && f <= FRACTION_MAX as i64 {
                    Some(f as i32)
                } else {
                    None
                }
            }
        },
    }
}

/// Whether the letter is that of signed types. None exactly where it is that of no types.
pub fn read_sign(letter: u8) -> Option<bool>
    ensures { ReadsSign result letter }
{
    match letter {
        b's' => Some(true),
        b'u' => Some(false),
        _ => None,
    }
}
