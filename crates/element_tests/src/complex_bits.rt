//! Tables of worked operations on the bits of complex elements.

use fi_bits::*;
use fi_ops::Pair;
use fi_quant::fit;
use num_type::{Int, NumType, Overflow};

/// The sign and the size of the real part, and those of the imaginary one.
type PairParts = (bool, u128, bool, u128);

/// An operation on bits.
#[derive(Clone, Copy)]
enum BitCall {
    Sll(u32),
    Srl(u32),
    Sra(u32),
    Not,
    Slice(u32, u32),
}

/// The complex element of this type with these parts, which are in range.
fn pair(num: NumType, parts: PairParts) -> Pair {
    Pair {
        num,
        re: fit(Overflow::Saturate, num, Int::of(parts.0, parts.1)),
        im: fit(Overflow::Saturate, num, Int::of(parts.2, parts.3)),
    }
}

/// Whether a complex element has this signedness, word length and fraction length, and these parts.
fn is(e: Pair, signed: bool, word: u32, fraction: i32, want: PairParts) -> bool {
    let num = e.num;
    let re = e.re;
    let im = e.im;
    num.signed() == signed
        && num.word() == word
        && num.fraction() == fraction
        && re.is_negative() == want.0
        && re.magnitude() == want.1
        && im.is_negative() == want.2
        && im.magnitude() == want.3
}

/// Whether an operation on a complex element of eight bits, three of them behind the point, gives what a table states. A slice is
/// unsigned, without a fraction, and has the bits from the left one down to the right one.
fn gives(call: BitCall, signed: bool, a: PairParts, want: PairParts) -> bool {
    match NumType::make(signed, 8, 3) {
        Some(num) => gives_of(call, pair(num, a), signed, want),
        None => false,
    }
}

fn gives_of(call: BitCall, a: Pair, signed: bool, want: PairParts) -> bool {
    let word = a.num.word();
    match call {
        BitCall::Sll(k) => k < word && is(cbit_sll(a, k), signed, 8, 3, want),
        BitCall::Srl(k) => k < word && is(cbit_srl(a, k), signed, 8, 3, want),
        BitCall::Sra(k) => k < word && is(cbit_sra(a, k), signed, 8, 3, want),
        BitCall::Not => is(cbit_not(a), signed, 8, 3, want),
        BitCall::Slice(left, right) => 1 <= right
            && right <= left
            && left <= word
            && is(cbit_slice(a, left, right), false, left - right + 1, 0, want),
    }
}

/// -5 is 11111011, 100 is 01100100, 180 is 10110100 and 5 is 00000101.
#[test]
fn moves_bits_of_both_parts(rt: HostRuntime) {
    let a = (true, 5, false, 100);
    let b = (false, 180, false, 5);
    for (call, signed, a, want) in [
        (BitCall::Sra(1), true, a, (true, 3, false, 50)),
        (BitCall::Srl(1), true, a, (false, 125, false, 50)),
        (BitCall::Sll(1), true, a, (true, 10, true, 56)),
        (BitCall::Not, true, a, (false, 4, true, 101)),
        (BitCall::Sra(1), false, b, (false, 90, false, 2)),
        (BitCall::Not, false, b, (false, 75, false, 250)),
        (BitCall::Slice(6, 3), false, b, (false, 13, false, 1)),
    ] {
        assert!(rt; gives(call, signed, a, want));
    }
}
