//! Tables of worked operations.

use fi_math::{Fimath, Mode, add_type, complex_product_type, product_type, sub_type, sum_type};
use fi_ops::*;
use fi_quant::fit;
use num_type::{Int, NumType, Overflow, Rounding};
use std::cmp::Ordering;

/// A type's signedness, word length and fraction length, and a stored integer's sign and size.
type Parts = (bool, u32, i32, bool, u128);

/// An operation.
#[derive(Clone, Copy)]
enum Call {
    Add,
    Sub,
    Mul,
    Neg,
    Abs,
}

/// The element with these parts, whose stored integer is in range.
fn element(parts: Parts) -> Option<Elem> {
    match NumType::make(parts.0, parts.1, parts.2) {
        Some(num) => Some(Elem {
            num,
            z: fit(Overflow::Saturate, num, Int::of(parts.3, parts.4)),
        }),
        None => None,
    }
}

/// Whether an element has these parts.
fn is(e: Elem, want: Parts) -> bool {
    let num = e.num;
    let z = e.z;
    num.signed() == want.0
        && num.word() == want.1
        && num.fraction() == want.2
        && z.is_negative() == want.3
        && z.magnitude() == want.4
}

/// Whether an operation gives what a table states.
fn gives(m: &Fimath, call: Call, a: Parts, b: Parts, want: Parts) -> bool {
    match (element(a), element(b)) {
        (Some(a), Some(b)) => match call {
            Call::Add => adds(m, a, b, want),
            Call::Sub => subtracts(m, a, b, want),
            Call::Mul => multiplies(m, a, b, want),
            Call::Neg => is(neg(m, a), want),
            Call::Abs => is(abs(m, a), want),
        },
        _ => false,
    }
}

fn adds(m: &Fimath, a: Elem, b: Elem, want: Parts) -> bool {
    match add_type(m, a.num, b.num) {
        Ok(t) => is(add(m, t, a, b), want),
        Err(_) => false,
    }
}

fn subtracts(m: &Fimath, a: Elem, b: Elem, want: Parts) -> bool {
    match sub_type(m, a.num, b.num) {
        Ok(t) => is(sub(m, t, a, b), want),
        Err(_) => false,
    }
}

fn multiplies(m: &Fimath, a: Elem, b: Elem, want: Parts) -> bool {
    match product_type(m, a.num, b.num) {
        Ok(t) => is(mul(m, t, a, b), want),
        Err(_) => false,
    }
}

/// The default fimath with another overflow action.
fn usual_with(overflow: Overflow) -> Fimath {
    let usual = Fimath::usual();
    Fimath {
        rounding: usual.rounding,
        overflow,
        product_mode: usual.product_mode,
        product_word: usual.product_word,
        product_fraction: usual.product_fraction,
        sum_mode: usual.sum_mode,
        sum_word: usual.sum_word,
        sum_fraction: usual.sum_fraction,
        cast_before_sum: usual.cast_before_sum,
    }
}

/// Floor, and sums of eight bits without fraction.
fn floor_to_eight(cast_before_sum: bool) -> Fimath {
    let usual = Fimath::usual();
    Fimath {
        rounding: Rounding::Floor,
        overflow: usual.overflow,
        product_mode: usual.product_mode,
        product_word: usual.product_word,
        product_fraction: usual.product_fraction,
        sum_mode: Mode::SpecifyPrecision,
        sum_word: 8,
        sum_fraction: 0,
        cast_before_sum,
    }
}

#[test]
fn saturates(rt: HostRuntime) {
    let m = Fimath::usual();
    let low = (true, 8, 0, true, 128);
    let least = (true, 64, 0, true, 9223372036854775808);
    let three = (false, 8, 0, false, 3);
    let five = (false, 8, 0, false, 5);
    for (call, a, b, want) in [
        (Call::Neg, low, low, (true, 8, 0, false, 127)),
        (
            Call::Neg,
            least,
            least,
            (true, 64, 0, false, 9223372036854775807),
        ),
        (Call::Neg, three, three, (false, 8, 0, false, 0)),
        (Call::Abs, low, low, (true, 8, 0, false, 127)),
        (Call::Sub, three, five, (false, 9, 0, false, 0)),
    ] {
        assert!(rt; gives(&m, call, a, b, want));
    }
}

#[test]
fn wraps(rt: HostRuntime) {
    let m = usual_with(Overflow::Wrap);
    let low = (true, 8, 0, true, 128);
    let three = (false, 8, 0, false, 3);
    let five = (false, 8, 0, false, 5);
    for (call, a, b, want) in [
        (Call::Neg, low, low, low),
        (Call::Abs, low, low, low),
        (Call::Neg, three, three, (false, 8, 0, false, 253)),
        (Call::Sub, three, five, (false, 9, 0, false, 510)),
    ] {
        assert!(rt; gives(&m, call, a, b, want));
    }
}

#[test]
fn multiplies_and_adds(rt: HostRuntime) {
    let m = Fimath::usual();
    let a = (true, 8, 4, false, 24);
    let b = (true, 8, 4, true, 32);
    let product = (true, 16, 8, true, 768);
    let two = (true, 16, 13, false, 16384);
    let half = (true, 16, 15, false, 16384);
    assert!(rt; gives(&m, Call::Mul, a, b, product));
    assert!(rt; gives(&m, Call::Add, product, a, (true, 17, 8, true, 384)));
    assert!(rt; gives(&m, Call::Mul, two, half, (true, 32, 28, false, 268435456)));
    assert!(rt; gives(&m, Call::Sub, a, b, (true, 9, 4, false, 56)));
}

#[test]
fn casts_before_sum(rt: HostRuntime) {
    let half = (true, 8, 4, false, 8);
    assert!(rt;
        gives(
            &floor_to_eight(true),
            Call::Add,
            half,
            half,
            (true, 8, 0, false, 0)
        )
    );
    assert!(rt;
        gives(
            &floor_to_eight(false),
            Call::Add,
            half,
            half,
            (true, 8, 0, false, 1)
        )
    );
}

#[test]
fn compares_values(rt: HostRuntime) {
    for (a, b, want) in [
        (
            (true, 8, 4, false, 8),
            (false, 8, 1, false, 1),
            Ordering::Equal,
        ),
        (
            (true, 8, 0, true, 1),
            (false, 8, 0, false, 255),
            Ordering::Less,
        ),
        (
            (true, 8, -256, false, 1),
            (true, 8, 256, false, 127),
            Ordering::Greater,
        ),
        (
            (true, 8, -256, true, 1),
            (true, 8, 256, true, 128),
            Ordering::Less,
        ),
        ((true, 8, 4, true, 9), (true, 8, 1, true, 1), Ordering::Less),
        (
            (true, 8, 4, true, 8),
            (true, 8, 1, true, 1),
            Ordering::Equal,
        ),
        (
            (false, 8, 256, false, 0),
            (true, 8, -256, false, 0),
            Ordering::Equal,
        ),
    ] {
        assert!(rt; in_order(a, b, want));
    }
}

fn in_order(a: Parts, b: Parts, want: Ordering) -> bool {
    match (element(a), element(b)) {
        (Some(a), Some(b)) => compare(a, b) == want,
        _ => false,
    }
}

/// A complex element's word length, and the sign and size of its real and of its imaginary part. Its type is signed, without fraction.
type PairParts = (u32, bool, u128, bool, u128);

/// Whether a complex element has these parts.
fn is_pair(e: Pair, want: PairParts) -> bool {
    let num = e.num;
    let re = e.re;
    let im = e.im;
    num.signed()
        && num.word() == want.0
        && num.fraction() == 0
        && re.is_negative() == want.1
        && re.magnitude() == want.2
        && im.is_negative() == want.3
        && im.magnitude() == want.4
}

/// The complex element with these parts, which are in range.
fn pair(parts: PairParts) -> Option<Pair> {
    match NumType::make(true, parts.0, 0) {
        Some(num) => Some(Pair {
            num,
            re: fit(Overflow::Saturate, num, Int::of(parts.1, parts.2)),
            im: fit(Overflow::Saturate, num, Int::of(parts.3, parts.4)),
        }),
        None => None,
    }
}

/// Whether an operation on complex elements gives what a table states.
fn gives_pair(m: &Fimath, call: Call, a: PairParts, b: PairParts, want: PairParts) -> bool {
    match (pair(a), pair(b)) {
        (Some(a), Some(b)) => match call {
            Call::Add => adds_pairs(m, a, b, want),
            Call::Sub => subtracts_pairs(m, a, b, want),
            Call::Mul => multiplies_pairs(m, a, b, want),
            Call::Neg | Call::Abs => is_pair(conj(m, a), want),
        },
        _ => false,
    }
}

fn adds_pairs(m: &Fimath, a: Pair, b: Pair, want: PairParts) -> bool {
    match add_type(m, a.num, b.num) {
        Ok(t) => is_pair(cadd(m, t, a, b), want),
        Err(_) => false,
    }
}

fn subtracts_pairs(m: &Fimath, a: Pair, b: Pair, want: PairParts) -> bool {
    match sub_type(m, a.num, b.num) {
        Ok(t) => is_pair(csub(m, t, a, b), want),
        Err(_) => false,
    }
}

fn multiplies_pairs(m: &Fimath, a: Pair, b: Pair, want: PairParts) -> bool {
    match complex_product_type(m, a.num, b.num) {
        Ok(t) => is_pair(cmul(m, t, a, b), want),
        Err(_) => false,
    }
}

#[test]
fn computes_with_complex_elements(rt: HostRuntime) {
    let m = Fimath::usual();
    let a = (8, false, 100, true, 128);
    let b = (8, true, 100, true, 100);
    for (call, a, b, want) in [
        (
            Call::Mul,
            (8, false, 1, false, 2),
            (8, false, 3, true, 1),
            (17, false, 5, false, 5),
        ),
        (Call::Add, a, b, (9, false, 0, true, 228)),
        (Call::Sub, a, b, (9, false, 200, true, 28)),
        (Call::Neg, a, a, (8, false, 100, false, 127)),
    ] {
        assert!(rt; gives_pair(&m, call, a, b, want));
    }
}

/// Whether one step from this start in the sum type of four addends gives what is stated.
fn steps(m: &Fimath, start: (bool, u128), a: Elem, want: Parts) -> bool {
    match sum_type(m, a.num, 4) {
        Ok(t) => {
            let acc = Elem {
                num: t,
                z: fit(Overflow::Saturate, t, Int::of(start.0, start.1)),
            };
            is(accumulate(m, t, acc, a), want)
        }
        Err(_) => false,
    }
}

#[test]
fn accumulates(rt: HostRuntime) {
    let m = Fimath::usual();
    match element((true, 8, 0, true, 128)) {
        Some(a) => assert!(rt; steps(&m, (false, 100), a, (true, 10, 0, true, 28))),
        None => assert!(rt; false),
    }
}

/// An operation on bits.
#[derive(Clone, Copy)]
enum BitCall {
    Sll(u32),
    Srl(u32),
    Sra(u32),
    Not,
    Slice(u32, u32),
}

/// Whether an operation on bits gives what a table states.
fn gives_bits(call: BitCall, a: Parts, want: Parts) -> bool {
    match element(a) {
        Some(a) => gives_bits_of(call, a, want),
        None => false,
    }
}

fn gives_bits_of(call: BitCall, a: Elem, want: Parts) -> bool {
    let word = a.num.word();
    match call {
        BitCall::Sll(k) => k < word && is(bit_sll(a, k), want),
        BitCall::Srl(k) => k < word && is(bit_srl(a, k), want),
        BitCall::Sra(k) => k < word && is(bit_sra(a, k), want),
        BitCall::Not => is(bit_not(a), want),
        BitCall::Slice(left, right) => 1 <= right
            && right <= left
            && left <= word
            && is(bit_slice(a, left, right), want),
    }
}

#[test]
fn moves_bits(rt: HostRuntime) {
    let minus = (true, 8, 0, true, 5);
    for (call, a, want) in [
        (BitCall::Sra(1), minus, (true, 8, 0, true, 3)),
        (BitCall::Srl(1), minus, (true, 8, 0, false, 125)),
        (
            BitCall::Sll(1),
            (true, 8, 0, false, 100),
            (true, 8, 0, true, 56),
        ),
        (BitCall::Not, (true, 8, 0, false, 5), (true, 8, 0, true, 6)),
        (
            BitCall::Not,
            (false, 8, 0, false, 5),
            (false, 8, 0, false, 250),
        ),
        (
            BitCall::Slice(6, 3),
            (false, 8, 0, false, 180),
            (false, 4, 0, false, 13),
        ),
    ] {
        assert!(rt; gives_bits(call, a, want));
    }
}

/// Whether the bits of two elements side by side are those stated.
fn concatenates(a: Parts, b: Parts, want: Parts) -> bool {
    match (element(a), element(b)) {
        (Some(a), Some(b)) => match bit_concat(a, b) {
            Some(e) => is(e, want),
            None => false,
        },
        _ => false,
    }
}

#[test]
fn joins_bits(rt: HostRuntime) {
    assert!(rt;
        concatenates(
            (true, 4, 0, true, 1),
            (false, 4, 0, false, 3),
            (false, 8, 0, false, 243)
        )
    );
    assert!(rt;
        !concatenates(
            (true, 64, 0, true, 1),
            (false, 4, 0, false, 3),
            (false, 68, 0, false, 0)
        )
    );
}
