//! Tables of worked operations on complex elements.

use fi_complex::*;
use fi_math::{Fimath, Mode, add_type, product_type, sum_type};
use fi_ops::{Elem, Pair, cadd};
use fi_quant::fit;
use num_type::{Int, NumType, Overflow, Rounding};

/// A signed type's word length and fraction length, and the sign and size of a stored integer.
type Parts = (u32, i32, bool, u128);

/// The same for two stored integers, the real one and the imaginary one.
type PairParts = (u32, i32, bool, u128, bool, u128);

/// The element with these parts, whose stored integer is in range.
fn element(parts: Parts) -> Option<Elem> {
    match NumType::make(true, parts.0, parts.1) {
        Some(num) => Some(Elem {
            num,
            z: fit(Overflow::Saturate, num, Int::of(parts.2, parts.3)),
        }),
        None => None,
    }
}

/// The complex element with these parts, which are in range.
fn pair(parts: PairParts) -> Option<Pair> {
    match NumType::make(true, parts.0, parts.1) {
        Some(num) => Some(Pair {
            num,
            re: fit(Overflow::Saturate, num, Int::of(parts.2, parts.3)),
            im: fit(Overflow::Saturate, num, Int::of(parts.4, parts.5)),
        }),
        None => None,
    }
}

/// Whether a complex element has these parts.
fn is_pair(e: Pair, want: PairParts) -> bool {
    let num = e.num;
    let re = e.re;
    let im = e.im;
    num.signed()
        && num.word() == want.0
        && num.fraction() == want.1
        && re.is_negative() == want.2
        && re.magnitude() == want.3
        && im.is_negative() == want.4
        && im.magnitude() == want.5
}

/// The default fimath with another rounding method, with products and sums of eight bits without a fraction, and with this
/// CastBeforeSum.
fn to_eight(rounding: Rounding, cast_before_sum: bool) -> Fimath {
    let usual = Fimath::usual();
    Fimath {
        rounding,
        overflow: usual.overflow,
        product_mode: Mode::SpecifyPrecision,
        product_word: 8,
        product_fraction: 0,
        sum_mode: Mode::SpecifyPrecision,
        sum_word: 8,
        sum_fraction: 0,
        cast_before_sum,
    }
}

/// Whether a real element times a complex one gives what is stated, with the real one on the left and on the right.
fn multiplies(m: &Fimath, a: Parts, b: PairParts, want: PairParts) -> bool {
    match (element(a), pair(b)) {
        (Some(a), Some(b)) => multiplies_left(m, &a, &b, want) && multiplies_right(m, &a, &b, want),
        _ => false,
    }
}

fn multiplies_left(m: &Fimath, a: &Elem, b: &Pair, want: PairParts) -> bool {
    match product_type(m, a.num, b.num) {
        Ok(t) => is_pair(mul_real(m, t, *a, *b), want),
        Err(_) => false,
    }
}

fn multiplies_right(m: &Fimath, a: &Elem, b: &Pair, want: PairParts) -> bool {
    match product_type(m, b.num, a.num) {
        Ok(t) => is_pair(mul_by_real(m, t, *b, *a), want),
        Err(_) => false,
    }
}

/// 3 times 1 - 2i is 3 - 6i. With products of eight bits without a fraction 0.5 times 1 - 1i is 1 + 0i: 0.5 goes to 1, and -0.5 to 0.
#[test]
fn multiplies_by_real_elements(rt: HostRuntime) {
    assert!(rt;
        multiplies(
            &Fimath::usual(),
            (8, 0, false, 3),
            (8, 0, false, 1, true, 2),
            (16, 0, false, 3, true, 6)
        )
    );
    assert!(rt;
        multiplies(
            &to_eight(Rounding::Nearest, true),
            (8, 4, false, 8),
            (8, 0, false, 1, true, 1),
            (8, 0, false, 1, false, 0)
        )
    );
}

/// Whether the sum of a real and a complex element is what is stated.
fn adds(a: Parts, b: PairParts, want: PairParts) -> bool {
    match (element(a), pair(b)) {
        (Some(a), Some(b)) => adds_of(&Fimath::usual(), a, b, want),
        _ => false,
    }
}

fn adds_of(m: &Fimath, a: Elem, b: Pair, want: PairParts) -> bool {
    let x = as_complex(a);
    match add_type(m, x.num, b.num) {
        Ok(t) => is_pair(cadd(m, t, x, b), want),
        Err(_) => false,
    }
}

/// -5 and 1 + 2i have the sum -4 + 2i.
#[test]
fn adds_real_elements(rt: HostRuntime) {
    assert!(rt;
        adds(
            (8, 0, true, 5),
            (8, 0, false, 1, false, 2),
            (9, 0, true, 4, false, 2)
        )
    );
}

/// Whether an element put together from the parts of another is that one, with its parts exchanged.
fn exchanges(a: PairParts, want: PairParts) -> bool {
    match pair(a) {
        Some(a) => is_pair(complex(imaginary_part(&a), real_part(&a)), want),
        None => false,
    }
}

#[test]
fn takes_and_gives_parts(rt: HostRuntime) {
    assert!(rt; exchanges((8, 2, false, 3, true, 4), (8, 2, true, 4, false, 3)));
}

/// Whether one step from this start in the sum type of four addends gives what is stated.
fn steps(m: &Fimath, start: (bool, u128, bool, u128), a: PairParts, want: PairParts) -> bool {
    match pair(a) {
        Some(a) => steps_of(m, start, a, want),
        None => false,
    }
}

fn steps_of(m: &Fimath, start: (bool, u128, bool, u128), a: Pair, want: PairParts) -> bool {
    match sum_type(m, a.num, 4) {
        Ok(t) => {
            let acc = Pair {
                num: t,
                re: fit(Overflow::Saturate, t, Int::of(start.0, start.1)),
                im: fit(Overflow::Saturate, t, Int::of(start.2, start.3)),
            };
            is_pair(caccumulate(m, t, acc, a), want)
        }
        Err(_) => false,
    }
}

/// With Zero and sums of eight bits without a fraction, -1 + 1i and 0.5 - 0.5i: with CastBeforeSum the addend is 0 first, and without it
/// the sums -0.5 and 0.5 are 0.
#[test]
fn accumulates(rt: HostRuntime) {
    assert!(rt;
        steps(
            &Fimath::usual(),
            (false, 100, true, 5),
            (8, 0, true, 128, false, 127),
            (10, 0, true, 28, false, 122)
        )
    );
    let half = (8, 4, false, 8, true, 8);
    let start = (true, 1, false, 1);
    assert!(rt;
        steps(
            &to_eight(Rounding::Zero, true),
            start,
            half,
            (8, 0, true, 1, false, 1)
        )
    );
    assert!(rt;
        steps(
            &to_eight(Rounding::Zero, false),
            start,
            half,
            (8, 0, false, 0, false, 0)
        )
    );
}
