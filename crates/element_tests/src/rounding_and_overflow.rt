//! Tables of worked values, from the inequalities by hand.

use fi_quant::*;
use num_type::{Int, NumType, Overflow, Rounding};

/// Whether a number is the one that a table states.
fn is(q: Int, negative: bool, size: u128) -> bool {
    q.is_negative() == negative && q.magnitude() == size
}

/// Whether the methods round a size by `k` bits as a row says, above 0 and below 0. A row has the sizes for Ceiling, Floor, Zero,
/// Nearest, Round and Convergent.
fn rounds(size: u128, k: u32, above: [u128; 6], below: [u128; 6]) -> bool {
    rounds_to(false, size, k, above) && rounds_to(true, size, k, below)
}

fn rounds_to(negative: bool, size: u128, k: u32, row: [u128; 6]) -> bool {
    rounds_by(Rounding::Ceiling, negative, size, k, row[0])
        && rounds_by(Rounding::Floor, negative, size, k, row[1])
        && rounds_by(Rounding::Zero, negative, size, k, row[2])
        && rounds_by(Rounding::Nearest, negative, size, k, row[3])
        && rounds_by(Rounding::Round, negative, size, k, row[4])
        && rounds_by(Rounding::Convergent, negative, size, k, row[5])
}

fn rounds_by(method: Rounding, negative: bool, size: u128, k: u32, want: u128) -> bool {
    is(
        round(method, Int::of(negative, size), k),
        negative && want != 0,
        want,
    )
}

#[test]
fn rounds_whole_numbers(rt: HostRuntime) {
    for size in [0, 1, 5, 340282366920938463463374607431768211455] {
        assert!(rt; rounds(size, 0, [size; 6], [size; 6]));
    }
    assert!(rt; rounds(0, 200, [0; 6], [0; 6]));
    assert!(rt; rounds(6, 1, [3; 6], [3; 6]));
}

#[test]
fn rounds_halves(rt: HostRuntime) {
    assert!(rt; rounds(1, 1, [1, 0, 0, 1, 1, 0], [0, 1, 0, 0, 1, 0]));
    assert!(rt; rounds(3, 1, [2, 1, 1, 2, 2, 2], [1, 2, 1, 1, 2, 2]));
    assert!(rt; rounds(5, 1, [3, 2, 2, 3, 3, 2], [2, 3, 2, 2, 3, 2]));
    assert!(rt; rounds(7, 1, [4, 3, 3, 4, 4, 4], [3, 4, 3, 3, 4, 4]));
}

#[test]
fn rounds_at_ties(rt: HostRuntime) {
    for k in [63u32, 64, 127] {
        let half = 1u128 << (k - 1);
        assert!(rt; rounds(half - 1, k, [1, 0, 0, 0, 0, 0], [0, 1, 0, 0, 0, 0]));
        assert!(rt; rounds(half, k, [1, 0, 0, 1, 1, 0], [0, 1, 0, 0, 1, 0]));
        assert!(rt; rounds(half + 1, k, [1, 0, 0, 1, 1, 1], [0, 1, 0, 1, 1, 1]));
        let more = half + (half << 1);
        assert!(rt; rounds(more - 1, k, [2, 1, 1, 1, 1, 1], [1, 2, 1, 1, 1, 1]));
        assert!(rt; rounds(more, k, [2, 1, 1, 2, 2, 2], [1, 2, 1, 1, 2, 2]));
        assert!(rt; rounds(more + 1, k, [2, 1, 1, 2, 2, 2], [1, 2, 1, 2, 2, 2]));
    }
}

#[test]
fn rounds_past_128_bits(rt: HostRuntime) {
    let half = 170141183460469231731687303715884105728;
    let most = 340282366920938463463374607431768211455;
    assert!(rt; rounds(half - 1, 128, [1, 0, 0, 0, 0, 0], [0, 1, 0, 0, 0, 0]));
    assert!(rt; rounds(half, 128, [1, 0, 0, 1, 1, 0], [0, 1, 0, 0, 1, 0]));
    assert!(rt; rounds(half + 1, 128, [1, 0, 0, 1, 1, 1], [0, 1, 0, 1, 1, 1]));
    assert!(rt; rounds(most, 128, [1, 0, 0, 1, 1, 1], [0, 1, 0, 1, 1, 1]));
    assert!(rt; rounds(1, 200, [1, 0, 0, 0, 0, 0], [0, 1, 0, 0, 0, 0]));
    assert!(rt; rounds(most, 200, [1, 0, 0, 0, 0, 0], [0, 1, 0, 0, 0, 0]));
}

#[test]
fn fits_eight_bits(rt: HostRuntime) {
    if let Some(t) = NumType::make(true, 8, 0) {
        assert!(rt; is(fit(Overflow::Saturate, t, Int::of(false, 200)), false, 127));
        assert!(rt; is(fit(Overflow::Wrap, t, Int::of(false, 200)), true, 56));
        assert!(rt; is(fit(Overflow::Saturate, t, Int::of(true, 129)), true, 128));
        assert!(rt; is(fit(Overflow::Wrap, t, Int::of(true, 129)), false, 127));
        assert!(rt; is(fit(Overflow::Wrap, t, Int::of(true, 128)), true, 128));
    } else {
        assert!(rt; false);
    }
    if let Some(t) = NumType::make(false, 8, 0) {
        assert!(rt; is(fit(Overflow::Saturate, t, Int::of(true, 2)), false, 0));
        assert!(rt; is(fit(Overflow::Wrap, t, Int::of(true, 2)), false, 254));
        assert!(rt; is(fit(Overflow::Wrap, t, Int::of(false, 256)), false, 0));
    } else {
        assert!(rt; false);
    }
}

#[test]
fn quantises_far(rt: HostRuntime) {
    if let Some(t) = NumType::make(true, 64, 60) {
        let one = Int::of(false, 1);
        let minus = Int::of(true, 1);
        let most = 9223372036854775807;
        let method = Rounding::Nearest;
        assert!(rt;
            is(
                quantise(t, method, Overflow::Saturate, one, -200),
                false,
                most
            )
        );
        assert!(rt; is(quantise(t, method, Overflow::Wrap, one, -200), false, 0));
        assert!(rt;
            is(
                quantise(t, method, Overflow::Saturate, minus, -200),
                true,
                most + 1
            )
        );
        assert!(rt; is(quantise(t, method, Overflow::Wrap, minus, -200), false, 0));
        assert!(rt;
            is(
                quantise(t, method, Overflow::Saturate, Int::of(false, 0), -200),
                false,
                0
            )
        );
        assert!(rt;
            is(
                quantise(t, method, Overflow::Wrap, Int::of(true, 3), 61),
                true,
                1
            )
        );
    } else {
        assert!(rt; false);
    }
}

#[test]
fn fits_sums_past_128_bits(rt: HostRuntime) {
    if let Some(t) = NumType::make(true, 8, 0) {
        let top = Int::of(false, 340282366920938463463374607431768211455);
        assert!(rt; is(fit_sum(Overflow::Wrap, t, top, top), true, 2));
        assert!(rt; is(fit_sum(Overflow::Saturate, t, top, top), false, 127));
        assert!(rt;
            is(
                fit_sum(
                    Overflow::Saturate,
                    t,
                    Int::of(true, 100),
                    Int::of(true, 100)
                ),
                true,
                128
            )
        );
        assert!(rt;
            is(
                fit_sum(Overflow::Wrap, t, Int::of(true, 100), Int::of(false, 30)),
                true,
                70
            )
        );
    } else {
        assert!(rt; false);
    }
}
