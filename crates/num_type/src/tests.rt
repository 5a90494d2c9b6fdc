//! Worked numbers, decimals and types.

use crate::*;
use std::cmp::Ordering;
use std::test::Fail;

#[test]
fn decimals(rt: HostRuntime) -> Result<(), Fail> {
    for text in [
        "0",
        "7",
        "-1",
        "65535",
        "-340282366920938463463374607431768211455",
        "340282366920938463463374607431768211455",
    ] {
        let mut out = Vec::new(rt.alloc());
        match read_decimal(text.as_bytes()) {
            Some(n) => write_decimal(n, &mut out).ok().ok_or("memory")?,
            None => assert!(rt; false, "{text}"),
        }
        assert_eq!(rt; out.as_slice(), text.as_bytes());
    }
    Ok(())
}

#[test]
fn no_decimals(rt: HostRuntime) {
    for text in [
        "",
        "-",
        "-0",
        "00",
        "01",
        "+1",
        " 1",
        "1 ",
        "1a",
        "0x1",
        "--1",
        "340282366920938463463374607431768211456",
    ] {
        assert!(rt; read_decimal(text.as_bytes()).is_none(), "{text}");
    }
}

#[test]
fn machine_integers(rt: HostRuntime) {
    assert_eq!(rt; Int::from_i128(-5).to_i64(), Some(-5));
    assert_eq!(rt; Int::of(true, 1 << 63).to_i64(), Some(i64::MIN));
    assert_eq!(rt; Int::of(true, (1 << 63) + 1).to_i64(), None);
    assert_eq!(rt; Int::of(false, 1 << 63).to_i64(), None);
}

#[test]
fn types(rt: HostRuntime) -> Result<(), Fail> {
    let signed = NumType::make(true, 8, 4).ok_or("s8.4")?;
    assert_eq!(rt; signed.low().to_i64(), Some(-128));
    assert_eq!(rt; signed.high().to_i64(), Some(127));
    assert_eq!(rt; signed.container(), Container::I8);
    let unsigned = NumType::make(false, 9, 0).ok_or("u9.0")?;
    assert_eq!(rt; unsigned.low().to_i64(), Some(0));
    assert_eq!(rt; unsigned.high().to_i64(), Some(511));
    assert_eq!(rt; unsigned.container(), Container::U16);
    for (word, fraction) in [(0, 0), (65, 0), (8, -257), (8, 257)] {
        assert!(rt; NumType::make(true, word, fraction).is_none());
    }
    Ok(())
}

#[test]
fn constants(rt: HostRuntime) -> Result<(), Fail> {
    let half = Dyadic::make(4, -3).ok_or("4 * 2^-3")?;
    assert_eq!(rt; half.significand(), 1);
    assert_eq!(rt; half.exponent(), -1);
    let most = Dyadic::make(1, 452).ok_or("2^452")?;
    assert!(rt; most.mul(half).is_some());
    assert!(rt; most.mul(most).is_none());
    for (m, e) in [(1, 453), (1, -401), ((1 << 53) + 1, 0), (3, 452)] {
        assert!(rt; Dyadic::make(m, e).is_none());
    }
    for (m, e) in [(2, -401), (1 << 62, 390), (0, 1000), (3, 451)] {
        assert!(rt; Dyadic::make(m, e).is_some());
    }
    Ok(())
}

#[test]
fn sums_of_constants(rt: HostRuntime) -> Result<(), Fail> {
    let one = Dyadic::make(1, 0).ok_or("1")?;
    let last = Dyadic::make(1, -52).ok_or("2^-52")?;
    let sum = one.add(last).ok_or("1 + 2^-52")?;
    assert_eq!(rt; sum.significand(), (1 << 52) + 1);
    assert_eq!(rt; sum.exponent(), -52);
    let below = Dyadic::make(1, -53).ok_or("2^-53")?;
    assert!(rt; one.add(below).is_none());
    let least = Dyadic::make(-1, -400).ok_or("-2^-400")?;
    assert!(rt; one.add(least).is_none());
    let top = Dyadic::make(1, 452).ok_or("2^452")?;
    assert!(rt; top.add(top).is_none());
    let none = one.sub(one).ok_or("1 - 1")?;
    assert_eq!(rt; none.significand(), 0);
    assert_eq!(rt; none.exponent(), 0);
    assert_eq!(rt; none.sub(top), Some(top.neg()));
    Ok(())
}

#[test]
fn order_of_constants(rt: HostRuntime) -> Result<(), Fail> {
    let three = Dyadic::make(3, 0).ok_or("3")?;
    let top = Dyadic::make(1, 452).ok_or("2^452")?;
    let least = Dyadic::make(1, -400).ok_or("2^-400")?;
    let none = Dyadic::make(0, 0).ok_or("0")?;
    assert_eq!(rt; three.compare(top), Ordering::Less);
    assert_eq!(rt; three.compare(top.neg()), Ordering::Greater);
    assert_eq!(rt; least.compare(none), Ordering::Greater);
    assert_eq!(rt; none.compare(top), Ordering::Less);
    assert_eq!(rt; three.compare(three), Ordering::Equal);
    Ok(())
}

#[test]
fn best_precision(rt: HostRuntime) -> Result<(), Fail> {
    for (signed, word, m, e, fraction) in [
        (true, 16, 1, 0, 14),
        (true, 16, -1, 0, 15),
        (true, 16, 0, 0, 15),
        (true, 16, 2, 0, 13),
        (true, 16, 3, 0, 13),
        (true, 16, 4, 0, 12),
        (true, 16, -4, 0, 13),
        (true, 16, -3, 0, 13),
        (true, 64, 1, -300, 362),
        (true, 64, -1, -300, 363),
        (false, 16, 1, 0, 15),
        (false, 16, -5, 0, 16),
        (false, 128, 1, 452, -325),
        (true, 1, 1, 0, -1),
        (true, 1, -1, 0, 0),
    ] {
        let value = Dyadic::make(m, e).ok_or("no constant")?;
        assert!(rt; word >= 1 && word <= 128);
        assert_eq!(rt; best_fraction(signed, word, &[value]), fraction);
    }
    let small = Dyadic::make(1, -3).ok_or("2^-3")?;
    let large = Dyadic::make(5, 0).ok_or("5")?;
    assert_eq!(rt; best_fraction(true, 8, &[small, large]), 4);
    assert_eq!(rt; best_fraction(false, 8, &[]), 8);
    Ok(())
}
