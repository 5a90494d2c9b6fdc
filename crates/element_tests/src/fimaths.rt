//! Tables of worked types.

use fi_math::*;
use num_type::NumType;

/// A type's signedness, word length and fraction length.
type Parts = (bool, u32, i32);

/// What a table states of a type that is asked for.
#[derive(Clone, Copy)]
enum Want {
    Type(Parts),
    Wide(u32),
    Out(i32),
}

/// The call that makes a type.
#[derive(Clone, Copy)]
enum Call {
    Product,
    Add,
    Sub,
    Sum(u32),
    ComplexProduct,
}

/// Whether a result is the one that the table states.
fn is(made: Result<NumType, NoType>, want: Want) -> bool {
    match (made, want) {
        (Ok(t), Want::Type(parts)) => t.signed() == parts.0
            && t.word() == parts.1
            && t.fraction() == parts.2,
        (Err(NoType::TooWide { word }), Want::Wide(w)) => word == w,
        (Err(NoType::FractionOut { fraction }), Want::Out(f)) => fraction == f,
        _ => false,
    }
}

/// Whether a call gives what the table states for operands of these types.
fn makes(m: &Fimath, call: Call, a: Parts, b: Parts, want: Want) -> bool {
    match (NumType::make(a.0, a.1, a.2), NumType::make(b.0, b.1, b.2)) {
        (Some(a), Some(b)) => match call {
            Call::Product => is(product_type(m, a, b), want),
            Call::Add => is(add_type(m, a, b), want),
            Call::Sub => is(sub_type(m, a, b), want),
            Call::Sum(n) => is(sum_type(m, a, n), want),
            Call::ComplexProduct => is(complex_product_type(m, a, b), want),
        },
        _ => false,
    }
}

/// A fimath with this mode and word length for products and sums, and the fraction length 0.
fn with_mode(mode: Mode, word: u32, cast_before_sum: bool) -> Fimath {
    let usual = Fimath::usual();
    Fimath {
        rounding: usual.rounding,
        overflow: usual.overflow,
        product_mode: mode,
        product_word: word,
        product_fraction: 0,
        sum_mode: mode,
        sum_word: word,
        sum_fraction: 0,
        cast_before_sum,
    }
}

#[test]
fn makes_full_types(rt: HostRuntime) {
    let m = Fimath::usual();
    for (call, a, b, want) in [
        (
            Call::Product,
            (true, 8, 4),
            (true, 8, 4),
            Want::Type((true, 16, 8)),
        ),
        (
            Call::Add,
            (true, 16, 8),
            (true, 8, 4),
            Want::Type((true, 17, 8)),
        ),
        (
            Call::Add,
            (true, 8, 0),
            (false, 8, 0),
            Want::Type((true, 10, 0)),
        ),
        (
            Call::Sub,
            (false, 8, 0),
            (false, 8, 0),
            Want::Type((false, 9, 0)),
        ),
        (
            Call::Product,
            (true, 16, 13),
            (true, 16, 15),
            Want::Type((true, 32, 28)),
        ),
        (Call::Product, (true, 64, 0), (true, 8, 0), Want::Wide(72)),
        (
            Call::Product,
            (true, 8, 200),
            (true, 8, 200),
            Want::Out(400),
        ),
        (
            Call::Product,
            (true, 64, 200),
            (true, 8, 200),
            Want::Wide(72),
        ),
        (Call::Add, (true, 64, 0), (true, 8, 0), Want::Wide(65)),
        (Call::Add, (true, 8, -256), (true, 8, 256), Want::Wide(521)),
        (
            Call::ComplexProduct,
            (true, 8, 0),
            (true, 8, 0),
            Want::Type((true, 17, 0)),
        ),
        (
            Call::ComplexProduct,
            (true, 32, 0),
            (true, 32, 0),
            Want::Wide(65),
        ),
    ] {
        assert!(rt; makes(&m, call, a, b, want));
    }
}

#[test]
fn makes_mode_types(rt: HostRuntime) {
    let a = (true, 16, 15);
    for (mode, word, call, want) in [
        (Mode::KeepMSB, 24, Call::Product, Want::Type((true, 24, 22))),
        (Mode::KeepLSB, 24, Call::Product, Want::Type((true, 24, 30))),
        (
            Mode::SpecifyPrecision,
            24,
            Call::Product,
            Want::Type((true, 24, 0)),
        ),
        (Mode::KeepMSB, 24, Call::Add, Want::Type((true, 24, 22))),
        (Mode::KeepLSB, 24, Call::Sub, Want::Type((true, 24, 15))),
        (Mode::SpecifyPrecision, 65, Call::Add, Want::Wide(65)),
        (Mode::KeepLSB, 0, Call::Product, Want::Wide(0)),
    ] {
        let m = with_mode(mode, word, true);
        assert!(rt; makes(&m, call, a, a, want));
    }
    let far = (true, 32, 250);
    let m = with_mode(Mode::KeepMSB, 64, true);
    assert!(rt; makes(&m, Call::Add, far, far, Want::Out(281)));
}

#[test]
fn makes_sum_types(rt: HostRuntime) {
    let usual = Fimath::usual();
    for (n, word) in [(1, 8), (2, 9), (3, 10), (4, 10), (5, 11), (4096, 20)] {
        assert!(rt;
            makes(
                &usual,
                Call::Sum(n),
                (true, 8, 3),
                (true, 8, 3),
                Want::Type((true, word, 3))
            )
        );
    }
    assert!(rt;
        makes(
            &usual,
            Call::Sum(2),
            (true, 64, 0),
            (true, 64, 0),
            Want::Wide(65)
        )
    );
    let exact = with_mode(Mode::SpecifyPrecision, 64, false);
    assert!(rt;
        makes(
            &exact,
            Call::Sum(2),
            (true, 8, 0),
            (true, 8, 0),
            Want::Wide(65)
        )
    );
    let cast = with_mode(Mode::SpecifyPrecision, 64, true);
    assert!(rt;
        makes(
            &cast,
            Call::Sum(2),
            (true, 8, 0),
            (true, 8, 0),
            Want::Type((true, 64, 0))
        )
    );
}

#[test]
fn governs(rt: HostRuntime) {
    let usual = Fimath::usual();
    let other = with_mode(Mode::KeepLSB, 24, false);
    assert!(rt;
        govern(None, None)
            == Ok(Governed {
                math: usual,
                attached: None
            })
    );
    assert!(rt;
        govern(Some(other), None)
            == Ok(Governed {
                math: other,
                attached: Some(other)
            })
    );
    assert!(rt;
        govern(None, Some(other))
            == Ok(Governed {
                math: other,
                attached: Some(other)
            })
    );
    assert!(rt;
        govern(Some(usual), Some(usual))
            == Ok(Governed {
                math: usual,
                attached: Some(usual)
            })
    );
    assert!(rt;
        govern(Some(other), Some(usual))
            == Err(Differ {
                left: other,
                right: usual
            })
    );
}
