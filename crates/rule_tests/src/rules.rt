//! Worked operators, signs and calls.

use fi_math::{Fimath, Mode};
use fi_rules::{
    Asked, Built, BuiltIn, Meeting, Missing, Shown, Side, Signed, Stated, Ty, Work, Working, ask,
    build, built_in, is_same, meet, sign, work_of, work_out,
};
use fic_base::{Code, Text};
use mat_ast::{BinOp, UnOp};
use num_type::{Dyadic, Int, NumType, Overflow, Rounding};
use std::alloc::Global;
use std::test::Fail;

/// A fi of this type, with this attached fimath.
fn fi_with(signed: bool, word: u32, fraction: i32, m: Option<Fimath>) -> Ty {
    match NumType::make(signed, word, fraction) {
        Some(t) => Ty::Fi(t, m),
        None => Ty::Other,
    }
}

/// A fi of this type without an attached fimath.
fn fi(signed: bool, word: u32, fraction: i32) -> Ty {
    fi_with(signed, word, fraction, None)
}

/// The constant `m * 2^e`.
fn number(m: i64, e: i32) -> Ty {
    match Dyadic::make(m, e) {
        Some(c) => Ty::Number(c),
        None => Ty::Other,
    }
}

/// A numerictype object.
fn type_object(signed: bool, word: u32, fraction: i32) -> Ty {
    match NumType::make(signed, word, fraction) {
        Some(t) => Ty::Type(t),
        None => Ty::Other,
    }
}

/// A text.
fn words(alloc: Global, text: &[u8]) -> Ty {
    match Text::from_bytes(alloc, text) {
        Ok(text) => Ty::Words(text),
        Err(_) => Ty::Other,
    }
}

/// Whether a type has these parts.
fn has_parts(t: NumType, signed: bool, word: u32, fraction: i32) -> bool {
    t.signed() == signed && t.word() == word && t.fraction() == fraction
}

/// Whether an operator is refused with this code before its node is counted.
fn meets_not(work: Work, x: &Ty, y: &Ty, code: Code, shown: Shown) -> bool {
    match meet(work, x, y) {
        Ok(_) => false,
        Err(missing) => missing == Missing { code, shown },
    }
}

/// Whether an operator is refused so, and shows itself.
fn is_refused(work: Work, x: &Ty, y: &Ty, code: Code) -> bool {
    meets_not(work, x, y, code, Shown::Itself)
}

/// Whether an operator on constants folds to `m * 2^e`.
fn folds_to(work: Work, x: &Ty, y: &Ty, m: i64, e: i32) -> bool {
    match meet(work, x, y) {
        Ok(Meeting::Folds(c)) => Dyadic::make(m, e) == Some(c),
        _ => false,
    }
}

/// Whether the constant to the right of a fi gets this fraction length and stored integer.
fn stores(x: &Ty, y: &Ty, fraction: i32, stored: i128) -> bool {
    match meet(Work::Sum, x, y) {
        Ok(met) => right_stores(met, fraction, stored),
        Err(_) => false,
    }
}

/// Whether the operand to the right is a constant of this fraction length and stored integer.
fn right_stores(met: Meeting, fraction: i32, stored: i128) -> bool {
    match met {
        Meeting::Folds(_) => false,
        Meeting::Meets(_, right) => side_stores(right, fraction, stored),
    }
}

/// Whether an operand is a constant of this fraction length and stored integer.
fn side_stores(side: Side, fraction: i32, stored: i128) -> bool {
    match side {
        Side::Fi(_, _) => false,
        Side::Constant(_, f, z) => f == fraction && is_whole(z, stored),
    }
}

/// Whether a whole number is this machine integer.
fn is_whole(z: Int, v: i128) -> bool {
    let w = Int::from_i128(v);
    z.at_most(w) && w.at_most(z)
}

/// Whether an operator's operands meet, and it is then refused with this code.
fn works_not(work: Work, x: &Ty, y: &Ty, code: Code, shown: Shown) -> bool {
    match meet(work, x, y) {
        Ok(met) => match work_out(work, met) {
            Ok(_) => false,
            Err(missing) => missing == Missing { code, shown },
        },
        Err(_) => false,
    }
}

/// Whether an operator gives a fi of this type.
fn gives(work: Work, x: &Ty, y: &Ty, signed: bool, word: u32, fraction: i32) -> bool {
    match meet(work, x, y) {
        Ok(met) => match work_out(work, met) {
            Ok(Working::Computes(_, _, _, t)) => has_parts(t, signed, word, fraction),
            _ => false,
        },
        Err(_) => false,
    }
}

/// The fimath that is attached to a sum.
fn attached(x: &Ty, y: &Ty) -> Option<Fimath> {
    match meet(Work::Sum, x, y) {
        Ok(met) => match work_out(Work::Sum, met) {
            Ok(working) => attached_to(working),
            Err(_) => None,
        },
        Err(_) => None,
    }
}

/// The fimath that is attached to a result.
fn attached_to(working: Working) -> Option<Fimath> {
    match working {
        Working::FoldsTo(_) => None,
        Working::Computes(_, _, by, _) => by.attached,
    }
}

/// A fimath with another rounding method.
fn rounding_down() -> Fimath {
    Fimath {
        rounding: Rounding::Floor,
        ..Fimath::usual()
    }
}

#[test]
fn constants_beside_fis(rt: HostRuntime) -> Result<(), Fail> {
    let byte = fi(true, 8, 0);
    let pair = fi(false, 2, 0);
    assert!(rt; stores(&byte, &number(1, -1), 7, 64));
    assert!(rt; stores(&byte, &number(-1, 0), 7, -128));
    assert!(rt; stores(&pair, &number(3, 0), 0, 3));
    assert!(rt; stores(&pair, &number(1, 2), -1, 2));
    assert!(rt; stores(&fi(true, 8, 3), &number(0, 0), 7, 0));
    let five = number(5, 0);
    let inexact = Code::LiteralInexact;
    let right = Shown::RightConstant;
    assert!(rt; meets_not(Work::Sum, &pair, &number(-1, 0), inexact, right));
    assert!(rt; meets_not(Work::Sum, &pair, &five, inexact, right));
    assert!(rt; meets_not(Work::Sum, &five, &pair, inexact, Shown::LeftConstant));
    Ok(())
}

#[test]
fn operators_on_constants(rt: HostRuntime) -> Result<(), Fail> {
    let one = number(1, 0);
    let three = number(3, 0);
    let half = number(1, -1);
    assert!(rt; folds_to(Work::Sum, &one, &half, 3, -1));
    assert!(rt; folds_to(Work::Difference, &one, &half, 1, -1));
    assert!(rt; folds_to(Work::Product, &three, &number(3, -1), 9, -1));
    assert!(rt; folds_to(Work::Power, &number(1, 1), &number(-15, 0), 1, -15));
    assert!(rt; folds_to(Work::Power, &number(0, 0), &number(0, 0), 1, 0));
    assert!(rt; is_refused(Work::Power, &three, &number(-1, 0), Code::LiteralInexact));
    assert!(rt; is_refused(Work::Power, &three, &half, Code::BadArgument));
    assert!(rt; is_refused(Work::Power, &one, &number(401, 0), Code::BadArgument));
    assert!(rt; is_refused(Work::Sum, &number(1, 400), &one, Code::LiteralInexact));
    Ok(())
}

#[test]
fn operators_of_other_classes(rt: HostRuntime) -> Result<(), Fail> {
    let x = fi(true, 8, 0);
    let two = number(2, 0);
    let text = words(rt.alloc(), b"like");
    let math = Ty::Math(Fimath::usual());
    assert!(rt; is_refused(Work::Division, &x, &Ty::Other, Code::Division));
    assert!(rt; is_refused(Work::Later, &x, &x, Code::Unsupported));
    assert!(rt; is_refused(Work::Power, &x, &two, Code::Unsupported));
    assert!(rt; is_refused(Work::Power, &two, &x, Code::Unsupported));
    assert!(rt; is_refused(Work::Sum, &x, &text, Code::BadArgument));
    assert!(rt; is_refused(Work::Sum, &math, &x, Code::BadArgument));
    assert!(rt; is_refused(Work::Product, &two, &text, Code::BadArgument));
    Ok(())
}

#[test]
fn work_of_operators(rt: HostRuntime) -> Result<(), Fail> {
    assert!(rt; work_of(BinOp::Add) == Work::Sum);
    assert!(rt; work_of(BinOp::Sub) == Work::Difference);
    assert!(rt; work_of(BinOp::ElemMul) == Work::Product);
    assert!(rt; work_of(BinOp::ElemPow) == Work::Power);
    assert!(rt; work_of(BinOp::ElemLeftDiv) == Work::Division);
    assert!(rt; work_of(BinOp::Lt) == Work::Later);
    assert!(rt; work_of(BinOp::AndAnd) == Work::Later);
    Ok(())
}

#[test]
fn types_of_results(rt: HostRuntime) -> Result<(), Fail> {
    let x = fi(true, 8, 4);
    let half = number(1, -1);
    assert!(rt; gives(Work::Sum, &x, &fi(true, 16, 8), true, 17, 8));
    assert!(rt; gives(Work::Product, &x, &x, true, 16, 8));
    assert!(rt; gives(Work::Sum, &x, &half, true, 12, 7));
    assert!(rt; gives(Work::Difference, &half, &x, true, 12, 7));
    assert!(rt;
        gives(
            Work::Difference,
            &fi(false, 8, 0),
            &fi(false, 8, 0),
            false,
            9,
            0
        )
    );
    assert!(rt; gives(Work::Sum, &fi(false, 8, 0), &fi(true, 8, 0), true, 10, 0));
    Ok(())
}

#[test]
fn results_out_of_limits(rt: HostRuntime) -> Result<(), Fail> {
    let wide = fi(true, 64, 0);
    let x = fi(true, 8, 4);
    let tiny = number(1, -300);
    let out = Code::FractionOut;
    assert!(rt; works_not(Work::Product, &wide, &tiny, out, Shown::Fraction(362)));
    assert!(rt; works_not(Work::Sum, &wide, &x, Code::TooWide, Shown::Word(69)));
    assert!(rt; works_not(Work::Product, &wide, &x, Code::TooWide, Shown::Word(72)));
    Ok(())
}

#[test]
fn fimaths_that_govern(rt: HostRuntime) -> Result<(), Fail> {
    let down = rounding_down();
    let usual = Fimath::usual();
    let bare = fi(true, 64, 0);
    let left = fi_with(true, 64, 0, Some(down));
    let right = fi_with(true, 64, 0, Some(usual));
    let shown = Shown::Differs(down, usual);
    assert!(rt; works_not(Work::Sum, &left, &right, Code::FimathDiffers, shown));
    assert!(rt; works_not(Work::Sum, &left, &left, Code::TooWide, Shown::Word(65)));
    assert!(rt; works_not(Work::Sum, &left, &bare, Code::TooWide, Shown::Word(65)));
    let x = fi_with(true, 8, 0, Some(down));
    assert!(rt; attached(&x, &fi(true, 8, 0)) == Some(down));
    assert!(rt; attached(&number(1, 0), &x) == Some(down));
    assert!(rt; attached(&fi(true, 8, 0), &fi(true, 8, 0)).is_none());
    Ok(())
}

#[test]
fn signs(rt: HostRuntime) -> Result<(), Fail> {
    assert!(rt; matches!(sign(UnOp::Minus, &fi(false, 8, 0)), Ok(Signed::Turned)));
    assert!(rt; matches!(sign(UnOp::Plus, &number(3, 0)), Ok(Signed::Same)));
    match sign(UnOp::Minus, &number(3, 0)) {
        Ok(Signed::Constant(c)) => assert!(rt; Dyadic::make(-3, 0) == Some(c)),
        _ => assert!(rt; false),
    }
    assert!(rt;
        matches!(sign(UnOp::Not, &Ty::Other), Err(missing) if missing.code == Code::Unsupported)
    );
    assert!(rt;
        matches!(sign(UnOp::Minus, &Ty::Other), Err(missing) if missing.code == Code::BadArgument)
    );
    Ok(())
}

/// Whether a call is refused for its number of arguments.
fn counts(b: BuiltIn, args: &[Ty], want: usize) -> bool {
    match ask(b, args) {
        Ok(_) => false,
        Err(missing) => {
            missing
                == Missing {
                    code: Code::ArgCount,
                    shown: Shown::Counts(args.len(), want),
                }
        }
    }
}

/// Whether a call is refused for an argument.
fn is_bad(b: BuiltIn, args: &[Ty]) -> bool {
    match ask(b, args) {
        Ok(_) => false,
        Err(missing) => {
            missing
                == Missing {
                    code: Code::BadArgument,
                    shown: Shown::Itself,
                }
        }
    }
}

/// Whether a call of fi takes its argument in this type with this fimath.
fn takes(args: &[Ty], signed: bool, word: u32, fraction: i32, m: Option<Fimath>) -> bool {
    match ask(BuiltIn::Fi, args) {
        Ok(asked) => match build(asked) {
            Ok(Built::Taken(t, n)) => has_parts(t, signed, word, fraction) && n == m,
            _ => false,
        },
        Err(_) => false,
    }
}

/// Whether a call of fi passes its arguments, and its type is then refused.
fn takes_not(args: &[Ty], code: Code, shown: Shown) -> bool {
    match ask(BuiltIn::Fi, args) {
        Ok(asked) => match build(asked) {
            Ok(_) => false,
            Err(missing) => missing == Missing { code, shown },
        },
        Err(_) => false,
    }
}

/// A length that a source states.
fn length(m: i64) -> Shown {
    match Dyadic::make(m, 0) {
        Some(c) => Shown::Whole(c),
        None => Shown::Itself,
    }
}

#[test]
fn numbers_of_arguments(rt: HostRuntime) -> Result<(), Fail> {
    let none: [Ty; 0] = [];
    let two = [fi(true, 8, 0), Ty::Other];
    assert!(rt; counts(BuiltIn::Abs, none.as_slice(), 1));
    assert!(rt; counts(BuiltIn::Abs, two.as_slice(), 1));
    assert!(rt; counts(BuiltIn::Fi, none.as_slice(), 1));
    assert!(rt; counts(BuiltIn::Numerictype, none.as_slice(), 1));
    assert!(rt; counts(BuiltIn::Numerictype, two.as_slice(), 3));
    assert!(rt; counts(BuiltIn::SetFimath, none.as_slice(), 2));
    assert!(rt; counts(BuiltIn::RemoveFimath, two.as_slice(), 1));
    assert!(rt; counts(BuiltIn::Cast, two.as_slice(), 3));
    let one = [Ty::Other];
    assert!(rt; counts(BuiltIn::Fimath, one.as_slice(), 2));
    Ok(())
}

#[test]
fn arguments_of_other_classes(rt: HostRuntime) -> Result<(), Fail> {
    let one = [Ty::Other];
    assert!(rt; is_bad(BuiltIn::Abs, one.as_slice()));
    assert!(rt; is_bad(BuiltIn::Fi, one.as_slice()));
    assert!(rt; is_bad(BuiltIn::Numerictype, one.as_slice()));
    assert!(rt; is_bad(BuiltIn::RemoveFimath, one.as_slice()));
    let two = [fi(true, 8, 0), Ty::Other];
    assert!(rt; is_bad(BuiltIn::SetFimath, two.as_slice()));
    assert!(rt; is_bad(BuiltIn::Fimath, two.as_slice()));
    let like = [number(1, 0), words(rt.alloc(), b"Like"), fi(true, 8, 0)];
    assert!(rt; is_bad(BuiltIn::Cast, like.as_slice()));
    Ok(())
}

#[test]
fn calls_of_fi(rt: HostRuntime) -> Result<(), Fail> {
    let half = [number(1, -1)];
    assert!(rt; takes(half.as_slice(), true, 16, 15, None));
    let unsigned = [number(3, 0), number(0, 0)];
    assert!(rt; takes(unsigned.as_slice(), false, 16, 14, None));
    let short = [number(3, 0), number(1, 0), number(8, 0)];
    assert!(rt; takes(short.as_slice(), true, 8, 5, None));
    let stated = [fi(true, 8, 0), number(1, 0), number(8, 0), number(-3, 0)];
    assert!(rt; takes(stated.as_slice(), true, 8, -3, None));
    let wide = [number(1, 0), number(1, 0), number(65, 0), number(300, 0)];
    assert!(rt; takes_not(wide.as_slice(), Code::TooWide, length(65)));
    let far = [number(1, 0), number(1, 0), number(64, 0), number(257, 0)];
    assert!(rt; takes_not(far.as_slice(), Code::FractionOut, length(257)));
    let tiny = [number(1, -300), number(1, 0), number(64, 0)];
    assert!(rt; takes_not(tiny.as_slice(), Code::FractionOut, Shown::Fraction(362)));
    Ok(())
}

#[test]
fn calls_of_fi_that_are_refused(rt: HostRuntime) -> Result<(), Fail> {
    let best = [fi(true, 8, 0), number(1, 0), number(8, 0)];
    assert!(rt; is_bad(BuiltIn::Fi, best.as_slice()));
    let sign = [number(1, 0), number(2, 0)];
    assert!(rt; is_bad(BuiltIn::Fi, sign.as_slice()));
    let empty = [number(1, 0), number(1, 0), number(0, 0), number(0, 0)];
    assert!(rt; is_bad(BuiltIn::Fi, empty.as_slice()));
    let word = [number(1, 0), number(1, 0), number(17, -1), number(0, 0)];
    assert!(rt; is_bad(BuiltIn::Fi, word.as_slice()));
    let fraction = [number(1, 0), number(1, 0), number(8, 0), number(1, -1)];
    assert!(rt; is_bad(BuiltIn::Fi, fraction.as_slice()));
    Ok(())
}

#[test]
fn calls_of_fi_with_objects(rt: HostRuntime) -> Result<(), Fail> {
    let down = rounding_down();
    let of_type = [fi(true, 8, 0), type_object(false, 4, 2)];
    assert!(rt; takes(of_type.as_slice(), false, 4, 2, None));
    let both = [number(1, 0), type_object(false, 4, 2), Ty::Math(down)];
    assert!(rt; takes(both.as_slice(), false, 4, 2, Some(down)));
    let best = [number(3, 0), number(1, 0), number(8, 0), Ty::Math(down)];
    assert!(rt; takes(best.as_slice(), true, 8, 5, Some(down)));
    let all = [
        fi(true, 8, 0),
        number(1, 0),
        number(8, 0),
        number(-3, 0),
        Ty::Math(down),
    ];
    assert!(rt; takes(all.as_slice(), true, 8, -3, Some(down)));
    let typed = [number(1, 0), type_object(false, 4, 2), number(1, 0)];
    assert!(rt; is_bad(BuiltIn::Fi, typed.as_slice()));
    Ok(())
}

/// The fimath that a call with one property makes.
fn with_one(alloc: Global, name: &[u8], value: Ty) -> Option<Fimath> {
    let args = [words(alloc, name), value];
    made(args.as_slice())
}

/// The fimath that a call on these arguments makes.
fn made(args: &[Ty]) -> Option<Fimath> {
    match ask(BuiltIn::Fimath, args) {
        Ok(asked) => math_made(asked),
        Err(_) => None,
    }
}

/// The fimath that a call makes.
fn math_made(asked: Asked) -> Option<Fimath> {
    match asked {
        Asked::MakesMath(m) => Some(m),
        _ => None,
    }
}

/// Whether a call with one property makes this fimath.
fn makes(alloc: Global, name: &[u8], value: Ty, m: Fimath) -> bool {
    with_one(alloc, name, value) == Some(m)
}

#[test]
fn properties_of_fimaths(rt: HostRuntime) -> Result<(), Fail> {
    let alloc = rt.alloc();
    let usual = Fimath::usual();
    let none: [Ty; 0] = [];
    assert!(rt; made(none.as_slice()) == Some(usual));
    assert!(rt;
        makes(
            alloc,
            b"RoundingMethod",
            words(alloc, b"Floor"),
            rounding_down()
        )
    );
    let overflow = Overflow::Wrap;
    let m = Fimath { overflow, ..usual };
    assert!(rt; makes(alloc, b"OverflowAction", words(alloc, b"Wrap"), m));
    let cast_before_sum = false;
    let m = Fimath {
        cast_before_sum,
        ..usual
    };
    assert!(rt; makes(alloc, b"CastBeforeSum", number(0, 0), m));
    Ok(())
}

#[test]
fn properties_of_products(rt: HostRuntime) -> Result<(), Fail> {
    let alloc = rt.alloc();
    let usual = Fimath::usual();
    let product_mode = Mode::KeepLSB;
    let m = Fimath {
        product_mode,
        ..usual
    };
    assert!(rt; makes(alloc, b"ProductMode", words(alloc, b"KeepLSB"), m));
    let product_word = 128;
    let m = Fimath {
        product_word,
        ..usual
    };
    assert!(rt; makes(alloc, b"ProductWordLength", number(128, 0), m));
    let product_fraction = -256;
    let m = Fimath {
        product_fraction,
        ..usual
    };
    assert!(rt; makes(alloc, b"ProductFractionLength", number(-256, 0), m));
    Ok(())
}

#[test]
fn properties_of_sums(rt: HostRuntime) -> Result<(), Fail> {
    let alloc = rt.alloc();
    let usual = Fimath::usual();
    let sum_mode = Mode::SpecifyPrecision;
    let m = Fimath { sum_mode, ..usual };
    assert!(rt; makes(alloc, b"SumMode", words(alloc, b"SpecifyPrecision"), m));
    let sum_word = 1;
    let m = Fimath { sum_word, ..usual };
    assert!(rt; makes(alloc, b"SumWordLength", number(1, 0), m));
    let sum_fraction = 256;
    let m = Fimath {
        sum_fraction,
        ..usual
    };
    assert!(rt; makes(alloc, b"SumFractionLength", number(256, 0), m));
    Ok(())
}

#[test]
fn properties_that_are_refused(rt: HostRuntime) -> Result<(), Fail> {
    let alloc = rt.alloc();
    assert!(rt; with_one(alloc, b"RoundingMethod", words(alloc, b"floor")).is_none());
    assert!(rt; with_one(alloc, b"OverflowAction", words(alloc, b"None")).is_none());
    assert!(rt; with_one(alloc, b"ProductMode", number(1, 0)).is_none());
    assert!(rt; with_one(alloc, b"ProductWordLength", number(0, 0)).is_none());
    assert!(rt; with_one(alloc, b"ProductFractionLength", number(257, 0)).is_none());
    assert!(rt; with_one(alloc, b"SumMode", words(alloc, b"")).is_none());
    assert!(rt; with_one(alloc, b"SumWordLength", number(129, 0)).is_none());
    assert!(rt; with_one(alloc, b"SumFractionLength", number(1, -1)).is_none());
    assert!(rt; with_one(alloc, b"CastBeforeSum", number(2, 0)).is_none());
    assert!(rt; with_one(alloc, b"Sumword", number(1, 0)).is_none());
    let twice = [
        words(alloc, b"SumWordLength"),
        number(1, 0),
        words(alloc, b"SumWordLength"),
        number(1, 0),
    ];
    assert!(rt; is_bad(BuiltIn::Fimath, twice.as_slice()));
    let both = [
        words(alloc, b"SumWordLength"),
        number(1, 0),
        words(alloc, b"CastBeforeSum"),
        number(1, 0),
    ];
    assert!(rt; ask(BuiltIn::Fimath, both.as_slice()).is_ok());
    Ok(())
}

#[test]
fn casts(rt: HostRuntime) -> Result<(), Fail> {
    let alloc = rt.alloc();
    let down = rounding_down();
    let like = fi_with(true, 8, 3, Some(down));
    let cast = [number(1, 0), words(alloc, b"like"), like];
    match ask(BuiltIn::Cast, cast.as_slice()) {
        Ok(Asked::Takes(Stated::Of(t), m)) => {
            assert!(rt; has_parts(t, true, 8, 3));
            assert!(rt; m == Some(down));
        }
        _ => assert!(rt; false),
    }
    Ok(())
}

/// Whether a call attaches this fimath, or with none takes its own away.
fn attaches(b: BuiltIn, args: &[Ty], m: Option<Fimath>) -> bool {
    match ask(b, args) {
        Ok(asked) => is_attached(asked, m),
        Err(_) => false,
    }
}

/// Whether what is asked for comes to that.
fn is_attached(asked: Asked, m: Option<Fimath>) -> bool {
    match build(asked) {
        Ok(Built::Attached(n)) => n == m,
        _ => false,
    }
}

/// Whether a call takes the sign of its argument away.
fn takes_sign(args: &[Ty]) -> bool {
    match ask(BuiltIn::Abs, args) {
        Ok(asked) => match build(asked) {
            Ok(Built::SignTaken) => true,
            _ => false,
        },
        Err(_) => false,
    }
}

/// Whether a call makes a numerictype object of this type.
fn makes_type(args: &[Ty], signed: bool, word: u32, fraction: i32) -> bool {
    match ask(BuiltIn::Numerictype, args) {
        Ok(asked) => match build(asked) {
            Ok(Built::Type(t)) => has_parts(t, signed, word, fraction),
            _ => false,
        },
        Err(_) => false,
    }
}

#[test]
fn other_calls(rt: HostRuntime) -> Result<(), Fail> {
    let down = rounding_down();
    let set = [fi(true, 8, 3), Ty::Math(down)];
    assert!(rt; attaches(BuiltIn::SetFimath, set.as_slice(), Some(down)));
    let bare = [fi_with(true, 8, 3, Some(down))];
    let args = bare.as_slice();
    assert!(rt; attaches(BuiltIn::RemoveFimath, args, None));
    assert!(rt; takes_sign(args));
    assert!(rt; makes_type(args, true, 8, 3));
    let parts = [number(0, 0), number(4, 0), number(-2, 0)];
    assert!(rt; makes_type(parts.as_slice(), false, 4, -2));
    Ok(())
}

#[test]
fn names_of_built_ins(rt: HostRuntime) -> Result<(), Fail> {
    assert!(rt; built_in(b"abs".as_slice()) == Some(BuiltIn::Abs));
    assert!(rt; built_in(b"fi".as_slice()) == Some(BuiltIn::Fi));
    assert!(rt; built_in(b"numerictype".as_slice()) == Some(BuiltIn::Numerictype));
    assert!(rt; built_in(b"fimath".as_slice()) == Some(BuiltIn::Fimath));
    assert!(rt; built_in(b"setfimath".as_slice()) == Some(BuiltIn::SetFimath));
    assert!(rt; built_in(b"removefimath".as_slice()) == Some(BuiltIn::RemoveFimath));
    assert!(rt; built_in(b"cast".as_slice()) == Some(BuiltIn::Cast));
    assert!(rt; built_in(b"casts".as_slice()) == None);
    Ok(())
}

#[test]
fn same_types(rt: HostRuntime) -> Result<(), Fail> {
    let alloc = rt.alloc();
    let down = rounding_down();
    assert!(rt; is_same(&fi(true, 8, 3), &fi(true, 8, 3)));
    assert!(rt; !is_same(&fi(true, 8, 3), &fi(true, 8, 4)));
    assert!(rt; !is_same(&fi(true, 8, 3), &fi_with(true, 8, 3, Some(down))));
    assert!(rt; is_same(&number(6, 0), &number(3, 1)));
    assert!(rt; is_same(&Ty::Math(down), &Ty::Math(down)));
    assert!(rt; !is_same(&Ty::Math(down), &Ty::Math(Fimath::usual())));
    assert!(rt; !is_same(&words(alloc, b"a"), &words(alloc, b"a")));
    assert!(rt; !is_same(&Ty::Other, &Ty::Other));
    Ok(())
}
