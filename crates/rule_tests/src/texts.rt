//! Worked texts of types, fimaths and numbers.

use fi_math::{Fimath, Mode};
use fi_rules::{Shown, Ty};
use fic_base::Text;
use num_type::{Dyadic, NumType, Overflow, Rounding};
use rule_texts::*;
use std::test::Fail;

const USUAL: &str = "Nearest,Saturate,FullPrecision,32,30,FullPrecision,32,30,true";

#[test]
fn fimaths(rt: HostRuntime) -> Result<(), Fail> {
    let usual = Fimath::usual();
    let floor = Fimath {
        rounding: Rounding::Floor,
        ..usual
    };
    let stated = Fimath {
        rounding: Rounding::Convergent,
        overflow: Overflow::Wrap,
        product_mode: Mode::SpecifyPrecision,
        product_word: 16,
        product_fraction: -3,
        sum_mode: Mode::KeepLSB,
        sum_word: 128,
        sum_fraction: 0,
        cast_before_sum: false,
    };
    for (m, text) in [
        (usual, USUAL),
        (
            floor,
            "Floor,Saturate,FullPrecision,32,30,FullPrecision,32,30,true",
        ),
        (
            stated,
            "Convergent,Wrap,SpecifyPrecision,16,-3,KeepLSB,128,0,false",
        ),
    ] {
        let mut out = Vec::new(rt.alloc());
        put_math(&m, &mut out).ok().ok_or("memory")?;
        assert_eq!(rt; out.as_slice(), text.as_bytes());
    }
    Ok(())
}

#[test]
fn types_of_fis(rt: HostRuntime) -> Result<(), Fail> {
    let num = NumType::make(true, 16, 15).ok_or("s16.15")?;
    let mut out = Vec::new(rt.alloc());
    put_type(&Ty::Fi(num, None), &mut out).ok().ok_or("memory")?;
    assert_eq!(rt; out.as_slice(), b"s16.15:1x1".as_slice());
    let mut out = Vec::new(rt.alloc());
    let math = Ty::Fi(num, Some(Fimath::usual()));
    put_type(&math, &mut out).ok().ok_or("memory")?;
    assert_eq!(rt;
        out.as_slice(),
        b"s16.15:1x1:Nearest,Saturate,FullPrecision,32,30,FullPrecision,32,30,true".as_slice()
    );
    Ok(())
}

#[test]
fn types_of_constants(rt: HostRuntime) -> Result<(), Fail> {
    let num = NumType::make(false, 8, 0).ok_or("u8.0")?;
    let words = Text::from_str(rt.alloc(), "Floor").ok().ok_or("memory")?;
    let mut out = Vec::new(rt.alloc());
    put_type(&Ty::Number(Dyadic::one()), &mut out)
        .ok()
        .ok_or("memory")?;
    out.push(b' ').ok().ok_or("memory")?;
    put_type(&Ty::Words(words), &mut out).ok().ok_or("memory")?;
    out.push(b' ').ok().ok_or("memory")?;
    put_type(&Ty::Math(Fimath::usual()), &mut out)
        .ok()
        .ok_or("memory")?;
    out.push(b' ').ok().ok_or("memory")?;
    put_type(&Ty::Type(num), &mut out).ok().ok_or("memory")?;
    put_type(&Ty::Other, &mut out).ok().ok_or("memory")?;
    assert_eq!(rt;
        out.as_slice(),
        b"number:1x1 text fimath numerictype".as_slice()
    );
    Ok(())
}

#[test]
fn whole_constants(rt: HostRuntime) -> Result<(), Fail> {
    for (m, e, text) in [
        (0, 0, "0"),
        (1, 0, "1"),
        (9, 0, "9"),
        (5, 1, "10"),
        (-3, 5, "-96"),
        (1, 100, "1267650600228229401496703205376"),
        (
            -1,
            213,
            "-13164036458569648337239753460458804039861886925068638906788872192",
        ),
        (
            9_007_199_254_740_991,
            400,
            "23258839177459417915328483765507555443397351538982303599301893544556944388969377005790491605999239468299047411262686257969935279368175616",
        ),
        (7, -1, "3"),
        (-1, -1, "0"),
        (-1, -400, "0"),
    ] {
        let d = Dyadic::make(m, e).ok_or("no constant")?;
        let mut out = Vec::new(rt.alloc());
        put_whole(d, &mut out).ok().ok_or("memory")?;
        assert_eq!(rt; out.as_slice(), text.as_bytes());
    }
    Ok(())
}

#[test]
fn refusals_show(rt: HostRuntime) -> Result<(), Fail> {
    let usual = Fimath::usual();
    let wide = Dyadic::make(1, 100).ok_or("2^100")?;
    for (shown, text) in [
        (Shown::Itself, "fi"),
        (Shown::LeftConstant, "-1"),
        (Shown::RightConstant, "0.5"),
        (Shown::Counts(7, 5), "7 for 5"),
        (Shown::Word(65), "65"),
        (Shown::Fraction(-257), "-257"),
        (Shown::Whole(wide), "1267650600228229401496703205376"),
    ] {
        let mut out = Vec::new(rt.alloc());
        put_shown(b"fi", b"-1", b"0.5", shown, &mut out)
            .ok()
            .ok_or("memory")?;
        assert_eq!(rt; out.as_slice(), text.as_bytes());
    }
    let mut out = Vec::new(rt.alloc());
    put_shown(b"", b"", b"", Shown::Differs(usual, usual), &mut out)
        .ok()
        .ok_or("memory")?;
    assert!(rt;
        out.as_slice()
            == b"Nearest,Saturate,FullPrecision,32,30,FullPrecision,32,30,true differs from Nearest,Saturate,FullPrecision,32,30,FullPrecision,32,30,true".as_slice()
    );
    Ok(())
}
