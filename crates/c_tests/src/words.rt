//! Words of texts, worked by hand.

ghost use Rattle.std.specs.Prelude.{IfOk};
ghost use Rattle.c_tree.specs.View.{interface_view};
ghost use Rattle.c_tree.specs.WellFormed.{IsInterface};

use c_grammar::{CKeyword, CMacro, CSign, CWordToken};
use c_token::{interface_has_a_slot, read_interface, tokens};
use c_tree::{CArray, COp, CRel, Counter, CounterKind, Interface};
use c_word::{WordTable, word_of, words_of};
use num_type::{Container, Memory};
use std::alloc::Global;
use std::test::Fail;

/// The arrays are `in_a inr_c ini_c in_r_a` and `out_y outr_a outi_a`.
const FRONT: &str =
    "#include <stdint.h>\n/* fic f a:s8.4:1x1 c:s16.2:2x2:c r_a:b:1x1 -> y:s8.4:1x1 a:u8.0:1x1:c */\n";

/// The interface of `FRONT`.
fn interface(alloc: Global) -> Result<Interface, Memory>
    ensures { IfOk result (λ i. IsInterface (interface_view i)) }
{
    interface_has_a_slot();
    match read_interface(alloc, FRONT.as_bytes())? {
        None => Err(Memory),
        Some(line) => {
            let interface = line.interface;
            if interface.inputs.as_slice().len() == 0 {
                return Err(Memory);
            }
            Ok(interface)
        }
    }
}

/// A counter.
fn counter(kind: CounterKind, number: u32) -> CWordToken {
    CWordToken::Counter(Counter { kind, number })
}

#[test]
fn texts_of_tokens(rt: HostRuntime) -> Result<(), Fail> {
    let alloc = rt.alloc();
    let table = WordTable::of(alloc, &interface(alloc)?)?;
    let rows = [
        ("int8_t", CWordToken::Type(Container::I8)),
        ("uint64_t", CWordToken::Type(Container::U64)),
        ("fic_f", CWordToken::Function),
        ("0", CWordToken::Number(0)),
        ("18446744073709551615", CWordToken::Number(u64::MAX)),
        ("v0", CWordToken::Var(0)),
        ("v4294967295", CWordToken::Var(u32::MAX)),
        ("g0", counter(CounterKind::Group, 0)),
        ("b10", counter(CounterKind::Barrier, 10)),
        ("k2", counter(CounterKind::Source, 2)),
        ("w7", counter(CounterKind::Turn, 7)),
        ("in_a", CWordToken::Array(CArray::Input(0))),
        ("inr_c", CWordToken::Array(CArray::Input(1))),
        ("ini_c", CWordToken::Array(CArray::Input(2))),
        ("in_r_a", CWordToken::Array(CArray::Input(3))),
        ("out_y", CWordToken::Array(CArray::Output(0))),
        ("outr_a", CWordToken::Array(CArray::Output(1))),
        ("outi_a", CWordToken::Array(CArray::Output(2))),
        ("m3", CWordToken::Array(CArray::Local(3))),
        ("INT32_C", CWordToken::Macro(CMacro::I32)),
        ("while", CWordToken::Keyword(CKeyword::While)),
        ("!=", CWordToken::Rel(CRel::Ne)),
        ("<", CWordToken::Rel(CRel::Lt)),
        ("<<", CWordToken::Op(COp::Shl)),
        ("-", CWordToken::Op(COp::Sub)),
        ("]", CWordToken::Sign(CSign::CloseSquare)),
        ("=", CWordToken::Sign(CSign::Assign)),
    ];
    for (text, want) in rows {
        assert_eq!(rt; word_of(&table, text.as_bytes()), want, "at {text}");
    }
    Ok(())
}

#[test]
fn texts_of_no_token(rt: HostRuntime) -> Result<(), Fail> {
    let alloc = rt.alloc();
    let table = WordTable::of(alloc, &interface(alloc)?)?;
    let rows = [
        "",
        "00",
        "01",
        "18446744073709551616",
        "v",
        "v01",
        "v4294967296",
        "x0",
        "m00",
        "in_b",
        "in_c",
        "inr_a",
        "out_a",
        "in_",
        "fic_",
        "fic_g",
        "INT64_",
        "int8_tv0",
        "int",
        "_",
        "!",
    ];
    for text in rows {
        assert_eq!(rt;
            word_of(&table, text.as_bytes()),
            CWordToken::Other,
            "at {text}"
        );
    }
    Ok(())
}

#[test]
fn words_of_a_text(rt: HostRuntime) -> Result<(), Fail> {
    let alloc = rt.alloc();
    let interface = interface(alloc)?;
    let text = b"out_y[0] = v8\n+x;";
    let scanned = tokens(alloc, text)?;
    let words = words_of(alloc, &interface, text, scanned.tokens.as_slice())?;
    let want = [
        CWordToken::Array(CArray::Output(0)),
        CWordToken::Sign(CSign::OpenSquare),
        CWordToken::Number(0),
        CWordToken::Sign(CSign::CloseSquare),
        CWordToken::Sign(CSign::Assign),
        CWordToken::Var(8),
        CWordToken::Op(COp::Add),
        CWordToken::Other,
        CWordToken::Sign(CSign::Semicolon),
    ];
    assert_eq!(rt; words.as_slice(), want.as_slice());
    Ok(())
}
