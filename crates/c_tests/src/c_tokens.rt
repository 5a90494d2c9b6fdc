//! Texts with their tokens and second lines, worked by hand.

use c_token::{has_include, read_interface, tokens};
use num_type::Memory;
use std::alloc::Global;
use std::test::Fail;

/// The tokens of a text, with a bar behind each, and the rest from the place at which none begins.
fn shown(alloc: Global, text: &[u8]) -> Result<Vec<u8>, Memory> {
    let mut out = Vec::new(alloc);
    let scanned = tokens(alloc, text)?;
    for token in scanned.tokens.as_slice() {
        for b in text.iter().skip(token.offset).take(token.len) {
            out.push(*b)?;
        }
        out.push(b'|')?;
    }
    for b in text.iter().skip(scanned.stop) {
        out.push(*b)?;
    }
    Ok(out)
}

#[test]
fn tokens_of_texts(rt: HostRuntime) -> Result<(), Fail> {
    let alloc = rt.alloc();
    let rows = [
        ("", ""),
        ("v0=INT64_C(-8);", "v0|=|INT64_C|(|-|8|)|;|"),
        ("8x int64_tv0", "8|x|int64_tv0|"),
        ("a<<=b--c \t\n", "a|<<|=|b|-|-|c|"),
        ("a\r\nb", "a|\r\nb"),
        (" a", " a"),
        ("a!", "a|!"),
    ];
    for (text, want) in rows {
        let got = shown(alloc, text.as_bytes())?;
        assert_eq!(rt; got.as_slice(), want.as_bytes());
    }
    Ok(())
}

/// The byte that follows the second line of a text, and 0 where it spells no interface.
fn behind(alloc: Global, text: &[u8]) -> Result<u8, Memory> {
    match read_interface(alloc, text)? {
        None => Ok(0),
        Some(line) => match text.get(line.end) {
            None => Ok(1),
            Some(b) => Ok(*b),
        },
    }
}

#[test]
fn second_lines(rt: HostRuntime) -> Result<(), Fail> {
    let alloc = rt.alloc();
    let rows = [
        (
            "#include <stdint.h>\n/* fic f a:s8.4:1x1 b:b:2x3 -> y:u8.-3:1x1:c */\n@",
            b'@',
        ),
        ("#include <stdint.h>\n/* fic f -> */\n@", b'@'),
        (
            "#include <stdint.h>\n/* fic f a:s8.4 -> y:s8.4:1x1 */\n@",
            0,
        ),
        (
            "#include <stdint.h>\n/* fic f a:s8.4:1x1 a:s8.4:1x1 -> */\n@",
            0,
        ),
        (
            "#include <stdint.h>\n/* fic f a:s8.4:1x1 -> a:s8.4:1x1 */\n",
            1,
        ),
        ("#include <stdint.h>\n/* fic end -> y:s8.4:1x1 */\n@", 0),
    ];
    for (text, want) in rows {
        assert!(rt; has_include(text.as_bytes()));
        assert_eq!(rt; behind(alloc, text.as_bytes())?, want);
    }
    assert!(rt; !has_include(b"#include <stdio.h>\n"));
    Ok(())
}
