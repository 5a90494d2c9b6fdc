//! Texts with their tokens, worked by hand.

use fic_base::{Code, Place};
use mat_token::{Kind, tokens};
use num_type::Stop;
use std::alloc::{AllocError, Global};
use std::test::Fail;

/// A letter for each kind of token.
fn letter(kind: Kind) -> u8 {
    match kind {
        Kind::Name => b'n',
        Kind::Number => b'd',
        Kind::Words => b't',
        Kind::Keyword => b'k',
        Kind::Op => b'o',
        Kind::Newline => b'l',
        Kind::Separator => b's',
        Kind::Finish => b'f',
    }
}

/// The tokens of a text, each with its letter and its text, but for line ends; or the refusal.
fn shown(alloc: Global, source: &[u8]) -> Result<Vec<u8>, AllocError> {
    let mut out = Vec::new(alloc);
    match tokens(alloc, source) {
        Err(Stop::Memory) => return Err(AllocError),
        Err(Stop::Refused(refusal)) => {
            let code = match refusal.code {
                Code::BadByte => "E01",
                Code::Unclosed => "E02",
                _ => "E20",
            };
            let line = refusal.place.line;
            let col = refusal.place.col;
            let written = format!(in alloc; "{line}:{col} {code} ")?;
            out.extend_from_slice(written.as_bytes())?;
            out.extend_from_slice(refusal.shown.as_bytes())?;
        }
        Ok(list) => {
            for token in list.tokens() {
                out.push(letter(token.kind))?;
                let skipped = token.place.offset as usize;
                if token.kind != Kind::Newline {
                    for b in source.iter().skip(skipped).take(token.len as usize) {
                        out.push(*b)?;
                    }
                }
                out.push(b' ')?;
            }
        }
    }
    Ok(out)
}

#[test]
fn worked_texts(rt: HostRuntime) -> Result<(), Fail> {
    let rows = [
        ("", "f "),
        ("y = a;\n", "ny o= na o; l f "),
        ("[1 -2]", "o[ d1 s o- d2 o] f "),
        ("[1 - 2]", "o[ d1 o- d2 o] f "),
        ("[a' b']", "o[ na o' s nb o' o] f "),
        ("[a (1)]", "o[ na s o( d1 o) o] f "),
        ("[a' 'x']", "o[ na o' s t'x' o] f "),
        ("[f(a (1)) ~b]", "o[ nf o( na o( d1 o) o) s o~ nb o] f "),
        ("[a +...\n1 end]", "o[ na o+ d1 s kend o] f "),
        ("a' 'b'", "na o' t'b' f "),
        ("a '", "1:3 E02 '"),
        ("end' else'", "1:10 E02 '"),
        ("x''.'", "nx o' o' o.' f "),
        ("'a''b' \"c\"\"'\"", "t'a''b' t\"c\"\"'\" f "),
        ("1.' 1./a 1..*b", "d1 o.' d1 o./ na d1. o.* nb f "),
        ("1...c\n3e 1i 1if .5", "d1 d3 ne d1i d1 kif d.5 f "),
        ("1.5e-3j 2D+4 6.e7 8e+", "d1.5e-3j d2D+4 d6.e7 d8 ne o+ f "),
        ("a<=b~=c&&d", "na o<= nb o~= nc o&& nd f "),
        ("a%b\r\nc\r\n", "na l nc l f "),
        ("%{\n%{\n %}\nx\n\t%} \r\nb", "l nb f "),
        ("a %{\n%}", "na l f "),
        ("b...\n%{\n'\n%}", "nb f "),
        ("\n  %{ \n%{\n%}", "2:3 E02 %{"),
        ("a\n ?", "2:2 E01 3f"),
        ("a\rb", "1:2 E01 0d"),
        ("x = 'a\n'", "1:5 E02 '"),
        ("..", "1:1 E01 2e"),
        ("1' 2.5'", "d1 o' d2.5 o' f "),
        ("[a]' (a)'", "o[ na o] o' o( na o) o' f "),
        ("\"a\"'b'", "t\"a\" t'b' f "),
        ("'a'\n'b'", "t'a' l t'b' f "),
        ("a\n'", "2:1 E02 '"),
        ("a+'b'", "na o+ t'b' f "),
        ("\"\t\"", "1:1 E02 \""),
    ];
    for (source, wanted) in rows {
        let got = shown(rt.alloc(), source.as_bytes())?;
        assert_eq!(rt; got.as_slice(), wanted.as_bytes(), "of {source:?}");
    }
    Ok(())
}

#[test]
fn limits(rt: HostRuntime) -> Result<(), Fail> {
    let long = b"abcdefghijklmnopqrstuvwxyz_ABCDEFGHIJKLMNOPQRSTUVWXYZ_0123456789";
    let got = shown(rt.alloc(), long)?;
    assert_eq!(rt; got.as_slice(), b"1:1 E20 63".as_slice());
    let got = shown(rt.alloc(), &long[..63])?;
    assert_eq!(rt; got.len(), 1 + 63 + 1 + 2);
    let blanks = vec![in rt.alloc(); b' '; 1_048_576]?;
    let got = shown(rt.alloc(), &blanks)?;
    assert_eq!(rt; got.as_slice(), b"f ".as_slice());
    let blanks = vec![in rt.alloc(); b' '; 1_048_577]?;
    let got = shown(rt.alloc(), &blanks)?;
    assert_eq!(rt; got.as_slice(), b"1:1 E20 1048576".as_slice());
    Ok(())
}

#[test]
fn places(rt: HostRuntime) -> Result<(), Fail> {
    let list = match tokens(rt.alloc(), b"a\r\n  b") {
        Ok(list) => list,
        Err(_) => return Err("no tokens".into()),
    };
    let rows = [
        (0, 1, 1, 1, false),
        (2, 1, 3, 1, true),
        (5, 2, 3, 1, true),
        (6, 2, 4, 0, false),
    ];
    assert_eq!(rt; list.tokens().len(), rows.len());
    for (token, (offset, line, col, len, blank_before)) in list.tokens().iter().zip(rows) {
        assert_eq!(rt; token.place, Place { offset, line, col });
        assert_eq!(rt; token.len, len);
        assert_eq!(rt; token.blank_before, blank_before);
    }
    Ok(())
}
