//! Plain cases of an interface of two inputs.

use c_tree::{CKind, CSlot, Interface};
use case_io::{CaseBad, CaseRefusal, Cases, read_cases};
use fic_base::Text;
use num_type::{Memory, NumType, Stop};
use shape_rules::Shape;
use sqlite_items::Items;
use std::alloc::Global;
use std::test::Fail;

/// An input of one element.
fn slot(alloc: Global, name: &[u8], kind: CKind) -> Result<CSlot, Memory> {
    let name = Text::from_bytes(alloc, name)?;
    Ok(CSlot {
        name,
        kind,
        shape: Shape::scalar(),
    })
}

/// `a` of the type s8.4, and a truth value `t`.
fn interface(alloc: Global, num: NumType) -> Result<Interface, Memory> {
    let entry = Text::from_bytes(alloc, b"f")?;
    let mut inputs = Items::new(alloc);
    let kind = CKind::Fi {
        num,
        complex: false,
    };
    inputs.push(slot(alloc, b"a", kind)?)?;
    inputs.push(slot(alloc, b"t", CKind::Logical)?)?;
    Ok(Interface {
        entry,
        inputs,
        outputs: Items::new(alloc),
    })
}

/// What the bytes are read as.
fn answer(alloc: Global, bytes: &[u8]) -> Result<Cases, Stop<CaseRefusal>> {
    let Some(num) = NumType::make(true, 8, 4) else {
        return Err(Stop::Memory);
    };
    let i = interface(alloc, num)?;
    read_cases(alloc, bytes, &i)
}

/// Whether the one case has these numbers.
fn gives(alloc: Global, bytes: &[u8], a: i64, t: i64) -> bool {
    match answer(alloc, bytes) {
        Ok(cases) => {
            let [case] = cases.list.as_slice() else {
                return false;
            };
            let [first, second] = case.as_slice() else {
                return false;
            };
            let ([x], [y]) = (first.as_slice(), second.as_slice()) else {
                return false;
            };
            x.to_i64() == Some(a) && y.to_i64() == Some(t)
        }
        Err(_) => false,
    }
}

/// Whether the bytes are refused so.
fn refuses(alloc: Global, bytes: &[u8], index: Option<u64>, kind: CaseBad) -> bool {
    match answer(alloc, bytes) {
        Err(Stop::Refused(r)) => r == CaseRefusal { index, kind },
        _ => false,
    }
}

#[test]
fn plain_cases_are_read(rt: HostRuntime) -> Result<(), Fail> {
    let alloc = rt.alloc();
    assert!(rt; gives(alloc, b"24\n1\n", 24, 1));
    assert!(rt; gives(alloc, b"-128\n0\n", -128, 0));
    Ok(())
}

#[test]
fn plain_cases_are_refused(rt: HostRuntime) -> Result<(), Fail> {
    let alloc = rt.alloc();
    assert!(rt; refuses(alloc, b"", None, CaseBad::Form));
    assert!(rt; refuses(alloc, b"24\n", None, CaseBad::Form));
    assert!(rt; refuses(alloc, b"24\n1", None, CaseBad::Form));
    assert!(rt; refuses(alloc, b"24\n1\n0\n", None, CaseBad::Form));
    assert!(rt; refuses(alloc, b"024\n1\n", None, CaseBad::Form));
    assert!(rt; refuses(alloc, b"24\n-0\n", None, CaseBad::Form));
    assert!(rt; refuses(alloc, b"+24\n1\n", None, CaseBad::Form));
    assert!(rt; refuses(alloc, b"24 1\n", None, CaseBad::Form));
    assert!(rt; refuses(alloc, b"128\n1\n", Some(0), CaseBad::Value));
    assert!(rt; refuses(alloc, b"24\n2\n", Some(0), CaseBad::Value));
    assert!(rt;
        refuses(
            alloc,
            b"999999999999999999999999999999999999999999\n1\n",
            Some(0),
            CaseBad::Value
        )
    );
    Ok(())
}
