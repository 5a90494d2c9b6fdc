//! Shelves and sinks at work.

use crate::*;
use std::test::Fail;

#[test]
fn shelf_in_memory(rt: HostRuntime) -> Result<(), Fail> {
    let mut files = Vec::new(rt.alloc());
    let name = String::from_str(rt.alloc(), "a.m")?;
    files.push((name, b"abc".to_vec(rt.alloc())?))?;
    let fails = [1].to_vec(rt.alloc())?;
    let mut shelf = MemShelf::new(rt.alloc(), files, fails);
    let mut into = Vec::new(rt.alloc());
    assert_eq!(rt; shelf.read("a.m", 2, &mut into), Ok(()));
    assert_eq!(rt; into.as_slice(), b"ab".as_slice());
    assert_eq!(rt; shelf.read("a.m", 9, &mut into), Err(ShelfFault::Failed));
    assert_eq!(rt; shelf.read("b.m", 9, &mut into), Err(ShelfFault::Failed));
    assert_eq!(rt; shelf.read("a.m", 9, &mut into), Ok(()));
    assert_eq!(rt; into.as_slice(), b"ababc".as_slice());
    Ok(())
}

#[test]
fn sink_in_memory(rt: HostRuntime) -> Result<(), Fail> {
    let mut sink = MemSink::new(rt.alloc(), 3, 2)?;
    assert_eq!(rt; sink.put(b"abc"), Ok(2));
    assert_eq!(rt; sink.put(b"c"), Ok(1));
    assert_eq!(rt; sink.put(b"d"), Err(Failed));
    assert_eq!(rt; sink.bytes(), b"abc".as_slice());
    Ok(())
}

#[test]
fn files(rt: HostRuntime) -> Result<(), Fail> {
    let mut into = Vec::new(rt.alloc());
    let mut shelf = FileShelf::new(rt);
    assert_eq!(rt; shelf.read("/dev/null", 9, &mut into), Ok(()));
    assert_eq!(rt;
        shelf.read("no such file", 9, &mut into),
        Err(ShelfFault::Failed)
    );
    assert_eq!(rt; shelf.read("/dev/zero", 3, &mut into), Ok(()));
    assert_eq!(rt; into.as_slice(), [0, 0, 0].as_slice());
    Ok(())
}

#[test]
fn standard_output(rt: HostRuntime) {
    let mut out = OutSink::new(rt);
    assert_eq!(rt; out.put(b"o\n"), Ok(2));
}

#[test]
fn standard_error(rt: HostRuntime) {
    let mut err = ErrSink::new(rt);
    assert_eq!(rt; err.put(b"e\n"), Ok(2));
}
