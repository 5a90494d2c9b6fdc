//! Declared types and their texts.

use crate::declared::read_type;
use crate::range::range_items;
use crate::write::write_type;
use std::test::Fail;

#[test]
fn types_are_read_and_written_with_their_shape(rt: HostRuntime) -> Result<(), Fail> {
    for (text, whole) in [
        ("s8.4", "s8.4:1x1"),
        ("u1.0", "u1.0:1x1"),
        ("s64.-256", "s64.-256:1x1"),
        ("u64.256:1x1", "u64.256:1x1"),
        ("s16.15:1x4", "s16.15:1x4"),
        ("s8.0:64x64", "s8.0:64x64"),
        ("s8.0:c", "s8.0:1x1:c"),
        ("s8.0:2x3:c", "s8.0:2x3:c"),
    ] {
        let mut out = Vec::new(rt.alloc());
        match read_type(text.as_bytes()) {
            Some(declared) => write_type(&declared, &mut out).ok().ok_or("memory")?,
            None => assert!(rt; false, "{text}"),
        }
        assert_eq!(rt; out.as_slice(), whole.as_bytes());
    }
    Ok(())
}

#[test]
fn texts_of_no_type_are_refused(rt: HostRuntime) {
    for text in [
        "",
        "s",
        "8.4",
        "x8.4",
        "S8.4",
        "s8",
        "s8.",
        "s.4",
        "s65.0",
        "s0.0",
        "s08.4",
        "s8.04",
        "s8.-0",
        "s8.+4",
        "s8.257",
        "s8.-257",
        "s8.4 ",
        "s8.4:",
        "s8.4:0x1",
        "s8.4:4097x1",
        "s8.4:1x4:d",
        "s8.4:c:c",
    ] {
        assert!(rt; read_type(text.as_bytes()).is_none(), "{text}");
    }
}

#[test]
fn ranges_have_their_items(rt: HostRuntime) {
    for (first, step, last, items) in [
        (1, 1, 4, 4),
        (4, -1, 1, 4),
        (1, 2, 4, 2),
        (1, 0, 4, 0),
        (4, 1, 1, 0),
    ] {
        assert_eq!(rt; range_items(first, step, last), items);
    }
}
