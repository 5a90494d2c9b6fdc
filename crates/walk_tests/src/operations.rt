//! Operations, lowered: the types of their results.

use crate::functions::{func, operand};
use c_tree::{CKind, CTree};
use fic_base::{Place, Text};
use mat_ast::{Arg, BinOp, Expr, UnOp, apply, binary, unary};
use num_type::{NumType, Stop};
use scalar_walk::lower_file;
use sqlite_items::Items;
use std::alloc::{AllocError, Global};
use std::test::Fail;

/// Whether a program has one output, of this type.
fn gives(tree: &CTree, want: NumType) -> bool {
    let [output] = tree.interface.outputs.as_slice() else {
        return false;
    };
    let CKind::Fi { num, complex } = output.kind else {
        return false;
    };
    !complex && num == want
}

/// Whether `y = VALUE` with `a` and `b` of a type gives one output of another type, over so many variables.
fn lowers(
    alloc: Global,
    value: Result<Expr, AllocError>,
    from: Option<NumType>,
    want: Option<NumType>,
    words: usize,
) -> bool {
    let (Ok(value), Some(from), Some(want)) = (value, from, want) else {
        return false;
    };
    let Ok(f) = func(alloc, value) else {
        return false;
    };
    let funcs = [f];
    match lower_file(alloc, b"", &[], &funcs, b"f", &[from, from]) {
        Ok(tree) => gives(&tree, want) && tree.words.as_slice().len() == words,
        Err(_) => false,
    }
}

/// `a OP b`.
fn both(alloc: Global, op: BinOp) -> Result<Expr, AllocError> {
    let a = operand(alloc, b"a")?;
    let b = operand(alloc, b"b")?;
    binary(alloc, Place::START, op, a, b)
}

/// `OP a`.
fn sign(alloc: Global, op: UnOp) -> Result<Expr, AllocError> {
    let a = operand(alloc, b"a")?;
    unary(alloc, Place::START, op, a)
}

/// `abs(a)`.
fn size(alloc: Global) -> Result<Expr, AllocError> {
    let mut args = Items::new(alloc);
    args.push(Arg::Item(operand(alloc, b"a")?))?;
    Ok(apply(
        Place::START,
        Text::from_bytes(alloc, b"abs")?,
        Place::START,
        args,
    ))
}

#[test]
fn types_of_operations(rt: HostRuntime) {
    let alloc = rt.alloc();
    let plain = NumType::make(false, 8, 0);
    let signed = NumType::make(true, 8, 4);
    assert!(rt;
        lowers(
            alloc,
            both(alloc, BinOp::Sub),
            plain,
            NumType::make(false, 9, 0),
            3
        )
    );
    assert!(rt;
        lowers(
            alloc,
            both(alloc, BinOp::Sub),
            signed,
            NumType::make(true, 9, 4),
            3
        )
    );
    assert!(rt;
        lowers(
            alloc,
            both(alloc, BinOp::ElemMul),
            signed,
            NumType::make(true, 16, 8),
            1
        )
    );
    assert!(rt; lowers(alloc, sign(alloc, UnOp::Plus), signed, signed, 0));
    assert!(rt; lowers(alloc, sign(alloc, UnOp::Minus), signed, signed, 2));
    assert!(rt; lowers(alloc, sign(alloc, UnOp::Minus), plain, plain, 1));
    assert!(rt; lowers(alloc, size(alloc), signed, signed, 2));
}
