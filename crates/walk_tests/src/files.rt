//! Refusals of files: their codes, places and shown texts.

use crate::functions::{func, ident, inputs, operand, outputs, push_ident};
use c_tree::CTree;
use fic_base::{Code, Place, Refusal, Text};
use mat_ast::{
    Arg, BinOp, Expr, Func, Ident, Stmt, UnOp, apply, assign, binary, name, range, unary,
};
use mat_token::{Kind, Token};
use num_type::{NumType, Stop};
use scalar_walk::lower_file;
use sqlite_items::Items;
use std::alloc::{AllocError, Global};
use std::test::Fail;

/// A place of the one line.
const fn at(offset: u32) -> Place {
    Place {
        offset,
        line: 1,
        col: 1,
    }
}

/// The token `:` at offset 3.
fn colon() -> Token {
    Token {
        place: at(3),
        len: 1,
        kind: Kind::Op,
        blank_before: false,
    }
}

/// A refusal that is wanted: its code, the offset of its place, and what it shows.
#[derive(Clone, Copy)]
struct Want<'a> {
    code: Code,
    offset: u32,
    shown: &'a [u8],
}

/// Whether an answer is a refusal that is wanted.
fn is_wanted(answer: Result<CTree, Stop<Refusal>>, want: Want<'_>) -> bool {
    match answer {
        Err(Stop::Refused(r)) => {
            r.code == want.code && r.place == at(want.offset) && r.shown.as_bytes() == want.shown
        }
        _ => false,
    }
}

/// Signed types of these word lengths and fraction lengths.
fn numbers(alloc: Global, pairs: &[(u32, i32)]) -> Result<Vec<NumType>, AllocError> {
    let mut types = Vec::new(alloc);
    for pair in pairs {
        if let Some(num) = NumType::make(true, pair.0, pair.1) {
            types.push(num)?;
        }
    }
    Ok(types)
}

/// Whether a file of one function is refused so, from `f` at these types.
fn refuses(alloc: Global, f: Func, pairs: &[(u32, i32)], want: Want<'_>) -> bool {
    let funcs = [f];
    match numbers(alloc, pairs) {
        Ok(types) => {
            let tokens = [colon()];
            let answer = lower_file(alloc, b"y=a:b", &tokens, &funcs, b"f", types.as_slice());
            is_wanted(answer, want)
        }
        Err(_) => false,
    }
}

/// Whether `y = VALUE` is refused so, at these types.
fn value_refuses(
    alloc: Global,
    value: Result<Expr, AllocError>,
    pairs: &[(u32, i32)],
    want: Want<'_>,
) -> bool {
    match value {
        Ok(value) => match func(alloc, value) {
            Ok(f) => refuses(alloc, f, pairs, want),
            Err(_) => false,
        },
        Err(_) => false,
    }
}

/// `a OP b`, with the operator at offset 3.
fn operation(alloc: Global, op: BinOp) -> Result<Expr, AllocError> {
    let a = operand(alloc, b"a")?;
    let b = operand(alloc, b"b")?;
    binary(alloc, at(3), op, a, b)
}

/// `abs(..)` of so many arguments `a`, with the name at offset 3.
fn call(alloc: Global, count: u32) -> Result<Expr, AllocError> {
    let mut args = Items::new(alloc);
    for _ in 0..count {
        args.push(Arg::Item(operand(alloc, b"a")?))?;
    }
    Ok(apply(at(3), Text::from_bytes(alloc, b"abs")?, at(6), args))
}

/// `abs(:)`, with the name at offset 3.
fn call_on_all(alloc: Global) -> Result<Expr, AllocError> {
    let mut args = Items::new(alloc);
    args.push(Arg::All)?;
    Ok(apply(at(3), Text::from_bytes(alloc, b"abs")?, at(6), args))
}

/// `~a`, with the operator at offset 3.
fn not(alloc: Global) -> Result<Expr, AllocError> {
    let a = operand(alloc, b"a")?;
    unary(alloc, at(3), UnOp::Not, a)
}

/// `a:b`, with the colon at offset 3.
fn colon_range(alloc: Global) -> Result<Expr, AllocError> {
    let a = operand(alloc, b"a")?;
    let b = operand(alloc, b"b")?;
    range(alloc, at(3), a, b)
}

/// `a*b+LAST`, with the product at offset 3.
fn wide(alloc: Global, last: &[u8]) -> Result<Expr, AllocError> {
    let first = operation(alloc, BinOp::Mul)?;
    let last = operand(alloc, last)?;
    binary(alloc, Place::START, BinOp::Add, first, last)
}

/// A statement `y = NAME;`, with its target and its value at an offset.
fn copy(alloc: Global, offset: u32, text: &[u8]) -> Result<Stmt, AllocError> {
    let mut target = ident(alloc, b"y")?;
    target.place = at(offset);
    let value = name(at(offset), Text::from_bytes(alloc, text)?);
    Ok(assign(target, value))
}

/// `function y = f(a, LAST), y = a; y = LAST; end`, with the last input at offset 7 and the last target at offset 9.
fn copies(alloc: Global, last: &[u8]) -> Result<Func, AllocError> {
    let mut inputs = Items::new(alloc);
    push_ident(alloc, &mut inputs, b"a")?;
    let text = Text::from_bytes(alloc, last)?;
    inputs.push(Ident { text, place: at(7) })?;
    let outputs = outputs(alloc)?;
    let body = two_copies(alloc, last)?;
    let name = ident(alloc, b"f")?;
    Ok(Func {
        name,
        inputs,
        outputs,
        body,
    })
}

/// `y = a; y = LAST;`.
fn two_copies(alloc: Global, last: &[u8]) -> Result<Items<Stmt>, AllocError> {
    let mut body = Items::new(alloc);
    body.push(copy(alloc, 0, b"a")?)?;
    body.push(copy(alloc, 9, last)?)?;
    Ok(body)
}

/// Whether `copies` is refused so.
fn copies_refuse(alloc: Global, last: &[u8], pairs: &[(u32, i32)], want: Want<'_>) -> bool {
    match copies(alloc, last) {
        Ok(f) => refuses(alloc, f, pairs, want),
        Err(_) => false,
    }
}

/// A refusal that is wanted.
fn refusal(code: Code, offset: u32, shown: &[u8]) -> Want<'_> {
    Want {
        code,
        offset,
        shown,
    }
}

/// `function y = f(a, b), y = a; y = a; .. end`, with so many statements, each at the offset of its number.
fn many(alloc: Global, count: u32) -> Result<Func, AllocError> {
    let mut body = Items::new(alloc);
    for k in 0..count {
        body.push(copy(alloc, k, b"a")?)?;
    }
    let inputs = inputs(alloc)?;
    let outputs = outputs(alloc)?;
    let name = ident(alloc, b"f")?;
    Ok(Func {
        name,
        inputs,
        outputs,
        body,
    })
}

/// Whether `many` with so many statements is refused at the limit of nodes.
fn many_refuse(alloc: Global, count: u32) -> bool {
    match many(alloc, count) {
        Ok(f) => refuses(
            alloc,
            f,
            &[(8, 0), (8, 0)],
            refusal(Code::Limit, 200_000, b"200000"),
        ),
        Err(_) => false,
    }
}

#[test]
fn many_nodes(rt: HostRuntime) {
    let alloc = rt.alloc();
    assert!(rt; many_refuse(alloc, 200_001));
    assert!(rt; !many_refuse(alloc, 200_000));
}

#[test]
fn no_function(rt: HostRuntime) {
    let alloc = rt.alloc();
    let answer = lower_file(alloc, b"", &[], &[], b"f", &[]);
    assert!(rt; is_wanted(answer, refusal(Code::NoEntry, 0, b"f")));
}

#[test]
fn other_counts(rt: HostRuntime) {
    let alloc = rt.alloc();
    let value = operation(alloc, BinOp::Mul);
    assert!(rt;
        value_refuses(
            alloc,
            value,
            &[(8, 4)],
            refusal(Code::ArgCount, 0, b"1 for 2")
        )
    );
}

#[test]
fn too_wide(rt: HostRuntime) {
    let alloc = rt.alloc();
    let value = operation(alloc, BinOp::Mul);
    assert!(rt;
        value_refuses(
            alloc,
            value,
            &[(64, 0), (8, 0)],
            refusal(Code::TooWide, 3, b"72")
        )
    );
    let value = wide(alloc, b"z");
    assert!(rt;
        value_refuses(
            alloc,
            value,
            &[(64, 0), (8, 0)],
            refusal(Code::TooWide, 3, b"72")
        )
    );
}

#[test]
fn difference_too_wide(rt: HostRuntime) {
    let alloc = rt.alloc();
    let value = operation(alloc, BinOp::Sub);
    assert!(rt;
        value_refuses(
            alloc,
            value,
            &[(64, 0), (8, 0)],
            refusal(Code::TooWide, 3, b"65")
        )
    );
    let value = operation(alloc, BinOp::ElemMul);
    assert!(rt;
        value_refuses(
            alloc,
            value,
            &[(8, 200), (8, 200)],
            refusal(Code::FractionOut, 3, b"400")
        )
    );
}

#[test]
fn other_counts_of_arguments(rt: HostRuntime) {
    let alloc = rt.alloc();
    let types = [(8, 0), (8, 0)];
    let none = refusal(Code::ArgCount, 3, b"0 for 1");
    assert!(rt; value_refuses(alloc, call(alloc, 0), &types, none));
    let two = refusal(Code::ArgCount, 3, b"2 for 1");
    assert!(rt; value_refuses(alloc, call(alloc, 2), &types, two));
    let all = refusal(Code::BadArgument, 3, b"abs");
    assert!(rt; value_refuses(alloc, call_on_all(alloc), &types, all));
    let later = refusal(Code::Unsupported, 3, b":");
    assert!(rt; value_refuses(alloc, not(alloc), &types, later));
}

#[test]
fn names_without_values(rt: HostRuntime) {
    let alloc = rt.alloc();
    let value = wide(alloc, b"z");
    assert!(rt;
        value_refuses(
            alloc,
            value,
            &[(8, 0), (8, 0)],
            refusal(Code::UnknownName, 0, b"z")
        )
    );
    let value = wide(alloc, b"y");
    assert!(rt;
        value_refuses(
            alloc,
            value,
            &[(8, 0), (8, 0)],
            refusal(Code::NotAssigned, 0, b"y")
        )
    );
    let value = wide(alloc, b"conj");
    assert!(rt;
        value_refuses(
            alloc,
            value,
            &[(8, 0), (8, 0)],
            refusal(Code::Unsupported, 0, b"conj")
        )
    );
    let value = wide(alloc, b"abs");
    assert!(rt;
        value_refuses(
            alloc,
            value,
            &[(8, 0), (8, 0)],
            refusal(Code::ArgCount, 0, b"0 for 1")
        )
    );
}

#[test]
fn kind_without_support(rt: HostRuntime) {
    let alloc = rt.alloc();
    let value = colon_range(alloc);
    assert!(rt;
        value_refuses(
            alloc,
            value,
            &[(8, 0), (8, 0)],
            refusal(Code::Unsupported, 3, b":")
        )
    );
    let value = operation(alloc, BinOp::Div);
    assert!(rt;
        value_refuses(
            alloc,
            value,
            &[(8, 0), (8, 0)],
            refusal(Code::Division, 3, b":")
        )
    );
}

#[test]
fn another_type(rt: HostRuntime) {
    let alloc = rt.alloc();
    let change = refusal(Code::TypeChange, 9, b"s31.14:1x1 into s16.0:1x1");
    assert!(rt; copies_refuse(alloc, b"b", &[(16, 0), (31, 14)], change));
}

#[test]
fn names_of_inputs(rt: HostRuntime) {
    let alloc = rt.alloc();
    let twice = refusal(Code::BadArgument, 7, b"a");
    assert!(rt; copies_refuse(alloc, b"a", &[(16, 0), (31, 14)], twice));
    let reserved = refusal(Code::Unsupported, 7, b"varargin");
    assert!(rt; copies_refuse(alloc, b"varargin", &[(16, 0), (31, 14)], reserved));
}
