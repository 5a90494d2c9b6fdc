//! Functions of two inputs, lowered.

use c_tree::{CKind, CTree};
use fic_base::{Code, Place, Refusal, Text};
use mat_ast::{BinOp, Expr, Func, Ident, Stmt, assign, binary, name};
use num_type::{Memory, NumType, Stop};
use scalar_walk::lower_function;
use sqlite_items::Items;
use std::alloc::{AllocError, Global};
use std::test::Fail;
use walk_scope::{NameSet, Scope};

/// A name of a header or a target.
pub fn ident(alloc: Global, text: &[u8]) -> Result<Ident, AllocError> {
    let text = Text::from_bytes(alloc, text)?;
    Ok(Ident {
        text,
        place: Place::START,
    })
}

/// A name as an operand.
pub fn operand(alloc: Global, text: &[u8]) -> Result<Expr, AllocError> {
    Ok(name(Place::START, Text::from_bytes(alloc, text)?))
}

/// `a*b`.
pub fn product(alloc: Global) -> Result<Expr, AllocError> {
    let a = operand(alloc, b"a")?;
    let b = operand(alloc, b"b")?;
    binary(alloc, Place::START, BinOp::Mul, a, b)
}

/// `a*b OP LAST`.
fn value(alloc: Global, op: BinOp, last: &[u8]) -> Result<Expr, AllocError> {
    let first = product(alloc)?;
    let last = operand(alloc, last)?;
    binary(alloc, Place::START, op, first, last)
}

/// One more name of a header.
pub fn push_ident(alloc: Global, names: &mut Items<Ident>, text: &[u8]) -> Result<(), AllocError> {
    let name = ident(alloc, text)?;
    names.push(name)
}

/// The inputs `a` and `b`.
pub fn inputs(alloc: Global) -> Result<Items<Ident>, AllocError> {
    let mut names = Items::new(alloc);
    push_ident(alloc, &mut names, b"a")?;
    push_ident(alloc, &mut names, b"b")?;
    Ok(names)
}

/// The output `y`.
pub fn outputs(alloc: Global) -> Result<Items<Ident>, AllocError> {
    let mut names = Items::new(alloc);
    push_ident(alloc, &mut names, b"y")?;
    Ok(names)
}

/// `y = VALUE;`.
fn body(alloc: Global, value: Expr) -> Result<Items<Stmt>, AllocError> {
    let target = ident(alloc, b"y")?;
    let mut body = Items::new(alloc);
    body.push(assign(target, value))?;
    Ok(body)
}

/// `function y = f(a, b), y = VALUE; end`.
pub fn func(alloc: Global, value: Expr) -> Result<Func, AllocError> {
    let body = body(alloc, value)?;
    let inputs = inputs(alloc)?;
    let outputs = outputs(alloc)?;
    let name = ident(alloc, b"f")?;
    Ok(Func {
        name,
        inputs,
        outputs,
        body,
    })
}

/// The variables `a`, `b` and `y`.
fn variables(alloc: Global) -> Result<NameSet, Memory> {
    let mut names = NameSet::new(alloc);
    names.insert(alloc, b"a")?;
    names.insert(alloc, b"b")?;
    names.insert(alloc, b"y")?;
    Ok(names)
}

/// The program of `y = a*b OP LAST` at two inputs of a type.
fn program(alloc: Global, op: BinOp, last: &[u8], num: NumType) -> Result<CTree, Stop<Refusal>> {
    let value = value(alloc, op, last)?;
    let f = func(alloc, value)?;
    let variables = variables(alloc)?;
    let functions = NameSet::new(alloc);
    let scope = Scope {
        variables: &variables,
        functions: &functions,
        bytes: b"",
        tokens: &[],
    };
    lower_function(alloc, &scope, &f, &[num, num])
}

/// Whether the program sets two variables and has one output, of this signedness, word length and fraction length.
fn gives(tree: &CTree, signed: bool, word: u32, fraction: i32) -> bool {
    let [output] = tree.interface.outputs.as_slice() else {
        return false;
    };
    let CKind::Fi { num, complex } = output.kind else {
        return false;
    };
    tree.words.as_slice().len() == 2
        && tree.body.as_slice().len() == 4
        && !complex
        && NumType::make(signed, word, fraction) == Some(num)
}

/// Whether lowering at two inputs of a type gives what a table states.
fn lowers(
    alloc: Global,
    op: BinOp,
    last: &[u8],
    word: u32,
    want: Result<(u32, i32), Code>,
) -> bool {
    let Some(num) = NumType::make(true, word, 4) else {
        return false;
    };
    match (program(alloc, op, last, num), want) {
        (Ok(tree), Ok((word, fraction))) => gives(&tree, true, word, fraction),
        (Err(Stop::Refused(r)), Err(code)) => r.code == code,
        _ => false,
    }
}

#[test]
fn sum_of_products(rt: HostRuntime) {
    let alloc = rt.alloc();
    assert!(rt; lowers(alloc, BinOp::Add, b"a", 8, Ok((17, 8))));
    assert!(rt; lowers(alloc, BinOp::Mul, b"b", 8, Ok((24, 12))));
    assert!(rt; lowers(alloc, BinOp::Add, b"y", 8, Err(Code::NotAssigned)));
    assert!(rt; lowers(alloc, BinOp::Div, b"a", 8, Err(Code::Division)));
    assert!(rt; lowers(alloc, BinOp::Add, b"a", 33, Err(Code::TooWide)));
}
