//! Sources with their trees or refusals, worked by hand.

use fic_base::{Code, Refusal};
use mat_ast::{BinOp, Expr, ExprKind, File, Func, Stmt};
use mat_parse::parse;
use num_type::Stop;
use std::alloc::{AllocError, Global};
use std::test::Fail;

/// Where, with which code and with which text a source is refused.
fn written(alloc: Global, refusal: &Refusal) -> Result<Vec<u8>, AllocError> {
    let code = match refusal.code {
        Code::BadByte => "E01",
        Code::Syntax => "E03",
        Code::Limit => "E20",
        _ => "other",
    };
    let line = refusal.place.line;
    let col = refusal.place.col;
    let mut out = Vec::new(alloc);
    let front = format!(in alloc; "{line}:{col} {code} ")?;
    out.extend_from_slice(front.as_bytes())?;
    out.extend_from_slice(refusal.shown.as_bytes())?;
    Ok(out)
}

/// The refusal of a source, or `parsed`.
fn answer(alloc: Global, source: &[u8]) -> Result<Vec<u8>, AllocError> {
    match parse(alloc, source) {
        Ok(_) => Vec::from_slice(alloc, b"parsed"),
        Err(Stop::Memory) => Err(AllocError),
        Err(Stop::Refused(refusal)) => written(alloc, &refusal),
    }
}

/// A function whose only statement is a text.
fn with_statement(alloc: Global, text: &[u8]) -> Result<Vec<u8>, AllocError> {
    let mut source = Vec::new(alloc);
    source.extend_from_slice(b"function y = f(a, x)\n")?;
    source.extend_from_slice(text)?;
    source.extend_from_slice(b"\n")?;
    Ok(source)
}

/// Whether a source is refused so.
fn is_answer(alloc: Global, source: &[u8], wanted: &str) -> Result<bool, AllocError> {
    let got = answer(alloc, source)?;
    Ok(got.as_slice() == wanted.as_bytes())
}

#[test]
fn whole_files(rt: HostRuntime) -> Result<(), Fail> {
    for (source, wanted) in [
        ("function y =", "1:13 E03 end of file"),
        ("", "parsed"),
        ("y = 1;\n", "1:1 E03 y"),
        ("function y = f\ny = 1;\n", "parsed"),
        (
            "function y = f()\ny = 1;\nend\nfunction z = g(a)\nz = a;\nend\n",
            "parsed",
        ),
        (
            "function y = f()\ny = 1;\nend\nfunction z = g(a)\nz = a;\n",
            "6:1 E03 end of file",
        ),
    ] {
        let same = is_answer(rt.alloc(), source.as_bytes(), wanted)?;
        assert!(rt; same, "{source}");
    }
    Ok(())
}

#[test]
fn statements(rt: HostRuntime) -> Result<(), Fail> {
    for (text, wanted) in [
        ("y = a ? b;", "2:7 E01 3f"),
        ("y = a b;", "2:7 E03 b"),
        ("y = [,1];", "2:7 E03 1"),
        ("y = [1,,2];", "2:8 E03 ,"),
        ("[a; b] = f(x)", "2:5 E03 b"),
        ("[a, b] = f(x)", "parsed"),
        ("y = a\n(1);", "3:1 E03 ("),
        ("y = (a", "2:7 E03 end of line"),
        ("y = -a ^ -x + a(end, :)';", "parsed"),
        ("y = a ^ -x';", "2:11 E03 '"),
        ("y = end;", "2:5 E03 end"),
        ("for k = 1:3, y = k; end", "parsed"),
        ("if a, y = 1; elseif x, y = 2; else, y = 3; end", "parsed"),
        ("switch a", "2:1 E03 switch"),
    ] {
        let source = with_statement(rt.alloc(), text.as_bytes())?;
        let same = is_answer(rt.alloc(), &source, wanted)?;
        assert!(rt; same, "{text}");
    }
    Ok(())
}

/// A name in so many parentheses, assigned.
fn nest(alloc: Global, depth: usize) -> Result<Vec<u8>, AllocError> {
    let mut text = Vec::new(alloc);
    text.extend_from_slice(b"y = ")?;
    for _ in 0..depth {
        text.push(b'(')?;
    }
    text.push(b'a')?;
    for _ in 0..depth {
        text.push(b')')?;
    }
    with_statement(alloc, &text)
}

#[test]
fn depths(rt: HostRuntime) -> Result<(), Fail> {
    for (depth, wanted) in [
        (98, "parsed"),
        (99, "2:103 E20 100"),
        (101, "2:103 E20 100"),
    ] {
        let source = nest(rt.alloc(), depth)?;
        let same = is_answer(rt.alloc(), &source, wanted)?;
        assert!(rt; same, "{depth}");
    }
    Ok(())
}

/// How many elements the first row of a bracket has.
fn cells(value: &Expr) -> usize {
    match &value.kind {
        ExprKind::Matrix(rows) => match rows.as_slice().first() {
            Some(row) => row.cells.as_slice().len(),
            None => 0,
        },
        _ => 0,
    }
}

/// The value of the assignment with which the first function begins.
fn first_value(file: &File) -> Option<&Expr> {
    match file.funcs().first()?.body.as_slice().first()? {
        Stmt::Assign { value, .. } => Some(value),
        _ => None,
    }
}

/// How many elements the first row of a bracket has that is assigned.
fn elements(alloc: Global, bracket: &str) -> Result<usize, AllocError> {
    let mut text = Vec::new(alloc);
    text.extend_from_slice(b"y = ")?;
    text.extend_from_slice(bracket.as_bytes())?;
    let source = with_statement(alloc, &text)?;
    match parse(alloc, &source) {
        Err(_) => Ok(0),
        Ok(file) => Ok(first_value(&file).map_or(0, cells)),
    }
}

#[test]
fn brackets(rt: HostRuntime) -> Result<(), Fail> {
    for (bracket, wanted) in [
        ("[1 -2]", 2),
        ("[1 - 2]", 1),
        ("[a' b']", 2),
        ("[a (1)]", 2),
        ("[a' 'x']", 2),
        ("[f(a, 1) x; 1 2]", 2),
        ("[a(1) - 2, x', 3]", 3),
    ] {
        let got = elements(rt.alloc(), bracket)?;
        assert_eq!(rt; got, wanted, "{bracket}");
    }
    Ok(())
}

/// Whether a function has this name, and so many inputs, outputs and statements.
fn has_parts(f: &Func, name: &[u8], inputs: usize, outputs: usize, statements: usize) -> bool {
    f.name.text.as_bytes() == name
        && f.inputs.as_slice().len() == inputs
        && f.outputs.as_slice().len() == outputs
        && f.body.as_slice().len() == statements
}

/// The operator of an expression, and the place where it stands.
fn operator(value: &Expr) -> Option<(BinOp, u32)> {
    match &value.kind {
        ExprKind::Binary(op, _, _) => Some((*op, value.place.col)),
        _ => None,
    }
}

#[test]
fn trees(rt: HostRuntime) -> Result<(), Fail> {
    match parse(
        rt.alloc(),
        b"function [y, z] = f(a, b, c)\ny = a - b * c;\nz = y;\n",
    ) {
        Err(_) => assert!(rt; false, "refused"),
        Ok(file) => {
            assert_eq!(rt; file.funcs().len(), 1);
            let first = file.funcs().first();
            assert!(rt; first.is_some_and(|f| has_parts(f, b"f", 3, 2, 2)));
            assert_eq!(rt;
                first_value(&file).and_then(operator),
                Some((BinOp::Sub, 7))
            );
        }
    }
    Ok(())
}
