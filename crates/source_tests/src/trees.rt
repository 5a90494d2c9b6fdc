//! The depth of a file at its limit.

ghost use Rattle.std.specs.Prelude.{◌≤◌, ◌≡◌, IfOk, [], ◌∷◌};
ghost use Rattle.fic_base.specs.declared.place.Place.{Place};
ghost use Rattle.mat_ast.specs.View.{expr_view, func_view, funcs_view};
ghost use Rattle.mat_ast.specs.Source.{KeepsExp, KeepsFun, KeepsFuns};

use fic_base::{Place, Text};
use mat_ast::{Expr, File, Func, Ident, assign, name, paren};
use sqlite_items::Items;
use std::alloc::{AllocError, Global};
use std::test::Fail;

/// A name in so many parentheses.
fn nested(alloc: Global, count: u32) -> Result<Expr, AllocError>
    ensures { IfOk result (λ e. KeepsExp (expr_view e)) }
{
    let mut e = name(Place::START, Text::from_bytes(alloc, b"a")?);
    for _ in 0..count {
        e = paren(alloc, Place::START, e)?;
    }
    Ok(e)
}

/// The name of a variable.
fn ident(alloc: Global) -> Result<Ident, AllocError>
    ensures { IfOk result (λ i. i.place.offset ≡ 0) }
{
    let text = Text::from_bytes(alloc, b"y")?;
    Ok(Ident {
        text,
        place: Place::START,
    })
}

/// A function that assigns a value.
fn func(alloc: Global, value: Expr) -> Result<Func, AllocError>
    requires { KeepsExp (expr_view value) }
    ensures { IfOk result (λ f. KeepsFun (func_view f)) }
{
    let name = ident(alloc)?;
    let target = ident(alloc)?;
    let mut body = Items::new(alloc);
    body.push(assign(target, value))?;
    Ok(Func {
        name,
        inputs: Items::new(alloc),
        outputs: Items::new(alloc),
        body,
    })
}

/// How many functions the file of one function has whose value is in so many parentheses; None where it is too deep.
fn made(alloc: Global, parens: u32) -> Result<Option<usize>, AllocError> {
    let value = nested(alloc, parens)?;
    let mut funcs = Vec::new(alloc);
    funcs.push(func(alloc, value)?)?;
    Ok(File::make(funcs).map(|f| f.funcs().len()))
}

#[test]
fn depth_at_its_limit(rt: HostRuntime) -> Result<(), Fail> {
    assert_eq!(rt; made(rt.alloc(), 98)?, Some(1));
    assert_eq!(rt; made(rt.alloc(), 99)?, None);
    Ok(())
}
