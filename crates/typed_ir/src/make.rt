//! Builders, one for each form of a typed expression and a typed statement. Those that box a part refuse for want of memory alone.

ghost use Rattle.std.specs.Prelude.{◌≡◌, IfOk};
ghost use Rattle.typed_ir.specs.View.{ty_view, slots_view, expr_view, args_view, items_view, row_view, rows_view, stmt_view, block_view, arm_view, arms_view, fun_view};
ghost use Rattle.typed_ir.specs.Tree.{TNumber, TWords, TRead, TSelect, TBuiltin, TCall, TEnd, TUnary, TBinary, TPost, TRange, TRangeBy, TParen, TMatrix, TAssign, TStore, TMulti, TIfOnly, TIfElse, TForEach, TWhile, TBreak, TContinue, Function};

use crate::tree::{FnTree, Slot, TArg, TArm, TExpr, TKind, TRow, TStmt};
use crate::ty::Ty;
use fic_base::{Place, Text};
use mat_ast::{BinOp, Ident, PostOp, UnOp};
use sqlite_items::{Boxed, Items};
use std::alloc::{AllocError, Global};

/// A number: its digits without an `i` or `j`, and whether it had one.
pub fn number(place: Place, ty: Ty, text: Text, imaginary: bool) -> TExpr
    ensures { expr_view result ≡ TNumber place (ty_view ty) text imaginary }
{
    TExpr {
        place,
        ty,
        kind: TKind::Number { text, imaginary },
    }
}

/// A text, without its quotes.
pub fn words(place: Place, ty: Ty, text: Text) -> TExpr
    ensures { expr_view result ≡ TWords place (ty_view ty) text }
{
    TExpr {
        place,
        ty,
        kind: TKind::Words(text),
    }
}

/// The value of a variable.
pub fn read(place: Place, ty: Ty, name: Text) -> TExpr
    ensures { expr_view result ≡ TRead place (ty_view ty) name }
{
    TExpr {
        place,
        ty,
        kind: TKind::Read(name),
    }
}

/// A subscripted read of a variable; `site` is the number of its fault.
pub fn select(place: Place, ty: Ty, name: Text, site: u32, args: Items<TArg>) -> TExpr
    ensures { expr_view result ≡ TSelect place (ty_view ty) name site (args_view args) }
{
    TExpr {
        place,
        ty,
        kind: TKind::Select { name, site, args },
    }
}

/// A call of a built-in function.
pub fn builtin(place: Place, ty: Ty, name: Text, args: Items<TExpr>) -> TExpr
    ensures { expr_view result ≡ TBuiltin place (ty_view ty) name (items_view args) }
{
    TExpr {
        place,
        ty,
        kind: TKind::Builtin { name, args },
    }
}

/// A call of a function of the file, which is asked for so many outputs. The type is that of its first output.
pub fn call(
    alloc: Global,
    place: Place,
    ty: Ty,
    callee: FnTree,
    args: Items<TExpr>,
    outs: u32,
) -> Result<TExpr, AllocError>
    ensures { IfOk result (λ made. expr_view made ≡ TCall place (ty_view ty) (fun_view callee) (items_view args) outs) }
{
    match Boxed::new(alloc, callee) {
        Ok(callee) => Ok(TExpr {
            place,
            ty,
            kind: TKind::Call(crate::tree::TCall { callee, args, outs }),
        }),
        Err(error) => {
            drop(args);
            drop(ty);
            Err(error)
        }
    }
}

/// `end` in a subscript.
pub fn end(place: Place, ty: Ty) -> TExpr
    ensures { expr_view result ≡ TEnd place (ty_view ty) }
{
    TExpr {
        place,
        ty,
        kind: TKind::End,
    }
}

/// A sign and its operand.
pub fn unary(alloc: Global, place: Place, ty: Ty, op: UnOp, e: TExpr) -> Result<TExpr, AllocError>
    ensures { IfOk result (λ made. expr_view made ≡ TUnary place (ty_view ty) op (expr_view e)) }
{
    match Boxed::new(alloc, e) {
        Ok(e) => Ok(TExpr {
            place,
            ty,
            kind: TKind::Unary(op, e),
        }),
        Err(error) => {
            drop(ty);
            Err(error)
        }
    }
}

/// An operator and its operands.
pub fn binary(
    alloc: Global,
    place: Place,
    ty: Ty,
    op: BinOp,
    a: TExpr,
    b: TExpr,
) -> Result<TExpr, AllocError>
    ensures { IfOk result (λ made. expr_view made ≡ TBinary place (ty_view ty) op (expr_view a) (expr_view b)) }
{
    match both(alloc, a, b) {
        Ok((a, b)) => Ok(TExpr {
            place,
            ty,
            kind: TKind::Binary(op, a, b),
        }),
        Err(error) => {
            drop(ty);
            Err(error)
        }
    }
}

/// Two parts, boxed.
fn both(alloc: Global, a: TExpr, b: TExpr) -> Result<(Boxed<TExpr>, Boxed<TExpr>), AllocError>
    ensures { IfOk result (λ made. (expr_view made.0 ≡ expr_view a) × (expr_view made.1 ≡ expr_view b)) }
{
    match Boxed::new(alloc, a) {
        Ok(a) => match Boxed::new(alloc, b) {
            Ok(b) => Ok((a, b)),
            Err(error) => {
                drop(a);
                Err(error)
            }
        },
        Err(error) => {
            drop(b);
            Err(error)
        }
    }
}

/// A transpose.
pub fn post(alloc: Global, place: Place, ty: Ty, op: PostOp, e: TExpr) -> Result<TExpr, AllocError>
    ensures { IfOk result (λ made. expr_view made ≡ TPost place (ty_view ty) op (expr_view e)) }
{
    match Boxed::new(alloc, e) {
        Ok(e) => Ok(TExpr {
            place,
            ty,
            kind: TKind::Post(op, e),
        }),
        Err(error) => {
            drop(ty);
            Err(error)
        }
    }
}

/// A range without a step.
pub fn range(
    alloc: Global,
    place: Place,
    ty: Ty,
    first: TExpr,
    last: TExpr,
) -> Result<TExpr, AllocError>
    ensures { IfOk result (λ made. expr_view made ≡ TRange place (ty_view ty) (expr_view first) (expr_view last)) }
{
    match both(alloc, first, last) {
        Ok((first, last)) => Ok(TExpr {
            place,
            ty,
            kind: TKind::Range {
                first,
                step: None,
                last,
            },
        }),
        Err(error) => {
            drop(ty);
            Err(error)
        }
    }
}

/// A range with a step.
pub fn range_by(
    alloc: Global,
    place: Place,
    ty: Ty,
    first: TExpr,
    step: TExpr,
    last: TExpr,
) -> Result<TExpr, AllocError>
    ensures { IfOk result (λ made. expr_view made ≡ TRangeBy place (ty_view ty) (expr_view first) (expr_view step) (expr_view last)) }
{
    match Boxed::new(alloc, step) {
        Ok(step) => stepped(alloc, place, ty, first, step, last),
        Err(error) => {
            drop(ty);
            drop(first);
            drop(last);
            Err(error)
        }
    }
}

/// A range with a step, which is boxed already.
fn stepped(
    alloc: Global,
    place: Place,
    ty: Ty,
    first: TExpr,
    step: Boxed<TExpr>,
    last: TExpr,
) -> Result<TExpr, AllocError>
    ensures { IfOk result (λ made. expr_view made ≡ TRangeBy place (ty_view ty) (expr_view first) (expr_view step) (expr_view last)) }
{
    match both(alloc, first, last) {
        Ok((first, last)) => Ok(TExpr {
            place,
            ty,
            kind: TKind::Range {
                first,
                step: Some(step),
                last,
            },
        }),
        Err(error) => {
            drop(ty);
            drop(step);
            Err(error)
        }
    }
}

/// An expression in parentheses.
pub fn paren(alloc: Global, place: Place, ty: Ty, e: TExpr) -> Result<TExpr, AllocError>
    ensures { IfOk result (λ made. expr_view made ≡ TParen place (ty_view ty) (expr_view e)) }
{
    match Boxed::new(alloc, e) {
        Ok(e) => Ok(TExpr {
            place,
            ty,
            kind: TKind::Paren(e),
        }),
        Err(error) => {
            drop(ty);
            Err(error)
        }
    }
}

/// A row of a bracket.
pub fn row(cells: Items<TExpr>) -> TRow
    ensures { row_view result ≡ items_view cells }
{
    TRow { cells }
}

/// A bracket, by rows.
pub fn matrix(place: Place, ty: Ty, rows: Items<TRow>) -> TExpr
    ensures { expr_view result ≡ TMatrix place (ty_view ty) (rows_view rows) }
{
    TExpr {
        place,
        ty,
        kind: TKind::Matrix(rows),
    }
}

/// An assignment to a variable.
pub fn assign(name: Ident, value: TExpr) -> TStmt
    ensures { stmt_view result ≡ TAssign name (expr_view value) }
{
    TStmt::Assign { name, value }
}

/// An assignment to subscripts of a variable; `site` is the number of its fault.
pub fn store(name: Ident, site: u32, args: Items<TArg>, value: TExpr) -> TStmt
    ensures { stmt_view result ≡ TStore name site (args_view args) (expr_view value) }
{
    TStmt::Store {
        name,
        site,
        args,
        value,
    }
}

/// An assignment of a call's outputs to a list of variables.
pub fn multi(targets: Items<Ident>, call: TExpr) -> TStmt
    ensures { stmt_view result ≡ TMulti targets (expr_view call) }
{
    TStmt::Multi { targets, call }
}

/// A condition and what it guards.
pub fn arm(condition: TExpr, body: Items<TStmt>) -> TArm
    ensures { arm_view result ≡ (expr_view condition, block_view body) }
{
    TArm { condition, body }
}

/// An `if` without an `else`.
pub fn if_only(place: Place, arms: Items<TArm>) -> TStmt
    ensures { stmt_view result ≡ TIfOnly place (arms_view arms) }
{
    TStmt::If {
        place,
        arms,
        other: None,
    }
}

/// An `if` with an `else`.
pub fn if_else(place: Place, arms: Items<TArm>, other: Items<TStmt>) -> TStmt
    ensures { stmt_view result ≡ TIfElse place (arms_view arms) (block_view other) }
{
    TStmt::If {
        place,
        arms,
        other: Some(other),
    }
}

/// A `for` over so many items from the first on, with a step between them.
pub fn for_each(
    place: Place,
    name: Ident,
    bounds: Items<TExpr>,
    first: i64,
    step: i64,
    count: u32,
    body: Items<TStmt>,
) -> TStmt
    ensures { stmt_view result ≡ TForEach place name (items_view bounds) first step count (block_view body) }
{
    TStmt::For {
        place,
        name,
        bounds,
        first,
        step,
        count,
        body,
    }
}

/// A `while`.
pub fn while_true(place: Place, condition: TExpr, body: Items<TStmt>) -> TStmt
    ensures { stmt_view result ≡ TWhile place (expr_view condition) (block_view body) }
{
    TStmt::While {
        place,
        condition,
        body,
    }
}

/// A `break`.
pub fn break_off(place: Place) -> TStmt
    ensures { stmt_view result ≡ TBreak place }
{
    TStmt::Break(place)
}

/// A `continue`.
pub fn go_on(place: Place) -> TStmt
    ensures { stmt_view result ≡ TContinue place }
{
    TStmt::Continue(place)
}

/// A function: its name and the place of that, its inputs, its outputs and its statements.
pub fn function(
    entry: Text,
    place: Place,
    inputs: Items<Slot>,
    outputs: Items<Slot>,
    body: Items<TStmt>,
) -> FnTree
    ensures { fun_view result ≡ Function entry place (slots_view inputs) (slots_view outputs) (block_view body) }
{
    FnTree {
        entry,
        place,
        inputs,
        outputs,
        body,
    }
}
