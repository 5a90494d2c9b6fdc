//! Builders, one for each form of an expression and a statement.

ghost use Rattle.std.specs.Prelude.{◌≡◌, IfOk};
ghost use Rattle.mat_ast.specs.View.{expr_view, args_view, stmt_view, block_view, row_view, rows_view, arms_view};
ghost use Rattle.mat_ast.specs.Tree.{Number, Words, Name, Apply, End, Unary, Binary, Post, Range, RangeBy, Paren, Matrix, Assign, Store, Multi, IfOnly, IfElse, ForEach, WhileTrue, BreakOff, GoOn, Arm, NoArms, RowOn, NoRows};

use crate::tree::{Arg, BinOp, Expr, ExprKind, Ident, PostOp, Row, Stmt, UnOp};
use fic_base::{Place, Text};
use sqlite_items::{Boxed, Items};
use std::alloc::{AllocError, Global};

/// A sign and its operand. Want of memory is its only refusal.
pub fn unary(alloc: Global, place: Place, op: UnOp, e: Expr) -> Result<Expr, AllocError>
    ensures { IfOk result (λ made. expr_view made ≡ Unary place op (expr_view e)) }
{
    Ok(Expr {
        place,
        kind: ExprKind::Unary(op, Boxed::new(alloc, e)?),
    })
}

/// An operator and its operands. Want of memory is its only refusal.
pub fn binary(alloc: Global, place: Place, op: BinOp, a: Expr, b: Expr) -> Result<Expr, AllocError>
    ensures { IfOk result (λ made. expr_view made ≡ Binary place op (expr_view a) (expr_view b)) }
{
    let a = Boxed::new(alloc, a)?;
    let b = Boxed::new(alloc, b)?;
    Ok(Expr {
        place,
        kind: ExprKind::Binary(op, a, b),
    })
}

/// A name with parentheses.
pub fn apply(place: Place, name: Text, paren: Place, args: Items<Arg>) -> Expr
    ensures { expr_view result ≡ Apply place name paren (args_view args) }
{
    Expr {
        place,
        kind: ExprKind::Apply { name, paren, args },
    }
}

/// A bracket of one row. Want of memory is its only refusal.
pub fn one_row(alloc: Global, place: Place, row: Row) -> Result<Expr, AllocError>
    ensures { IfOk result (λ made. expr_view made ≡ Matrix place (RowOn (row_view row) NoRows)) }
{
    let mut rows = Items::new(alloc);
    rows.push(row)?;
    Ok(Expr {
        place,
        kind: ExprKind::Matrix(rows),
    })
}

/// An assignment to a variable.
pub fn assign(name: Ident, value: Expr) -> Stmt
    ensures { stmt_view result ≡ Assign name (expr_view value) }
{
    Stmt::Assign { name, value }
}

/// An `if` of one arm without an `else`. Want of memory is its only refusal.
pub fn if_only(
    alloc: Global,
    place: Place,
    condition: Expr,
    body: Items<Stmt>,
) -> Result<Stmt, AllocError>
    ensures { IfOk result (λ made. stmt_view made ≡ IfOnly place (Arm (expr_view condition) (block_view body) NoArms)) }
{
    let mut arms = Items::new(alloc);
    arms.push(crate::tree::Arm { condition, body })?;
    Ok(Stmt::If {
        place,
        arms,
        other: None,
    })
}

/// A number: its digits without an `i` or `j`, and whether it had one.
pub fn number(place: Place, text: Text, imaginary: bool) -> Expr
    ensures { expr_view result ≡ Number place text imaginary }
{
    Expr {
        place,
        kind: ExprKind::Number { text, imaginary },
    }
}

/// A text, without its quotes.
pub fn words(place: Place, text: Text) -> Expr
    ensures { expr_view result ≡ Words place text }
{
    Expr {
        place,
        kind: ExprKind::Words(text),
    }
}

/// A name.
pub fn name(place: Place, text: Text) -> Expr
    ensures { expr_view result ≡ Name place text }
{
    Expr {
        place,
        kind: ExprKind::Name(text),
    }
}

/// `end` as a value.
pub fn end(place: Place) -> Expr
    ensures { expr_view result ≡ End place }
{
    Expr {
        place,
        kind: ExprKind::End,
    }
}

/// A transpose. Want of memory is its only refusal.
pub fn post(alloc: Global, place: Place, op: PostOp, e: Expr) -> Result<Expr, AllocError>
    ensures { IfOk result (λ made. expr_view made ≡ Post place op (expr_view e)) }
{
    Ok(Expr {
        place,
        kind: ExprKind::Post(op, Boxed::new(alloc, e)?),
    })
}

/// A range without a step. Want of memory is its only refusal.
pub fn range(alloc: Global, place: Place, first: Expr, last: Expr) -> Result<Expr, AllocError>
    ensures { IfOk result (λ made. expr_view made ≡ Range place (expr_view first) (expr_view last)) }
{
    let first = Boxed::new(alloc, first)?;
    let last = Boxed::new(alloc, last)?;
    Ok(Expr {
        place,
        kind: ExprKind::Range {
            first,
            step: None,
            last,
        },
    })
}

/// A range with a step. Want of memory is its only refusal.
pub fn range_by(
    alloc: Global,
    place: Place,
    first: Expr,
    step: Expr,
    last: Expr,
) -> Result<Expr, AllocError>
    ensures { IfOk result (λ made. expr_view made ≡ RangeBy place (expr_view first) (expr_view step) (expr_view last)) }
{
    let first = Boxed::new(alloc, first)?;
    let step = Boxed::new(alloc, step)?;
    let last = Boxed::new(alloc, last)?;
    Ok(Expr {
        place,
        kind: ExprKind::Range {
            first,
            step: Some(step),
            last,
        },
    })
}

/// An expression in parentheses. Want of memory is its only refusal.
pub fn paren(alloc: Global, place: Place, e: Expr) -> Result<Expr, AllocError>
    ensures { IfOk result (λ made. expr_view made ≡ Paren place (expr_view e)) }
{
    Ok(Expr {
        place,
        kind: ExprKind::Paren(Boxed::new(alloc, e)?),
    })
}

/// A bracket of rows.
pub fn matrix(place: Place, rows: Items<Row>) -> Expr
    ensures { expr_view result ≡ Matrix place (rows_view rows) }
{
    Expr {
        place,
        kind: ExprKind::Matrix(rows),
    }
}

/// An assignment to subscripts of a variable.
pub fn store(name: Ident, paren: Place, args: Items<Arg>, value: Expr) -> Stmt
    ensures { stmt_view result ≡ Store name paren (args_view args) (expr_view value) }
{
    Stmt::Store {
        name,
        paren,
        args,
        value,
    }
}

/// An assignment of a call to a bracket of variables.
pub fn multi(targets: Items<Ident>, call: Expr) -> Stmt
    ensures { stmt_view result ≡ Multi targets (expr_view call) }
{
    Stmt::Multi { targets, call }
}

/// An `if` without an `else`.
pub fn if_arms(place: Place, arms: Items<crate::tree::Arm>) -> Stmt
    ensures { stmt_view result ≡ IfOnly place (arms_view arms) }
{
    Stmt::If {
        place,
        arms,
        other: None,
    }
}

/// An `if` with an `else`.
pub fn if_else(place: Place, arms: Items<crate::tree::Arm>, other: Items<Stmt>) -> Stmt
    ensures { stmt_view result ≡ IfElse place (arms_view arms) (block_view other) }
{
    Stmt::If {
        place,
        arms,
        other: Some(other),
    }
}

/// A `for`.
pub fn for_each(place: Place, name: Ident, range: Expr, body: Items<Stmt>) -> Stmt
    ensures { stmt_view result ≡ ForEach place name (expr_view range) (block_view body) }
{
    Stmt::For {
        place,
        name,
        range,
        body,
    }
}

/// A `while`.
pub fn while_true(place: Place, condition: Expr, body: Items<Stmt>) -> Stmt
    ensures { stmt_view result ≡ WhileTrue place (expr_view condition) (block_view body) }
{
    Stmt::While {
        place,
        condition,
        body,
    }
}

/// A `break`.
pub fn break_off(place: Place) -> Stmt
    ensures { stmt_view result ≡ BreakOff place }
{
    Stmt::Break(place)
}

/// A `continue`.
pub fn go_on(place: Place) -> Stmt
    ensures { stmt_view result ≡ GoOn place }
{
    Stmt::Continue(place)
}
