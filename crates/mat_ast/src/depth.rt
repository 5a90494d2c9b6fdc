//! How deep trees are. A leaf is 1 deep, any other node and any statement 1 more than its deepest part.

ghost use Rattle.std.specs.Prelude.{ℕ, ◌≤◌, ◌<◌, IsTrue, ◌↔◌, map, List, [], ◌∷◌};
ghost use Rattle.mat_ast.specs.View.{expr_view, arg_view, args_view, rows_view, row_view, stmt_view, arms_view, block_view, funcs_view};
ghost use Rattle.mat_ast.specs.Depth.{depth, args_depth, row_depth, rows_depth, sta_depth, arms_depth, block_depth, file_depth};

use crate::tree::{Arg, Arm, Expr, ExprKind, Func, Row, Stmt};

/// Whether an expression is at most so deep.
#[cycle(depth)]
pub fn is_within(e: &Expr, limit: u32) -> bool
    ensures { IsTrue result ↔ (depth (expr_view e.now) ≤ limit) }
{
    if limit == 0 {
        return false;
    }
    let below = limit - 1;
    match &e.kind {
        ExprKind::Number {
            text: _,
            imaginary: _,
        } => true,
        ExprKind::Words(_) => true,
        ExprKind::Name(_) => true,
        ExprKind::End => true,
        ExprKind::Apply {
            name: _,
            paren: _,
            args,
        } => are_within(args.as_slice(), below),
        ExprKind::Unary(_, part) => is_within(part.get(), below),
        ExprKind::Binary(_, a, b) => is_within(a.get(), below) && is_within(b.get(), below),
        ExprKind::Post(_, part) => is_within(part.get(), below),
        ExprKind::Range { first, step, last } => {
            let steps = match step {
                None => true,
                Some(step) => is_within(step.get(), below),
            };
            is_within(first.get(), below) && steps && is_within(last.get(), below)
        }
        ExprKind::Paren(part) => is_within(part.get(), below),
        ExprKind::Matrix(rows) => rows_within(rows.as_slice(), below),
    }
}

/// Whether arguments are at most so deep.
#[cycle(depth)]
fn are_within(args: &[Arg], limit: u32) -> bool
    ensures { IsTrue result ↔ (args_depth (args_view args.now) ≤ limit) }
{
    for arg in args {
        if !arg_within(arg, limit) {
            return false;
        }
    }
    true
}

/// Whether an argument is at most so deep.
#[cycle(depth)]
fn arg_within(arg: &Arg, limit: u32) -> bool
    ensures { IsTrue result ↔ (args_depth (args_view (arg.now ∷ [])) ≤ limit) }
{
    match arg {
        Arg::All => true,
        Arg::Item(e) => is_within(e, limit),
    }
}

/// Whether a row of a bracket is at most so deep.
#[cycle(depth)]
fn row_within(row: &Row, limit: u32) -> bool
    ensures { IsTrue result ↔ (row_depth (row_view row.now) ≤ limit) }
{
    for e in row.cells.as_slice() {
        if !is_within(e, limit) {
            return false;
        }
    }
    true
}

/// Whether the rows of a bracket are at most so deep.
#[cycle(depth)]
fn rows_within(rows: &[Row], limit: u32) -> bool
    ensures { IsTrue result ↔ (rows_depth (rows_view rows.now) ≤ limit) }
{
    for row in rows {
        if !row_within(row, limit) {
            return false;
        }
    }
    true
}

/// Whether a statement is at most so deep.
#[cycle(blocks)]
fn stmt_within(s: &Stmt, limit: u32) -> bool
    ensures { IsTrue result ↔ (sta_depth (stmt_view s.now) ≤ limit) }
{
    if limit == 0 {
        return false;
    }
    let below = limit - 1;
    match s {
        Stmt::Assign { name: _, value } => is_within(value, below),
        Stmt::Store {
            name: _,
            paren: _,
            args,
            value,
        } => are_within(args.as_slice(), below) && is_within(value, below),
        Stmt::Multi { targets: _, call } => is_within(call, below),
        Stmt::If {
            place: _,
            arms,
            other,
        } => {
            let others = match other {
                None => true,
                Some(block) => block_within(block.as_slice(), below),
            };
            arms_within(arms.as_slice(), below) && others
        }
        Stmt::For {
            place: _,
            name: _,
            range,
            body,
        } => is_within(range, below) && block_within(body.as_slice(), below),
        Stmt::While {
            place: _,
            condition,
            body,
        } => is_within(condition, below) && block_within(body.as_slice(), below),
        Stmt::Break(_) => true,
        Stmt::Continue(_) => true,
    }
}

/// Whether an arm of an `if` is at most so deep.
#[cycle(blocks)]
fn arm_within(arm: &Arm, limit: u32) -> bool
    ensures { IsTrue result ↔ (arms_depth (arms_view (arm.now ∷ [])) ≤ limit) }
{
    is_within(&arm.condition, limit) && block_within(arm.body.as_slice(), limit)
}

/// Whether the arms of an `if` are at most so deep.
#[cycle(blocks)]
fn arms_within(arms: &[Arm], limit: u32) -> bool
    ensures { IsTrue result ↔ (arms_depth (arms_view arms.now) ≤ limit) }
{
    for arm in arms {
        if !arm_within(arm, limit) {
            return false;
        }
    }
    true
}

/// Whether a block is at most so deep.
#[cycle(blocks)]
fn block_within(body: &[Stmt], limit: u32) -> bool
    ensures { IsTrue result ↔ (block_depth (block_view body.now) ≤ limit) }
{
    for s in body {
        if !stmt_within(s, limit) {
            return false;
        }
    }
    true
}

/// Whether the functions of a file are at most so deep.
pub(crate) fn are_funcs_within(funcs: &[Func], limit: u32) -> bool
    ensures { IsTrue result ↔ (file_depth (funcs_view funcs.now) ≤ limit) }
{
    for f in funcs {
        if !block_within(f.body.as_slice(), limit) {
            return false;
        }
    }
    true
}
