//! Expressions, by recursion on their trees.

ghost use Rattle.std.specs.Prelude.{◌≡◌, map, Some};
ghost use Rattle.mat_ast.specs.Tree.{Apply, Matrix, Paren, Post, Unary};
ghost use Rattle.mat_ast.specs.View.{arg_view, args_view, expr_view, row_of};
ghost use Rattle.mat_ast.specs.View as view;
ghost use Rattle.fi_eval.specs.Outcome.{Gives, bind, or_wrong};
ghost use Rattle.fi_values.specs.Logicals as logicals;
ghost use Rattle.fi_values.specs.Numbers.{whole_value};
ghost use Rattle.fi_values.specs.Ranges as ranges;
ghost use Rattle.fi_values.specs.Reads as reads;
ghost use Rattle.fi_values.specs.Subscripts.{as_subscripts};
ghost use Rattle.fi_meaning.specs.Environment.{variable};
ghost use Rattle.fi_meaning.specs.Expressions as meaning;
ghost use Rattle.fi_meaning.specs.Operators.{by_operator};
ghost use Rattle.eval_value.specs.Tells.{Tells};
ghost use Rattle.eval_value.specs.View.{item_view, row_view, value_view};
ghost use Rattle.eval_call.specs.View.{argument_view};
ghost use Rattle.eval_source.specs.Items.{item_value};
ghost use Rattle.eval_source.specs.View.{context_of, env_view};

use crate::arguments::Passed;
use crate::caller::Caller;
use crate::leaves::{called, end_value, is_word_item, name_value, number_value, text_value};
use crate::parts::{
    add_item, add_value, bracket_value, count_of, decides, end_in, has_decided, made_truth,
    number_of, pair_value, range_value, read_value, right_truth, sign_value, transposed_value,
    truth_in, unit_range,
};
use crate::scope::{Scope, is_listed};
use crate::variables::Variables;
use eval_call::Argument;
use eval_value::{Halt, Value};
use fic_base::Place;
use mat_ast::{Arg, BinOp, Expr, ExprKind, PostOp, Row, UnOp};
use sqlite_items::Boxed;
use std::alloc::Global;

/// The value of an expression in the scope of a function, with the values of its variables; `ends` is what `end` means there. Halts exactly
/// as the definition says; want of memory is the free answer.
#[cycle(evaluate)]
#[tactic(auto, using(eval_call::proofs::Follow::after_err, crate::proofs::Follow::chosen, crate::proofs::Follow::not_chosen), unfolding(fi_eval::specs::Outcome::bind))]
pub fn evaluate<C: Caller>(
    e: &Expr,
    alloc: Global,
    scope: &Scope<'_>,
    caller: &C,
    names: &Variables,
    ends: Option<u32>,
) -> Result<Boxed<Value>, Halt>
    ensures { Tells result value_view (meaning.value (expr_view e.now) (context_of scope.now (C.called caller.now)) (env_view names.now) ends) }
{
    let at = e.place;
    match &e.kind {
        ExprKind::Number { text, imaginary } => number_value(
            alloc,
            at,
            text.as_bytes(),
            *imaginary,
        ),
        ExprKind::Words(text) => text_value(alloc, text.as_bytes()),
        ExprKind::Name(name) => name_value(alloc, scope, caller, names, at, name.as_bytes()),
        ExprKind::End => end_value(alloc, at, ends),
        ExprKind::Apply { name, paren, args } => {
            let text = name.as_bytes();
            apply(
                args.as_slice(),
                alloc,
                scope,
                caller,
                names,
                ends,
                at,
                *paren,
                text,
            )
        }
        ExprKind::Unary(sign, part) => unary(
            part.get(),
            alloc,
            scope,
            caller,
            names,
            ends,
            at,
            *sign,
        ),
        ExprKind::Post(mark, part) => post(
            part.get(),
            alloc,
            scope,
            caller,
            names,
            ends,
            at,
            *mark,
        ),
        ExprKind::Paren(part) => evaluate(part.get(), alloc, scope, caller, names, ends),
        ExprKind::Matrix(rows) => matrix(rows.as_slice(), alloc, scope, caller, names, ends, at),
        ExprKind::Binary(op, a, b) => {
            match evaluate(a.get(), alloc, scope, caller, names, ends) {
                Ok(x) => behind_left(b.get(), alloc, scope, caller, names, ends, at, *op, x),
                Err(halt) => Err(halt),
            }
        }
        ExprKind::Range { first, step, last } => {
            match evaluate(first.get(), alloc, scope, caller, names, ends) {
                Err(halt) => Err(halt),
                Ok(x) => match step {
                    None => to_last(last.get(), alloc, scope, caller, names, ends, at, x),
                    Some(step) => {
                        match evaluate(step.get(), alloc, scope, caller, names, ends) {
                            Ok(s) => by_step(
                                last.get(),
                                alloc,
                                scope,
                                caller,
                                names,
                                ends,
                                at,
                                x,
                                s,
                            ),
                            Err(halt) => {
                                drop(x);
                                Err(halt)
                            }
                        }
                    }
                },
            }
        }
    }
}

// A sign, or `~`, before an expression.
#[cycle(evaluate)]
#[tactic(auto, using(eval_call::proofs::Follow::after_err, crate::proofs::Follow::chosen, crate::proofs::Follow::not_chosen), unfolding(fi_eval::specs::Outcome::bind))]
fn unary<C: Caller>(
    part: &Expr,
    alloc: Global,
    scope: &Scope<'_>,
    caller: &C,
    names: &Variables,
    ends: Option<u32>,
    at: Place,
    sign: UnOp,
) -> Result<Boxed<Value>, Halt>
    ensures { Tells result value_view (meaning.value (Unary at sign (expr_view part.now)) (context_of scope.now (C.called caller.now)) (env_view names.now) ends) }
{
    match evaluate(part, alloc, scope, caller, names, ends) {
        Ok(v) => sign_value(alloc, at, sign, v),
        Err(halt) => Err(halt),
    }
}

// A transpose of an expression.
#[cycle(evaluate)]
#[tactic(auto, using(eval_call::proofs::Follow::after_err, crate::proofs::Follow::chosen, crate::proofs::Follow::not_chosen), unfolding(fi_eval::specs::Outcome::bind))]
fn post<C: Caller>(
    part: &Expr,
    alloc: Global,
    scope: &Scope<'_>,
    caller: &C,
    names: &Variables,
    ends: Option<u32>,
    at: Place,
    mark: PostOp,
) -> Result<Boxed<Value>, Halt>
    ensures { Tells result value_view (meaning.value (Post at mark (expr_view part.now)) (context_of scope.now (C.called caller.now)) (env_view names.now) ends) }
{
    match evaluate(part, alloc, scope, caller, names, ends) {
        Ok(v) => transposed_value(alloc, at, mark, v),
        Err(halt) => Err(halt),
    }
}

// The last bound of a range without a step, behind the first.
#[cycle(evaluate)]
#[tactic(auto, using(eval_call::proofs::Follow::after_err, crate::proofs::Follow::chosen, crate::proofs::Follow::not_chosen), unfolding(fi_eval::specs::Outcome::bind))]
fn to_last<C: Caller>(
    last: &Expr,
    alloc: Global,
    scope: &Scope<'_>,
    caller: &C,
    names: &Variables,
    ends: Option<u32>,
    at: Place,
    first: Boxed<Value>,
) -> Result<Boxed<Value>, Halt>
    ensures { Tells result value_view (bind (meaning.value (expr_view last.now) (context_of scope.now (C.called caller.now)) (env_view names.now) ends) (λ y. or_wrong at (ranges.ranged (value_view first) (whole_value 1) y))) }
{
    match evaluate(last, alloc, scope, caller, names, ends) {
        Ok(y) => unit_range(alloc, at, first, y),
        Err(halt) => {
            drop(first);
            Err(halt)
        }
    }
}

// The last bound of a range, behind the first and the step.
#[cycle(evaluate)]
#[tactic(auto, using(eval_call::proofs::Follow::after_err, crate::proofs::Follow::chosen, crate::proofs::Follow::not_chosen), unfolding(fi_eval::specs::Outcome::bind))]
fn by_step<C: Caller>(
    last: &Expr,
    alloc: Global,
    scope: &Scope<'_>,
    caller: &C,
    names: &Variables,
    ends: Option<u32>,
    at: Place,
    first: Boxed<Value>,
    step: Boxed<Value>,
) -> Result<Boxed<Value>, Halt>
    ensures { Tells result value_view (bind (meaning.value (expr_view last.now) (context_of scope.now (C.called caller.now)) (env_view names.now) ends) (λ y. or_wrong at (ranges.ranged (value_view first) (value_view step) y))) }
{
    match evaluate(last, alloc, scope, caller, names, ends) {
        Ok(y) => range_value(alloc, at, first, step, y),
        Err(halt) => {
            drop(first);
            drop(step);
            Err(halt)
        }
    }
}

// The right operand of an operator, behind the left one, which may decide alone.
#[cycle(evaluate)]
#[tactic(auto, using(eval_call::proofs::Follow::after_err, crate::proofs::Follow::chosen, crate::proofs::Follow::not_chosen), unfolding(fi_eval::specs::Outcome::bind))]
fn behind_left<C: Caller>(
    right: &Expr,
    alloc: Global,
    scope: &Scope<'_>,
    caller: &C,
    names: &Variables,
    ends: Option<u32>,
    at: Place,
    op: BinOp,
    left: Boxed<Value>,
) -> Result<Boxed<Value>, Halt>
    ensures { Tells result value_view (meaning.behind_left at op (logicals.deciding op) (value_view left) (meaning.value (expr_view right.now) (context_of scope.now (C.called caller.now)) (env_view names.now) ends)) }
{
    match decides(op) {
        None => evaluate_operands(right, alloc, scope, caller, names, ends, at, op, left),
        Some(truth) => skipping(
            right, alloc, scope, caller, names, ends, at, op, truth, left,
        ),
    }
}

// The right operand of an operator that skips where the left one decides.
#[cycle(evaluate)]
#[tactic(auto, using(eval_call::proofs::Follow::after_err, crate::proofs::Follow::chosen, crate::proofs::Follow::not_chosen), unfolding(fi_eval::specs::Outcome::bind))]
fn skipping<C: Caller>(
    right: &Expr,
    alloc: Global,
    scope: &Scope<'_>,
    caller: &C,
    names: &Variables,
    ends: Option<u32>,
    at: Place,
    op: BinOp,
    deciding: bool,
    left: Boxed<Value>,
) -> Result<Boxed<Value>, Halt>
    ensures { Tells result value_view (meaning.behind_left at op (Some deciding) (value_view left) (meaning.value (expr_view right.now) (context_of scope.now (C.called caller.now)) (env_view names.now) ends)) }
{
    let truth = truth_in(left);
    if has_decided(deciding, truth) {
        made_truth(alloc, deciding)
    } else {
        deciding_right(right, alloc, scope, caller, names, ends, at, truth)
    }
}

// The right operand of an operator that skips, behind a left one with this truth, which hasn't decided.
#[cycle(evaluate)]
#[tactic(auto, using(eval_call::proofs::Follow::after_err, crate::proofs::Follow::chosen, crate::proofs::Follow::not_chosen), unfolding(fi_eval::specs::Outcome::bind))]
fn deciding_right<C: Caller>(
    right: &Expr,
    alloc: Global,
    scope: &Scope<'_>,
    caller: &C,
    names: &Variables,
    ends: Option<u32>,
    at: Place,
    left: Option<bool>,
) -> Result<Boxed<Value>, Halt>
    ensures { Tells result value_view (bind (meaning.value (expr_view right.now) (context_of scope.now (C.called caller.now)) (env_view names.now) ends) (λ y. or_wrong at (meaning.right_decides left y))) }
{
    match evaluate(right, alloc, scope, caller, names, ends) {
        Ok(y) => right_truth(alloc, at, left, y),
        Err(halt) => Err(halt),
    }
}

// The right operand of an operator that evaluates both, behind the left one.
#[cycle(evaluate)]
#[tactic(auto, using(eval_call::proofs::Follow::after_err, crate::proofs::Follow::chosen, crate::proofs::Follow::not_chosen), unfolding(fi_eval::specs::Outcome::bind))]
fn evaluate_operands<C: Caller>(
    right: &Expr,
    alloc: Global,
    scope: &Scope<'_>,
    caller: &C,
    names: &Variables,
    ends: Option<u32>,
    at: Place,
    op: BinOp,
    left: Boxed<Value>,
) -> Result<Boxed<Value>, Halt>
    ensures { Tells result value_view (bind (meaning.value (expr_view right.now) (context_of scope.now (C.called caller.now)) (env_view names.now) ends) (λ y. or_wrong at (by_operator op (value_view left) y))) }
{
    match evaluate(right, alloc, scope, caller, names, ends) {
        Ok(y) => pair_value(alloc, at, op, left, y),
        Err(halt) => {
            drop(left);
            Err(halt)
        }
    }
}

// A bracket.
#[cycle(evaluate)]
#[tactic(auto, using(eval_call::proofs::Follow::after_err, crate::proofs::Follow::chosen, crate::proofs::Follow::not_chosen), unfolding(fi_eval::specs::Outcome::bind))]
fn matrix<C: Caller>(
    rows: &[Row],
    alloc: Global,
    scope: &Scope<'_>,
    caller: &C,
    names: &Variables,
    ends: Option<u32>,
    at: Place,
) -> Result<Boxed<Value>, Halt>
    ensures { Tells result value_view (meaning.value (Matrix at (view.rows_view rows.now)) (context_of scope.now (C.called caller.now)) (env_view names.now) ends) }
{
    match rows_values(rows, alloc, scope, caller, names, ends) {
        Ok(values) => bracket_value(alloc, at, values),
        Err(halt) => Err(halt),
    }
}

// The rows of a bracket, from the top.
#[cycle(evaluate)]
#[tactic(auto, using(eval_call::proofs::Follow::after_err, crate::proofs::Follow::chosen, crate::proofs::Follow::not_chosen), unfolding(fi_eval::specs::Outcome::bind))]
fn rows_values<C: Caller>(
    rows: &[Row],
    alloc: Global,
    scope: &Scope<'_>,
    caller: &C,
    names: &Variables,
    ends: Option<u32>,
) -> Result<Vec<Vec<Value>>, Halt>
    ensures { Tells result (λ v. map row_view v.items) (meaning.rows_values (view.rows_view rows.now) (context_of scope.now (C.called caller.now)) (env_view names.now) ends) }
{
    let mut values = Vec::new(alloc);
    for row in rows {
        let v = row_values(row, alloc, scope, caller, names, ends)?;
        values.push(v)?;
    }
    Ok(values)
}

// A row of a bracket.
#[cycle(evaluate)]
#[tactic(auto, using(eval_call::proofs::Follow::after_err, crate::proofs::Follow::chosen, crate::proofs::Follow::not_chosen), unfolding(fi_eval::specs::Outcome::bind))]
fn row_values<C: Caller>(
    row: &Row,
    alloc: Global,
    scope: &Scope<'_>,
    caller: &C,
    names: &Variables,
    ends: Option<u32>,
) -> Result<Vec<Value>, Halt>
    ensures { Tells result row_view (meaning.row_values (view.row_view row.now) (context_of scope.now (C.called caller.now)) (env_view names.now) ends) }
{
    cell_values(row.cells.as_slice(), alloc, scope, caller, names, ends)
}

// The elements of a row, from left to right.
#[cycle(evaluate)]
#[tactic(auto, using(eval_call::proofs::Follow::after_err, crate::proofs::Follow::chosen, crate::proofs::Follow::not_chosen), unfolding(fi_eval::specs::Outcome::bind))]
fn cell_values<C: Caller>(
    cells: &[Expr],
    alloc: Global,
    scope: &Scope<'_>,
    caller: &C,
    names: &Variables,
    ends: Option<u32>,
) -> Result<Vec<Value>, Halt>
    ensures { Tells result row_view (meaning.row_values (row_of (map expr_view cells.now)) (context_of scope.now (C.called caller.now)) (env_view names.now) ends) }
{
    let mut values = Vec::new(alloc);
    for cell in cells {
        let v = evaluate(cell, alloc, scope, caller, names, ends)?;
        add_value(&mut values, v)?;
    }
    Ok(values)
}

// A name with parentheses: a read of a variable, or a call.
#[cycle(evaluate)]
#[tactic(auto, using(eval_call::proofs::Follow::after_err, crate::proofs::Follow::chosen, crate::proofs::Follow::not_chosen), unfolding(fi_eval::specs::Outcome::bind))]
fn apply<C: Caller>(
    args: &[Arg],
    alloc: Global,
    scope: &Scope<'_>,
    caller: &C,
    names: &Variables,
    ends: Option<u32>,
    at: Place,
    opens: Place,
    name: &[u8],
) -> Result<Boxed<Value>, Halt>
    ensures { Tells result value_view (meaning.value (Apply at name.now opens (args_view args.now)) (context_of scope.now (C.called caller.now)) (env_view names.now) ends) }
{
    if is_listed(name, scope.variables) {
        read_at(args, alloc, scope, caller, names, ends, at, opens, name)
    } else {
        call_at(args, alloc, scope, caller, names, ends, at, name)
    }
}

// A subscripted read of a variable.
#[cycle(evaluate)]
#[tactic(auto, using(eval_call::proofs::Follow::after_err, crate::proofs::Follow::chosen, crate::proofs::Follow::not_chosen), unfolding(fi_eval::specs::Outcome::bind))]
fn read_at<C: Caller>(
    args: &[Arg],
    alloc: Global,
    scope: &Scope<'_>,
    caller: &C,
    names: &Variables,
    ends: Option<u32>,
    at: Place,
    opens: Place,
    name: &[u8],
) -> Result<Boxed<Value>, Halt>
    ensures { Tells result value_view (bind (meaning.subscript_values (args_view args.now) (context_of scope.now (C.called caller.now)) (env_view names.now) at (env_view names.now name.now) 0 (meaning.args_count (args_view args.now))) (λ vs. bind (variable (env_view names.now) at name.now) (λ v. bind (or_wrong at (as_subscripts vs)) (λ subs. reads.read at (meaning.site_of opens) v subs)))) }
{
    let many = count_of(args);
    match subscript_values(args, alloc, scope, caller, names, at, name, many) {
        Ok(subscripts) => read_value(alloc, names, at, opens, name, subscripts),
        Err(halt) => Err(halt),
    }
}

// A call.
#[cycle(evaluate)]
#[tactic(auto, using(eval_call::proofs::Follow::after_err, crate::proofs::Follow::chosen, crate::proofs::Follow::not_chosen), unfolding(fi_eval::specs::Outcome::bind))]
fn call_at<C: Caller>(
    args: &[Arg],
    alloc: Global,
    scope: &Scope<'_>,
    caller: &C,
    names: &Variables,
    ends: Option<u32>,
    at: Place,
    name: &[u8],
) -> Result<Boxed<Value>, Halt>
    ensures { Tells result value_view (bind (meaning.arguments (args_view args.now) (context_of scope.now (C.called caller.now)) (env_view names.now) at ends) (meaning.called (context_of scope.now (C.called caller.now)) at name.now)) }
{
    match arguments(args, alloc, scope, caller, names, ends, at) {
        Ok(passed) => called(alloc, scope, caller, at, name, passed),
        Err(halt) => Err(halt),
    }
}

/// The arguments of a call, from left to right. Wrong at its place where one is `:`.
#[cycle(evaluate)]
#[tactic(auto, using(eval_call::proofs::Follow::after_err, crate::proofs::Follow::chosen, crate::proofs::Follow::not_chosen), unfolding(fi_eval::specs::Outcome::bind))]
pub fn arguments<C: Caller>(
    args: &[Arg],
    alloc: Global,
    scope: &Scope<'_>,
    caller: &C,
    names: &Variables,
    ends: Option<u32>,
    at: Place,
) -> Result<Vec<Argument>, Halt>
    ensures { Tells result (λ v. map argument_view v.items) (meaning.arguments (args_view args.now) (context_of scope.now (C.called caller.now)) (env_view names.now) at ends) }
{
    let mut passed = Passed::new(alloc);
    for arg in args {
        let v = item(arg, alloc, scope, caller, names, ends)?;
        passed.push(v, is_word_item(arg, scope))?;
    }
    passed.close(at)
}

/// The values of so many subscripts of a variable, from left to right, none for `:`. In them `end` is an extent of the variable.
#[cycle(evaluate)]
#[tactic(auto, using(eval_call::proofs::Follow::after_err, crate::proofs::Follow::chosen, crate::proofs::Follow::not_chosen), unfolding(fi_eval::specs::Outcome::bind))]
pub fn subscript_values<C: Caller>(
    args: &[Arg],
    alloc: Global,
    scope: &Scope<'_>,
    caller: &C,
    names: &Variables,
    at: Place,
    name: &[u8],
    many: usize,
) -> Result<Vec<Option<Value>>, Halt>
    ensures { Tells result (λ v. map item_view v.items) (meaning.subscript_values (args_view args.now) (context_of scope.now (C.called caller.now)) (env_view names.now) at (env_view names.now name.now) 0 many) }
{
    let mut values = Vec::new(alloc);
    for arg in args {
        let inside = end_in(names, name, number_of(&values), many);
        let v = item(arg, alloc, scope, caller, names, inside)?;
        add_item(&mut values, v)?;
    }
    Ok(values)
}

// The value of an argument or a subscript, none for `:`.
#[cycle(evaluate)]
#[tactic(auto, using(eval_call::proofs::Follow::after_err, crate::proofs::Follow::chosen, crate::proofs::Follow::not_chosen), unfolding(fi_eval::specs::Outcome::bind))]
fn item<C: Caller>(
    arg: &Arg,
    alloc: Global,
    scope: &Scope<'_>,
    caller: &C,
    names: &Variables,
    ends: Option<u32>,
) -> Result<Option<Boxed<Value>>, Halt>
    ensures { Tells result item_view (item_value (arg_view arg.now) (context_of scope.now (C.called caller.now)) (env_view names.now) ends) }
{
    match arg {
        Arg::All => Ok(None),
        Arg::Item(e) => {
            let v = evaluate(e, alloc, scope, caller, names, ends)?;
            Ok(Some(v))
        }
    }
}
