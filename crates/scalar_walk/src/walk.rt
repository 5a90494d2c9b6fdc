//! The walk over expressions: each is typed, and lowered behind the statements of its parts.

ghost use Rattle.walk_scope.specs.Scope as scoped;
ghost use Rattle.std.specs.Prelude.{◌≡◌, ◌≤◌, false, [], ◌∷◌, length, IfOk, OnOk};
ghost use Rattle.mat_ast.specs.Tree.{Apply, Unary, Paren};
ghost use Rattle.mat_ast.specs.View.{expr_view, args_view, row_view, rows_view};
ghost use Rattle.walk_scope.specs.Told.{bind};
ghost use Rattle.walk_scope.specs.View.{Tells, StopTells, scope_view};
ghost use Rattle.scalar_program.specs.Lowered.{IsLowered, AreLowered};
ghost use Rattle.scalar_walk.specs.Walk as walk;
ghost use Rattle.scalar_walk.specs.Walk.{Typed};
ghost use Rattle.scalar_walk.specs.View.{AreBelow, AreUnder, IsUnder, names_view, types_view, around_view, typed_view, types_passed, passed_view, emitted_view, low_view};

use crate::arguments::Arguments;
use crate::emitted::Emitted;
use crate::leaves::{apply, lower_name, lower_number, lower_text};
use crate::operand::{Held, other};
use crate::operations::lower_pair;
use crate::results::count;
use crate::turns::lower_sign;
use crate::variables::Variables;
use fic_base::{Code, Place, Refusal};
use mat_ast::{Arg, Expr, ExprKind, Row, UnOp};
use num_type::Stop;
use std::alloc::Global;
use walk_scope::{Scope, is_variable, refused, unbuilt};

/// The type and the value of an expression, lowered behind the statements so far. `around` is the variable in whose subscripts it
/// stands. Refused exactly as its definition tells; want of memory is the free answer.
#[cycle(lower)]
pub fn lower_expr(
    e: &Expr,
    alloc: Global,
    scope: &Scope<'_>,
    names: &Variables,
    around: Option<&[u8]>,
    out: &mut Emitted,
) -> Result<Held, Stop<Refusal>>
    requires { AreBelow (names_view names.now) (length out.old.words) }
    ensures told { Tells result (typed_view out.new.nodes) (walk.typed (expr_view e.now) (scope_view scope.now) (types_view names.now) (around_view around.entry) out.old.nodes) }
    ensures low { IfOk result (λ h. IsLowered (expr_view e.now) (scope_view scope.now).context (names_view names.now) (emitted_view out.old) (low_view h out.new)) }
    ensures grows { OnOk result (length out.old.words ≤ length out.new.words) }
    ensures below { IfOk result (λ h. IsUnder h.spot out.new) }
{
    let at = e.place;
    match &e.kind {
        ExprKind::Name(name) => lower_name(alloc, scope, names, at, name.as_bytes(), out),
        ExprKind::Binary(op, a, b) => {
            let left = a.get();
            let right = b.get();
            let x = lower_expr(left, alloc, scope, names, around, out)?;
            let y = lower_expr(right, alloc, scope, names, around, out)?;
            lower_pair(alloc, scope, at, *op, left, right, &x, &y, out)
        }
        ExprKind::Paren(part) => lower_paren(part.get(), alloc, scope, names, around, at, out),
        ExprKind::Number { text, imaginary } => {
            lower_number(alloc, scope, at, text.as_bytes(), *imaginary, out)
        }
        ExprKind::Words(text) => lower_text(alloc, at, text.as_bytes(), out),
        ExprKind::End => Err(end_refused(alloc, scope, names, at, around)),
        ExprKind::Apply { name, args, .. } => {
            let text = name.as_bytes();
            lower_apply(args.as_slice(), alloc, scope, names, around, at, text, out)
        }
        ExprKind::Unary(op, part) => {
            lower_unary(part.get(), alloc, scope, names, around, at, *op, out)
        }
        ExprKind::Post(_, part) => {
            Err(refuse_part(part.get(), alloc, scope, names, around, at, out))
        }
        ExprKind::Range { first, step, last } => {
            let _ = lower_expr(first.get(), alloc, scope, names, around, out)?;
            match step {
                None => Err(refuse_part(last.get(), alloc, scope, names, around, at, out)),
                Some(step) => {
                    let _ = lower_expr(step.get(), alloc, scope, names, around, out)?;
                    Err(refuse_part(last.get(), alloc, scope, names, around, at, out))
                }
            }
        }
        ExprKind::Matrix(rows) => {
            Err(refuse_rows(rows.as_slice(), alloc, scope, names, around, at, out))
        }
    }
}

// An expression in parentheses that stand at a place.
#[cycle(lower)]
fn lower_paren(
    part: &Expr,
    alloc: Global,
    scope: &Scope<'_>,
    names: &Variables,
    around: Option<&[u8]>,
    at: Place,
    out: &mut Emitted,
) -> Result<Held, Stop<Refusal>>
    requires { AreBelow (names_view names.now) (length out.old.words) }
    ensures told { Tells result (typed_view out.new.nodes) (walk.typed (Paren at (expr_view part.now)) (scope_view scope.now) (types_view names.now) (around_view around.entry) out.old.nodes) }
    ensures low { IfOk result (λ h. IsLowered (Paren at (expr_view part.now)) (scope_view scope.now).context (names_view names.now) (emitted_view out.old) (low_view h out.new)) }
    ensures grows { OnOk result (length out.old.words ≤ length out.new.words) }
    ensures below { IfOk result (λ h. IsUnder h.spot out.new) }
{
    let x = lower_expr(part, alloc, scope, names, around, out)?;
    count(alloc, at, out)?;
    Ok(x)
}

// A sign before an expression.
#[cycle(lower)]
fn lower_unary(
    part: &Expr,
    alloc: Global,
    scope: &Scope<'_>,
    names: &Variables,
    around: Option<&[u8]>,
    at: Place,
    op: UnOp,
    out: &mut Emitted,
) -> Result<Held, Stop<Refusal>>
    requires { AreBelow (names_view names.now) (length out.old.words) }
    ensures told { Tells result (typed_view out.new.nodes) (walk.typed (Unary at op (expr_view part.now)) (scope_view scope.now) (types_view names.now) (around_view around.entry) out.old.nodes) }
    ensures low { IfOk result (λ h. IsLowered (Unary at op (expr_view part.now)) (scope_view scope.now).context (names_view names.now) (emitted_view out.old) (low_view h out.new)) }
    ensures grows { OnOk result (length out.old.words ≤ length out.new.words) }
    ensures below { IfOk result (λ h. IsUnder h.spot out.new) }
{
    let x = lower_expr(part, alloc, scope, names, around, out)?;
    lower_sign(alloc, scope, at, op, &x, out)
}

// A subscripted read or a call. `end` in the subscripts of a variable is its own.
#[cycle(lower)]
fn lower_apply(
    args: &[Arg],
    alloc: Global,
    scope: &Scope<'_>,
    names: &Variables,
    around: Option<&[u8]>,
    at: Place,
    name: &[u8],
    out: &mut Emitted,
) -> Result<Held, Stop<Refusal>>
    requires { AreBelow (names_view names.now) (length out.old.words) }
    ensures told { (opens : Place) → Tells result (typed_view out.new.nodes) (walk.typed (Apply at name.now opens (args_view args.now)) (scope_view scope.now) (types_view names.now) (around_view around.entry) out.old.nodes) }
    ensures low { (opens : Place) → IfOk result (λ h. IsLowered (Apply at name.now opens (args_view args.now)) (scope_view scope.now).context (names_view names.now) (emitted_view out.old) (low_view h out.new)) }
    ensures grows { OnOk result (length out.old.words ≤ length out.new.words) }
    ensures below { IfOk result (λ h. IsUnder h.spot out.new) }
{
    let inner = inside(scope, name, around);
    let colon = has_colon(args);
    let mut passed = Arguments::new(alloc);
    lower_args(args, alloc, scope, names, inner, &mut passed, out)?;
    apply(alloc, scope, names, at, name, colon, &passed, out)
}

// The refusal of an expression at a place that isn't supported yet, behind its last part.
#[cycle(lower)]
fn refuse_part(
    part: &Expr,
    alloc: Global,
    scope: &Scope<'_>,
    names: &Variables,
    around: Option<&[u8]>,
    at: Place,
    out: &mut Emitted,
) -> Stop<Refusal>
    requires { AreBelow (names_view names.now) (length out.old.words) }
    ensures told { StopTells {A = Typed} result (bind (walk.typed (expr_view part.now) (scope_view scope.now) (types_view names.now) (around_view around.entry) out.old.nodes) (λ r. scoped.unbuilt (scope_view scope.now) at)) }
{
    match lower_expr(part, alloc, scope, names, around, out) {
        Ok(_) => unbuilt(alloc, scope, at),
        Err(stop) => stop,
    }
}

// Arguments or subscripts, from left to right, behind those that are lowered.
#[cycle(lower)]
fn lower_args(
    args: &[Arg],
    alloc: Global,
    scope: &Scope<'_>,
    names: &Variables,
    around: Option<&[u8]>,
    passed: &mut Arguments,
    out: &mut Emitted,
) -> Result<(), Stop<Refusal>>
    requires below { AreBelow (names_view names.now) (length out.old.words) }
    requires under { AreUnder passed.old.spots.items (length out.old.words) }
    ensures told { Tells result (λ u. types_passed passed.new out.new.nodes) (walk.args_typed (args_view args.now) (scope_view scope.now) (types_view names.now) (around_view around.entry) (types_passed passed.old out.old.nodes)) }
    ensures low { OnOk result (walk.has_colon (args_view args.now) ≡ false → AreLowered (args_view args.now) (scope_view scope.now).context (names_view names.now) (passed_view passed.old out.old) (passed_view passed.new out.new)) }
    ensures grows { OnOk result (length out.old.words ≤ length out.new.words) }
    ensures under { OnOk result (AreUnder passed.new.spots.items (length out.new.words)) }
{
    for arg in args {
        lower_arg(arg, alloc, scope, names, around, passed, out)?;
    }
    Ok(())
}

// An argument or a subscript.
#[cycle(lower)]
fn lower_arg(
    arg: &Arg,
    alloc: Global,
    scope: &Scope<'_>,
    names: &Variables,
    around: Option<&[u8]>,
    passed: &mut Arguments,
    out: &mut Emitted,
) -> Result<(), Stop<Refusal>>
    requires below { AreBelow (names_view names.now) (length out.old.words) }
    requires under { AreUnder passed.old.spots.items (length out.old.words) }
    ensures told { Tells result (λ u. types_passed passed.new out.new.nodes) (walk.args_typed (args_view (arg.now ∷ [])) (scope_view scope.now) (types_view names.now) (around_view around.entry) (types_passed passed.old out.old.nodes)) }
    ensures low { OnOk result (walk.has_colon (args_view (arg.now ∷ [])) ≡ false → AreLowered (args_view (arg.now ∷ [])) (scope_view scope.now).context (names_view names.now) (passed_view passed.old out.old) (passed_view passed.new out.new)) }
    ensures grows { OnOk result (length out.old.words ≤ length out.new.words) }
    ensures under { OnOk result (AreUnder passed.new.spots.items (length out.new.words)) }
{
    match arg {
        Arg::All => {
            passed.push(other())?;
            Ok(())
        }
        Arg::Item(e) => {
            let h = lower_expr(e, alloc, scope, names, around, out)?;
            passed.push(h)?;
            Ok(())
        }
    }
}

// The refusal of a bracket, behind its rows.
#[cycle(lower)]
fn refuse_rows(
    rows: &[Row],
    alloc: Global,
    scope: &Scope<'_>,
    names: &Variables,
    around: Option<&[u8]>,
    at: Place,
    out: &mut Emitted,
) -> Stop<Refusal>
    requires { AreBelow (names_view names.now) (length out.old.words) }
    ensures told { StopTells {A = Typed} result (bind (walk.rows_typed (rows_view rows.now) (scope_view scope.now) (types_view names.now) (around_view around.entry) out.old.nodes) (λ m. scoped.unbuilt (scope_view scope.now) at)) }
{
    match visit_rows(rows, alloc, scope, names, around, out) {
        Ok(()) => unbuilt(alloc, scope, at),
        Err(stop) => stop,
    }
}

// Walks over the elements of a row.
#[cycle(lower)]
fn visit_row(
    row: &Row,
    alloc: Global,
    scope: &Scope<'_>,
    names: &Variables,
    around: Option<&[u8]>,
    out: &mut Emitted,
) -> Result<(), Stop<Refusal>>
    requires { AreBelow (names_view names.now) (length out.old.words) }
    ensures told { Tells result (λ u. out.new.nodes) (walk.row_typed (row_view row.now) (scope_view scope.now) (types_view names.now) (around_view around.entry) out.old.nodes) }
    ensures grows { OnOk result (length out.old.words ≤ length out.new.words) }
{
    for e in row.cells.as_slice() {
        let _ = lower_expr(e, alloc, scope, names, around, out)?;
    }
    Ok(())
}

// Walks over the rows of a bracket.
#[cycle(lower)]
fn visit_rows(
    rows: &[Row],
    alloc: Global,
    scope: &Scope<'_>,
    names: &Variables,
    around: Option<&[u8]>,
    out: &mut Emitted,
) -> Result<(), Stop<Refusal>>
    requires { AreBelow (names_view names.now) (length out.old.words) }
    ensures told { Tells result (λ u. out.new.nodes) (walk.rows_typed (rows_view rows.now) (scope_view scope.now) (types_view names.now) (around_view around.entry) out.old.nodes) }
    ensures grows { OnOk result (length out.old.words ≤ length out.new.words) }
{
    for row in rows {
        visit_row(row, alloc, scope, names, around, out)?;
    }
    Ok(())
}

// The variable that `end` belongs to in the subscripts of a name.
fn inside<'a>(scope: &Scope<'_>, name: &'a [u8], around: Option<&'a [u8]>) -> Option<&'a [u8]>
    ensures { around_view result ≡ walk.inside (scope_view scope.now) name.now (around_view around.entry) }
{
    if is_variable(scope, name) {
        Some(name)
    } else {
        around
    }
}

// The refusal of `end`: the variable that it belongs to needs a type before that.
#[tactic(auto, using(walk_scope::proofs::Tell::is_told, walk_scope::proofs::Tell::err_tells, walk_scope::proofs::Tell::stop_tells, walk_scope::proofs::Tell::part_tells), unfolding(walk_scope::specs::Told::bind, crate::specs::Walk::known, crate::specs::Walk::end_typed))]
fn end_refused(
    alloc: Global,
    scope: &Scope<'_>,
    names: &Variables,
    at: Place,
    around: Option<&[u8]>,
) -> Stop<Refusal>
    ensures { StopTells result (walk.end_typed (scope_view scope.now) (types_view names.now) at (around_view around.entry)) }
{
    match around {
        Some(name) => {
            if names.get(name).is_none() {
                refused(alloc, Code::NotAssigned, at, name)
            } else {
                unbuilt(alloc, scope, at)
            }
        }
        None => unbuilt(alloc, scope, at),
    }
}

// Whether an argument is `:`.
fn has_colon(args: &[Arg]) -> bool
    ensures { result ≡ walk.has_colon (args_view args.now) }
{
    for arg in args {
        if is_colon(arg) {
            return true;
        }
    }
    false
}

// Whether this one is.
fn is_colon(arg: &Arg) -> bool
    ensures { result ≡ walk.has_colon (args_view (arg.now ∷ [])) }
{
    match arg {
        Arg::All => true,
        Arg::Item(_) => false,
    }
}
