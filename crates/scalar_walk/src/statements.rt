//! The walk over statements.

ghost use Rattle.std.specs.Prelude.{◌≡◌, ℕ, ◌++◌, codes, IfOk, OnOk, Some, length, map};
ghost use Rattle.fic_base.specs.declared.code.Code.TheVariants as code;
ghost use Rattle.num_type.specs.View.{type_of};
ghost use Rattle.mat_ast.specs.View.{expr_view, stmt_view, block_view};
ghost use Rattle.mat_ast.specs.Tree.{Assign};
ghost use Rattle.fi_rules.specs.Texts.{ty_text};
ghost use Rattle.fi_rules.specs.View.{ty_view};
ghost use Rattle.scalar_program.specs.Lowered.{IsStaLowered, IsBlockLowered, and_then, output_of, outputs_lowered};
ghost use Rattle.scalar_program.specs.NameMaps.{with_type};
ghost use Rattle.fi_eval.specs.Meaning.{first_place, place_of};
ghost use Rattle.scalar_walk.specs.Walk as walk;
ghost use Rattle.walk_scope.specs.View.{Tells, IsStop, scope_view};
ghost use Rattle.scalar_walk.specs.View.{AreBelow, names_view, types_view, walked_view, held_view, operand_view, emitted_view, behind_view};

use crate::emitted::Emitted;
use crate::operand::{Held, Operand};
use crate::variables::Variables;
use crate::walk::lower_expr;
use fi_rules::{Ty, is_same};
use fic_base::{Code, Place, Refusal};
use mat_ast::{Expr, Ident, Stmt};
use num_type::{Memory, Stop};
use rule_texts::put_type;
use std::alloc::Global;
use walk_scope::{Scope, refused, unbuilt};

/// Lowers the statements of a block behind those so far. Refused exactly as its definition tells; want of memory is the free answer.
pub fn lower_block(
    body: &[Stmt],
    alloc: Global,
    scope: &Scope<'_>,
    names: &mut Variables,
    out: &mut Emitted,
) -> Result<(), Stop<Refusal>>
    requires { AreBelow (names_view names.old) (length out.old.words) }
    ensures told { Tells result (λ u. walked_view names.new out.new) (walk.block_walked (block_view body.now) (scope_view scope.now) (walked_view names.old out.old)) }
    ensures low { OnOk result (IsBlockLowered (block_view body.now) (scope_view scope.now).context (names_view names.old) (emitted_view out.old) (behind_view names.new out.new)) }
    ensures below { OnOk result (AreBelow (names_view names.new) (length out.new.words)) }
{
    for s in body {
        lower_stmt(s, alloc, scope, names, out)?;
    }
    Ok(())
}

// A statement. A kind that isn't supported yet is refused at its place.
fn lower_stmt(
    s: &Stmt,
    alloc: Global,
    scope: &Scope<'_>,
    names: &mut Variables,
    out: &mut Emitted,
) -> Result<(), Stop<Refusal>>
    requires { AreBelow (names_view names.old) (length out.old.words) }
    ensures told { Tells result (λ u. walked_view names.new out.new) (walk.sta_walked (stmt_view s.now) (scope_view scope.now) (walked_view names.old out.old)) }
    ensures low { OnOk result (IsStaLowered (stmt_view s.now) (scope_view scope.now).context (names_view names.old) (emitted_view out.old) (behind_view names.new out.new)) }
    ensures below { OnOk result (AreBelow (names_view names.new) (length out.new.words)) }
{
    match s {
        Stmt::Assign { name, value } => lower_assign(name, value, alloc, scope, names, out),
        Stmt::Store { name, .. } => Err(unbuilt(alloc, scope, name.place)),
        Stmt::Multi { targets, call } => {
            let at = place_of_targets(targets.as_slice(), call);
            Err(unbuilt(alloc, scope, at))
        }
        Stmt::If { place, .. } => Err(unbuilt(alloc, scope, *place)),
        Stmt::For { place, .. } => Err(unbuilt(alloc, scope, *place)),
        Stmt::While { place, .. } => Err(unbuilt(alloc, scope, *place)),
        Stmt::Break(place) => Err(unbuilt(alloc, scope, *place)),
        Stmt::Continue(place) => Err(unbuilt(alloc, scope, *place)),
    }
}

// Where the first of several targets stands, or else the call.
fn place_of_targets(targets: &[Ident], call: &Expr) -> Place
    ensures { result ≡ first_place targets.now (place_of (expr_view call.now)) }
{
    match targets.first() {
        Some(target) => target.place,
        None => call.place,
    }
}

// An assignment: the value, then the target.
fn lower_assign(
    name: &Ident,
    value: &Expr,
    alloc: Global,
    scope: &Scope<'_>,
    names: &mut Variables,
    out: &mut Emitted,
) -> Result<(), Stop<Refusal>>
    requires { AreBelow (names_view names.old) (length out.old.words) }
    ensures told { Tells result (λ u. walked_view names.new out.new) (walk.sta_walked (Assign name.now (expr_view value.now)) (scope_view scope.now) (walked_view names.old out.old)) }
    ensures low { OnOk result (IsStaLowered (Assign name.now (expr_view value.now)) (scope_view scope.now).context (names_view names.old) (emitted_view out.old) (behind_view names.new out.new)) }
    ensures below { OnOk result (AreBelow (names_view names.new) (length out.new.words)) }
{
    let held = lower_expr(value, alloc, scope, names, None, out)?;
    assign_type(alloc, name, names, &held.ty)?;
    names.set(alloc, name.text.as_bytes(), held)?;
    Ok(())
}

// No text is assigned, and a variable keeps its type after its first assignment.
#[tactic(auto, using(walk_scope::proofs::Tell::stop_tells), unfolding(walk_scope::specs::Told::choose))]
fn assign_type(alloc: Global, name: &Ident, names: &Variables, ty: &Ty) -> Result<(), Stop<Refusal>>
    ensures told { (n : ℕ) → Tells result (λ u. record { types = with_type (types_view names.now) name.now.text (ty_view ty.now); nodes = n }) (walk.assigned name.now (types_view names.now) (ty_view ty.now, n) (types_view names.now name.now.text)) }
{
    if is_text(ty) {
        Err(refused(alloc, Code::FloatOperand, name.place, name.text.as_bytes()))
    } else {
        keep_type(alloc, name, names, ty)
    }
}

// Whether a value is a text.
#[tactic(auto, unfolding(crate::specs::Walk::is_text))]
fn is_text(ty: &Ty) -> bool
    ensures { result ≡ walk.is_text (ty_view ty.now) }
{
    match ty {
        Ty::Words(_) => true,
        Ty::Fi(_, _) => false,
        Ty::Number(_) => false,
        Ty::Math(_) => false,
        Ty::Type(_) => false,
        Ty::Other => false,
    }
}

// A variable keeps its type after its first assignment.
#[tactic(auto, using(walk_scope::proofs::Tell::stop_tells), unfolding(walk_scope::specs::Told::choose, crate::specs::Walk::kept))]
fn keep_type(alloc: Global, name: &Ident, names: &Variables, ty: &Ty) -> Result<(), Stop<Refusal>>
    ensures told { (n : ℕ) → Tells result (λ u. record { types = with_type (types_view names.now) name.now.text (ty_view ty.now); nodes = n }) (walk.kept name.now (types_view names.now) (ty_view ty.now, n) (types_view names.now name.now.text)) }
{
    match names.get(name.text.as_bytes()) {
        Some(old) => {
            if is_same(ty, &old.ty) {
                Ok(())
            } else {
                Err(type_change(alloc, name, ty, &old.ty))
            }
        }
        None => Ok(()),
    }
}

// The refusal of another type for a variable.
fn type_change(alloc: Global, name: &Ident, new: &Ty, old: &Ty) -> Stop<Refusal>
    ensures { IsStop result code.TypeChange name.now.place (ty_text (ty_view new.now) ++ codes " into " ++ ty_text (ty_view old.now)) }
{
    match change_text(alloc, new, old) {
        Ok(text) => refused(alloc, Code::TypeChange, name.place, text.as_slice()),
        Err(_) => Stop::Memory,
    }
}

fn change_text(alloc: Global, new: &Ty, old: &Ty) -> Result<Vec<u8>, Memory>
    ensures { IfOk result (λ v. v.items ≡ ty_text (ty_view new.now) ++ codes " into " ++ ty_text (ty_view old.now)) }
{
    let mut text = Vec::new(alloc);
    put_type(new, &mut text)?;
    text.extend_from_slice(b" into ")?;
    put_type(old, &mut text)?;
    Ok(text)
}

/// The values of the outputs. Refused exactly at an output without a value, or with one that is no fi; want of memory is the free answer.
pub fn lower_outputs(
    outputs: &[Ident],
    alloc: Global,
    names: &Variables,
) -> Result<Vec<Operand>, Stop<Refusal>>
    ensures told { Tells result (λ v. map (λ o. type_of o.num) v.items) (walk.outputs_typed outputs.now (types_view names.now)) }
    ensures low { IfOk result (λ v. outputs_lowered outputs.now (names_view names.now) ≡ Some (map operand_view v.items)) }
{
    let mut values = Vec::new(alloc);
    for o in outputs {
        let operand = lower_output(alloc, o, names)?;
        values.push(operand)?;
    }
    Ok(values)
}

// The value of an output.
#[tactic(auto, using(walk_scope::proofs::Tell::stop_tells, walk_scope::proofs::Tell::part_tells), unfolding(walk_scope::specs::Told::bind, crate::specs::Walk::known, scalar_program::specs::Lowered::and_then))]
fn lower_output(alloc: Global, o: &Ident, names: &Variables) -> Result<Operand, Stop<Refusal>>
    ensures told { Tells result (λ x. type_of x.num) (walk.output_typed o.now (types_view names.now)) }
    ensures low { IfOk result (λ x. and_then (names_view names.now o.now.text) output_of ≡ Some (operand_view x)) }
{
    match names.get(o.text.as_bytes()) {
        Some(held) => operand_of(alloc, o, held),
        None => Err(refused(alloc, Code::NotAssigned, o.place, o.text.as_bytes())),
    }
}

// A fi as an output.
#[tactic(auto, using(walk_scope::proofs::Tell::stop_tells), unfolding(crate::specs::Walk::output_told, scalar_program::specs::Lowered::fi_operand))]
fn operand_of(alloc: Global, o: &Ident, held: &Held) -> Result<Operand, Stop<Refusal>>
    ensures told { Tells result (λ x. type_of x.num) (walk.output_told o.now (ty_view held.now.ty)) }
    ensures low { IfOk result (λ x. output_of (held_view held.now) ≡ Some (operand_view x)) }
{
    match &held.ty {
        Ty::Fi(num, _) => Ok(Operand {
            spot: held.spot,
            num: *num,
        }),
        Ty::Number(_) => Err(no_output(alloc, o)),
        Ty::Words(_) => Err(no_output(alloc, o)),
        Ty::Math(_) => Err(no_output(alloc, o)),
        Ty::Type(_) => Err(no_output(alloc, o)),
        Ty::Other => Err(no_output(alloc, o)),
    }
}

// The refusal of an output that is no fi.
fn no_output(alloc: Global, o: &Ident) -> Stop<Refusal>
    ensures { IsStop result code.FloatOperand o.now.place o.now.text }
{
    refused(alloc, Code::FloatOperand, o.place, o.text.as_bytes())
}
