//! Names, literals and texts as expressions, and calls behind their arguments.

ghost use Rattle.walk_scope.specs.Scope as scoped;
ghost use Rattle.std.specs.Prelude.{◌≡◌, ◌≤◌, false, length, map, IfOk, OnOk, Some};
ghost use Rattle.num_type.specs.View.{exact_of};
ghost use Rattle.mat_ast.specs.Tree.{Name};
ghost use Rattle.const_rules.specs.LiteralValues.{literal_of};
ghost use Rattle.fi_rules.specs.Types.{TextTy};
ghost use Rattle.fi_rules.specs.View.{ty_view, number_view};
ghost use Rattle.walk_scope.specs.Told.{bind};
ghost use Rattle.walk_scope.specs.View.{Tells, StopTells, scope_view};
ghost use Rattle.scalar_program.specs.Lowered as lowered;
ghost use Rattle.scalar_program.specs.Lowered.{IsCalled, IsLiteral, IsLowered, IsRead};
ghost use Rattle.scalar_walk.specs.Walk as walk;
ghost use Rattle.scalar_walk.specs.Walk.{Typed};
ghost use Rattle.scalar_walk.specs.View.{AreBelow, AreUnder, IsUnder, names_view, types_view, typed_view, types_passed, spot_view, emitted_view, low_view};

use crate::arguments::Arguments;
use crate::calls::lower_name_call;
use crate::emitted::Emitted;
use crate::operand::{Held, copy, known};
use crate::results::count;
use crate::variables::Variables;
use const_eval::literal;
use fi_rules::Ty;
use fic_base::{Code, Place, Refusal, Text};
use num_type::{Dyadic, Stop};
use std::alloc::Global;
use walk_scope::{Scope, is_variable, refused, unbuilt};

// The refusal of a subscripted read of a variable: it needs a type before that.
#[tactic(auto, using(walk_scope::proofs::Tell::is_told, walk_scope::proofs::Tell::err_tells, walk_scope::proofs::Tell::stop_tells, walk_scope::proofs::Tell::part_tells), unfolding(walk_scope::specs::Told::bind, crate::specs::Walk::known))]
fn read_refused(
    alloc: Global,
    scope: &Scope<'_>,
    names: &Variables,
    at: Place,
    name: &[u8],
) -> Stop<Refusal>
    ensures { StopTells {A = Typed} result (bind (walk.known at name.now (types_view names.now name.now)) (λ t. scoped.unbuilt (scope_view scope.now) at)) }
{
    match names.get(name) {
        None => refused(alloc, Code::NotAssigned, at, name),
        Some(_) => unbuilt(alloc, scope, at),
    }
}

// A variable as an expression.
#[tactic(auto, using(walk_scope::proofs::Tell::stop_tells, walk_scope::proofs::Tell::part_tells), unfolding(walk_scope::specs::Told::bind, crate::specs::Walk::known))]
fn lower_variable(
    alloc: Global,
    names: &Variables,
    at: Place,
    name: &[u8],
    out: &mut Emitted,
) -> Result<Held, Stop<Refusal>>
    requires { AreBelow (names_view names.now) (length out.old.words) }
    ensures told { Tells result (typed_view out.new.nodes) (bind (walk.known at name.now (types_view names.now name.now)) (λ t. walk.of_type at t out.old.nodes)) }
    ensures low { IfOk result (λ h. IsRead (names_view names.now) name.now (emitted_view out.old) (low_view h out.new)) }
    ensures grows { OnOk result (length out.old.words ≤ length out.new.words) }
    ensures below { IfOk result (λ h. IsUnder h.spot out.new) }
{
    match names.get(name) {
        Some(held) => {
            count(alloc, at, out)?;
            let h = copy(alloc, held)?;
            Ok(h)
        }
        None => Err(refused(alloc, Code::NotAssigned, at, name)),
    }
}

/// A name as an expression: a variable, or a call without arguments. Refused exactly as the definition tells; want of memory is the free answer.
#[tactic(auto, unfolding(walk_scope::specs::Told::choose))]
pub fn lower_name(
    alloc: Global,
    scope: &Scope<'_>,
    names: &Variables,
    at: Place,
    name: &[u8],
    out: &mut Emitted,
) -> Result<Held, Stop<Refusal>>
    requires { AreBelow (names_view names.now) (length out.old.words) }
    ensures told { Tells result (typed_view out.new.nodes) (walk.name_typed (scope_view scope.now) (types_view names.now) at name.now out.old.nodes) }
    ensures low { IfOk result (λ h. IsLowered (Name at name.now) (scope_view scope.now).context (names_view names.now) (emitted_view out.old) (low_view h out.new)) }
    ensures grows { OnOk result (length out.old.words ≤ length out.new.words) }
    ensures below { IfOk result (λ h. IsUnder h.spot out.new) }
{
    if is_variable(scope, name) {
        lower_variable(alloc, names, at, name, out)
    } else {
        lower_name_call(alloc, scope, at, name, false, &[], &[], out)
    }
}

/// A real literal. Refused exactly as the definition tells; want of memory is the free answer.
#[tactic(auto, using(walk_scope::proofs::Tell::stop_tells, walk_scope::proofs::Tell::part_tells), unfolding(walk_scope::specs::Told::bind, walk_scope::specs::Told::choose, crate::specs::Walk::literal_told))]
pub fn lower_number(
    alloc: Global,
    scope: &Scope<'_>,
    at: Place,
    text: &[u8],
    imaginary: bool,
    out: &mut Emitted,
) -> Result<Held, Stop<Refusal>>
    ensures told { Tells result (typed_view out.new.nodes) (walk.number_typed (scope_view scope.now) at text.now imaginary out.old.nodes) }
    ensures low { IfOk result (λ h. (imaginary ≡ false) × IsLiteral text.now (emitted_view out.old) (low_view h out.new)) }
    ensures grows { OnOk result (length out.old.words ≤ length out.new.words) }
    ensures below { IfOk result (λ h. IsUnder h.spot out.new) }
{
    if imaginary {
        return Err(unbuilt(alloc, scope, at));
    }
    let c = constant_of(alloc, text, at)?;
    count(alloc, at, out)?;
    Ok(known(Ty::Number(c)))
}

// The constant of a literal.
fn constant_of(alloc: Global, text: &[u8], at: Place) -> Result<Dyadic, Stop<Refusal>>
    ensures told { Tells result number_view (walk.literal_told at text.now (literal_of text.now)) }
    ensures is { IfOk result (λ c. literal_of text.now ≡ Some (exact_of c)) }
{
    let c = literal(alloc, text, at)?;
    Ok(c)
}

/// A text. Refused exactly at the limit of nodes; want of memory is the free answer.
#[tactic(auto, using(walk_scope::proofs::Tell::part_tells), unfolding(walk_scope::specs::Told::bind))]
pub fn lower_text(
    alloc: Global,
    at: Place,
    text: &[u8],
    out: &mut Emitted,
) -> Result<Held, Stop<Refusal>>
    ensures told { Tells result (typed_view out.new.nodes) (walk.of_type at (TextTy text.now) out.old.nodes) }
    ensures low { IfOk result (λ h. low_view h out.new ≡ lowered.known (TextTy text.now) (emitted_view out.old)) }
    ensures grows { OnOk result (length out.old.words ≤ length out.new.words) }
    ensures below { IfOk result (λ h. IsUnder h.spot out.new) }
{
    count(alloc, at, out)?;
    let text = Text::from_bytes(alloc, text)?;
    Ok(known(Ty::Words(text)))
}

/// A subscripted read or a call, behind its subscripts or arguments. Refused exactly as the definition tells; want of memory is the free
/// answer.
#[tactic(auto, using(walk_scope::proofs::Tell::err_tells), unfolding(walk_scope::specs::Told::choose))]
pub fn apply(
    alloc: Global,
    scope: &Scope<'_>,
    names: &Variables,
    at: Place,
    name: &[u8],
    colon: bool,
    passed: &Arguments,
    out: &mut Emitted,
) -> Result<Held, Stop<Refusal>>
    requires { AreUnder passed.now.spots.items (length out.old.words) }
    ensures told { Tells result (typed_view out.new.nodes) (walk.apply_typed (scope_view scope.now) (types_view names.now) at name.now colon (types_passed passed.now out.old.nodes)) }
    ensures low { IfOk result (λ h. IsCalled (scope_view scope.now).context name.now (map ty_view passed.now.types.items) (map spot_view passed.now.spots.items) (emitted_view out.old) (low_view h out.new)) }
    ensures grows { OnOk result (length out.old.words ≤ length out.new.words) }
    ensures below { IfOk result (λ h. IsUnder h.spot out.new) }
{
    if is_variable(scope, name) {
        Err(read_refused(alloc, scope, names, at, name))
    } else {
        let types = passed.types.as_slice();
        let spots = passed.spots.as_slice();
        lower_name_call(alloc, scope, at, name, colon, types, spots, out)
    }
}
