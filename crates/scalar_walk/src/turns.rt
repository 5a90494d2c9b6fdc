//! Operations with one operand: signs.

ghost use Rattle.std.specs.Prelude.{◌≡◌, ◌+◌, ◌*◌, ◌≤◌, length, true, IfOk, OnOk};
ghost use Rattle.num_type.specs.View.{type_of};
ghost use Rattle.fi_rules.specs.Types.{FiTy};
ghost use Rattle.fi_rules.specs.Types as types;
ghost use Rattle.fi_rules.specs.View.{IsSigned as IsSignedBy, is_fi, signed_view, ty_view};
ghost use Rattle.fi_rules.specs.Signs.{sign_checked};
ghost use Rattle.fi_eval.specs.Operators.{math_of};
ghost use Rattle.lower_scalar.specs.Part.{part_view};
ghost use Rattle.walk_scope.specs.Rules as rules;
ghost use Rattle.walk_scope.specs.View.{Tells, scope_view};
ghost use Rattle.scalar_program.specs.Lowered.{HasSign, IsNegated, IsSigned, IsTurned, Turns};
ghost use Rattle.scalar_walk.specs.Walk as walk;
ghost use Rattle.scalar_walk.specs.View.{IsUnder, typed_view, turn_view, held_view, operand_view, spot_view, emitted_view, low_view};

use crate::emitted::Emitted;
use crate::operand::{Held, Operand, copy, known, read};
use crate::results::{count, set_part};
use c_tree::CPart;
use fi_math::Fimath;
use fi_rules::{Signed, Ty, sign};
use fic_base::{Place, Refusal};
use lower_op::{negate, take_sign};
use mat_ast::UnOp;
use num_type::{Memory, NumType, Stop};
use std::alloc::Global;
use walk_scope::{Scope, rule_of_one, text_at};

/// What is done to a number's sign.
#[derive(Clone, Copy)]
pub enum Turn {
    /// It is negated.
    Negate,
    /// It is taken away.
    Remove,
}

/// The fimath of an operation with one operand: the attached one, or else the default one.
#[tactic(auto, unfolding(fi_eval::specs::Operators::math_of))]
pub fn governing(math: Option<Fimath>) -> Fimath
    ensures { result ≡ math_of math }
{
    match math {
        Some(m) => m,
        None => Fimath::usual(),
    }
}

/// A fi with its sign negated or taken away: the words and statements of the part, and its value in the next variable behind them. Want of
/// memory is the only refusal.
pub fn lower_turn(
    alloc: Global,
    turn: Turn,
    math: Option<Fimath>,
    x: Operand,
    out: &mut Emitted,
) -> Result<Held, Memory>
    requires room { length out.old.words + 4097 ≤ 4097 * out.old.nodes }
    requires under { IsUnder x.spot out.old }
    ensures ty { IfOk result (λ h. ty_view h.ty ≡ FiTy (type_of x.num) math) }
    ensures nodes { out.new.nodes ≡ out.old.nodes }
    ensures low { IfOk result (λ h. IsTurned (turn_view turn) math (operand_view x) (emitted_view out.old) (low_view h out.new)) }
    ensures grows { OnOk result (length out.old.words ≤ length out.new.words) }
    ensures below { IfOk result (λ h. IsUnder h.spot out.new) }
{
    let num = x.num;
    let part = turned(alloc, turn, governing(math), x, out)?;
    let h = set_part(num, math, part, out)?;
    Ok(h)
}

// The part that negates a stored integer or takes its sign away.
#[tactic(auto, unfolding(scalar_program::specs::Lowered::Turns))]
fn turned(
    alloc: Global,
    turn: Turn,
    math: Fimath,
    x: Operand,
    out: &Emitted,
) -> Result<CPart, Memory>
    requires { IsUnder x.spot out.now }
    ensures part { IfOk result (λ p. Turns (turn_view turn) math (operand_view x) (length out.now.words) (part_view p)) }
    ensures few { IfOk result (λ p. length p.words ≤ 4096) }
{
    let fresh = out.fresh();
    let value = read(alloc, x.spot)?;
    match turn {
        Turn::Negate => {
            let p = negate(alloc, math, x.num, value, fresh)?;
            Ok(p)
        }
        Turn::Remove => {
            let p = take_sign(alloc, math, x.num, value, fresh)?;
            Ok(p)
        }
    }
}

/// A sign before an operand. Plus emits nothing, and a constant is negated exactly. Refused exactly as the definition tells; want of memory is
/// the free answer.
#[tactic(auto, using(walk_scope::proofs::Tell::part_tells), unfolding(walk_scope::specs::Told::bind))]
pub fn lower_sign(
    alloc: Global,
    scope: &Scope<'_>,
    at: Place,
    op: UnOp,
    x: &Held,
    out: &mut Emitted,
) -> Result<Held, Stop<Refusal>>
    requires { IsUnder x.now.spot out.old }
    ensures told { Tells result (typed_view out.new.nodes) (walk.sign_typed at (rules.around_one ((scope_view scope.now).shown at)) op (ty_view x.now.ty) out.old.nodes) }
    ensures low { IfOk result (λ h. IsSigned op (held_view x.now) (emitted_view out.old) (low_view h out.new)) }
    ensures grows { OnOk result (length out.old.words ≤ length out.new.words) }
    ensures below { IfOk result (λ h. IsUnder h.spot out.new) }
{
    let shown = text_at(scope.bytes, scope.tokens, at);
    let signed = rule_of_one(alloc, at, shown, sign(op, &x.ty))?;
    count(alloc, at, out)?;
    let h = with_sign(alloc, op, signed, x, out)?;
    Ok(h)
}

// The value with its sign.
#[tactic(auto, unfolding(scalar_program::specs::Lowered::HasSign))]
fn with_sign(
    alloc: Global,
    op: UnOp,
    signed: Signed,
    x: &Held,
    out: &mut Emitted,
) -> Result<Held, Memory>
    requires room { length out.old.words + 4097 ≤ 4097 * out.old.nodes }
    requires under { IsUnder x.now.spot out.old }
    requires kind { IsSignedBy op (ty_view x.now.ty) signed }
    ensures ty { IfOk result (λ h. ty_view h.ty ≡ signed_view (ty_view x.now.ty) signed) }
    ensures nodes { out.new.nodes ≡ out.old.nodes }
    ensures low { IfOk result (λ h. HasSign op (held_view x.now) (signed_view (ty_view x.now.ty) signed) (emitted_view out.old) (low_view h out.new)) }
    ensures grows { OnOk result (length out.old.words ≤ length out.new.words) }
    ensures below { IfOk result (λ h. IsUnder h.spot out.new) }
{
    match signed {
        Signed::Same => {
            let h = copy(alloc, x)?;
            Ok(h)
        }
        Signed::Constant(c) => Ok(known(Ty::Number(c))),
        Signed::Turned => {
            let h = negated(alloc, x, out)?;
            Ok(h)
        }
    }
}

// A fi with its sign negated. The rules turn no other sign at run time.
#[tactic(auto, unfolding(scalar_program::specs::Lowered::IsNegated))]
fn negated(alloc: Global, x: &Held, out: &mut Emitted) -> Result<Held, Memory>
    requires room { length out.old.words + 4097 ≤ 4097 * out.old.nodes }
    requires under { IsUnder x.now.spot out.old }
    requires kind { is_fi (ty_view x.now.ty) ≡ true }
    ensures ty { IfOk result (λ h. ty_view h.ty ≡ ty_view x.now.ty) }
    ensures nodes { out.new.nodes ≡ out.old.nodes }
    ensures low { IfOk result (λ h. (u : types.Ty) → IsNegated (ty_view x.now.ty) (spot_view x.now.spot) u (emitted_view out.old) (low_view h out.new)) }
    ensures grows { OnOk result (length out.old.words ≤ length out.new.words) }
    ensures below { IfOk result (λ h. IsUnder h.spot out.new) }
{
    match &x.ty {
        Ty::Fi(num, math) => {
            let operand = Operand {
                spot: x.spot,
                num: *num,
            };
            let h = lower_turn(alloc, Turn::Negate, *math, operand, out)?;
            Ok(h)
        }
        Ty::Number(_) => unreachable!(),
        Ty::Words(_) => unreachable!(),
        Ty::Math(_) => unreachable!(),
        Ty::Type(_) => unreachable!(),
        Ty::Other => unreachable!(),
    }
}
