//! Operators with two operands.

ghost use Rattle.std.specs.Prelude.{◌≡◌, ◌+◌, ◌*◌, ◌≤◌, ℕ, true, length, IfOk, OnOk, Some};
ghost use Rattle.num_type.specs.View.{type_of};
ghost use Rattle.mat_ast.specs.View.{expr_view};
ghost use Rattle.fi_math.specs.Made.{Is};
ghost use Rattle.fi_rules.specs.View.{ty_view, operand_side, working_view};
ghost use Rattle.fi_rules.specs.Pairs as rule;
ghost use Rattle.lower_scalar.specs.Part.{part_view, reach};
ghost use Rattle.walk_scope.specs.Rules as rules;
ghost use Rattle.walk_scope.specs.View.{Tells, scope_view};
ghost use Rattle.scalar_program.specs.Lowered.{IsOperated, IsPaired, IsWorked, Operates, operand_at, read as read_spot};
ghost use Rattle.scalar_walk.specs.Walk as walk;
ghost use Rattle.scalar_walk.specs.View.{IsMade, is_computed, IsUnder, typed_view, held_view, operand_view, spot_view, emitted_view, low_view};

use crate::emitted::Emitted;
use crate::operand::{Held, Operand, Spot, known, read};
use crate::results::{count, set_part};
use c_tree::CPart;
use fi_math::Fimath;
use fi_rules::{Operand as Side, Ty, Work, Working, meet, work_of, work_out};
use fic_base::{Place, Refusal};
use lower_op::{add, multiply, subtract};
use mat_ast::{BinOp, Expr};
use num_type::{Memory, NumType, Stop};
use std::alloc::Global;
use walk_scope::{Scope, rule_of_pair};

/// An operator behind its operands: the words and statements of its part, and its value in the next variable behind them, or a constant.
/// Refused exactly as the definition tells; want of memory is the free answer.
#[tactic(auto, using(walk_scope::proofs::Tell::part_tells), unfolding(walk_scope::specs::Told::bind))]
pub fn lower_pair(
    alloc: Global,
    scope: &Scope<'_>,
    at: Place,
    op: BinOp,
    a: &Expr,
    b: &Expr,
    x: &Held,
    y: &Held,
    out: &mut Emitted,
) -> Result<Held, Stop<Refusal>>
    requires left { IsUnder x.now.spot out.old }
    requires right { IsUnder y.now.spot out.old }
    ensures told { Tells result (typed_view out.new.nodes) (walk.pair_typed at (rules.around_pair ((scope_view scope.now).shown at) (expr_view a.now) (expr_view b.now)) (rule.work_of op) (ty_view x.now.ty) (ty_view y.now.ty) out.old.nodes) }
    ensures low { IfOk result (λ h. IsPaired (rule.work_of op) (held_view x.now) (held_view y.now) (emitted_view out.old) (low_view h out.new)) }
    ensures grows { OnOk result (length out.old.words ≤ length out.new.words) }
    ensures below { IfOk result (λ h. IsUnder h.spot out.new) }
{
    let work = work_of(op);
    let met = rule_of_pair(alloc, scope, at, a, b, meet(work, &x.ty, &y.ty))?;
    count(alloc, at, out)?;
    let working = rule_of_pair(alloc, scope, at, a, b, work_out(work, met))?;
    let h = compute(alloc, work, working, x.spot, y.spot, out)?;
    Ok(h)
}

// What an operation comes to.
fn compute(
    alloc: Global,
    work: Work,
    working: Working,
    x: Spot,
    y: Spot,
    out: &mut Emitted,
) -> Result<Held, Memory>
    requires room { length out.old.words + 4097 ≤ 4097 * out.old.nodes }
    requires left { IsUnder x out.old }
    requires right { IsUnder y out.old }
    requires made { IsMade work (working_view working) }
    ensures ty { IfOk result (λ h. ty_view h.ty ≡ rule.working_type (working_view working)) }
    ensures nodes { out.new.nodes ≡ out.old.nodes }
    ensures low { IfOk result (λ h. IsWorked work (working_view working) (spot_view x) (spot_view y) (emitted_view out.old) (low_view h out.new)) }
    ensures grows { OnOk result (length out.old.words ≤ length out.new.words) }
    ensures below { IfOk result (λ h. IsUnder h.spot out.new) }
{
    match working {
        Working::FoldsTo(c) => Ok(known(Ty::Number(c))),
        Working::Computes(left, right, governed, num) => {
            let a = stand(x, &left);
            let b = stand(y, &right);
            let part = part_of(alloc, work, governed.math, num, a, b, out)?;
            let h = set_part(num, governed.attached, part, out)?;
            Ok(h)
        }
    }
}

// Where an operand stands: a constant beside a fi stands in the text.
fn stand(spot: Spot, side: &Side) -> Operand
    ensures at { operand_at (spot_view spot) (operand_side side.now) (operand_side side.now).stored ≡ Some (operand_view result) }
    ensures num { result.num ≡ side.now.num }
    ensures below { (n : ℕ) → reach (read_spot (spot_view spot)) ≤ n → reach (read_spot (spot_view result.spot)) ≤ n }
{
    match side.stored {
        None => Operand {
            spot,
            num: side.num,
        },
        Some(z) => Operand {
            spot: Spot::Literal(side.num.signed(), z),
            num: side.num,
        },
    }
}

// The part that computes an operation by this fimath, in the type of its result. Sums, differences and products are all that is computed at run
// time.
#[tactic(auto, unfolding(scalar_program::specs::Lowered::Operates, fi_rules::specs::Pairs::work_made, crate::specs::View::is_computed))]
fn part_of(
    alloc: Global,
    work: Work,
    math: Fimath,
    num: NumType,
    x: Operand,
    y: Operand,
    out: &Emitted,
) -> Result<CPart, Memory>
    requires computed { is_computed work ≡ true }
    requires made { rule.work_made work math (type_of x.num) (type_of y.num) ≡ Is (type_of num) }
    requires left { IsUnder x.spot out.now }
    requires right { IsUnder y.spot out.now }
    ensures part { IfOk result (λ p. Operates work math (type_of num) (operand_view x) (operand_view y) (length out.now.words) (part_view p)) }
    ensures few { IfOk result (λ p. length p.words ≤ 4096) }
{
    let fresh = out.fresh();
    let a = read(alloc, x.spot)?;
    let b = read(alloc, y.spot)?;
    match work {
        Work::Sum => {
            let p = add(alloc, math, num, x.num, a, y.num, b, fresh)?;
            Ok(p)
        }
        Work::Difference => {
            let p = subtract(alloc, math, num, x.num, a, y.num, b, fresh)?;
            Ok(p)
        }
        Work::Product => {
            let p = multiply(alloc, math, num, x.num, a, y.num, b, fresh)?;
            Ok(p)
        }
        Work::Power => unreachable!(),
        Work::Division => unreachable!(),
        Work::Later => unreachable!(),
    }
}
