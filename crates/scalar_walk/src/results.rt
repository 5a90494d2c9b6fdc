//! What each node of the walk does: it is counted, and its value is set.

ghost use Rattle.std.specs.Prelude.{◌≡◌, ◌+◌, ◌*◌, ◌<◌, ◌≤◌, length, IfOk, OnOk};
ghost use Rattle.num_type.specs.View.{type_of};
ghost use Rattle.fi_rules.specs.Types.{FiTy};
ghost use Rattle.fi_rules.specs.View.{ty_view};
ghost use Rattle.lower_scalar.specs.Part.{part_view};
ghost use Rattle.scalar_program.specs.Lowered.{next_low, with_part};
ghost use Rattle.scalar_walk.specs.Walk as walk;
ghost use Rattle.walk_scope.specs.View.{Tells};
ghost use Rattle.scalar_walk.specs.View.{IsUnder, emitted_view, low_view};
ghost use Rattle.c_tree.specs.View.{expr_view as c_view};

use crate::emitted::Emitted;
use crate::operand::{Held, Spot};
use c_tree::{CExpr, CPart};
use fi_math::Fimath;
use fi_rules::Ty;
use fic_base::{Place, Refusal};
use lower_scalar::word_for;
use num_type::{Memory, NumType, Stop};
use std::alloc::Global;
use walk_scope::too_many_nodes;

/// Counts a node. Refused exactly at the limit of nodes.
#[tactic(auto, using(walk_scope::proofs::Tell::stop_tells), unfolding(walk_scope::specs::Told::choose))]
pub fn count(alloc: Global, at: Place, out: &mut Emitted) -> Result<(), Stop<Refusal>>
    ensures told { Tells result (λ u. out.new.nodes) (walk.counted at out.old.nodes) }
    ensures nodes { OnOk result (out.new.nodes ≡ out.old.nodes + 1) }
    ensures same { emitted_view out.new ≡ emitted_view out.old }
    ensures words { out.new.words ≡ out.old.words }
{
    if out.count() {
        Ok(())
    } else {
        Err(too_many_nodes(alloc, at))
    }
}

/// Sets the next variable, of this type and with this fimath. Want of memory is the only refusal.
pub fn set(
    num: NumType,
    math: Option<Fimath>,
    value: CExpr,
    out: &mut Emitted,
) -> Result<Held, Memory>
    requires { length out.old.words < 4097 * out.old.nodes }
    ensures nodes { out.new.nodes ≡ out.old.nodes }
    ensures ty { IfOk result (λ h. ty_view h.ty ≡ FiTy (type_of num) math) }
    ensures below { IfOk result (λ h. IsUnder h.spot out.new) }
    ensures grows { OnOk result (length out.old.words ≤ length out.new.words) }
    ensures low { IfOk result (λ h. low_view h out.new ≡ next_low (type_of num) math (c_view value) (emitted_view out.old)) }
{
    let number = out.set_next(word_for(num.signed()), value)?;
    Ok(Held {
        spot: Spot::Variable(number),
        ty: Ty::Fi(num, math),
    })
}

/// Adds a part, and sets the next variable, of this type and with this fimath, to its value. Want of memory is the only refusal.
pub fn set_part(
    num: NumType,
    math: Option<Fimath>,
    part: CPart,
    out: &mut Emitted,
) -> Result<Held, Memory>
    requires room { length out.old.words + 4097 ≤ 4097 * out.old.nodes }
    requires few { length part.words ≤ 4096 }
    ensures nodes { out.new.nodes ≡ out.old.nodes }
    ensures ty { IfOk result (λ h. ty_view h.ty ≡ FiTy (type_of num) math) }
    ensures below { IfOk result (λ h. IsUnder h.spot out.new) }
    ensures grows { OnOk result (length out.old.words ≤ length out.new.words) }
    ensures low { IfOk result (λ h. low_view h out.new ≡ with_part (type_of num) math (part_view part) (emitted_view out.old)) }
{
    let CPart {
        words,
        before,
        value,
    } = part;
    out.append(words, before)?;
    let h = set(num, math, value, out)?;
    Ok(h)
}
