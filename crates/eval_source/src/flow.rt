//! Where statements lead.

ghost use Rattle.std.specs.Prelude.{◌≡◌};
ghost use Rattle.fi_eval.specs.Outcome.{Gives, Wrong, choose};
ghost use Rattle.fi_meaning.specs.Environment.{Env};
ghost use Rattle.eval_value.specs.Tells.{Tells};
ghost use Rattle.eval_source.specs.Flows as flows;

use crate::scope::Scope;
use eval_value::Halt;
use fic_base::Place;

/// Where a statement leads.
#[derive(Clone, Copy, Debug, PartialEq, Eq)]
pub enum Flow {
    /// On to the next one.
    Went,
    /// Out of the loop round it.
    Broke,
    /// To the next turn of the loop round it.
    Continued,
}

/// Whether it leaves a block before its end.
pub fn leaves(flow: Flow) -> bool
    ensures { result ≡ flows.leaves flow }
{
    match flow {
        Flow::Went => false,
        Flow::Broke => true,
        Flow::Continued => true,
    }
}

/// Whether it ends the loop round it.
pub fn ends_loop(flow: Flow) -> bool
    ensures { result ≡ flows.ends_loop flow }
{
    match flow {
        Flow::Went => false,
        Flow::Broke => true,
        Flow::Continued => false,
    }
}

/// A `break` or a `continue` at a place; wrong where no loop stands round it.
#[tactic(auto, unfolding(fi_eval::specs::Outcome::choose))]
pub fn jump(scope: &Scope<'_>, at: Place, flow: Flow) -> Result<Flow, Halt>
    ensures { (env : Env) → Tells result (λ f. flows.flow_view f env) (choose scope.now.in_loop (Gives (flows.flow_view flow env)) (Wrong at)) }
{
    if scope.in_loop {
        Ok(flow)
    } else {
        Err(Halt::Wrong(at))
    }
}
