//! The counters at the start of a run.

ghost use Rattle.std.specs.Prelude.{◌≡◌, replicate, length, IfOk};
ghost use Rattle.c_run.specs.Counters.{AreZeros};

use crate::tally::Tally;
use c_tree::CTree;
use num_type::Memory;
use std::alloc::Global;

/// What the counters of each kind are at.
#[derive(Drop)]
pub struct Tallies {
    pub groups: Vec<Tally>,
    pub barriers: Vec<Tally>,
    pub sources: Vec<Tally>,
    pub turns: Vec<Tally>,
}

/// The counters of a tree, each at 0. Want of memory is the only refusal.
pub fn zero_tallies(alloc: Global, tree: &CTree) -> Result<Tallies, Memory>
    ensures { IfOk result (λ t. AreZeros t tree.now) }
{
    let groups = zeros(alloc, tree.groups)?;
    let barriers = zeros(alloc, tree.barriers)?;
    let sources = zeros(alloc, tree.sources)?;
    let turns = zeros(alloc, tree.turns)?;
    Ok(Tallies {
        groups,
        barriers,
        sources,
        turns,
    })
}

// So many counters at 0.
fn zeros(alloc: Global, count: u32) -> Result<Vec<Tally>, Memory>
    ensures { IfOk result (λ v. v.items ≡ replicate count 0) }
{
    let mut tallies = Vec::new(alloc);
    tallies.resize(count as usize, Tally::of(0))?;
    Ok(tallies)
}

/// All at 0.
pub fn clear_tallies(tallies: &mut [Tally])
    ensures { tallies.new ≡ replicate (length tallies.old) 0 }
{
    tallies.fill(Tally::of(0));
}
