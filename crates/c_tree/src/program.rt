//! Well-formed programs.

ghost use Rattle.std.specs.Prelude.{◌≡◌};
ghost use Rattle.c_tree.specs.View.{program_view};
ghost use Rattle.c_tree.specs.WellFormed.{IsWellFormed};

use crate::amounts::{all_loops_of, arrays_alike};
use crate::interface::Interface;
use crate::tree::CTree;
use num_type::Container;

/// A well-formed program.
#[derive(Drop)]
pub struct CProgram {
    tree: CTree,
    ghost well_formed: { IsWellFormed (program_view tree) },
}

impl CProgram {
    ghost use Rattle.std.specs.Prelude.{◌≡◌};
    ghost use Rattle.c_tree.specs.View.{program_view};
    ghost use Rattle.c_tree.specs.WellFormed.{IsWellFormed};
    ghost use Rattle.c_tree.specs.Whole.{tree_of, program_of};
    ghost use Rattle.c_tree.specs.Counted.{all_group_loops, alike};

    /// The program of a well-formed tree.
    pub fn of(tree: CTree) -> CProgram
        requires { IsWellFormed (program_view tree) }
        ensures { tree_of result ≡ tree }
    {
        CProgram { tree }
    }

    /// The program's tree.
    pub fn tree(&self) -> &CTree
        ensures value { result.now ≡ tree_of self.now }
        ensures well_formed { IsWellFormed (program_view result.now) }
    {
        &self.tree
    }

    /// What the program takes and gives.
    pub fn interface(&self) -> &Interface
        ensures { result.now ≡ (tree_of self.now).interface }
    {
        &self.tree.interface
    }

    /// How many loops have a counter of group loops.
    pub fn group_loops(&self) -> u32
        ensures { result ≡ all_group_loops (program_of self.now).body }
    {
        all_loops_of(self.tree.body.as_slice())
    }

    /// How many local arrays have this container and this many elements.
    pub fn local_arrays(&self, container: Container, count: u32) -> u32
        ensures { result ≡ alike (program_of self.now).arrays container count }
    {
        arrays_alike(self.tree.arrays.as_slice(), container, count)
    }
}
