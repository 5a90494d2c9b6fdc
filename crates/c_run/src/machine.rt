//! The machine of a program.

ghost use Rattle.std.specs.Prelude.{◌≡◌, ◌<◌, ◌^◌, map};
ghost use Rattle.c_tree.specs.Whole.{program_of};
ghost use Rattle.c_tree.specs.Tokens.{body_token, closing_token};
ghost use Rattle.c_tree.specs.Run.{zero_word};
ghost use Rattle.c_run.specs.View.{word_view};
ghost use Rattle.c_run.specs.Shape.{shape_of, program_shape};

use crate::count::{bounded, count_block, count_front};
use crate::frame::Frame;
use crate::ran::Ran;
use crate::runs::run_tree;
use crate::setup::zero_words;
use crate::word::Word;
use c_tree::{Arrays, CProgram};
use num_type::{Int, Memory};
use std::alloc::Global;

/// A machine that runs a program, with the memory of all its runs.
#[derive(Drop)]
pub struct Machine<'a> {
    program: &'a CProgram,
    words: Vec<Word>,
    first: u64,
    frame: Frame,
    ghost words_are: { map word_view words.items ≡ map zero_word (program_of program.now).words },
    ghost first_is: { first ≡ body_token (program_of program.now) },
    ghost counted: { closing_token (program_of program.now) < 2 ^ 64 },
    ghost shaped: { shape_of frame ≡ program_shape (program_of program.now) },
}

impl<'a> Machine<'a> {
    ghost use Rattle.std.specs.Prelude.{◌≡◌, ◌<◌, map, length, slice_get, Some, IfOk, vec_items};
    ghost use Rattle.c_tree.specs.Whole.{program_of};
    ghost use Rattle.c_tree.specs.Names.{arrays_of};
    ghost use Rattle.c_tree.specs.Run;
    ghost use Rattle.c_run.specs.Fit.{FitArrays};
    ghost use Rattle.c_run.specs.Start.{zero_lists};
    ghost use Rattle.c_run.specs.Ran.{IsRan};
    ghost use Rattle.c_run.specs.Within.{program_in, outputs_in};

    /// A machine of this program, whose output arrays hold zeros. It takes the memory of all runs. Want of memory is the only refusal, and
    /// a program of 2^64 tokens or more, which no memory holds, is one too.
    #[tactic(auto, using(crate::proofs::Lists::blank_shape, crate::proofs::Lists::blank_outputs))]
    pub fn new(alloc: Global, p: &'a CProgram) -> Result<Machine<'a>, Memory>
        ensures program { IfOk result (λ m. program_in m ≡ program_of p.now) }
        ensures outputs { IfOk result (λ m. outputs_in m ≡ zero_lists (arrays_of (program_of p.now)).outputs) }
    {
        let tree = p.tree();
        let all = Arrays::of(alloc, tree)?;
        let Some(first) = count_front(tree, &all) else {
            return Err(Memory);
        };
        let Some(last) = count_block(tree.body.as_slice(), first) else {
            return Err(Memory);
        };
        let _ = bounded(last);
        let words = zero_words(alloc, tree.words.as_slice())?;
        let frame = Frame::new(alloc, tree, &all)?;
        Ok(Machine {
            program: p,
            words,
            first,
            frame,
        })
    }

    /// A run on these inputs, in which each `while` makes at most `turns` turns. It starts from zeros whatever ran before, and takes no
    /// memory. The output arrays then hold what a run with a status left there.
    #[tactic(auto, using(crate::proofs::Limits::none_over))]
    pub fn run(&mut self, inputs: &[Vec<Int>], turns: u64) -> Ran
        requires { FitArrays (arrays_of (program_in self.old)).inputs (map vec_items inputs.now) }
        ensures program { program_in self.new ≡ program_in self.old }
        ensures count { length (outputs_in self.new) ≡ length (arrays_of (program_in self.old)).outputs }
        ensures ran { IsRan (Run.run (program_in self.old) (map vec_items inputs.now) (zero_lists (arrays_of (program_in self.old)).outputs) turns) result (outputs_in self.new) }
    {
        let tree = self.program.tree();
        run_tree(
            tree,
            &self.words,
            &mut self.frame,
            inputs,
            turns,
            self.first,
        )
    }

    /// What an output array holds: zeros before the first run, and after a run with a status what the run left there.
    #[tactic(auto, using(crate::proofs::Lists::outputs_count))]
    pub fn output(&self, k: usize) -> &[Int]
        requires { k < length (arrays_of (program_in self.now)).outputs }
        ensures { slice_get (outputs_in self.now) k ≡ Some result.now }
    {
        self.frame.output(k)
    }
}
