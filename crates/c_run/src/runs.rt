//! A run of a tree in a frame.

ghost use Rattle.std.specs.Prelude.{◌≡◌, ◌<◌, ◌^◌, map, vec_items};
ghost use Rattle.c_tree.specs.View.{program_view, block_view};
ghost use Rattle.c_tree.specs.Names.{arrays_of};
ghost use Rattle.c_tree.specs.Tokens.{body_token, closing_token};
ghost use Rattle.c_tree.specs.Run;
ghost use Rattle.c_run.specs.View.{word_view};
ghost use Rattle.c_run.specs.Shape.{shape_of, program_shape};
ghost use Rattle.c_run.specs.Over.{block_over};
ghost use Rattle.c_run.specs.Fit.{FitArrays};
ghost use Rattle.c_run.specs.Start.{zero_lists};
ghost use Rattle.c_run.specs.Ran.{IsRan};

use crate::answer::answer;
use crate::frame::Frame;
use crate::ran::Ran;
use crate::steps::block;
use crate::word::Word;
use c_tree::CTree;
use num_type::Int;

/// A run on these inputs in a frame of the tree's shape, with the zeros of its variables and the number of the first token of its
/// statements.
pub fn run_tree(
    tree: &CTree,
    words: &[Word],
    frame: &mut Frame,
    inputs: &[Vec<Int>],
    turns: u64,
    first: u64,
) -> Ran
    requires words { map word_view words.now ≡ map Run.zero_word (program_view tree.now).words }
    requires shaped { shape_of frame.old ≡ program_shape (program_view tree.now) }
    requires first_is { first ≡ body_token (program_view tree.now) }
    requires counted { closing_token (program_view tree.now) < 2 ^ 64 }
    requires within { block_over (program_view tree.now).body ≡ 0 }
    requires inputs { FitArrays (arrays_of (program_view tree.now)).inputs (map vec_items inputs.now) }
    ensures ran { IsRan (Run.run (program_view tree.now) (map vec_items inputs.now) (zero_lists (arrays_of (program_view tree.now)).outputs) turns) result (map (λ cells. cells.items) frame.new.outputs) }
    ensures shaped { shape_of frame.new ≡ shape_of frame.old }
{
    let body = tree.body.as_slice();
    frame.restart(words, inputs);
    let flow = block(body, frame, turns, first);
    let size = c_tree::block_tokens(body);
    answer(flow, first + size)
}
