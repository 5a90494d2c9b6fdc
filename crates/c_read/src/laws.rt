//! Laws of the reader.

ghost use Rattle.std.specs.Prelude.{◌≡◌, ℕ, List, Result};
ghost use Rattle.num_type.specs.declared.memory.Stop.{Stop};
ghost use Rattle.c_tree.specs.declared.program.CProgram.{CProgram};
ghost use Rattle.c_tree.specs.Tree.{Program};
ghost use Rattle.c_read.specs.declared.refusal.CBad.{CBad};
ghost use Rattle.c_read.specs.declared.refusal.CRefusal.{CRefusal};
ghost use Rattle.c_read.specs.Program.{GivesBack, IsRefusal, IsTextOf, ReadsProgram};

use crate::one_program;
use c_depth::{depth_by_words, depths_by_words};
use c_grammar::words_are_spelled;
use c_token::{interface_has_a_slot, one_interface, one_reading, tokens_are_read};
use c_tree::depth_is_the_greatest;

/// Bytes are the text of one program at most, or refused at one place and for one reason at most, and not both.
pub fn one_answer()
    ensures program { (p q : Program) (bytes : List ℕ) → IsTextOf p bytes → IsTextOf q bytes → p ≡ q }
    ensures refusal { (j k : CBad) (m n : ℕ) (bytes : List ℕ) → IsRefusal j m bytes → IsRefusal k n bytes → (j ≡ k) × (m ≡ n) }
    ensures not_both { (p : Program) (k : CBad) (n : ℕ) (bytes : List ℕ) → IsTextOf p bytes → IsRefusal k n bytes → ⊥ }
{
    one_program();
    one_interface();
    one_reading();
    tokens_are_read();
    interface_has_a_slot();
    words_are_spelled();
    depth_by_words();
    depths_by_words();
    depth_is_the_greatest();
}

/// What a reader answers on a text of a program is that program, if memory isn't wanting.
pub fn texts_are_read()
    ensures { (p : Program) (answer : Result CProgram (Stop CRefusal)) (bytes : List ℕ) → IsTextOf p bytes → ReadsProgram answer bytes → GivesBack p answer }
{
    one_answer();
}
