//! The programs of C texts.
#![tactic(auto)]

ghost use Rattle.std.specs.Prelude.{◌≡◌, ℕ, List};
ghost use Rattle.c_tree.specs.Tree.{Program};
ghost use Rattle.c_tree.specs.WellFormed.{IsWellFormed};
ghost use Rattle.c_tree.specs.CText.{IsText};

mod front;
mod function;
mod laws;
mod read;
mod refusal;

use c_grammar::at_most_one_program;
use c_token::{interface_has_a_slot, one_interface, one_token_list};
pub use front::read_front;
pub use laws::{one_answer, texts_are_read};
pub use read::read_c;
pub use refusal::{CBad, CRefusal};

/// A law of C texts: bytes are a text of at most one well-formed program.
pub fn one_program()
    ensures { (p q : Program) (bytes : List ℕ) → IsWellFormed p → IsWellFormed q → IsText p bytes → IsText q bytes → p ≡ q }
{
    one_interface();
    interface_has_a_slot();
    one_token_list();
    at_most_one_program();
}
