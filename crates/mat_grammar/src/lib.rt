//! The grammar of source files: which trees a list of tokens has, and which lists go on to a file.
#![tactic(auto)]

ghost use Rattle.std.specs.Prelude.{List, [], ◌≡◌, ◌≢◌, ◌≤◌, ◌↔◌, ◌⊎◌, ◌∷◌, ◌++◌, Some};
ghost use Rattle.mat_ast.specs.Tree.{Fun};
ghost use Rattle.mat_grammar.specs.Machine.{run, start, state, Stuck};
ghost use Rattle.mat_grammar.specs.Least.{least};
ghost use Rattle.fic_base.specs.declared.refusal.Refusal.{Refusal};
ghost use Rattle.mat_ast.specs.Depth.{file_depth};
ghost use Rattle.mat_grammar.specs.Refused.{IsRefused};
ghost use Rattle.mat_token.specs.Lexeme.{Lexeme};
ghost use Rattle.mat_grammar.specs.Grammar.{IsLive, IsShallow, file};

mod text;
mod word;

use mat_token::Kind;
pub use text::{digits, has_unit, unquoted};
pub use word::{Mode, Word, word_of};

/// A law of the grammar: a token list that goes on to a file of depth at most 100 goes on to a file.
pub fn shallow_is_live()
    ensures { (ts : List Lexeme) → IsShallow ts → IsLive ts }
{}

/// A law of the grammar: a token list has at most one tree.
pub fn at_most_one_tree()
    ensures { (a b : List Fun) (ts : List Lexeme) → file a ts [] → file b ts [] → a ≡ b }
{}

/// A law of the grammar: the machine that reads the tokens one by one decides it, and gives the tree.
pub fn machine_decides()
    ensures { (fs : List Fun) (ts : List Lexeme) → file fs ts [] ↔ (run start ts ≡ Some fs) }
{}

/// A law of the grammar: which fronts of token lists go on to a file, and which to one of depth at most 100.
pub fn fronts()
    ensures live { (ts : List Lexeme) → IsLive ts ↔ (state ts ≢ Stuck) }
    ensures shallow { (ts : List Lexeme) → IsShallow ts ↔ ((state ts ≢ Stuck) × (least (state ts) ≤ 100)) }
{}

/// A law of the grammar: a token list has at most one refusal, and none if it is that of a file of depth at most 100.
pub fn one_refusal()
    ensures once { (ts : List Lexeme) (r s : Refusal) → IsRefused ts r → IsRefused ts s → r ≡ s }
    ensures none { (ts : List Lexeme) (fs : List Fun) (r : Refusal) → file fs ts [] → file_depth fs ≤ 100 → IsRefused ts r → ⊥ }
{}

/// A law of the grammar: a token list that ends with the end of the file is that of a file of depth at most 100, or it is refused.
pub fn every_list_is_decided()
    ensures { (done : List Lexeme) (t : Lexeme) → t.kind ≡ Kind.Finish
        → ((fs : List Fun) × file fs (done ++ t ∷ []) [] × (file_depth fs ≤ 100)) ⊎ ((r : Refusal) × IsRefused (done ++ t ∷ []) r) }
{}
