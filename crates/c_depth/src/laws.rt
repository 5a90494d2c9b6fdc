//! Laws of the depths of words.

ghost use Rattle.std.specs.Prelude.{◌≡◌, ◌<◌, ℕ, suc, ◌++◌, length, take, slice_index};
ghost use Rattle.c_tree.specs.Depths.{depths};
ghost use Rattle.c_tree.specs.Spelling.{Texts};
ghost use Rattle.c_tree.specs.Tree.{Program, Signature};
ghost use Rattle.c_tree.specs.WellFormed.{IsInterface};
ghost use Rattle.c_grammar.specs.Sentence.{Words, words_of};
ghost use Rattle.c_grammar.specs.Spelled.{AreWordsOf, IsSpelled};
ghost use Rattle.c_depth.specs.Read.{word_depths};

use c_grammar::{one_word, words_are_spelled};

/// Each word has a depth, and those of the words of a program are the depths of its tokens.
pub fn depths_by_words()
    ensures each { (ws : Words) → length (word_depths ws) ≡ length ws }
    ensures program { (p : Program) → word_depths (words_of p) ≡ depths p }
{}

/// Where the tokens of a program begin with texts up to one of them, that token's depth in the program is read off the words of the texts.
pub fn depth_by_words()
    ensures { (i : Signature) (p : Program) (ts more : Texts) (ws : Words) (n : ℕ) → IsInterface i → AreWordsOf i ts ws → n < length ts
        → IsSpelled i p (take (suc n) ts ++ more) → slice_index (depths p) n ≡ slice_index (word_depths ws) n }
{
    one_word();
    words_are_spelled();
}
