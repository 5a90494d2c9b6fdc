//! Laws of the grammar.

ghost use Rattle.std.specs.Prelude.{◌≡◌, ◌≢◌, ◌↔◌, ◌⊎◌, ℕ, All, Some, map};
ghost use Rattle.c_tree.specs.Spelling.{Texts, spelled};
ghost use Rattle.c_tree.specs.Tree.{Program, Signature};
ghost use Rattle.c_tree.specs.WellFormed.{IsInterface, IsWellFormed};
ghost use Rattle.c_grammar.specs.declared.word.CWordToken.{CWordToken};
ghost use Rattle.c_grammar.specs.Live.{IsSentence, IsLive, IsRefused};
ghost use Rattle.c_grammar.specs.Machine.{Stuck, finish, state};
ghost use Rattle.c_grammar.specs.Sentence.{Words, words_of};
ghost use Rattle.c_grammar.specs.Spelled.{AreWordsOf, IsSpelled, IsLiveText};
ghost use Rattle.c_grammar.specs.Words.{text_of, IsToken};

/// A text is that of at most one token of an interface.
pub fn one_word()
    ensures { (i : Signature) (v w : CWordToken) → IsInterface i → IsToken i v → IsToken i w → text_of i v ≡ text_of i w → v ≡ w }
{}

/// The words of a well-formed program are tokens of its interface, and their texts are the tokens of its function.
pub fn words_are_spelled()
    ensures tokens { (p : Program) → IsWellFormed p → All (IsToken p.interface) (words_of p) }
    ensures texts { (p : Program) → IsWellFormed p → map (text_of p.interface) (words_of p) ≡ spelled p }
{}

/// Two well-formed programs with one interface and the same tokens are one program.
pub fn at_most_one_program()
    ensures { (p q : Program) → IsWellFormed p → IsWellFormed q → p.interface ≡ q.interface → spelled p ≡ spelled q → p ≡ q }
{}

/// Texts are the tokens of a program, or go on to one, exactly where their words do.
pub fn texts_go_by_words()
    ensures whole { (i : Signature) (p : Program) (ts : Texts) (ws : Words) → IsInterface i → AreWordsOf i ts ws → IsSentence i p ws ↔ IsSpelled i p ts }
    ensures live { (i : Signature) (ts : Texts) (ws : Words) → IsInterface i → AreWordsOf i ts ws → IsLive i ws ↔ IsLiveText i ts }
{}

/// A list of words is that of at most one program.
pub fn at_most_one_sentence()
    ensures { (i : Signature) (p q : Program) (ws : Words) → IsSentence i p ws → IsSentence i q ws → p ≡ q }
{}

/// The machine reads exactly the programs, and is stuck behind exactly those words with which no program begins.
pub fn machine_decides()
    ensures whole { (i : Signature) (p : Program) (ws : Words) → IsInterface i → IsSentence i p ws ↔ (finish i (state i ws) ≡ Some p) }
    ensures live { (i : Signature) (ws : Words) → IsInterface i → IsLive i ws ↔ (state i ws ≢ Stuck) }
{}

/// A list of words is that of a program, or it is refused.
pub fn every_list_is_decided()
    ensures { (i : Signature) (ws : Words) → IsInterface i → ((p : Program) × IsSentence i p ws) ⊎ ((n : ℕ) × IsRefused i ws n) }
{}

/// A list of words is refused at one place.
pub fn one_refusal()
    ensures { (i : Signature) (ws : Words) (m n : ℕ) → IsRefused i ws m → IsRefused i ws n → m ≡ n }
{}
