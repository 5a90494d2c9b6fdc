//! Laws of texts.

ghost use Rattle.std.specs.Prelude.{◌≡◌, ◌≢◌, ◌+◌, ℕ, List, [], ◌++◌, ◌↔◌, length};
ghost use Rattle.c_tree.specs.Tree.{Signature};
ghost use Rattle.c_tree.specs.Spelling.{Texts};
ghost use Rattle.c_tree.specs.CText.{AreTokens};
ghost use Rattle.c_tree.specs.Interface.{interface_line};
ghost use Rattle.c_tree.specs.WellFormed.{IsInterface};
ghost use Rattle.c_token.specs.Scan.{Lexeme, AreLexed, texts_of};
ghost use Rattle.c_token.specs.Line.{IsSignature};

/// Bytes are the tokens of one list at most.
#[tactic(auto, using(crate::proofs::Once::one_token_list))]
pub fn one_token_list()
    ensures { (bytes : List ℕ) (xs ys : Texts) → AreTokens xs bytes → AreTokens ys bytes → xs ≡ ys }
{}

/// The tokens of bytes, their places, and the place at which no token begins are determined.
#[tactic(auto, using(crate::proofs::Once::lexed_once))]
pub fn one_reading()
    ensures { (at : ℕ) (bytes : List ℕ) (ts us : List Lexeme) (m n : ℕ) → AreLexed at ts m bytes → AreLexed at us n bytes → (ts ≡ us) × (m ≡ n) }
{}

/// Tokens that reach the end of bytes are the tokens of the bytes.
#[tactic(auto, using(crate::proofs::Once::lexed_tokens))]
pub fn read_to_the_end()
    ensures { (at : ℕ) (bytes : List ℕ) (ts : List Lexeme) (stop : ℕ) → stop ≡ at + length bytes → AreLexed at ts stop bytes → AreTokens (texts_of ts) bytes }
{}

/// Where bytes are tokens, these are read, up to the end.
#[tactic(auto, using(crate::proofs::Once::tokens_lexed))]
pub fn tokens_are_read()
    ensures { (bytes : List ℕ) (texts : Texts) (at : ℕ) (ts : List Lexeme) (stop : ℕ) → AreTokens texts bytes → AreLexed at ts stop bytes → (texts_of ts ≡ texts) × (stop ≡ at + length bytes) }
{}

/// A second line with what follows it spells one interface at most, and what follows is determined.
#[tactic(auto, using(crate::proofs::Lines::same_line))]
pub fn one_interface()
    ensures { (i j : Signature) (a b : List ℕ) → IsSignature i → IsSignature j → interface_line i ++ a ≡ interface_line j ++ b → (i ≡ j) × (a ≡ b) }
{}

/// A well-formed interface is what a second line may spell, with an input or an output.
#[tactic(auto, using(crate::proofs::Lines::interface_is))]
pub fn interface_has_a_slot()
    ensures { (i : Signature) → IsInterface i ↔ (IsSignature i × (i.inputs ++ i.outputs ≢ [])) }
{}
