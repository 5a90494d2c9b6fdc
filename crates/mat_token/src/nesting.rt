//! The open brackets at a place.

ghost use Rattle.std.specs.Prelude.{◌≡◌, OnOk, IfErr, slice_index, [], ◌∷◌, ◌==◌};
ghost use Rattle.num_type.specs.declared.memory.Stop.TheVariants.{Memory};
ghost use Rattle.mat_token.specs.Brackets.{open_after, is_opening, is_closing, closed};

use crate::bytes::byte;
use fic_base::Refusal;
use num_type::Stop;
use std::alloc::Global;
use std::marker::Model;

/// The brackets that are open, which clauses see from the innermost one outwards.
#[derive(Drop)]
pub(crate) struct Nesting {
    brackets: Vec<u8>,
}

impl Model for Nesting {
    ghost use Rattle.std.specs.Prelude.{ℕ, List, reverse};

    ghost Value = { List ℕ };

    ghost view = { λ n. reverse n.brackets.items };
}

/// Whether a token is an opening bracket.
fn is_opening(text: &[u8]) -> bool
    ensures { result ≡ is_opening text.now }
{
    matches!(text, b"(" | b"[")
}

/// Whether a token is a closing bracket.
fn is_closing(text: &[u8]) -> bool
    ensures { result ≡ is_closing text.now }
{
    matches!(text, b")" | b"]")
}

impl Nesting {
    /// No bracket.
    pub(crate) fn new(alloc: Global) -> Nesting
        ensures { result ≡ [] }
    {
        Nesting {
            brackets: Vec::new(alloc),
        }
    }

    /// Whether the innermost open bracket is `[`.
    pub(crate) fn is_in_square(&self) -> bool
        ensures { result ≡ (slice_index self.now 0 == 91) }
    {
        match self.brackets.last() {
            None => false,
            Some(bracket) => *bracket == b'[',
        }
    }

    /// Adds an opening bracket. Want of memory is its only refusal.
    fn push(&mut self, bracket: u8) -> Result<(), Stop<Refusal>>
        ensures brackets { OnOk result (self.new ≡ bracket ∷ self.old) }
        ensures memory { IfErr result (λ stop. stop ≡ Memory) }
    {
        match self.brackets.push(bracket) {
            Ok(()) => Ok(()),
            Err(_) => Err(Stop::Memory),
        }
    }

    /// Takes the innermost bracket away.
    fn pop(&mut self)
        ensures { self.new ≡ closed self.old }
    {
        let _ = self.brackets.pop();
    }

    /// Moves past a token. Want of memory is its only refusal.
    pub(crate) fn pass(&mut self, text: &[u8]) -> Result<(), Stop<Refusal>>
        ensures brackets { OnOk result (self.new ≡ open_after self.old text.now) }
        ensures memory { IfErr result (λ stop. stop ≡ Memory) }
    {
        if is_opening(text) {
            return self.push(byte(text, 0));
        }
        if is_closing(text) {
            self.pop();
        }
        Ok(())
    }
}
