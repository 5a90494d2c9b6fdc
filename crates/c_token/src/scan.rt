//! The tokens of a text.

ghost use Rattle.std.specs.Prelude.{◌≡◌, ◌≤◌, length, IfOk};
ghost use Rattle.c_token.specs.Scan.{AreLexed, lexemes_of};

use crate::bytes::blanks;
use crate::length::token_len;
use num_type::Memory;
use std::alloc::Global;

/// A token of a text.
#[derive(Clone, Copy, Debug, PartialEq, Eq)]
pub struct CToken {
    /// How many bytes of the text stand before it.
    pub offset: usize,
    /// Its length in bytes.
    pub len: usize,
}

/// What a text gives.
#[derive(Debug, Drop)]
pub struct Scanned {
    /// The tokens in their order.
    pub tokens: Vec<CToken>,
    /// The offset in bytes of the first place at which neither a blank nor a token comes: the length of the text where there is none.
    pub stop: usize,
}

/// The tokens of a text. Each is the longest one at its place (ISO/IEC 9899:1999, 6.4): a word, a decimal number, or an operator, a bracket,
/// a comma, a colon or a semicolon. Blanks are spaces, tabs and newlines; any may stand behind a token, and none before the first one. The
/// reading stops at the first place at which no token begins. Want of memory is its only refusal.
pub fn tokens(alloc: Global, bytes: &[u8]) -> Result<Scanned, Memory>
    ensures tokens { IfOk result (λ s. AreLexed 0 (lexemes_of bytes.now s.tokens.items) s.stop bytes.now) }
    ensures within { IfOk result (λ s. s.stop ≤ length bytes.now) }
{
    let mut tokens = Vec::new(alloc);
    let mut at = 0;
    let mut len = token_len(bytes);
    while 0 < len {
        tokens.push(CToken { offset: at, len })?;
        at += len;
        at += blanks(bytes.split_at(at).1);
        len = token_len(bytes.split_at(at).1);
    }
    Ok(Scanned { tokens, stop: at })
}
