//! The first word that is deeper than a text may be.

ghost use Rattle.std.specs.Prelude.{IfOk};
ghost use Rattle.c_depth.specs.First.{IsFirstDeep};
ghost use Rattle.c_depth.specs.Read.{word_depths};

use crate::level::{Before, Level, is_too_deep, see};
use c_grammar::CWordToken;
use num_type::Memory;
use sqlite_items::Items;
use std::alloc::Global;

/// How many words stand before the first brace, parenthesis or square bracket that is deeper than a text may be; None where none is. Want of
/// memory is the only refusal.
pub fn first_deep(alloc: Global, words: &[CWordToken]) -> Result<Option<usize>, Memory>
    ensures { IfOk result (λ found. IsFirstDeep found (word_depths words.now)) }
{
    let mut level = Level {
        before: Before::Other,
        depth: 0,
        base: 0,
        outer: Items::new(alloc),
    };
    let mut at = 0;
    while at < words.len() {
        let word = words[at];
        if is_too_deep(&level, word) {
            return Ok(Some(at));
        }
        see(&mut level, word)?;
        at += 1;
    }
    Ok(None)
}
