//! Variables at the start of a run.

ghost use Rattle.std.specs.Prelude.{◌≡◌, map, IfOk};
ghost use Rattle.c_tree.specs.Run;
ghost use Rattle.c_run.specs.View.{word_view};

use crate::word::Word;
use c_tree::CWord;
use num_type::Memory;
use std::alloc::Global;

// The zero of a type.
fn zero_word(word: CWord) -> Word
    ensures { word_view result ≡ Run.zero_word word }
{
    match word {
        CWord::I64 => Word::Signed(0),
        CWord::U64 => Word::Unsigned(0),
    }
}

/// The zeros of these types. Want of memory is the only refusal.
pub fn zero_words(alloc: Global, types: &[CWord]) -> Result<Vec<Word>, Memory>
    ensures { IfOk result (λ v. map word_view v.items ≡ map Run.zero_word types.now) }
{
    let mut words = Vec::new(alloc);
    for word in types {
        words.push(zero_word(*word))?;
    }
    Ok(words)
}
