//! The machine at one more word.

ghost use Rattle.std.specs.Prelude.{◌≡◌, IfOk, Some, drop, slice_get, suc};
ghost use Rattle.c_grammar.specs.Machine.{Stuck, owe, step, when};
ghost use Rattle.c_grammar.specs.Equal.{same_word};
ghost use Rattle.c_parts.specs.View.{reading_view, reader_view, Goes};

use c_grammar::{CWordToken, same_word};
use c_moves::behind::have;
use c_moves::operand::{digits, need};
use c_moves::paren::{casting, opened};
use c_moves::statement::{declare, status, within};
use c_parts::pending::{Past, Reader, Reading};
use c_tree::Arrays;
use num_type::Memory;
use sqlite_items::Items;
use std::alloc::Global;

/// Nothing comes behind a whole function.
fn refuse_behind(past: Past) -> Option<Reader>
    ensures { Goes result Stuck }
{
    drop(past);
    None
}

/// What comes at a word that nothing has to come before; none if no program goes on so. Want of memory is the only refusal.
#[tactic(auto, unfolding(c_parts::specs::View::reading_view))]
fn advance(
    alloc: Global,
    arrays: &Arrays,
    reading: Reading,
    word: CWordToken,
) -> Result<Option<Reader>, Memory>
    ensures { IfOk result (λ next. Goes next (step arrays.now (reading_view reading) word)) }
{
    match reading {
        Reading::Declare(words) => declare(alloc, arrays, word, words),
        Reading::Within(past) => within(alloc, arrays, word, past),
        Reading::Status(past) => status(alloc, word, past),
        Reading::Need(want, pending) => need(alloc, want, word, pending),
        Reading::Digits(t, pending) => digits(alloc, t, word, pending),
        Reading::Opened(want, pending) => opened(alloc, want, word, pending),
        Reading::Casting(t, pending) => casting(alloc, arrays, t, word, pending),
        Reading::Have(e, t, pending) => have(alloc, arrays, e, t, word, pending),
        Reading::Whole(past) => Ok(refuse_behind(past)),
    }
}

/// Nothing comes where another word has to.
fn refuse(words: Items<CWordToken>, reading: Reading) -> Option<Reader>
    ensures { Goes result Stuck }
{
    drop(words);
    drop(reading);
    None
}

/// The word that has to come, if one has to.
fn expected(words: &[CWordToken], at: usize) -> Option<CWordToken>
    ensures { result ≡ slice_get words.now at }
{
    match sqlite_items::at(words, at) {
        None => None,
        Some(word) => Some(*word),
    }
}

/// What comes at a word where one has to come.
#[tactic(auto, unfolding(c_parts::specs::View::reader_view))]
fn compared(
    words: Items<CWordToken>,
    at: usize,
    reading: Reading,
    due: CWordToken,
    word: CWordToken,
) -> Option<Reader>
    requires { slice_get words at ≡ Some due }
    ensures { Goes result (when (same_word due word) (owe (drop (suc at) words) (reading_view reading))) }
{
    if same_word(due, word) {
        Some(Reader {
            words,
            at: at + 1,
            reading,
        })
    } else {
        refuse(words, reading)
    }
}

/// What comes at one more word; none if no program goes on so. Want of memory is the only refusal.
#[tactic(auto, unfolding(c_parts::specs::View::reader_view))]
pub fn step(
    alloc: Global,
    arrays: &Arrays,
    reader: Reader,
    word: CWordToken,
) -> Result<Option<Reader>, Memory>
    ensures { IfOk result (λ next. Goes next (step arrays.now (reader_view reader) word)) }
{
    let Reader { words, at, reading } = reader;
    match expected(words.as_slice(), at) {
        None => {
            drop(words);
            advance(alloc, arrays, reading, word)
        }
        Some(due) => Ok(compared(words, at, reading, due, word)),
    }
}
