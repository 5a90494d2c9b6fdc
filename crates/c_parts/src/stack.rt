//! Stacks of frames, and words that have to come.

ghost use Rattle.std.specs.Prelude.{◌≡◌, ◌∷◌, [], IfOk, OnOk, MatchOption};
ghost use Rattle.c_grammar.specs.Machine.{Need, Stuck, owe, same_type, wants};
ghost use Rattle.c_parts.specs.View.{frame_view, frames_of, want_view, purpose_view, past_view, reading_view, reader_view, Goes};

use crate::pending::{Frame, Past, Pending, Purpose, Reader, Reading, Wanted};
use c_grammar::CWordToken;
use c_tree::CWord;
use num_type::Memory;
use sqlite_items::Items;
use std::alloc::{AllocError, Global};

/// Puts a frame on the stack. Want of memory is its only refusal.
pub fn push(frames: &mut Items<Frame>, frame: Frame) -> Result<(), AllocError>
    ensures { OnOk result (frames_of frames.new ≡ frame_view frame ∷ frames_of frames.old) }
{
    frames.push(frame)
}

/// Takes the innermost frame off the stack.
pub fn pop(frames: &mut Items<Frame>) -> Option<Frame>
    ensures { MatchOption result ((frames_of frames.old ≡ []) × (frames_of frames.new ≡ [])) (λ f. frames_of frames.old ≡ frame_view f ∷ frames_of frames.new) }
{
    frames.pop()
}

/// Whether two types are one.
pub fn same_type(s: CWord, t: CWord) -> bool
    ensures { result ≡ same_type s t }
{
    match s {
        CWord::I64 => matches_signed(t),
        CWord::U64 => !matches_signed(t),
    }
}

/// Whether a type is `int64_t`.
fn matches_signed(t: CWord) -> bool
    ensures { result ≡ same_type CWord.I64 t }
{
    match t {
        CWord::I64 => true,
        CWord::U64 => false,
    }
}

/// Whether a type may come.
#[tactic(auto, unfolding(crate::specs::View::want_view))]
pub fn wants(want: Wanted, t: CWord) -> bool
    ensures { result ≡ wants (want_view want) t }
{
    match want {
        Wanted::Any => true,
        Wanted::Only(s) => same_type(s, t),
    }
}

/// The list of one word. Want of memory is the only refusal.
pub fn one(alloc: Global, a: CWordToken) -> Result<Items<CWordToken>, Memory>
    ensures { IfOk result (λ ws. ws ≡ a ∷ []) }
{
    let mut words = Items::new(alloc);
    words.push(a)?;
    Ok(words)
}

/// The list of two words. Want of memory is the only refusal.
pub fn two(alloc: Global, a: CWordToken, b: CWordToken) -> Result<Items<CWordToken>, Memory>
    ensures { IfOk result (λ ws. ws ≡ a ∷ b ∷ []) }
{
    let mut words = one(alloc, a)?;
    words.push(b)?;
    Ok(words)
}

/// A state that holds behind these words.
#[tactic(auto, unfolding(crate::specs::View::reader_view))]
pub fn behind(words: Items<CWordToken>, reading: Reading) -> Reader
    ensures { reader_view result ≡ owe words (reading_view reading) }
{
    Reader {
        words,
        at: 0,
        reading,
    }
}

/// A state that holds at once.
#[tactic(auto, unfolding(crate::specs::View::reader_view))]
pub fn now(alloc: Global, reading: Reading) -> Reader
    ensures { reader_view result ≡ reading_view reading }
{
    behind(Items::new(alloc), reading)
}

/// Nothing comes there.
pub fn refuse(pending: Pending) -> Option<Reader>
    ensures { Goes result Stuck }
{
    drop(pending);
    None
}

/// A refusal, which ends what waits.
pub fn failed(pending: Pending, error: Memory) -> Memory {
    drop(pending);
    error
}

/// The pending parts with one more frame. Want of memory is the only refusal.
pub fn under(frame: Frame, pending: Pending) -> Result<Pending, AllocError>
    ensures { IfOk result (λ next. (frames_of next.frames ≡ frame_view frame ∷ frames_of pending.frames) × (next.purpose ≡ pending.purpose) × (next.past ≡ pending.past)) }
{
    let Pending {
        frames,
        purpose,
        past,
    } = pending;
    let mut frames = frames;
    match push(&mut frames, frame) {
        Err(error) => {
            drop(frames);
            drop(purpose);
            drop(past);
            Err(error)
        }
        Ok(()) => Ok(Pending {
            frames,
            purpose,
            past,
        }),
    }
}

/// An operand of such a type is owed below one more frame. Want of memory is the only refusal.
#[tactic(auto, unfolding(crate::specs::View::reading_view))]
pub fn wait(
    alloc: Global,
    want: Wanted,
    frame: Frame,
    pending: Pending,
) -> Result<Option<Reader>, Memory>
    ensures { IfOk result (λ next. Goes next (Need (want_view want) (frame_view frame ∷ frames_of pending.frames) (purpose_view pending.purpose) (past_view pending.past))) }
{
    let pending = under(frame, pending)?;
    Ok(Some(now(alloc, Reading::Need(want, pending))))
}
