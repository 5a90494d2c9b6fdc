//! What expressions and tests give.

ghost use Rattle.std.specs.Prelude.{◌≡◌, ◌<◌, ◌^◌, ◌+◌};
ghost use Rattle.c_tree.specs.View.{expr_view, test_view};
ghost use Rattle.c_tree.specs.Tokens.{tokens, test_tokens};
ghost use Rattle.c_tree.specs.Meaning;
ghost use Rattle.c_tree.specs.Meaning.{Int64, number_of, value};
ghost use Rattle.c_tree.specs.Tree;
ghost use Rattle.c_run.specs.Over.{over, test_over};
ghost use Rattle.c_run.specs.View.{word_view, word_told, told};

use crate::frame::Frame;
use crate::word::{Word, compared, converted, negated, operated};
use c_tree::{CExpr, CTest, Counter};

// The word of a counter at its token.
#[tactic(auto, unfolding(c_tree::specs::Outcome::bind, c_tree::specs::Outcome::found_at))]
fn count_of(counter: Counter, frame: &Frame, at: u64) -> Result<Word, u64>
    ensures { word_told result ≡ value (Tree.Count counter) frame.now at }
{
    let tally = frame.tally(at, counter)?;
    Ok(tally.word())
}

// 1 where something holds, and 0 elsewhere (ISO/IEC 9899:1999, 6.5.8, 6.5.9).
fn truth(holds: bool) -> Word
    ensures { word_view result ≡ Int64 (number_of holds) }
{
    Word::Signed(if holds { 1 } else { 0 })
}

/// The word of an expression whose first token has this number, or the number of the token that is undefined.
#[cycle(values)]
#[tactic(auto, unfolding(c_tree::specs::Outcome::bind, c_tree::specs::Outcome::choose, c_tree::specs::Outcome::found_at))]
pub fn value_of(e: &CExpr, frame: &Frame, at: u64) -> Result<Word, u64>
    requires counted { at + tokens (expr_view e.now) < 2 ^ 64 }
    requires within { over (expr_view e.now) ≡ 0 }
    ensures { word_told result ≡ value (expr_view e.now) frame.now at }
{
    match e {
        CExpr::I64(n) => Ok(Word::Signed(*n as i64)),
        CExpr::U64(n) => Ok(Word::Unsigned(*n)),
        CExpr::Var(number) => frame.word(at, *number),
        CExpr::Count(counter) => count_of(*counter, frame, at),
        CExpr::Element { array, at: place } => match frame.cells(*array) {
            None => Err(at + 3),
            Some(cells) => {
                let subscript = value_of(place.get(), frame, at + 5)?;
                cells.element(at + 4, subscript)
            }
        },
        CExpr::Cast(to, part) => converted(at, *to, value_of(part.get(), frame, at + 3)?),
        CExpr::Test(test) => Ok(truth(holds(test.get(), frame, at + 4)?)),
        CExpr::Neg(part) => negated(at + 1, value_of(part.get(), frame, at + 2)?),
        CExpr::Binary(op, a, b) => {
            let size = c_tree::expr_tokens(a.get());
            let x = value_of(a.get(), frame, at + 1)?;
            let y = value_of(b.get(), frame, at + 2 + size)?;
            operated(at + 1 + size, *op, x, y)
        }
        CExpr::Choose(test, a, b) => {
            let size = c_tree::test_tokens(test.get());
            if holds(test.get(), frame, at + 1)? {
                value_of(a.get(), frame, at + 2 + size)
            } else {
                let first = at + 3 + size + c_tree::expr_tokens(a.get());
                value_of(b.get(), frame, first)
            }
        }
    }
}

/// Whether a test holds whose first token has this number, or the number of the token that is undefined.
#[cycle(values)]
#[tactic(auto, unfolding(c_tree::specs::Outcome::bind))]
pub fn holds(t: &CTest, frame: &Frame, at: u64) -> Result<bool, u64>
    requires counted { at + test_tokens (test_view t.now) < 2 ^ 64 }
    requires within { test_over (test_view t.now) ≡ 0 }
    ensures { told result ≡ Meaning.holds (test_view t.now) frame.now at }
{
    let size = c_tree::expr_tokens(&t.left);
    let x = value_of(&t.left, frame, at)?;
    let y = value_of(&t.right, frame, at + 1 + size)?;
    compared(at + size, t.rel, x, y)
}
