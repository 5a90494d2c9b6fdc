//! What comes in a bracket of rows.

ghost use Rattle.std.specs.Prelude.{◌≡◌, ◌∷◌, IfOk};
ghost use Rattle.mat_ast.specs.View.{expr_view, rows_view};
ghost use Rattle.mat_grammar.specs.Machine.{need, between, bare, gap, celled, Cells, Between, Have, with_row};
ghost use Rattle.mat_ast.specs.Tree.{Matrix};
ghost use Rattle.mat_parts.specs.View.{cells_view};
ghost use Rattle.mat_parts.specs.Pending.{frame_view, stack_of, purpose_view, Goes};

use crate::expression::operand;
use fic_base::Place;
use mat_grammar::Word;
use mat_parts::part::{Compound, Grid, Line, and_row, matrix, no_cells};
use mat_parts::pending::{Frame, Pending, Reading};
use mat_parts::stack::{push, wait};
use std::alloc::{AllocError, Global};

/// An operand that begins or goes on with a row. Want of memory is its only refusal.
fn cell(
    alloc: Global,
    place: Place,
    word: Word,
    own: &[u8],
    frame: Frame,
    pending: Pending,
) -> Result<Option<Reading>, AllocError>
    ensures { IfOk result (λ next. Goes next (need place word own.now (frame_view frame ∷ stack_of pending.frames) (purpose_view pending.purpose))) }
{
    let Pending { frames, purpose } = pending;
    let mut frames = frames;
    match push(&mut frames, frame) {
        Ok(()) => operand(alloc, place, word, own, Pending { frames, purpose }),
        Err(error) => {
            drop(frames);
            drop(purpose);
            Err(error)
        }
    }
}

/// A bracket is closed.
#[tactic(auto, unfolding(mat_parts::specs::Pending::state_view))]
fn shut(opens: Place, grid: Grid, pending: Pending) -> Result<Option<Reading>, AllocError>
    ensures { IfOk result (λ next. Goes next (Have (Matrix opens (rows_view grid.rows)) (stack_of pending.frames) (purpose_view pending.purpose))) }
{
    let part = matrix(opens, grid);
    Ok(Some(Reading::Have(Compound { part }, pending)))
}

/// A row ends.
#[tactic(auto, unfolding(mat_parts::specs::Pending::state_view))]
fn row_end(
    opens: Place,
    grid: Grid,
    line: Line,
    pending: Pending,
) -> Result<Option<Reading>, AllocError>
    ensures { IfOk result (λ next. Goes next (Between opens (with_row (rows_view grid.rows) (cells_view line.cells)) (stack_of pending.frames) (purpose_view pending.purpose))) }
{
    match and_row(grid, line) {
        Ok(grid) => Ok(Some(Reading::Between(opens, grid, pending))),
        Err(error) => {
            drop(pending);
            Err(error)
        }
    }
}

/// A row ends with its bracket.
fn last_row(
    opens: Place,
    grid: Grid,
    line: Line,
    pending: Pending,
) -> Result<Option<Reading>, AllocError>
    ensures { IfOk result (λ next. Goes next (Have (Matrix opens (with_row (rows_view grid.rows) (cells_view line.cells))) (stack_of pending.frames) (purpose_view pending.purpose))) }
{
    match and_row(grid, line) {
        Ok(grid) => shut(opens, grid, pending),
        Err(error) => {
            drop(pending);
            Err(error)
        }
    }
}

/// What comes at a word between the rows of a bracket. Want of memory is its only refusal.
#[tactic(auto, unfolding(mat_parts::specs::Pending::state_view, mat_grammar::specs::Machine::between, mat_parts::specs::Pending::frame_view))]
pub fn between(
    alloc: Global,
    place: Place,
    word: Word,
    own: &[u8],
    opens: Place,
    grid: Grid,
    pending: Pending,
) -> Result<Option<Reading>, AllocError>
    ensures { IfOk result (λ next. Goes next (between opens (rows_view grid.rows) place word own.now (stack_of pending.frames) (purpose_view pending.purpose))) }
{
    match word {
        Word::Semicolon => Ok(Some(Reading::Between(opens, grid, pending))),
        Word::Newline => Ok(Some(Reading::Between(opens, grid, pending))),
        Word::Comma => Ok(Some(Reading::Bare(opens, grid, pending))),
        Word::CloseSquare => shut(opens, grid, pending),
        _ => {
            let frame = Frame::Cells(opens, grid, no_cells(alloc));
            cell(alloc, place, word, own, frame, pending)
        }
    }
}

/// What comes at a word behind a comma between the rows of a bracket. Want of memory is its only refusal.
#[tactic(auto, unfolding(mat_parts::specs::Pending::state_view, mat_grammar::specs::Machine::bare))]
pub fn bare(
    word: Word,
    opens: Place,
    grid: Grid,
    pending: Pending,
) -> Result<Option<Reading>, AllocError>
    ensures { IfOk result (λ next. Goes next (bare opens (rows_view grid.rows) word (stack_of pending.frames) (purpose_view pending.purpose))) }
{
    match word {
        Word::Semicolon => Ok(Some(Reading::Between(opens, grid, pending))),
        Word::Newline => Ok(Some(Reading::Between(opens, grid, pending))),
        Word::CloseSquare => shut(opens, grid, pending),
        _ => {
            drop(grid);
            drop(pending);
            Ok(None)
        }
    }
}

/// What comes at a word behind a comma in a row. Want of memory is its only refusal.
#[tactic(auto, unfolding(mat_grammar::specs::Machine::gap, mat_parts::specs::Pending::frame_view))]
pub fn gap(
    alloc: Global,
    place: Place,
    word: Word,
    own: &[u8],
    opens: Place,
    grid: Grid,
    line: Line,
    pending: Pending,
) -> Result<Option<Reading>, AllocError>
    ensures { IfOk result (λ next. Goes next (gap opens (rows_view grid.rows) (cells_view line.cells) place word own.now (stack_of pending.frames) (purpose_view pending.purpose))) }
{
    match word {
        Word::Semicolon => row_end(opens, grid, line, pending),
        Word::Newline => row_end(opens, grid, line, pending),
        Word::CloseSquare => last_row(opens, grid, line, pending),
        _ => cell(
            alloc,
            place,
            word,
            own,
            Frame::Cells(opens, grid, line),
            pending,
        ),
    }
}

/// What comes at a word behind an element of a row, which `line` has. Want of memory is its only refusal.
#[tactic(auto, unfolding(mat_parts::specs::Pending::state_view, mat_grammar::specs::Machine::celled, mat_parts::specs::Pending::frame_view))]
pub fn celled(
    word: Word,
    opens: Place,
    grid: Grid,
    line: Line,
    pending: Pending,
) -> Result<Option<Reading>, AllocError>
    ensures { IfOk result (λ next. Goes next (celled word opens (rows_view grid.rows) (cells_view line.cells) (stack_of pending.frames) (purpose_view pending.purpose))) }
{
    match word {
        Word::Comma => Ok(Some(Reading::Gap(opens, grid, line, pending))),
        Word::Separator => wait(pending, Frame::Cells(opens, grid, line)),
        Word::Semicolon => row_end(opens, grid, line, pending),
        Word::Newline => row_end(opens, grid, line, pending),
        Word::CloseSquare => last_row(opens, grid, line, pending),
        _ => {
            drop(grid);
            drop(line);
            drop(pending);
            Ok(None)
        }
    }
}
