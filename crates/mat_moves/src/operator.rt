//! What comes behind an operand.

ghost use Rattle.std.specs.Prelude.{◌≡◌, ◌∷◌, [], IfOk, MatchOption, ◌≢◌};
ghost use Rattle.mat_ast.specs.Tree.{Name, Post, Paren};
ghost use Rattle.mat_ast.specs.View.{expr_view, rows_view};
ghost use Rattle.mat_grammar.specs.Machine.{with_operator, with_turn, with_to, with_by, with_colon, closing, ended_in, ended, have, tightness, go, Have, Stuck, celled, with_cell};
ghost use Rattle.mat_parts.specs.Pending.{frame_view, stack_of, purpose_view, Goes};
ghost use Rattle.mat_parts.specs.View.{cells_view};

use crate::bracket::celled;
use crate::paren::argued;
use crate::statement::purposed;
use fic_base::{Place, Text};
use mat_ast::{BinOp, PostOp};
use mat_grammar::Word;
use mat_parts::part::{Compound, Grid, Line, Part, and_cell, name, paren, post};
use mat_parts::pending::{Caller, Frame, Opened, Pending, Purpose, Reading};
use mat_parts::rank::rank;
use mat_parts::stack::{pop, push, settle, wait};
use std::alloc::{AllocError, Global};

/// How tightly a word binds to the operand before it.
fn tightness(word: Word) -> u32
    ensures { result ≡ tightness word }
{
    match word {
        Word::Infix(op) => rank(op),
        Word::Turn(_) => 10,
        Word::Colon => 6,
        Word::Open => 12,
        _ => 0,
    }
}

/// Nothing comes there.
fn refuse(part: Part, pending: Pending) -> Option<Reading>
    ensures { Goes result Stuck }
{
    drop(part);
    drop(pending);
    None
}

/// Nothing comes behind this part.
fn refuse_behind(first: Part, part: Part, pending: Pending) -> Option<Reading>
    ensures { Goes result Stuck }
{
    drop(first);
    refuse(part, pending)
}

/// Nothing comes in this frame.
fn refuse_in(part: Part, frame: Frame, pending: Pending) -> Option<Reading>
    ensures { Goes result Stuck }
{
    drop(frame);
    refuse(part, pending)
}

/// A refusal, which ends what waits.
fn failed(pending: Pending, error: AllocError) -> AllocError {
    drop(pending);
    error
}

/// A refusal, which ends an operand.
fn part_failed(part: Part, error: AllocError) -> AllocError {
    drop(part);
    error
}

/// A refusal in a bracket.
fn grid_failed(grid: Grid, pending: Pending, error: AllocError) -> AllocError {
    drop(grid);
    failed(pending, error)
}

/// An operator behind an operand.
fn operator(
    place: Place,
    op: BinOp,
    part: Part,
    pending: Pending,
) -> Result<Option<Reading>, AllocError>
    ensures { IfOk result (λ next. Goes next (with_operator place op (expr_view part.expr) (stack_of pending.frames) (purpose_view pending.purpose))) }
{
    let level = rank(op);
    let bound = part.rank;
    if level <= bound {
        return wait(pending, Frame::Right(place, op, part));
    }
    Ok(refuse(part, pending))
}

/// A transpose of an operand.
#[tactic(auto, unfolding(mat_parts::specs::Pending::state_view))]
fn posted(
    alloc: Global,
    place: Place,
    mark: PostOp,
    part: Part,
    pending: Pending,
) -> Result<Option<Reading>, AllocError>
    ensures { IfOk result (λ next. Goes next (Have (Post place mark (expr_view part.expr)) (stack_of pending.frames) (purpose_view pending.purpose))) }
{
    match post(alloc, place, mark, part) {
        Err(error) => Err(failed(pending, error)),
        Ok(part) => Ok(Some(Reading::Have(Compound { part }, pending))),
    }
}

/// A transpose behind an operand.
fn turn(
    alloc: Global,
    place: Place,
    mark: PostOp,
    part: Part,
    pending: Pending,
) -> Result<Option<Reading>, AllocError>
    ensures { IfOk result (λ next. Goes next (with_turn place mark (expr_view part.expr) (stack_of pending.frames) (purpose_view pending.purpose))) }
{
    let bound = part.rank;
    if bound >= 10 {
        return posted(alloc, place, mark, part, pending);
    }
    Ok(refuse(part, pending))
}

/// A colon behind the first part of a range.
fn range_to(place: Place, part: Part, pending: Pending) -> Result<Option<Reading>, AllocError>
    ensures { IfOk result (λ next. Goes next (with_to place (expr_view part.expr) (stack_of pending.frames) (purpose_view pending.purpose))) }
{
    let bound = part.rank;
    if bound >= 6 {
        return wait(pending, Frame::To(place, part));
    }
    Ok(refuse(part, pending))
}

/// A colon behind the step of a range.
fn range_by(
    place: Place,
    first: Part,
    part: Part,
    pending: Pending,
) -> Result<Option<Reading>, AllocError>
    ensures { IfOk result (λ next. Goes next (with_by place (expr_view first.expr) (expr_view part.expr) (stack_of pending.frames) (purpose_view pending.purpose))) }
{
    let bound = part.rank;
    if bound >= 6 {
        return wait(pending, Frame::ByTo(place, first, part));
    }
    Ok(refuse_behind(first, part, pending))
}

/// What is pending with one more frame.
fn under(pending: Pending, frame: Frame) -> Result<Pending, AllocError>
    ensures frames { IfOk result (λ inner. stack_of inner.frames ≡ frame_view frame ∷ stack_of pending.frames) }
    ensures purpose { IfOk result (λ inner. inner.purpose ≡ pending.purpose) }
{
    let Pending { frames, purpose } = pending;
    let mut frames = frames;
    match push(&mut frames, frame) {
        Ok(()) => Ok(Pending { frames, purpose }),
        Err(error) => {
            drop(frames);
            drop(purpose);
            Err(error)
        }
    }
}

/// A colon behind the first part of a range that begins in this frame.
fn range_in(
    place: Place,
    part: Part,
    frame: Frame,
    pending: Pending,
) -> Result<Option<Reading>, AllocError>
    ensures { IfOk result (λ next. Goes next (with_to place (expr_view part.expr) (frame_view frame ∷ stack_of pending.frames) (purpose_view pending.purpose))) }
{
    match under(pending, frame) {
        Err(error) => Err(part_failed(part, error)),
        Ok(inner) => range_to(place, part, inner),
    }
}

/// A colon in the right operand of an operator.
fn right_colon(
    place: Place,
    opens: Place,
    op: BinOp,
    left: Part,
    part: Part,
    pending: Pending,
) -> Result<Option<Reading>, AllocError>
    ensures { IfOk result (λ next. Goes next (with_colon place (expr_view part.expr) (frame_view (Frame.Right opens op left) ∷ stack_of pending.frames) (purpose_view pending.purpose))) }
{
    let level = rank(op);
    if level <= 4 {
        return range_in(place, part, Frame::Right(opens, op, left), pending);
    }
    Ok(refuse_behind(left, part, pending))
}

/// A colon behind an operand in this frame.
fn colon_in(
    place: Place,
    part: Part,
    frame: Frame,
    pending: Pending,
) -> Result<Option<Reading>, AllocError>
    ensures { IfOk result (λ next. Goes next (with_colon place (expr_view part.expr) (frame_view frame ∷ stack_of pending.frames) (purpose_view pending.purpose))) }
{
    match frame {
        Frame::To(opens, first) => range_by(opens, first, part, pending),
        Frame::Right(opens, op, left) => right_colon(place, opens, op, left, part, pending),
        Frame::ByTo(_, _, _) => Ok(refuse_in(part, frame, pending)),
        Frame::Sign(_, _) => Ok(refuse_in(part, frame, pending)),
        Frame::ExponentSign(_, _) => Ok(refuse_in(part, frame, pending)),
        _ => range_in(place, part, frame, pending),
    }
}

/// The innermost frame, and what is pending without it.
fn taken(pending: Pending) -> (Option<Frame>, Pending)
    ensures frame { MatchOption result.0 ((stack_of pending.frames ≡ []) × (stack_of result.1.frames ≡ [])) (λ f. stack_of pending.frames ≡ frame_view f ∷ stack_of result.1.frames) }
    ensures purpose { result.1.purpose ≡ pending.purpose }
{
    let Pending { frames, purpose } = pending;
    let mut frames = frames;
    let frame = pop(&mut frames);
    (frame, Pending { frames, purpose })
}

/// What a whole expression is for.
fn purpose_of(pending: Pending) -> Purpose
    ensures { result ≡ pending.purpose }
{
    let Pending { frames, purpose } = pending;
    drop(frames);
    purpose
}

/// A colon behind an operand.
fn colon(place: Place, part: Part, pending: Pending) -> Result<Option<Reading>, AllocError>
    ensures { IfOk result (λ next. Goes next (with_colon place (expr_view part.expr) (stack_of pending.frames) (purpose_view pending.purpose))) }
{
    let (frame, rest) = taken(pending);
    match frame {
        None => range_to(place, part, rest),
        Some(frame) => colon_in(place, part, frame, rest),
    }
}

/// An operand in its parenthesis.
#[tactic(auto, unfolding(mat_parts::specs::Pending::state_view))]
fn parenthesised(
    alloc: Global,
    part: Part,
    opens: Place,
    pending: Pending,
) -> Result<Option<Reading>, AllocError>
    ensures { IfOk result (λ next. Goes next (Have (Paren opens (expr_view part.expr)) (stack_of pending.frames) (purpose_view pending.purpose))) }
{
    match paren(alloc, opens, part) {
        Err(error) => Err(failed(pending, error)),
        Ok(part) => Ok(Some(Reading::Have(Compound { part }, pending))),
    }
}

/// A parenthesis is closed.
fn closing(
    alloc: Global,
    word: Word,
    part: Part,
    opens: Place,
    pending: Pending,
) -> Result<Option<Reading>, AllocError>
    ensures { IfOk result (λ next. Goes next (closing word (expr_view part.expr) opens (stack_of pending.frames) (purpose_view pending.purpose))) }
{
    match word {
        Word::Close => parenthesised(alloc, part, opens, pending),
        _ => Ok(refuse(part, pending)),
    }
}

/// What comes at a word behind an element of a row.
fn cell_ended(
    word: Word,
    part: Part,
    opens: Place,
    grid: Grid,
    line: Line,
    pending: Pending,
) -> Result<Option<Reading>, AllocError>
    ensures { IfOk result (λ next. Goes next (celled word opens (rows_view grid.rows) (with_cell (cells_view line.cells) (expr_view part.expr)) (stack_of pending.frames) (purpose_view pending.purpose))) }
{
    match and_cell(line, part) {
        Err(error) => Err(grid_failed(grid, pending, error)),
        Ok(line) => celled(word, opens, grid, line, pending),
    }
}

/// What comes at a word that ends an operand in this frame.
fn ended_in(
    alloc: Global,
    word: Word,
    part: Part,
    frame: Frame,
    pending: Pending,
) -> Result<Option<Reading>, AllocError>
    ensures { IfOk result (λ next. Goes next (ended_in word (expr_view part.expr) (frame_view frame) (stack_of pending.frames) (purpose_view pending.purpose))) }
{
    match frame {
        Frame::Inside(opens) => closing(alloc, word, part, opens, pending),
        Frame::Call(opened, given) => {
            argued(alloc, word, part, Caller::Value(pending), opened, given)
        }
        Frame::Cells(opens, grid, line) => cell_ended(word, part, opens, grid, line, pending),
        _ => Ok(refuse_in(part, frame, pending)),
    }
}

/// What comes at a word that ends an operand.
fn ended(
    alloc: Global,
    place: Place,
    word: Word,
    own: &[u8],
    part: Part,
    pending: Pending,
) -> Result<Option<Reading>, AllocError>
    ensures { IfOk result (λ next. Goes next (ended place word own.now (expr_view part.expr) (stack_of pending.frames) (purpose_view pending.purpose))) }
{
    let (frame, rest) = taken(pending);
    match frame {
        None => purposed(alloc, place, word, own, part, purpose_of(rest)),
        Some(frame) => ended_in(alloc, word, part, frame, rest),
    }
}

/// What comes at a word behind an operand that it doesn't end; the word is no `(`.
fn settled(
    alloc: Global,
    place: Place,
    word: Word,
    own: &[u8],
    part: Part,
    pending: Pending,
) -> Result<Option<Reading>, AllocError>
    requires { word ≢ Word.Open }
    ensures { IfOk result (λ next. Goes next (have place word own.now (expr_view part.expr) (stack_of pending.frames) (purpose_view pending.purpose))) }
{
    match word {
        Word::Infix(op) => operator(place, op, part, pending),
        Word::Turn(mark) => turn(alloc, place, mark, part, pending),
        Word::Colon => colon(place, part, pending),
        _ => ended(alloc, place, word, own, part, pending),
    }
}

/// What comes at a word behind an operand; the word is no `(`.
fn after_part(
    alloc: Global,
    place: Place,
    word: Word,
    own: &[u8],
    part: Part,
    pending: Pending,
) -> Result<Option<Reading>, AllocError>
    requires { word ≢ Word.Open }
    ensures { IfOk result (λ next. Goes next (go (Have (expr_view part.expr) (stack_of pending.frames) (purpose_view pending.purpose)) place word own.now)) }
{
    let Pending { frames, purpose } = pending;
    let mut frames = frames;
    match settle(alloc, tightness(word), part, &mut frames) {
        Err(error) => Err(failed(Pending { frames, purpose }, error)),
        Ok(part) => settled(alloc, place, word, own, part, Pending { frames, purpose }),
    }
}

/// What comes at a word behind an operand that is no name alone. Want of memory is its only refusal.
pub fn after_compound(
    alloc: Global,
    place: Place,
    word: Word,
    own: &[u8],
    whole: Compound,
    pending: Pending,
) -> Result<Option<Reading>, AllocError>
    ensures { IfOk result (λ next. Goes next (go (Have (expr_view whole.part.expr) (stack_of pending.frames) (purpose_view pending.purpose)) place word own.now)) }
{
    match word {
        Word::Open => Ok(refuse(whole.part, pending)),
        _ => after_part(alloc, place, word, own, whole.part, pending),
    }
}

/// What comes at a word behind a name. Want of memory is its only refusal.
#[tactic(auto, unfolding(mat_parts::specs::Pending::state_view, mat_parts::specs::Pending::caller_view))]
pub fn after_name(
    alloc: Global,
    place: Place,
    word: Word,
    own: &[u8],
    at: Place,
    text: Text,
    pending: Pending,
) -> Result<Option<Reading>, AllocError>
    ensures { IfOk result (λ next. Goes next (go (Have (Name at text) (stack_of pending.frames) (purpose_view pending.purpose)) place word own.now)) }
{
    match word {
        Word::Open => {
            let opened = Opened {
                place: at,
                text,
                opens: place,
            };
            Ok(Some(Reading::Begun(Caller::Value(pending), opened)))
        }
        _ => after_part(alloc, place, word, own, name(at, text), pending),
    }
}
