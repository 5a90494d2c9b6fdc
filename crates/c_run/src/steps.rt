//! What statements do.

ghost use Rattle.std.specs.Prelude.{◌≡◌, ◌<◌, ◌^◌, ◌+◌};
ghost use Rattle.c_tree.specs.View.{expr_view, test_view, stmt_view, block_view};
ghost use Rattle.c_tree.specs.Tree.{Set, Store};
ghost use Rattle.c_tree.specs.Tokens.{tokens, test_tokens, sta_tokens, block_tokens};
ghost use Rattle.c_tree.specs.Meaning;
ghost use Rattle.c_tree.specs.Outcome.{Completes, PastBound, bind, choose};
ghost use Rattle.c_tree.specs.Meaning.{Went, holds, run_sta, run_block};
ghost use Rattle.c_run.specs.Over.{over, test_over, sta_over, block_over};
ghost use Rattle.c_run.specs.View.{flow_told};
ghost use Rattle.c_run.specs.Shape.{shape_of};

use crate::containers::kept;
use crate::exprs::{holds, value_of};
use crate::flow::{Flow, Status, after_turn, then_run};
use crate::frame::Frame;
use crate::tally::Tally;
use c_tree::{CArray, CExpr, CStmt, CTest, Counter};

/// A statement whose first token has this number, where a `while` makes at most `bound` turns.
#[cycle(steps)]
#[tactic(auto, unfolding(c_tree::specs::Outcome::bind, c_tree::specs::Outcome::choose))]
pub fn step(s: &CStmt, frame: &mut Frame, bound: u64, at: u64) -> Flow
    requires counted { at + sta_tokens (stmt_view s.now) < 2 ^ 64 }
    requires within { sta_over (stmt_view s.now) ≡ 0 }
    ensures told { flow_told result frame.new ≡ run_sta (stmt_view s.now) bound frame.old at }
    ensures shaped { shape_of frame.new ≡ shape_of frame.old }
{
    match s {
        CStmt::Set { var, value } => assign(frame, *var, value, at),
        CStmt::Store {
            array,
            at: place,
            value,
        } => store(frame, *array, place, value, at),
        CStmt::If { test, body, other } => match holds(test, frame, at + 2) {
            Err(token) => Flow::Undefined(token),
            Ok(true) => block(body.as_slice(), frame, bound, then_first(test, at)),
            Ok(false) => match other {
                None => Flow::Went,
                Some(other) => {
                    let first = else_first(test, body.as_slice(), at);
                    block(other.as_slice(), frame, bound, first)
                }
            },
        },
        CStmt::For {
            counter,
            count,
            body,
        } => match frame.tally(at + 2, *counter) {
            Err(token) => Flow::Undefined(token),
            Ok(_) => for_turns(body.as_slice(), *counter, *count, frame, bound, at + 28),
        },
        CStmt::While { test, body } => while_turns(body.as_slice(), test, frame, bound, at),
        CStmt::Break => Flow::Broke,
        CStmt::Continue => Flow::Continued,
        CStmt::Return(status) => Flow::Returned(Status::of(*status)),
    }
}

// The number of the first token of an `if`'s body.
fn then_first(test: &CTest, at: u64) -> u64
    requires { at + 4 + test_tokens (test_view test.now) < 2 ^ 64 }
    ensures { result ≡ at + 4 + test_tokens (test_view test.now) }
{
    at + 4 + c_tree::test_tokens(test)
}

// The number of the first token of what stands behind an `else`.
fn else_first(test: &CTest, body: &[CStmt], at: u64) -> u64
    requires { at + 7 + test_tokens (test_view test.now) + block_tokens (block_view body.now) < 2 ^ 64 }
    ensures { result ≡ at + 7 + test_tokens (test_view test.now) + block_tokens (block_view body.now) }
{
    at + 7 + c_tree::test_tokens(test) + c_tree::block_tokens(body)
}

// A variable takes a value.
#[tactic(auto, unfolding(c_tree::specs::Outcome::bind))]
fn assign(frame: &mut Frame, var: u32, value: &CExpr, at: u64) -> Flow
    requires counted { at + sta_tokens (Set var (expr_view value.now)) < 2 ^ 64 }
    requires within { sta_over (Set var (expr_view value.now)) ≡ 0 }
    ensures told { flow_told result frame.new ≡ run_sta (Set var (expr_view value.now)) 0 frame.old at }
    ensures shaped { shape_of frame.new ≡ shape_of frame.old }
{
    match value_of(value, frame, at + 2) {
        Err(token) => Flow::Undefined(token),
        Ok(word) => frame.assign(at, var, word),
    }
}

// An element of an array takes a value; the value and its cast come before the subscript.
#[tactic(auto, unfolding(c_tree::specs::Outcome::bind, c_tree::specs::Outcome::found_at))]
fn store(frame: &mut Frame, array: CArray, place: &CExpr, value: &CExpr, at: u64) -> Flow
    requires counted { at + sta_tokens (Store array (expr_view place.now) (expr_view value.now)) < 2 ^ 64 }
    requires within { sta_over (Store array (expr_view place.now) (expr_view value.now)) ≡ 0 }
    ensures told { flow_told result frame.new ≡ run_sta (Store array (expr_view place.now) (expr_view value.now)) 0 frame.old at }
    ensures shaped { shape_of frame.new ≡ shape_of frame.old }
{
    let size = c_tree::expr_tokens(place);
    let container = match frame.writable(array) {
        None => return Flow::Undefined(at),
        Some(cells) => cells.container(),
    };
    match value_of(value, frame, at + 7 + size) {
        Err(token) => Flow::Undefined(token),
        Ok(word) => match kept(at + 4 + size, container, word) {
            Err(token) => Flow::Undefined(token),
            Ok(element) => match value_of(place, frame, at + 2) {
                Err(token) => Flow::Undefined(token),
                Ok(subscript) => frame.put(at + 1, array, element, subscript),
            },
        },
    }
}

/// Statements in order, until one doesn't go on.
#[cycle(steps)]
pub fn block(body: &[CStmt], frame: &mut Frame, bound: u64, at: u64) -> Flow
    requires counted { at + block_tokens (block_view body.now) < 2 ^ 64 }
    requires within { block_over (block_view body.now) ≡ 0 }
    ensures told { flow_told result frame.new ≡ run_block (block_view body.now) bound frame.old at }
    ensures shaped { shape_of frame.new ≡ shape_of frame.old }
{
    let mut first = at;
    for s in body {
        match then_run(step(s, frame, bound, first)) {
            None => {}
            Some(flow) => {
                return flow;
            }
        }
        first += c_tree::stmt_tokens(s);
    }
    Flow::Went
}

// The turns of a `for` (6.8.5.3), where the body's first token has the number `first`.
#[cycle(steps)]
fn for_turns(
    body: &[CStmt],
    counter: Counter,
    count: u64,
    frame: &mut Frame,
    bound: u64,
    first: u64,
) -> Flow
    requires counted { first + block_tokens (block_view body.now) < 2 ^ 64 }
    requires within { block_over (block_view body.now) ≡ 0 }
    requires few { count < 2 ^ 63 }
    ensures told { flow_told result frame.new ≡ Meaning.for_turns count 0 counter (λ st. run_block (block_view body.now) bound st first) frame.old }
    ensures shaped { shape_of frame.new ≡ shape_of frame.old }
{
    let mut left = count;
    while left > 0 {
        frame.set_count(counter, Tally::of(count - left));
        match after_turn(block(body, frame, bound, first)) {
            None => {}
            Some(flow) => {
                return flow;
            }
        }
        left -= 1;
    }
    frame.set_count(counter, Tally::of(count));
    Flow::Went
}

// The turns of a `while` (6.8.5.1) whose first token has the number `at`.
#[cycle(steps)]
fn while_turns(body: &[CStmt], test: &CTest, frame: &mut Frame, bound: u64, at: u64) -> Flow
    requires counted { at + 5 + test_tokens (test_view test.now) + block_tokens (block_view body.now) < 2 ^ 64 }
    requires within { test_over (test_view test.now) + block_over (block_view body.now) ≡ 0 }
    ensures told { flow_told result frame.new ≡ Meaning.while_turns bound (λ st. holds (test_view test.now) st (at + 2)) (λ st. run_block (block_view body.now) bound st (at + 4 + test_tokens (test_view test.now))) frame.old }
    ensures shaped { shape_of frame.new ≡ shape_of frame.old }
{
    let first = at + 4 + c_tree::test_tokens(test);
    let mut left = bound;
    while left > 0 {
        match holds(test, frame, at + 2) {
            Err(token) => {
                return Flow::Undefined(token);
            }
            Ok(false) => {
                return Flow::Went;
            }
            Ok(true) => {}
        }
        match after_turn(block(body, frame, bound, first)) {
            None => {}
            Some(flow) => {
                return flow;
            }
        }
        left -= 1;
    }
    last_test(test, frame, at + 2)
}

// The test behind the last turn that the bound allows, whose first token has this number.
#[tactic(auto, unfolding(c_tree::specs::Outcome::bind, c_tree::specs::Outcome::choose))]
fn last_test(test: &CTest, frame: &Frame, at: u64) -> Flow
    requires counted { at + test_tokens (test_view test.now) < 2 ^ 64 }
    requires within { test_over (test_view test.now) ≡ 0 }
    ensures { flow_told result frame.now ≡ bind (holds (test_view test.now) frame.now at) (λ t. choose t PastBound (Completes (Went frame.now))) }
{
    match holds(test, frame, at) {
        Err(token) => Flow::Undefined(token),
        Ok(false) => Flow::Went,
        Ok(true) => Flow::Over,
    }
}
