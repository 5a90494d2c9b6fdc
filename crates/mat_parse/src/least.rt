//! How deep the least file is that goes on from a state.

ghost use Rattle.std.specs.Prelude.{◌≡◌, ◌≤◌, ◌↔◌, ◌+◌, [], ◌∷◌, IsTrue, min, max};
ghost use Rattle.mat_ast.specs.View.{expr_view, block_view, args_view, rows_view};
ghost use Rattle.mat_ast.specs.Depth.{depth, args_depth, rows_depth, row_depth, block_depth};
ghost use Rattle.mat_parts.specs.View.{cells_view};
ghost use Rattle.mat_grammar.specs.Machine as machine;
ghost use Rattle.mat_grammar.specs.Least.{around_depth, use_depth, purpose_depth, frame_depth, stack_depth, operand_depth, need_depth, caller_depth, lister_depth, least};
ghost use Rattle.mat_parts.specs.Pending.{body_view, around_view, use_view, purpose_view, caller_view, lister_view, frame_view, stack_of, state_view};

use mat_parts::body::Steps;
use mat_parts::part::{Given, Grid, Line, Part, deeper, greater};
use mat_parts::pending::{Around, Body, Caller, Frame, Lister, Pending, Purpose, Reading, Use};

/// A number, at most 101.
fn capped(deep: u32) -> u32
    ensures { result ≡ min deep 101 }
{
    if deep > 101 { 101 } else { deep }
}

/// The depth of an open block with a part of this depth.
#[tactic(auto, unfolding(mat_parts::specs::Pending::body_view))]
fn body_deep(deep: u32, body: &Body) -> u32
    ensures { (out : machine.Around) → min (around_depth result out) 101 ≡ min (around_depth deep (body_view body.now out)) 101 }
{
    match body {
        Body::If(before, _, cases, condition) => {
            let inner = deeper(greater(cases.deep, greater(condition.deep, deep)));
            greater(before.deep, inner)
        }
        Body::Else(before, _, cases) => {
            let inner = deeper(greater(cases.deep, deep));
            greater(before.deep, inner)
        }
        Body::While(before, _, condition) => {
            let inner = deeper(greater(condition.deep, deep));
            greater(before.deep, inner)
        }
        Body::For(before, _, _, range) => {
            let inner = deeper(greater(range.deep, deep));
            greater(before.deep, inner)
        }
    }
}

/// The depth of a file with a block of this depth inside, at most 101.
fn around_deep(deep: u32, around: &Around) -> u32
    ensures { result ≡ min (around_depth deep (around_view around.now)) 101 }
{
    let bodies = around.bodies.as_slice();
    let mut inner = deep;
    let mut left = bodies.len();
    while left > 0 {
        left -= 1;
        inner = body_deep(inner, &bodies[left]);
    }
    capped(greater(around.done.deep, inner))
}

/// The depth of a file with arguments of this depth in such parentheses, at most 101.
#[tactic(auto, unfolding(mat_parts::specs::Pending::use_view))]
fn use_deep(deep: u32, used: &Use) -> u32
    ensures { result ≡ min (use_depth deep (use_view used.now)) 101 }
{
    match used {
        Use::Target(before, around) => {
            let inner = deeper(greater(deep, 1));
            around_deep(greater(before.deep, inner), around)
        }
        Use::Callee(before, _, around) => {
            let inner = deeper(deeper(deep));
            around_deep(greater(before.deep, inner), around)
        }
    }
}

/// The depth of a file with an expression of this depth for such a purpose, at most 101.
#[tactic(auto, unfolding(mat_parts::specs::Pending::purpose_view))]
fn purpose_deep(deep: u32, purpose: &Purpose) -> u32
    ensures { result ≡ min (purpose_depth deep (purpose_view purpose.now)) 101 }
{
    match purpose {
        Purpose::Assign(before, _, around) => {
            around_deep(greater(before.deep, deeper(deep)), around)
        }
        Purpose::Store(before, _, _, given, around) => {
            let inner = deeper(greater(given.deep, deep));
            around_deep(greater(before.deep, inner), around)
        }
        Purpose::Arm(before, _, cases, around) => {
            let inner = deeper(greater(cases.deep, deep));
            around_deep(greater(before.deep, inner), around)
        }
        Purpose::While(before, _, around) => {
            around_deep(greater(before.deep, deeper(deep)), around)
        }
        Purpose::For(before, _, _, around) => {
            around_deep(greater(before.deep, deeper(deep)), around)
        }
        Purpose::Argument(used, _, given) => use_deep(greater(given.deep, deep), used),
    }
}

/// The depth of an expression with a part of this depth below such a frame, at most 101.
#[tactic(auto, unfolding(mat_parts::specs::Pending::frame_view))]
fn frame_deep(deep: u32, frame: &Frame) -> u32
    ensures { result ≡ min (frame_depth (frame_view frame.now) deep) 101 }
{
    match frame {
        Frame::Sign(_, _) => deeper(deep),
        Frame::ExponentSign(_, _) => deeper(deep),
        Frame::Right(_, _, left) => deeper(greater(left.deep, deep)),
        Frame::Inside(_) => deeper(deep),
        Frame::Call(_, given) => deeper(greater(given.deep, deep)),
        Frame::To(_, first) => deeper(greater(first.deep, deep)),
        Frame::ByTo(_, first, step) => deeper(greater(first.deep, greater(step.deep, deep))),
        Frame::Cells(_, grid, line) => deeper(greater(grid.deep, greater(line.deep, deep))),
    }
}

/// The depth of an expression with a part of this depth below such frames, at most 101.
fn stack_deep(deep: u32, frames: &[Frame]) -> u32
    ensures { result ≡ min (stack_depth deep (stack_of frames.now)) 101 }
{
    let mut inner = deep;
    let mut left = frames.len();
    while left > 0 {
        left -= 1;
        inner = frame_deep(inner, &frames[left]);
    }
    capped(inner)
}

/// The depth of a file with an operand of this depth, at most 101.
fn operand_deep(deep: u32, pending: &Pending) -> u32
    ensures { result ≡ min (operand_depth deep (stack_of pending.now.frames) (purpose_view pending.now.purpose)) 101 }
{
    purpose_deep(
        stack_deep(deep, pending.frames.as_slice()),
        &pending.purpose,
    )
}

/// 0 where a colon may come in place of a whole expression, and else 1.
#[tactic(auto, unfolding(mat_parts::specs::Pending::purpose_view))]
fn purpose_floor(purpose: &Purpose) -> u32
    ensures { purpose_depth result (purpose_view purpose.now) ≡ need_depth [] (purpose_view purpose.now) }
{
    match purpose {
        Purpose::Argument(_, _, _) => 0,
        _ => 1,
    }
}

/// 0 where a colon may come in place of an operand below this frame, and else 1.
#[tactic(auto, unfolding(mat_parts::specs::Pending::frame_view))]
fn frame_floor(frame: &Frame) -> u32
    ensures { (st : machine.Stack) (k : machine.Purpose) → operand_depth result (frame_view frame.now ∷ st) k ≡ need_depth (frame_view frame.now ∷ st) k }
{
    match frame {
        Frame::Call(_, _) => 0,
        _ => 1,
    }
}

/// The depth of a file in which an operand is owed, at most 101.
fn need_deep(pending: &Pending) -> u32
    ensures { result ≡ min (need_depth (stack_of pending.now.frames) (purpose_view pending.now.purpose)) 101 }
{
    match pending.frames.as_slice().split_last() {
        None => purpose_deep(purpose_floor(&pending.purpose), &pending.purpose),
        Some((last, _)) => operand_deep(frame_floor(last), pending),
    }
}

/// The depth of a file with arguments of this depth, at most 101.
#[tactic(auto, unfolding(mat_parts::specs::Pending::caller_view))]
fn caller_deep(deep: u32, caller: &Caller) -> u32
    ensures { result ≡ min (caller_depth deep (caller_view caller.now)) 101 }
{
    match caller {
        Caller::Value(pending) => operand_deep(deeper(deep), pending),
        Caller::Statement(used) => use_deep(deep, used),
    }
}

/// The depth of a file with a bracket of names, at most 101.
#[tactic(auto, unfolding(mat_parts::specs::Pending::lister_view))]
fn lister_deep(lister: &Lister) -> u32
    ensures { result ≡ min (lister_depth (lister_view lister.now)) 101 }
{
    match lister {
        Lister::Outputs(_, funcs) => funcs.deep,
        Lister::Targets(before, around) => around_deep(greater(before.deep, 2), around),
    }
}

/// The depth of a file with these statements in a block, at most 101.
fn block_deep(steps: &Steps, around: &Around) -> u32
    ensures { result ≡ min (around_depth (block_depth (block_view steps.now.body)) (around_view around.now)) 101 }
{
    around_deep(steps.deep, around)
}

/// The depth of a file with one more statement of depth 2 in a block, at most 101.
fn begun_deep(steps: &Steps, around: &Around) -> u32
    ensures { result ≡ min (around_depth (max (block_depth (block_view steps.now.body)) 2) (around_view around.now)) 101 }
{
    around_deep(greater(steps.deep, 2), around)
}

/// The depth of a file with an assignment to subscripts in a block, at most 101.
fn stored_deep(steps: &Steps, given: &Given, around: &Around) -> u32
    ensures { result ≡ min (around_depth (max (block_depth (block_view steps.now.body)) (max (args_depth (args_view given.now.args)) 1 + 1))
        (around_view around.now)) 101 }
{
    let inner = deeper(greater(given.deep, 1));
    around_deep(greater(steps.deep, inner), around)
}

/// The depth of a file with these rows of a bracket, at most 101.
fn grid_deep(grid: &Grid, pending: &Pending) -> u32
    ensures { result ≡ min (operand_depth (rows_depth (rows_view grid.now.rows) + 1) (stack_of pending.now.frames) (purpose_view pending.now.purpose)) 101 }
{
    operand_deep(deeper(grid.deep), pending)
}

/// The depth of a file with these rows of a bracket and these elements, at most 101.
fn line_deep(grid: &Grid, line: &Line, pending: &Pending) -> u32
    ensures { result ≡ min (operand_depth (max (rows_depth (rows_view grid.now.rows)) (row_depth (cells_view line.now.cells)) + 1) (stack_of pending.now.frames)
        (purpose_view pending.now.purpose)) 101 }
{
    operand_deep(deeper(greater(grid.deep, line.deep)), pending)
}

/// The depth of a file with these arguments, at most 101.
fn given_deep(given: &Given, caller: &Caller) -> u32
    ensures { result ≡ min (caller_depth (args_depth (args_view given.now.args)) (caller_view caller.now)) 101 }
{
    caller_deep(given.deep, caller)
}

/// The depth of a file with this operand, at most 101.
fn have_deep(part: &Part, pending: &Pending) -> u32
    ensures { result ≡ min (operand_depth (depth (expr_view part.now.expr)) (stack_of pending.now.frames) (purpose_view pending.now.purpose)) 101 }
{
    operand_deep(part.deep, pending)
}

/// The depth of the least file that goes on from a state, at most 101.
#[tactic(auto, unfolding(mat_parts::specs::Pending::state_view))]
fn least_deep(reading: &Reading) -> u32
    ensures { result ≡ min (least (state_view reading.now)) 101 }
{
    match reading {
        Reading::Need(pending) => need_deep(pending),
        Reading::Begun(caller, _) => caller_deep(0, caller),
        Reading::Listed(caller, _, given) => given_deep(given, caller),
        Reading::Between(_, grid, pending) => grid_deep(grid, pending),
        Reading::Bare(_, grid, pending) => grid_deep(grid, pending),
        Reading::Gap(_, grid, line, pending) => line_deep(grid, line, pending),
        Reading::Have(whole, pending) => have_deep(&whole.part, pending),
        Reading::HaveName(_, _, pending) => operand_deep(1, pending),
        Reading::Within(steps, around) => block_deep(steps, around),
        Reading::After(steps, around) => block_deep(steps, around),
        Reading::Named(steps, _, around) => begun_deep(steps, around),
        Reading::Subscripted(steps, _, _, given, around) => stored_deep(steps, given, around),
        Reading::Targeted(steps, _, around) => begun_deep(steps, around),
        Reading::Calling(steps, _, around) => begun_deep(steps, around),
        Reading::Called(steps, _, _, _, around) => begun_deep(steps, around),
        Reading::Looping(steps, _, around) => begun_deep(steps, around),
        Reading::Looped(steps, _, _, around) => begun_deep(steps, around),
        Reading::Edge(lister) => lister_deep(lister),
        Reading::EdgeComma(lister) => lister_deep(lister),
        Reading::Listing(lister, _) => lister_deep(lister),
        Reading::ListComma(lister, _) => lister_deep(lister),
        Reading::ListNext(lister, _) => lister_deep(lister),
        Reading::Tail(lister, _) => lister_deep(lister),
        Reading::TailComma(lister, _) => lister_deep(lister),
        Reading::Top(_, funcs) => funcs.deep,
        Reading::Heading(_, funcs) => funcs.deep,
        Reading::HeadOut(_, funcs, _) => funcs.deep,
        Reading::HeadEqual(_, funcs, _) => funcs.deep,
        Reading::HeadName(_, funcs, _, _) => funcs.deep,
        Reading::Params(_, funcs, _, _) => funcs.deep,
        Reading::Param(_, funcs, _) => funcs.deep,
        Reading::ParamComma(_, funcs, _) => funcs.deep,
        Reading::Headed(_, funcs, _) => funcs.deep,
        Reading::Complete(funcs) => funcs.deep,
    }
}

/// Whether a file of depth at most 100 goes on from a state.
pub fn is_shallow(reading: &Reading) -> bool
    ensures { IsTrue result ↔ (least (state_view reading.now) ≤ 100) }
{
    least_deep(reading) <= 100
}
