//! The machine at one more word.

ghost use Rattle.std.specs.Prelude.{IfOk, ◌≤◌};
ghost use Rattle.mat_parse.specs.Families.{family};
ghost use Rattle.mat_grammar.specs.Machine.{go};
ghost use Rattle.mat_parts.specs.Pending.{state_view, Goes};

use crate::names::{
    between_functions, edge, edge_comma, head_equal, head_name, head_out, headed, heading,
    list_comma, list_next, listing, param, param_comma, params, tail, tail_comma,
};
use fic_base::Place;
use mat_grammar::Word;
use mat_moves::blocks::after;
use mat_moves::bracket::{bare, between, gap};
use mat_moves::expression::operand;
use mat_moves::operator::{after_compound, after_name};
use mat_moves::paren::{begun, listed};
use mat_moves::statement::{
    called, calling, looped, looping, named, subscripted, targeted, within,
};
use mat_parts::pending::Reading;
use std::alloc::{AllocError, Global};

/// What comes at a word in or between the fronts of functions.
#[tactic(auto, unfolding(mat_parts::specs::Pending::state_view, crate::specs::Families::family))]
fn in_function(
    alloc: Global,
    reading: Reading,
    place: Place,
    word: Word,
    own: &[u8],
) -> Result<Option<Reading>, AllocError>
    requires { 3 ≤ family reading }
    ensures { IfOk result (λ next. Goes next (go (state_view reading) place word own.now)) }
{
    match reading {
        Reading::Top(mode, funcs) => Ok(between_functions(word, mode, funcs)),
        Reading::Heading(mode, funcs) => heading(alloc, place, word, own, mode, funcs),
        Reading::HeadOut(mode, funcs, outputs) => Ok(head_out(word, mode, funcs, outputs)),
        Reading::HeadEqual(mode, funcs, outputs) => {
            head_equal(alloc, place, word, own, mode, funcs, outputs)
        }
        Reading::HeadName(mode, funcs, outputs, name) => {
            Ok(head_name(alloc, word, mode, funcs, outputs, name))
        }
        Reading::Params(mode, funcs, outputs, name) => {
            params(alloc, place, word, own, mode, funcs, outputs, name)
        }
        Reading::Param(mode, funcs, header) => Ok(param(word, mode, funcs, header)),
        Reading::ParamComma(mode, funcs, header) => {
            param_comma(alloc, place, word, own, mode, funcs, header)
        }
        Reading::Headed(mode, funcs, header) => Ok(headed(alloc, word, mode, funcs, header)),
        Reading::Complete(_) => Ok(None),
        _ => unreachable!(),
    }
}

/// What comes at a word in a bracket of names, or in or between the fronts of functions.
#[tactic(auto, unfolding(mat_parts::specs::Pending::state_view, crate::specs::Families::family))]
fn in_names(
    alloc: Global,
    reading: Reading,
    place: Place,
    word: Word,
    own: &[u8],
) -> Result<Option<Reading>, AllocError>
    requires { 2 ≤ family reading }
    ensures { IfOk result (λ next. Goes next (go (state_view reading) place word own.now)) }
{
    match reading {
        Reading::Edge(lister) => edge(alloc, place, word, own, lister),
        Reading::EdgeComma(lister) => Ok(edge_comma(word, lister)),
        Reading::Listing(lister, names) => Ok(listing(word, lister, names)),
        Reading::ListComma(lister, names) => list_comma(alloc, place, word, own, lister, names),
        Reading::ListNext(lister, names) => list_next(alloc, place, word, own, lister, names),
        Reading::Tail(lister, names) => Ok(tail(word, lister, names)),
        Reading::TailComma(lister, names) => Ok(tail_comma(word, lister, names)),
        other => in_function(alloc, other, place, word, own),
    }
}

/// What comes at a word outside expressions.
#[tactic(auto, unfolding(mat_parts::specs::Pending::state_view, crate::specs::Families::family))]
fn in_statement(
    alloc: Global,
    reading: Reading,
    place: Place,
    word: Word,
    own: &[u8],
) -> Result<Option<Reading>, AllocError>
    requires { 1 ≤ family reading }
    ensures { IfOk result (λ next. Goes next (go (state_view reading) place word own.now)) }
{
    match reading {
        Reading::Within(steps, around) => within(alloc, place, word, own, steps, around),
        Reading::After(steps, around) => after(alloc, word, steps, around),
        Reading::Named(steps, to, around) => Ok(named(alloc, place, word, steps, to, around)),
        Reading::Subscripted(steps, to, opens, given, around) => {
            Ok(subscripted(alloc, word, steps, to, opens, given, around))
        }
        Reading::Targeted(steps, targets, around) => Ok(targeted(word, steps, targets, around)),
        Reading::Calling(steps, targets, around) => {
            calling(alloc, place, word, own, steps, targets, around)
        }
        Reading::Called(steps, targets, at, text, around) => {
            called(alloc, place, word, steps, targets, at, text, around)
        }
        Reading::Looping(steps, at, around) => {
            looping(alloc, place, word, own, steps, at, around)
        }
        Reading::Looped(steps, at, to, around) => Ok(looped(alloc, word, steps, at, to, around)),
        other => in_names(alloc, other, place, word, own),
    }
}

/// What comes at one more word, where `own` is its token's text; none if no file goes on so. Want of memory is its only refusal.
#[tactic(auto, unfolding(mat_parts::specs::Pending::state_view, crate::specs::Families::family))]
pub fn advance(
    alloc: Global,
    reading: Reading,
    place: Place,
    word: Word,
    own: &[u8],
) -> Result<Option<Reading>, AllocError>
    ensures { IfOk result (λ next. Goes next (go (state_view reading) place word own.now)) }
{
    match reading {
        Reading::Need(pending) => operand(alloc, place, word, own, pending),
        Reading::Begun(caller, opened) => begun(alloc, place, word, own, caller, opened),
        Reading::Listed(caller, opened, given) => listed(alloc, word, caller, opened, given),
        Reading::Between(opens, grid, pending) => {
            between(alloc, place, word, own, opens, grid, pending)
        }
        Reading::Bare(opens, grid, pending) => bare(word, opens, grid, pending),
        Reading::Gap(opens, grid, line, pending) => {
            gap(alloc, place, word, own, opens, grid, line, pending)
        }
        Reading::Have(whole, pending) => after_compound(alloc, place, word, own, whole, pending),
        Reading::HaveName(at, text, pending) => {
            after_name(alloc, place, word, own, at, text, pending)
        }
        other => in_statement(alloc, other, place, word, own),
    }
}
