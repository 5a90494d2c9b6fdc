//! What comes in a bracket of names, and in a header.

ghost use Rattle.std.specs.Prelude.{◌≡◌, ◌∷◌, [], ◌++◌, IfOk};
ghost use Rattle.mat_ast.specs.View.{block_view, funcs_view};
ghost use Rattle.mat_ast.specs.Tree.{Done};
ghost use Rattle.mat_grammar.specs.Machine.{names_closed, edge, edge_comma, listing, list_comma, list_next, tail, tail_comma, between_functions, heading, head_out, head_equal, headed, head_name, params, param, param_comma, header_of, ident_at, FunBody, Within};
ghost use Rattle.mat_parts.specs.Pending.{lister_view, header_view, around_view, Goes};

use fic_base::{Place, Text};
use mat_ast::Ident;
use mat_grammar::{Mode, Word};
use mat_parts::body::{Funcs, Header, no_steps};
use mat_parts::name_list::{and_name, ident, one_name};
use mat_parts::pending::{Around, Lister, Reading};
use sqlite_items::Items;
use std::alloc::{AllocError, Global};

/// What comes behind a bracket of names.
#[tactic(auto, unfolding(mat_parts::specs::Pending::state_view, mat_grammar::specs::Machine::names_closed, mat_parts::specs::Pending::lister_view))]
fn names_closed(lister: Lister, names: Items<Ident>) -> Option<Reading>
    ensures { Goes result (names_closed (lister_view lister) names) }
{
    match lister {
        Lister::Outputs(mode, funcs) => Some(Reading::HeadOut(mode, funcs, names)),
        Lister::Targets(steps, around) => Some(Reading::Targeted(steps, names, around)),
    }
}

/// What comes at a word before the names of a bracket. Want of memory is its only refusal.
#[tactic(auto, unfolding(mat_parts::specs::Pending::state_view, mat_grammar::specs::Machine::edge))]
pub fn edge(
    alloc: Global,
    place: Place,
    word: Word,
    own: &[u8],
    lister: Lister,
) -> Result<Option<Reading>, AllocError>
    ensures { IfOk result (λ next. Goes next (edge place word own.now (lister_view lister))) }
{
    match word {
        Word::Name => {
            let names = one_name(alloc, place, own)?;
            Ok(Some(Reading::Listing(lister, names)))
        }
        Word::Comma => Ok(Some(Reading::EdgeComma(lister))),
        Word::Semicolon => Ok(Some(Reading::Edge(lister))),
        Word::Newline => Ok(Some(Reading::Edge(lister))),
        _ => Ok(None),
    }
}

/// What comes at a word behind a comma before the names of a bracket.
#[tactic(auto, unfolding(mat_parts::specs::Pending::state_view, mat_grammar::specs::Machine::edge_comma))]
pub fn edge_comma(word: Word, lister: Lister) -> Option<Reading>
    ensures { Goes result (edge_comma word (lister_view lister)) }
{
    match word {
        Word::Semicolon => Some(Reading::Edge(lister)),
        Word::Newline => Some(Reading::Edge(lister)),
        _ => None,
    }
}

/// What comes at a word behind a name of a bracket.
#[tactic(auto, unfolding(mat_parts::specs::Pending::state_view, mat_grammar::specs::Machine::listing))]
pub fn listing(word: Word, lister: Lister, names: Items<Ident>) -> Option<Reading>
    ensures { Goes result (listing word (lister_view lister) names) }
{
    match word {
        Word::Comma => Some(Reading::ListComma(lister, names)),
        Word::Separator => Some(Reading::ListNext(lister, names)),
        Word::Semicolon => Some(Reading::Tail(lister, names)),
        Word::Newline => Some(Reading::Tail(lister, names)),
        Word::CloseSquare => names_closed(lister, names),
        _ => None,
    }
}

/// What comes at a word behind a comma after a name. Want of memory is its only refusal.
#[tactic(auto, unfolding(mat_parts::specs::Pending::state_view, mat_grammar::specs::Machine::list_comma))]
pub fn list_comma(
    alloc: Global,
    place: Place,
    word: Word,
    own: &[u8],
    lister: Lister,
    names: Items<Ident>,
) -> Result<Option<Reading>, AllocError>
    ensures { IfOk result (λ next. Goes next (list_comma place word own.now (lister_view lister) names)) }
{
    match word {
        Word::Name => {
            let names = and_name(alloc, names, place, own)?;
            Ok(Some(Reading::Listing(lister, names)))
        }
        Word::Semicolon => Ok(Some(Reading::Tail(lister, names))),
        Word::Newline => Ok(Some(Reading::Tail(lister, names))),
        Word::CloseSquare => Ok(names_closed(lister, names)),
        _ => Ok(None),
    }
}

/// What comes at a word behind a separator after a name. Want of memory is its only refusal.
#[tactic(auto, unfolding(mat_parts::specs::Pending::state_view, mat_grammar::specs::Machine::list_next))]
pub fn list_next(
    alloc: Global,
    place: Place,
    word: Word,
    own: &[u8],
    lister: Lister,
    names: Items<Ident>,
) -> Result<Option<Reading>, AllocError>
    ensures { IfOk result (λ next. Goes next (list_next place word own.now (lister_view lister) names)) }
{
    match word {
        Word::Name => {
            let names = and_name(alloc, names, place, own)?;
            Ok(Some(Reading::Listing(lister, names)))
        }
        _ => Ok(None),
    }
}

/// What comes at a word behind the names of a bracket and a row end.
#[tactic(auto, unfolding(mat_parts::specs::Pending::state_view, mat_grammar::specs::Machine::tail))]
pub fn tail(word: Word, lister: Lister, names: Items<Ident>) -> Option<Reading>
    ensures { Goes result (tail word (lister_view lister) names) }
{
    match word {
        Word::Comma => Some(Reading::TailComma(lister, names)),
        Word::Semicolon => Some(Reading::Tail(lister, names)),
        Word::Newline => Some(Reading::Tail(lister, names)),
        Word::CloseSquare => names_closed(lister, names),
        _ => None,
    }
}

/// What comes at a word behind a comma there.
#[tactic(auto, unfolding(mat_parts::specs::Pending::state_view, mat_grammar::specs::Machine::tail_comma))]
pub fn tail_comma(word: Word, lister: Lister, names: Items<Ident>) -> Option<Reading>
    ensures { Goes result (tail_comma word (lister_view lister) names) }
{
    match word {
        Word::Semicolon => Some(Reading::Tail(lister, names)),
        Word::Newline => Some(Reading::Tail(lister, names)),
        Word::CloseSquare => names_closed(lister, names),
        _ => None,
    }
}

/// What comes at a word between functions.
#[tactic(auto, unfolding(mat_parts::specs::Pending::state_view, mat_grammar::specs::Machine::between_functions))]
pub fn between_functions(word: Word, mode: Mode, funcs: Funcs) -> Option<Reading>
    ensures { Goes result (between_functions word mode (funcs_view funcs.funcs.items)) }
{
    match word {
        Word::Newline => Some(Reading::Top(mode, funcs)),
        Word::Semicolon => Some(Reading::Top(mode, funcs)),
        Word::Comma => Some(Reading::Top(mode, funcs)),
        Word::Function => Some(Reading::Heading(mode, funcs)),
        Word::Finish => Some(Reading::Complete(funcs)),
        _ => None,
    }
}

/// What comes at a word behind `function`. Want of memory is its only refusal.
#[tactic(auto, unfolding(mat_parts::specs::Pending::state_view, mat_grammar::specs::Machine::heading, mat_parts::specs::Pending::lister_view))]
pub fn heading(
    alloc: Global,
    place: Place,
    word: Word,
    own: &[u8],
    mode: Mode,
    funcs: Funcs,
) -> Result<Option<Reading>, AllocError>
    ensures { IfOk result (λ next. Goes next (heading place word own.now mode (funcs_view funcs.funcs.items))) }
{
    match word {
        Word::Name => {
            let names = one_name(alloc, place, own)?;
            Ok(Some(Reading::HeadOut(mode, funcs, names)))
        }
        Word::OpenSquare => Ok(Some(Reading::Edge(Lister::Outputs(mode, funcs)))),
        _ => Ok(None),
    }
}

/// What comes at a word behind the outputs of a function.
#[tactic(auto, unfolding(mat_parts::specs::Pending::state_view, mat_grammar::specs::Machine::head_out))]
pub fn head_out(word: Word, mode: Mode, funcs: Funcs, outputs: Items<Ident>) -> Option<Reading>
    ensures { Goes result (head_out word mode (funcs_view funcs.funcs.items) outputs) }
{
    match word {
        Word::Equal => Some(Reading::HeadEqual(mode, funcs, outputs)),
        _ => None,
    }
}

/// What comes at a word behind the outputs and their `=`. Want of memory is its only refusal.
#[tactic(auto, unfolding(mat_parts::specs::Pending::state_view, mat_grammar::specs::Machine::head_equal))]
pub fn head_equal(
    alloc: Global,
    place: Place,
    word: Word,
    own: &[u8],
    mode: Mode,
    funcs: Funcs,
    outputs: Items<Ident>,
) -> Result<Option<Reading>, AllocError>
    ensures { IfOk result (λ next. Goes next (head_equal place word own.now mode (funcs_view funcs.funcs.items) outputs)) }
{
    match word {
        Word::Name => {
            let name = ident(alloc, place, own)?;
            Ok(Some(Reading::HeadName(mode, funcs, outputs, name)))
        }
        _ => Ok(None),
    }
}

/// The body of a function begins.
#[tactic(auto, unfolding(mat_parts::specs::Pending::state_view, mat_parts::specs::Pending::around_view))]
fn opened(alloc: Global, mode: Mode, funcs: Funcs, header: Header) -> Option<Reading>
    ensures { Goes result (Within Done (FunBody mode (funcs_view funcs.funcs.items) (header_view header))) }
{
    let around = Around {
        bodies: Items::new(alloc),
        mode,
        done: funcs,
        header,
    };
    Some(Reading::Within(no_steps(alloc), around))
}

/// What comes at a word behind a whole header.
#[tactic(auto, unfolding(mat_parts::specs::Pending::state_view, mat_grammar::specs::Machine::headed))]
pub fn headed(
    alloc: Global,
    word: Word,
    mode: Mode,
    funcs: Funcs,
    header: Header,
) -> Option<Reading>
    ensures { Goes result (headed word mode (funcs_view funcs.funcs.items) (header_view header)) }
{
    match word {
        Word::Newline => opened(alloc, mode, funcs, header),
        Word::Semicolon => opened(alloc, mode, funcs, header),
        Word::Comma => opened(alloc, mode, funcs, header),
        _ => None,
    }
}

/// What comes at a word behind the name of a function.
#[tactic(auto, unfolding(mat_parts::specs::Pending::state_view, mat_grammar::specs::Machine::head_name, mat_parts::specs::Pending::header_view))]
pub fn head_name(
    alloc: Global,
    word: Word,
    mode: Mode,
    funcs: Funcs,
    outputs: Items<Ident>,
    name: Ident,
) -> Option<Reading>
    ensures { Goes result (head_name word mode (funcs_view funcs.funcs.items) outputs name) }
{
    match word {
        Word::Open => Some(Reading::Params(mode, funcs, outputs, name)),
        _ => {
            let header = Header {
                outputs,
                name,
                inputs: Items::new(alloc),
            };
            headed(alloc, word, mode, funcs, header)
        }
    }
}

/// What comes at a word behind the parenthesis of the inputs. Want of memory is its only refusal.
#[tactic(auto, unfolding(mat_parts::specs::Pending::state_view, mat_grammar::specs::Machine::params, mat_parts::specs::Pending::header_view))]
pub fn params(
    alloc: Global,
    place: Place,
    word: Word,
    own: &[u8],
    mode: Mode,
    funcs: Funcs,
    outputs: Items<Ident>,
    name: Ident,
) -> Result<Option<Reading>, AllocError>
    ensures { IfOk result (λ next. Goes next (params place word own.now mode (funcs_view funcs.funcs.items) outputs name)) }
{
    match word {
        Word::Name => {
            let inputs = one_name(alloc, place, own)?;
            let header = Header {
                outputs,
                name,
                inputs,
            };
            Ok(Some(Reading::Param(mode, funcs, header)))
        }
        Word::Close => {
            let header = Header {
                outputs,
                name,
                inputs: Items::new(alloc),
            };
            Ok(Some(Reading::Headed(mode, funcs, header)))
        }
        _ => Ok(None),
    }
}

/// What comes at a word behind an input.
#[tactic(auto, unfolding(mat_parts::specs::Pending::state_view, mat_grammar::specs::Machine::param))]
pub fn param(word: Word, mode: Mode, funcs: Funcs, header: Header) -> Option<Reading>
    ensures { Goes result (param word mode (funcs_view funcs.funcs.items) (header_view header)) }
{
    match word {
        Word::Comma => Some(Reading::ParamComma(mode, funcs, header)),
        Word::Close => Some(Reading::Headed(mode, funcs, header)),
        _ => None,
    }
}

/// What comes at a word behind a comma after an input. Want of memory is its only refusal.
#[tactic(auto, unfolding(mat_parts::specs::Pending::state_view, mat_grammar::specs::Machine::param_comma, mat_parts::specs::Pending::header_view))]
pub fn param_comma(
    alloc: Global,
    place: Place,
    word: Word,
    own: &[u8],
    mode: Mode,
    funcs: Funcs,
    header: Header,
) -> Result<Option<Reading>, AllocError>
    ensures { IfOk result (λ next. Goes next (param_comma place word own.now mode (funcs_view funcs.funcs.items) (header_view header))) }
{
    match word {
        Word::Name => {
            let Header {
                outputs,
                name,
                inputs,
            } = header;
            let inputs = and_name(alloc, inputs, place, own)?;
            let header = Header {
                outputs,
                name,
                inputs,
            };
            Ok(Some(Reading::Param(mode, funcs, header)))
        }
        _ => Ok(None),
    }
}
