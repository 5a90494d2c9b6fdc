//! The parser: the program of a list of words, or where the list is refused.

ghost use Rattle.std.specs.Prelude.{◌≡◌, [], IfOk, IfErr, MatchOption, None};
ghost use Rattle.c_tree.specs.Tree.{Signature};
ghost use Rattle.c_tree.specs.View.{interface_view};
ghost use Rattle.c_tree.specs.WellFormed.{IsInterface, IsWellFormed};
ghost use Rattle.c_tree.specs.Whole.{program_of};
ghost use Rattle.c_grammar.specs.Live.{IsSentence, IsRefused};
ghost use Rattle.c_grammar.specs.Machine as machine;
ghost use Rattle.c_grammar.specs.Machine.{Stuck, finish, made, start, state, step};
ghost use Rattle.c_grammar.specs.Words.{parameters_of};
ghost use Rattle.c_parse.specs.Refused.{RefusesOnly};
ghost use Rattle.c_parts.specs.View.{past_view, reading_view, reader_view, Goes};

use crate::advance::step;
use crate::bad::BadWord;
use crate::header::header;
use c_grammar::{CWordToken, machine_decides};
use c_parts::pending::{Past, Reader, Reading};
use c_parts::stack::behind;
use c_tree::{Arrays, CProgram, CTree, Interface};
use num_type::{Memory, Stop};
use sqlite_items::Items;
use std::alloc::Global;

/// The state before the first word. Want of memory is the only refusal.
#[tactic(auto, unfolding(c_parts::specs::View::reading_view))]
fn begun(alloc: Global, arrays: &Arrays) -> Result<Reader, Memory>
    ensures { (i : Signature) → arrays.now ≡ parameters_of i → IfOk result (λ r. reader_view r ≡ start i) }
{
    match header(alloc, arrays) {
        Err(error) => Err(error),
        Ok(words) => Ok(behind(words, Reading::Declare(Items::new(alloc)))),
    }
}

/// The state that comes next, or the refusal of the word before which so many stand.
fn found(next: Option<Reader>, at: usize) -> Result<Reader, Stop<BadWord>>
    ensures read { (q : machine.State) → Goes next q → IfOk result (λ r. reader_view r ≡ q) }
    ensures refusal { (q : machine.State) → Goes next q → IfErr result (λ stop. RefusesOnly stop (λ bad. (bad.at ≡ at) × (Stuck ≡ q))) }
{
    match next {
        None => Err(Stop::Refused(BadWord { at })),
        Some(next) => Ok(next),
    }
}

/// The state behind a word, before which so many stand.
fn stepped(
    alloc: Global,
    arrays: &Arrays,
    reader: Reader,
    word: CWordToken,
    at: usize,
) -> Result<Reader, Stop<BadWord>>
    ensures read { IfOk result (λ next. reader_view next ≡ step arrays.now (reader_view reader) word) }
    ensures refusal { IfErr result (λ stop. RefusesOnly stop (λ bad. (bad.at ≡ at) × (Stuck ≡ step arrays.now (reader_view reader) word))) }
{
    match step(alloc, arrays, reader, word) {
        Err(_) => Err(Stop::Memory),
        Ok(next) => found(next, at),
    }
}

/// No whole function.
fn refuse(words: Items<CWordToken>, reading: Reading) -> Option<Past>
    ensures { result ≡ None }
{
    drop(words);
    refuse_reading(reading)
}

/// No whole function.
fn refuse_reading(reading: Reading) -> Option<Past>
    ensures { result ≡ None }
{
    drop(reading);
    None
}

/// Behind the closing brace of the function what was read; None elsewhere.
#[tactic(auto, unfolding(c_parts::specs::View::reading_view))]
fn whole_reading(reading: Reading) -> Option<Past>
    ensures { MatchOption result ((v : machine.Past) → reading_view reading ≡ machine.Whole v → ⊥) (λ past. reading_view reading ≡ machine.Whole (past_view past)) }
{
    match reading {
        Reading::Whole(past) => Some(past),
        _ => refuse_reading(reading),
    }
}

/// Behind the closing brace of the function what was read; None elsewhere.
#[tactic(auto, unfolding(c_parts::specs::View::reader_view))]
fn whole(reader: Reader) -> Option<Past>
    ensures { MatchOption result ((v : machine.Past) → reader_view reader ≡ machine.Whole v → ⊥) (λ past. reader_view reader ≡ machine.Whole (past_view past)) }
{
    let Reader { words, at, reading } = reader;
    if at < words.len() {
        refuse(words, reading)
    } else {
        whole_reading(reading)
    }
}

/// What was read behind all words, or where they are refused.
fn read(
    alloc: Global,
    interface: &Interface,
    arrays: &Arrays,
    first: Reader,
    words: &[CWordToken],
) -> Result<Past, Stop<BadWord>>
    requires interface { IsInterface (interface_view interface.now) }
    requires arrays { arrays.now ≡ parameters_of (interface_view interface.now) }
    requires first { reader_view first ≡ start (interface_view interface.now) }
    ensures program { IfOk result (λ past. IsSentence (interface_view interface.now) (made (interface_view interface.now) (past_view past)) words.now) }
    ensures refusal { IfErr result (λ stop. RefusesOnly stop (λ bad. IsRefused (interface_view interface.now) words.now bad.at)) }
{
    machine_decides();
    let mut reader = first;
    let mut index = 0;
    while index < words.len() {
        match stepped(alloc, arrays, reader, words[index], index) {
            Err(stop) => return Err(stop),
            Ok(next) => reader = next,
        }
        index += 1;
    }
    match whole(reader) {
        None => Err(Stop::Refused(BadWord { at: index })),
        Some(past) => Ok(past),
    }
}

/// What was read behind all words, or where they are refused.
fn read_with(
    alloc: Global,
    interface: &Interface,
    arrays: &Arrays,
    words: &[CWordToken],
) -> Result<Past, Stop<BadWord>>
    requires interface { IsInterface (interface_view interface.now) }
    requires arrays { arrays.now ≡ parameters_of (interface_view interface.now) }
    ensures program { IfOk result (λ past. IsSentence (interface_view interface.now) (made (interface_view interface.now) (past_view past)) words.now) }
    ensures refusal { IfErr result (λ stop. RefusesOnly stop (λ bad. IsRefused (interface_view interface.now) words.now bad.at)) }
{
    match begun(alloc, arrays) {
        Err(_) => Err(Stop::Memory),
        Ok(first) => read(alloc, interface, arrays, first, words),
    }
}

/// What was read behind all words of a tree's interface, or where they are refused.
fn read_tree(alloc: Global, tree: &CTree, words: &[CWordToken]) -> Result<Past, Stop<BadWord>>
    requires interface { IsInterface (interface_view tree.now.interface) }
    requires arrays { tree.now.arrays ≡ [] }
    ensures program { IfOk result (λ past. IsSentence (interface_view tree.now.interface) (made (interface_view tree.now.interface) (past_view past)) words.now) }
    ensures refusal { IfErr result (λ stop. RefusesOnly stop (λ bad. IsRefused (interface_view tree.now.interface) words.now bad.at)) }
{
    match Arrays::of(alloc, tree) {
        Err(_) => Err(Stop::Memory),
        Ok(arrays) => {
            let found = read_with(alloc, &tree.interface, &arrays, words);
            drop(arrays);
            found
        }
    }
}

/// The tree of an interface without declarations and statements.
fn no_statements(alloc: Global, interface: Interface) -> CTree
    ensures interface { result.interface ≡ interface }
    ensures arrays { result.arrays ≡ [] }
{
    CTree::plain(alloc, interface, Items::new(alloc), Items::new(alloc))
}

/// The interface of a tree.
fn interface_of(tree: CTree) -> Interface
    ensures { result ≡ tree.interface }
{
    tree.interface
}

/// A refusal, which ends the tree.
fn failed(tree: CTree, stop: Stop<BadWord>) -> Stop<BadWord>
    ensures { result ≡ stop }
{
    drop(tree);
    stop
}

/// The program of what was read.
#[tactic(auto, unfolding(c_parts::specs::View::past_view))]
fn program(alloc: Global, interface: Interface, past: Past) -> CProgram
    requires { IsWellFormed (made (interface_view interface) (past_view past)) }
    ensures { program_of result ≡ made (interface_view interface) (past_view past) }
{
    let Past { words, done } = past;
    CProgram::of(CTree::plain(alloc, interface, words, done))
}

/// The program of this interface whose words these are.
///
/// Refused, with the number of the words before the first one with which no program of the part that is built goes on, and with the number of
/// all words where only more of them are missing.
pub fn parse(
    alloc: Global,
    interface: Interface,
    words: &[CWordToken],
) -> Result<CProgram, Stop<BadWord>>
    requires { IsInterface (interface_view interface) }
    ensures program { IfOk result (λ p. IsSentence (interface_view interface) (program_of p) words.now) }
    ensures refusal { IfErr result (λ stop. RefusesOnly stop (λ bad. IsRefused (interface_view interface) words.now bad.at)) }
{
    let tree = no_statements(alloc, interface);
    match read_tree(alloc, &tree, words) {
        Err(stop) => Err(failed(tree, stop)),
        Ok(past) => Ok(program(alloc, interface_of(tree), past)),
    }
}
