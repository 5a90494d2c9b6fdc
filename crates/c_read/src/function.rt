//! The tokens of a function.

ghost use Rattle.std.specs.Prelude.{◌≡◌, ◌<◌, Bool, MatchOption, None, Some, Err, suc, length, take};
ghost use Rattle.c_depth.specs.First.{IsFirstDeep};
ghost use Rattle.c_depth.specs.Read.{word_depths};
ghost use Rattle.c_grammar.specs.Live.{IsRefused, IsSentence};
ghost use Rattle.c_grammar.specs.Sentence.{Words};
ghost use Rattle.c_grammar.specs.Spelled.{AreWordsOf};
ghost use Rattle.c_token.specs.Line.{IsSignature};
ghost use Rattle.c_token.specs.Scan.{lexemes_of, texts_of};
ghost use Rattle.c_tree.specs.Spelling.{Texts};
ghost use Rattle.c_tree.specs.Tree.{Program, Signature};
ghost use Rattle.c_tree.specs.View.{interface_view};
ghost use Rattle.c_tree.specs.WellFormed.{IsInterface};
ghost use Rattle.c_tree.specs.Whole.{program_of};
ghost use Rattle.c_read.specs.Program.{IsBadToken};
ghost use Rattle.c_read.specs.Tokens.{IsProgramOf, ReadsTokens, TestsSlots};

use crate::refusal::CBad;
use c_depth::{depth_by_words, depths_by_words, first_deep};
use c_grammar::{CWordToken, texts_go_by_words};
use c_parse::parse;
use c_token::{CToken, interface_has_a_slot};
use c_tree::{CProgram, Interface, depth_is_the_greatest};
use c_word::words_of;
use num_type::Stop;
use std::alloc::Global;

/// Where tokens are refused.
#[derive(Clone, Copy, Debug, PartialEq, Eq)]
pub(crate) struct BadToken {
    /// How many tokens stand before the place.
    pub(crate) at: usize,
    /// Why.
    pub(crate) kind: CBad,
}

/// Whether an interface has an input or an output.
fn has_slot(interface: &Interface) -> bool
    ensures { TestsSlots result (interface_view interface.now) }
{
    if !interface.inputs.is_empty() {
        return true;
    }
    !interface.outputs.is_empty()
}

/// Where words are refused none of which is deep.
fn refused_at(at: usize) -> BadToken
    ensures { (i : Signature) (ts : Texts) (ws : Words) (at_end : Bool) → IsInterface i → AreWordsOf i ts ws → IsFirstDeep None (word_depths ws)
        → IsRefused i ws at → IsBadToken result.kind i ts at_end result.at }
{
    texts_go_by_words();
    depth_by_words();
    BadToken {
        at,
        kind: CBad::Token,
    }
}

/// Where words are refused whose front, up to and with the first deep one, is refused at a place: there, if it stands before the deep one or at it.
fn refused_in_front(first: usize, at: usize) -> BadToken
    ensures { (i : Signature) (ts : Texts) (ws : Words) (at_end : Bool) → IsInterface i → AreWordsOf i ts ws → IsFirstDeep (Some first) (word_depths ws)
        → IsRefused i (take (suc first) ws) at → IsBadToken result.kind i ts at_end result.at }
{
    texts_go_by_words();
    depth_by_words();
    depths_by_words();
    if first < at {
        return BadToken {
            at: first,
            kind: CBad::Limit,
        };
    }
    BadToken {
        at,
        kind: CBad::Token,
    }
}

/// Where the tokens of a program, none of which is deep, are refused after all: behind them where a byte follows.
fn after_all(count: usize, at_end: bool) -> Option<BadToken>
    ensures { (i : Signature) (p : Program) (ts : Texts) (ws : Words) → IsInterface i → AreWordsOf i ts ws → IsFirstDeep None (word_depths ws)
        → IsSentence i p ws → count ≡ length ws → MatchOption result (IsProgramOf i p ts at_end) (λ b. IsBadToken b.kind i ts at_end b.at) }
{
    texts_go_by_words();
    depth_by_words();
    depths_by_words();
    depth_is_the_greatest();
    if at_end {
        return None;
    }
    Some(BadToken {
        at: count,
        kind: CBad::Token,
    })
}

/// A refusal, which lets go of the program.
fn refuse(program: CProgram, bad: BadToken) -> Stop<BadToken>
    ensures { result ≡ Stop.Refused bad }
{
    Stop::Refused(bad)
}

/// The program, where its tokens aren't refused after all.
fn unless_bad(program: CProgram, bad: Option<BadToken>) -> Result<CProgram, Stop<BadToken>>
    ensures { (i : Signature) (ts : Texts) (at_end : Bool) → MatchOption bad (IsProgramOf i (program_of program) ts at_end) (λ b. IsBadToken b.kind i ts at_end b.at)
        → ReadsTokens result i ts at_end }
{
    match bad {
        None => Ok(program),
        Some(bad) => Err(refuse(program, bad)),
    }
}

/// The program of words none of which is deep.
fn read_words(
    alloc: Global,
    interface: Interface,
    words: &[CWordToken],
    at_end: bool,
) -> Result<CProgram, Stop<BadToken>>
    requires interface { IsInterface (interface_view interface) }
    requires deep { IsFirstDeep None (word_depths words.now) }
    ensures { (ts : Texts) → AreWordsOf (interface_view interface) ts words.now → ReadsTokens result (interface_view interface) ts at_end }
{
    match parse(alloc, interface, words) {
        Err(Stop::Memory) => Err(Stop::Memory),
        Err(Stop::Refused(bad)) => Err(Stop::Refused(refused_at(bad.at))),
        Ok(program) => {
            let bad = after_all(words.len(), at_end);
            let r = unless_bad(program, bad);
            r
        }
    }
}

/// The words up to and with one of them.
fn up_to(words: &[CWordToken], last: usize) -> &[CWordToken]
    requires { last < length words.now }
    ensures { result.now ≡ take (suc last) words.now }
{
    words.split_at(last + 1).0
}

/// Why words are refused of which one is deep. Only those up to the first deep one are parsed, so that no deep tree is ever built.
fn refuse_deep(
    alloc: Global,
    interface: Interface,
    words: &[CWordToken],
    first: usize,
) -> Stop<BadToken>
    requires interface { IsInterface (interface_view interface) }
    requires deep { IsFirstDeep (Some first) (word_depths words.now) }
    ensures { (ts : Texts) (at_end : Bool) → AreWordsOf (interface_view interface) ts words.now → ReadsTokens (Err result) (interface_view interface) ts at_end }
{
    texts_go_by_words();
    depth_by_words();
    depths_by_words();
    match parse(alloc, interface, up_to(words, first)) {
        Err(Stop::Memory) => Stop::Memory,
        Err(Stop::Refused(bad)) => Stop::Refused(refused_in_front(first, bad.at)),
        Ok(program) => {
            drop(program);
            Stop::Refused(BadToken {
                at: first,
                kind: CBad::Limit,
            })
        }
    }
}

/// Want of memory, which lets go of the interface.
fn failed(interface: Interface) -> Stop<BadToken>
    ensures { result ≡ Stop.Memory }
{
    Stop::Memory
}

/// The program of words.
fn read_shallow(
    alloc: Global,
    interface: Interface,
    words: &[CWordToken],
    at_end: bool,
) -> Result<CProgram, Stop<BadToken>>
    requires { IsInterface (interface_view interface) }
    ensures { (ts : Texts) → AreWordsOf (interface_view interface) ts words.now → ReadsTokens result (interface_view interface) ts at_end }
{
    match first_deep(alloc, words) {
        Err(_) => Err(failed(interface)),
        Ok(None) => {
            let r = read_words(alloc, interface, words, at_end);
            r
        }
        Ok(Some(first)) => Err(refuse_deep(alloc, interface, words, first)),
    }
}

/// The refusal of all tokens.
fn no_program(interface: Interface) -> Stop<BadToken>
    ensures { result ≡ Stop.Refused (record { at = 0; kind = CBad.Token }) }
{
    Stop::Refused(BadToken {
        at: 0,
        kind: CBad::Token,
    })
}

/// The program of an interface and the tokens of a function, behind which a byte follows or not. Refused with the number of the tokens before
/// the place.
pub(crate) fn read_tokens(
    alloc: Global,
    interface: Interface,
    function: &[u8],
    tokens: &[CToken],
    at_end: bool,
) -> Result<CProgram, Stop<BadToken>>
    requires { IsSignature (interface_view interface) }
    ensures { ReadsTokens result (interface_view interface) (texts_of (lexemes_of function.now tokens.now)) at_end }
{
    interface_has_a_slot();
    if !has_slot(&interface) {
        return Err(no_program(interface));
    }
    match words_of(alloc, &interface, function, tokens) {
        Err(_) => Err(failed(interface)),
        Ok(words) => {
            let r = read_shallow(alloc, interface, &words, at_end);
            r
        }
    }
}
