//! The words of a call.

ghost use Rattle.std.specs.Prelude.{◌≡◌, ◌↔◌, ◌∷◌, [], IsTrue, codes, map, string_bytes, IfOk, IfErr};
ghost use Rattle.fi_cli.specs.Forms.{IsCompile, IsRun, IsForm, IsBadAt};
ghost use Rattle.fi_cli.specs.View.{ReadsWord, ReadsWords, ReadsTurns, RefusesAt, command_view};

use fic_base::is_name;
use num_type::{Memory, Stop, read_digits};
use shape_rules::{Declared, read_type};
use std::alloc::Global;

/// The greatest bound on loop turns.
const TURNS_MAX: u128 = 1_000_000;

/// What a call asks for.
#[derive(Drop)]
pub enum Command<'a> {
    /// The program of an entry.
    Compile(Compile<'a>),
    /// The results of a program.
    Run(Run<'a>),
}

/// What a call of `compile` asks for.
#[derive(Drop)]
pub struct Compile<'a> {
    /// The name of the source on the shelf.
    pub file: &'a str,
    /// The name of the function.
    pub entry: &'a str,
    /// The declared types of its inputs, in order.
    pub types: Vec<Declared>,
}

/// What a call of `run` asks for.
#[derive(Clone, Copy)]
pub struct Run<'a> {
    /// The name of the C text on the shelf.
    pub file: &'a str,
    /// The name of the cases on the shelf.
    pub cases: &'a str,
    /// The bound on loop turns.
    pub turns: u64,
}

// What the words behind the entry are.
#[derive(Drop)]
enum TypeWords {
    // Types.
    All(Vec<Declared>),
    // Types up to this position, which has no word of a type.
    NoneAt(usize),
}

/// What the words ask for. Refused with the first position at which no form goes on, or with the number of words where each goes on.
pub fn read_words(alloc: Global, words: &[String]) -> Result<Command<'_>, Stop<usize>>
    ensures form { IfOk result (λ c. IsForm (command_view c) (map string_bytes words.now)) }
    ensures bad { IfErr result (λ stop. RefusesAt stop (IsBadAt (map string_bytes words.now))) }
{
    let Some((command, rest)) = words.split_first() else {
        return Err(Stop::Refused(0));
    };
    if is_compile(command.as_str()) {
        return match read_compile(alloc, rest) {
            Ok(compile) => Ok(Command::Compile(compile)),
            Err(stop) => Err(stop),
        };
    }
    if is_run(command.as_str()) {
        return match read_run(rest) {
            Ok(run) => Ok(Command::Run(run)),
            Err(at) => Err(Stop::Refused(at)),
        };
    }
    Err(Stop::Refused(0))
}

// What the words behind `compile` ask for. Refused as all the words are.
fn read_compile(alloc: Global, words: &[String]) -> Result<Compile<'_>, Stop<usize>>
    ensures form { IfOk result (λ c. IsCompile c.file.now c.entry.now c.types.items (codes "compile" ∷ map string_bytes words.now)) }
    ensures bad { IfErr result (λ stop. RefusesAt stop (IsBadAt (codes "compile" ∷ map string_bytes words.now))) }
{
    let Some((file, rest)) = words.split_first() else {
        return Err(Stop::Refused(1));
    };
    if is_nothing(file.as_str()) {
        return Err(Stop::Refused(1));
    }
    let Some((entry, rest)) = rest.split_first() else {
        return Err(Stop::Refused(2));
    };
    if !is_name(entry.as_bytes()) {
        return Err(Stop::Refused(2));
    }
    match read_types(alloc, rest)? {
        TypeWords::All(types) => Ok(Compile {
            file: file.as_str(),
            entry: entry.as_str(),
            types,
        }),
        TypeWords::NoneAt(at) => Err(Stop::Refused(1 + words.len() - (rest.len() - at))),
    }
}

// What the words behind `run` ask for. Refused with the position, as all the words are.
fn read_run(words: &[String]) -> Result<Run<'_>, usize>
    ensures form { IfOk result (λ r. IsRun r.file.now r.cases.now r.turns (codes "run" ∷ map string_bytes words.now)) }
    ensures bad { IfErr result (λ n. IsBadAt (codes "run" ∷ map string_bytes words.now) n) }
{
    let Some((file, rest)) = words.split_first() else {
        return Err(1);
    };
    if is_nothing(file.as_str()) {
        return Err(1);
    }
    let Some((cases, rest)) = rest.split_first() else {
        return Err(2);
    };
    if is_nothing(cases.as_str()) {
        return Err(2);
    }
    let Some((bound, rest)) = rest.split_first() else {
        return Err(3);
    };
    match read_turns(bound.as_bytes()) {
        None => Err(3),
        Some(turns) => {
            if rest.is_empty() {
                Ok(Run {
                    file: file.as_str(),
                    cases: cases.as_str(),
                    turns,
                })
            } else {
                Err(4)
            }
        }
    }
}

// The bound on loop turns of a word. None exactly where the word is that of none.
fn read_turns(word: &[u8]) -> Option<u64>
    ensures { ReadsTurns result word.now }
{
    match read_digits(word) {
        None => None,
        Some(turns) => {
            if turns <= TURNS_MAX {
                Some(turns as u64)
            } else {
                None
            }
        }
    }
}

// Whether a word asks for a program.
fn is_compile(word: &str) -> bool
    ensures { IsTrue result ↔ (word.now ≡ codes "compile") }
{
    word == "compile"
}

// Whether a word asks for results.
fn is_run(word: &str) -> bool
    ensures { IsTrue result ↔ (word.now ≡ codes "run") }
{
    word == "run"
}

// Whether a word has no byte.
fn is_nothing(word: &str) -> bool
    ensures { IsTrue result ↔ (word.now ≡ []) }
{
    word.is_empty()
}

// The types of words, or the first position of a word that is that of none. Want of memory is the only refusal.
fn read_types(alloc: Global, words: &[String]) -> Result<TypeWords, Memory>
    ensures { IfOk result (λ types. ReadsWords types (map string_bytes words.now)) }
{
    let mut types = Vec::new(alloc);
    let mut at = 0;
    for word in words {
        match read_scalar(word.as_bytes()) {
            Some(declared) => types.push(declared)?,
            None => return Ok(TypeWords::NoneAt(at)),
        }
        at += 1;
    }
    Ok(TypeWords::All(types))
}

// The type of a word: one real element so far. None exactly where the word is that of none.
fn read_scalar(word: &[u8]) -> Option<Declared>
    ensures { ReadsWord result word.now }
{
    match read_type(word) {
        None => None,
        Some(declared) => {
            if declared.complex {
                return None;
            }
            if declared.shape.elements() == 1 {
                Some(declared)
            } else {
                None
            }
        }
    }
}
