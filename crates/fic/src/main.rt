//! The program `fic`: compiles fixed-point functions to integer C.
#![tactic(auto)]

use fi_cli::top;
use fic_io::{ErrSink, FileShelf, Open, OutSink};
use std::env;
use std::io::{self, ErrorKind};
use std::process::ExitCode;

/// The status where memory for the words is wanting.
const MEMORY_STATUS: u8 = 4;

/// The status where a word isn't UTF-8.
const NOT_UTF8_STATUS: u8 = 6;

// The words behind the program's name. Refused where one isn't UTF-8, and where memory is wanting.
fn words(rt: HostRuntime) -> io::Result<Vec<String>> {
    let mut words = Vec::new(rt.alloc());
    for word in env::args(&rt)?.skip(1) {
        words.push(word)?;
    }
    Ok(words)
}

// Carries out the words over real files and streams, and answers the status.
fn run(rt: HostRuntime, words: &[String]) -> u8 {
    let mut shelf = FileShelf::new(rt);
    let mut out = OutSink::new(rt);
    let mut err = ErrSink::new(rt);
    top(rt.alloc(), words, &mut shelf, &mut out, &mut err, &Open {})
}

fn main(rt: HostRuntime) -> ExitCode {
    let status = match words(rt) {
        Ok(words) => run(rt, words.as_slice()),
        Err(error) if error.kind() == ErrorKind::InvalidData => NOT_UTF8_STATUS,
        Err(_) => MEMORY_STATUS,
    };
    ExitCode::from(status)
}
