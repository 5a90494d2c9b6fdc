//! Worked rows of constants: each has an operation on exact numbers and the outcome that was worked out by hand. The program reads rows and
//! names those whose outcome is another.
#![tactic(auto)]

mod rows;
mod texts;

use num_type::Memory;
use rows::put_outcome;
use std::alloc::Global;
use std::io::{BufRead, BufReader};

fn made(alloc: Global, text: &str) -> anyhow::Result<String> {
    let mut out = Vec::new(alloc);
    match put_outcome(alloc, text, &mut out) {
        Ok(()) => Ok(String::from_utf8(out)?),
        Err(Memory) => anyhow::bail!("no memory"),
    }
}

fn main(rt: HostRuntime) -> anyhow::Result<()> {
    let alloc = rt.alloc();
    let mut rows = 0u64;
    let mut others = 0u64;
    for line in BufReader::new(alloc, rt.reader())?.lines(alloc) {
        let line = line?;
        if let Some((text, wanted)) = line.as_str().split_once(" -> ") {
            let got = made(alloc, text)?;
            rows = rows.saturating_add(1);
            if got.as_str() != wanted {
                others = others.saturating_add(1);
                println!(rt; "row {text}: {}, and not {wanted}", got.as_str())?;
            }
        }
    }
    println!(rt; "{rows} rows, {others} with another outcome")?;
    Ok(())
}
