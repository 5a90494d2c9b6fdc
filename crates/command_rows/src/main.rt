//! Worked rows of commands: each has the words of a command, the files that it finds, and the status and bytes that were worked out by hand.
//! The program carries each command out by `top` and names those that leave something else.
#![tactic(auto)]

mod row;
mod texts;

use row::Row;
use std::io::{BufRead, BufReader};

fn main(rt: HostRuntime) -> anyhow::Result<()> {
    let alloc = rt.alloc();
    let mut row = Row::new(alloc);
    let mut commands = 0u64;
    let mut others = 0u64;
    for line in BufReader::new(alloc, rt.reader())?.lines(alloc) {
        let line = line?;
        if let Some(status) = row.read(alloc, line.as_str())? {
            commands = commands.saturating_add(1);
            if let Some(got) = row.other_than(alloc, status)? {
                others = others.saturating_add(1);
                println!(rt; "row {}: {}", row.name.as_str(), got.as_str())?;
            }
        }
    }
    println!(rt; "{commands} commands, {others} with another outcome")?;
    Ok(())
}
