//! Worked rows of evaluation: each has a source, the entry, its inputs, a bound on turns, and the outcome that was worked out by hand. The
//! program reads rows, evaluates each, and names those whose outcome is another.
#![tactic(auto)]

mod inputs;
mod outcomes;
mod row;

use row::{Row, Step, read_line};
use std::io::{self, BufRead, BufReader};

// How many rows there were, and how many with another outcome.
#[derive(Drop)]
struct Tally {
    rows: u64,
    others: u64,
}

// Counts a row, and says what came out where another outcome was worked out.
fn count(
    rt: &impl Print,
    tally: &mut Tally,
    name: &str,
    wanted: &str,
    got: &str,
) -> io::Result<()> {
    tally.rows = tally.rows.saturating_add(1);
    if got != wanted {
        tally.others = tally.others.saturating_add(1);
        println!(rt; "row {name}: {got}, and not {wanted}")?;
    }
    Ok(())
}

fn main(rt: HostRuntime) -> anyhow::Result<()> {
    let alloc = rt.alloc();
    let mut row = Row::new(alloc);
    let mut tally = Tally { rows: 0, others: 0 };
    for line in BufReader::new(alloc, rt.reader())?.lines(alloc) {
        let line = line?;
        match read_line(alloc, line.as_str(), &mut row)? {
            Step::More => {}
            Step::Ends(wanted) => {
                let got = row.outcome(alloc)?;
                count(&rt, &mut tally, row.name.as_str(), wanted, got.as_str())?;
                row = Row::new(alloc);
            }
            Step::Entry(expression, wanted) => {
                let got = row.outcome_with(alloc, expression)?;
                count(&rt, &mut tally, expression, wanted, got.as_str())?;
            }
        }
    }
    println!(rt;
        "{} rows, {} with another outcome",
        tally.rows, tally.others
    )?;
    Ok(())
}
