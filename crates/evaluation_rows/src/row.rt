//! Rows as they are read, and their outcomes.

use crate::inputs::read_value;
use crate::outcomes::text_of;
use eval_source::{Outcome, evaluate};
use eval_value::Value;
use mat_ast::File;
use mat_parse::parse;
use num_type::{Memory, Stop};
use std::alloc::{AllocError, Global};

/// A row so far, or what the rows of a table share.
#[derive(Drop)]
pub struct Row {
    /// Its name.
    pub name: String,
    /// The text of its source.
    source: String,
    /// The name of the entry.
    entry: String,
    /// The most turns of each `while`.
    turns: u64,
    /// The values of the entry's inputs.
    inputs: Vec<Value>,
}

/// What a line says.
pub enum Step<'a> {
    /// Nothing, or more of a row.
    More,
    /// The outcome of a row, which it ends.
    Ends(&'a str),
    /// An expression of a table and its outcome.
    Entry(&'a str, &'a str),
}

impl Row {
    /// A row of which nothing is read.
    pub fn new(alloc: Global) -> Row {
        Row {
            name: String::new(alloc),
            source: String::new(alloc),
            entry: String::new(alloc),
            turns: 0,
            inputs: Vec::new(alloc),
        }
    }

    /// The outcome of its source, as rows write it.
    pub fn outcome(&self, alloc: Global) -> anyhow::Result<String> {
        self.outcome_of(alloc, self.source.as_str())
    }

    /// The outcome of its source with an expression in place of `@`.
    pub fn outcome_with(&self, alloc: Global, expression: &str) -> anyhow::Result<String> {
        match self.source.split_once('@') {
            None => anyhow::bail!("a table without `@`"),
            Some((front, back)) => {
                let source = format!(in alloc; "{front}{expression}{back}")?;
                self.outcome_of(alloc, source.as_str())
            }
        }
    }

    fn outcome_of(&self, alloc: Global, source: &str) -> anyhow::Result<String> {
        match parse(alloc, source.as_bytes()) {
            Ok(file) => self.outcome_in(alloc, &file),
            Err(Stop::Memory) => anyhow::bail!("no memory"),
            Err(Stop::Refused(r)) => {
                let text = format!(in alloc; "refused {}:{}", r.place.line, r.place.col)?;
                Ok(text)
            }
        }
    }

    fn outcome_in(&self, alloc: Global, file: &File) -> anyhow::Result<String> {
        let inputs = self.inputs.as_slice();
        match evaluate(alloc, file, self.entry.as_str(), inputs, self.turns) {
            Ok(outcome) => written(alloc, outcome),
            Err(Memory) => anyhow::bail!("no memory"),
        }
    }
}

fn written(alloc: Global, outcome: Outcome) -> anyhow::Result<String> {
    match text_of(alloc, &outcome) {
        Ok(text) => Ok(String::from_utf8(text)?),
        Err(Memory) => anyhow::bail!("no memory"),
    }
}

fn set(alloc: Global, text: &str, to: &mut String) -> Result<(), AllocError> {
    *to = String::from_str(alloc, text)?;
    Ok(())
}

fn put(text: &str, to: &mut String) -> Result<(), AllocError> {
    to.push_str(text)?;
    to.push('\n')?;
    Ok(())
}

/// Reads a line: `row NAME` or `table NAME`, `| TEXT` of the source, `entry NAME`, `turns NUMBER`, `in VALUE`, of a table `= EXPRESSION -> OUTCOME`,
/// and the outcome of a row. A comment behind `#` and an empty line say nothing.
pub fn read_line<'a>(alloc: Global, line: &'a str, row: &mut Row) -> anyhow::Result<Step<'a>> {
    if line.is_empty() || line.starts_with('#') {
        return Ok(Step::More);
    }
    if let Some(name) = line.strip_prefix("row ") {
        *row = Row::new(alloc);
        set(alloc, name, &mut row.name)?;
    } else if let Some(name) = line.strip_prefix("table ") {
        *row = Row::new(alloc);
        set(alloc, name, &mut row.name)?;
    } else if let Some(text) = line.strip_prefix("| ") {
        put(text, &mut row.source)?;
    } else if let Some(name) = line.strip_prefix("entry ") {
        set(alloc, name, &mut row.entry)?;
    } else if let Some(number) = line.strip_prefix("turns ") {
        row.turns = number.parse()?;
    } else if let Some(text) = line.strip_prefix("in ") {
        match read_value(alloc, text)? {
            Some(value) => row.inputs.push(value)?,
            None => anyhow::bail!("no value: {text}"),
        }
    } else {
        return last_of(line);
    }
    Ok(Step::More)
}

fn last_of(line: &str) -> anyhow::Result<Step<'_>> {
    match line.strip_prefix("= ") {
        None => Ok(Step::Ends(line)),
        Some(text) => match text.split_once(" -> ") {
            Some((expression, outcome)) => Ok(Step::Entry(expression, outcome)),
            None => anyhow::bail!("no outcome: {line}"),
        },
    }
}
