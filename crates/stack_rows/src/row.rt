//! A row: what is run, and what is to come of it.

use crate::answers::Rule;
use std::alloc::{AllocError, Global};

#[derive(Drop)]
pub(crate) struct Row {
    pub(crate) script: Vec<u8>,
    /// The store's calls that fail.
    pub(crate) fails: Vec<u64>,
    /// How the devices answer, where they don't do what they are asked.
    pub(crate) rules: Vec<Rule>,
    /// Whether the script is run on a mirror, and then repaired.
    pub(crate) is_mirror: bool,
    /// The report behind its first line, or why the script isn't run.
    pub(crate) report: Vec<u8>,
    /// All records behind those of discovery.
    pub(crate) trace: Vec<u8>,
}

impl Row {
    pub(crate) fn new(alloc: Global) -> Row {
        Row {
            script: Vec::new(alloc),
            fails: Vec::new(alloc),
            rules: Vec::new(alloc),
            is_mirror: false,
            report: Vec::new(alloc),
            trace: Vec::new(alloc),
        }
    }

    /// Takes a line of the row, by its first word and the rest.
    pub(crate) fn add(&mut self, word: &str, rest: &str, line: &str) -> Result<(), AllocError> {
        match word {
            ":" => add_line(&mut self.script, rest)?,
            "fails" => add_numbers(&mut self.fails, rest)?,
            "answers" => self.rules.push(Rule::of(rest))?,
            "mirror" => self.is_mirror = true,
            "x" => add_line(&mut self.trace, line)?,
            _ => add_line(&mut self.report, line)?,
        }
        Ok(())
    }
}

fn add_numbers(numbers: &mut Vec<u64>, words: &str) -> Result<(), AllocError> {
    for word in words.split(' ') {
        numbers.push(word.parse::<u64>().unwrap_or(0))?;
    }
    Ok(())
}

/// One more line of a text.
pub(crate) fn add_line(text: &mut Vec<u8>, line: &str) -> Result<(), AllocError> {
    text.extend_from_slice(line.as_bytes())?;
    text.push(b'\n')?;
    Ok(())
}
