//! The lines of the table.

use crate::case::Case;
use crate::scene::Scene;
use std::alloc::{AllocError, Global};
use test_table::{Judge, cut};

/// What holds for the rows from here on.
#[derive(Drop)]
pub struct Table {
    case: Case,
}

impl Table {
    /// The first case.
    pub fn new() -> Table {
        Table { case: Case::FIRST }
    }
}

impl Judge for Table {
    fn set(&mut self, _alloc: Global, line: &str) -> Result<bool, AllocError> {
        let (word, rest) = cut(line);
        let is_case = word == "case";
        if is_case {
            self.case = Case::of(rest);
        }
        Ok(is_case)
    }

    /// So, where each step comes as it says; else the first that doesn't.
    fn answer(&mut self, alloc: Global, call: &str) -> Result<String, AllocError> {
        let mut scene = Scene::new(alloc, self.case)?;
        for step in call.split(';') {
            if !scene.step(alloc, step)? {
                return String::from_str(alloc, step);
            }
        }
        String::from_str(alloc, "so")
    }
}
