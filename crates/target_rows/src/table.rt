//! The lines of the table.

use crate::scene::Scene;
use crate::units::{FIRST, unit_of};
use std::alloc::{AllocError, Global};
use target_model::LogicalUnit;
use test_table::{Judge, bytes_of, cut};

/// The unit and the bytes of its store from here on.
#[derive(Drop)]
pub struct Table {
    unit: LogicalUnit,
    held: Vec<u8>,
}

impl Table {
    /// A unit whose store is empty.
    pub fn new(alloc: Global) -> Table {
        Table {
            unit: FIRST,
            held: Vec::new(alloc),
        }
    }
}

impl Judge for Table {
    fn set(&mut self, alloc: Global, line: &str) -> Result<bool, AllocError> {
        let (word, rest) = cut(line);
        match word {
            "unit" => self.unit = unit_of(rest),
            "store" => self.held = bytes_of(alloc, rest)?,
            _ => return Ok(false),
        }
        Ok(true)
    }

    /// So, where each step comes as it says; else the first that doesn't.
    fn answer(&mut self, alloc: Global, call: &str) -> Result<String, AllocError> {
        let mut scene = Scene::new(alloc, self.unit, &self.held)?;
        for step in call.split(';') {
            if !scene.step(alloc, step)? {
                return String::from_str(alloc, step);
            }
        }
        String::from_str(alloc, "so")
    }
}
