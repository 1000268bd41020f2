//! The table of volumes: linear and striped extents, tables of both, and stripes over inner volumes.
#![tactic(auto)]

mod entries;
mod names;
mod stripes;
mod tables;
mod trees;

use std::alloc::{AllocError, Global};
use test_table::{Judge, cut};

/// The stripe, the devices and the entries of the rows from here on, as the table tells them.
#[derive(Drop)]
pub struct Table {
    stripe: String,
    devices: String,
    entries: String,
}

impl Table {
    /// Of nothing.
    pub fn new(alloc: Global) -> Table {
        Table {
            stripe: String::new(alloc),
            devices: String::new(alloc),
            entries: String::new(alloc),
        }
    }
}

impl Judge for Table {
    fn set(&mut self, alloc: Global, line: &str) -> Result<bool, AllocError> {
        let (word, rest) = cut(line);
        let text = String::from_str(alloc, rest)?;
        match word {
            "stripe" => self.stripe = text,
            "devices" => self.devices = text,
            "entries" => self.entries = text,
            _ => return Ok(false),
        }
        Ok(true)
    }

    fn answer(&mut self, alloc: Global, call: &str) -> Result<String, AllocError> {
        let (word, rest) = cut(call);
        let devices = self.devices.as_str();
        match word {
            "linear" => entries::linear_place(alloc, rest),
            "place" => stripes::place(alloc, self.stripe.as_str(), rest),
            "back" => stripes::back(alloc, self.stripe.as_str(), rest),
            "legs" => stripes::copied(alloc, rest),
            "copy" => entries::copied(alloc, rest),
            "table" => tables::judged(alloc, devices, rest),
            "block" => tables::place(alloc, devices, self.entries.as_str(), rest),
            "tree" => trees::answer(alloc, rest),
            _ => String::from_str(alloc, "no call"),
        }
    }
}
