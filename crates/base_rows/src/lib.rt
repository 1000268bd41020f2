//! The table of the lowest crates: guards, tuples, faults, sense data, command blocks, blocks on their way through a
//! target, headers of images, and sources, sinks and stores.
#![tactic(auto)]

mod commands;
mod faults;
mod files;
mod guards;
mod headers;
mod names;
mod passages;
mod senses;
mod sources;
mod stores;
mod tuples;
mod walk;

use std::alloc::{AllocError, Global};
use test_table::{Judge, cut};

/// The schedule of faults of the rows from here on, as the table tells it.
#[derive(Drop)]
pub struct Table {
    rt: HostRuntime,
    schedule: String,
}

impl Table {
    /// With no fault.
    pub fn new(rt: HostRuntime) -> Table {
        Table {
            rt,
            schedule: String::new(rt.alloc()),
        }
    }
}

impl Judge for Table {
    fn set(&mut self, alloc: Global, line: &str) -> Result<bool, AllocError> {
        let (word, rest) = cut(line);
        if word != "schedule" {
            return Ok(false);
        }
        self.schedule = String::from_str(alloc, rest)?;
        Ok(true)
    }

    fn answer(&mut self, alloc: Global, call: &str) -> Result<String, AllocError> {
        let (word, rest) = cut(call);
        let schedule = self.schedule.as_str();
        match word {
            "guard" => guards::answer(alloc, rest),
            "tuple" => tuples::answer(alloc, rest),
            "fault" => faults::answer(alloc, schedule, rest),
            "sense" => senses::answer(alloc, rest),
            "cdb" => commands::answer(alloc, rest),
            "block" => passages::answer(alloc, schedule, rest),
            "image" => headers::answer(alloc, rest),
            "bytes" => sources::answer(self.rt, rest),
            "store" => stores::answer(alloc, rest),
            "file" => files::answer(self.rt, rest),
            _ => names::none(alloc),
        }
    }
}
