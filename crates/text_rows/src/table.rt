//! The lines of the table.

use crate::lines::lines_row;
use crate::records::record_row;
use crate::reports::{replies_of, report_row};
use crate::scrubs::trace_row;
use crate::words::word_row;
use stack_ops::Reply;
use std::alloc::{AllocError, Global};
use test_table::{Judge, cut, text_of};

/// What the rows stand on.
#[derive(Drop)]
pub struct Table {
    /// What a report is of.
    replies: Vec<Reply>,
    /// What a sink has that takes it all.
    whole: Vec<u8>,
}

impl Table {
    /// Of no lines.
    pub fn new(alloc: Global) -> Table {
        Table {
            replies: Vec::new(alloc),
            whole: Vec::new(alloc),
        }
    }
}

impl Judge for Table {
    fn set(&mut self, alloc: Global, line: &str) -> Result<bool, AllocError> {
        let (word, rest) = cut(line);
        match word {
            "replies" => self.replies = replies_of(alloc, rest)?,
            "whole" => self.whole = text_of(alloc, rest)?,
            _ => return Ok(false),
        }
        Ok(true)
    }

    fn answer(&mut self, alloc: Global, call: &str) -> Result<String, AllocError> {
        let (word, rest) = cut(call);
        match word {
            "lines" => lines_row(alloc, &text_of(alloc, rest)?),
            "report" => report_row(alloc, rest, &self.replies, &self.whole),
            "record" => record_row(alloc, rest, &self.whole),
            "trace" => trace_row(alloc, rest, &self.whole),
            _ => word_row(alloc, word, rest),
        }
    }
}
