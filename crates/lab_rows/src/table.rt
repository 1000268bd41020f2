//! The lines of the table.

use crate::calls::came_over;
use crate::images::Images;
use crate::lines::is_mark;
use crate::sweeps::add_sweep;
use crate::wanted::add_call;
use std::alloc::{AllocError, Global};
use test_rig::image_of_words;
use test_table::{Judge, cut, has};

/// The images that rows go over, and the lines of the row that is read.
#[derive(Drop)]
pub struct Table {
    images: Images,
    lines: Vec<String>,
}

impl Table {
    /// Over images of nothing.
    pub fn new(alloc: Global) -> Table {
        Table {
            images: Images {
                first: Vec::new(alloc),
                second: Vec::new(alloc),
            },
            lines: Vec::new(alloc),
        }
    }
}

impl Judge for Table {
    fn set(&mut self, alloc: Global, line: &str) -> Result<bool, AllocError> {
        let (word, rest) = cut(line);
        if word == "image" {
            self.images.first = image_of_words(alloc, rest)?;
            self.images.second = self.images.first.clone()?;
            return Ok(true);
        }
        if word == "second" {
            self.images.second = image_of_words(alloc, rest)?;
            return Ok(true);
        }
        self.lines.push(String::from_str(alloc, line)?)?;
        Ok(is_mark(word))
    }

    /// So, where a row's call comes to what its lines say; else what came otherwise.
    fn answer(&mut self, alloc: Global, _call: &str) -> Result<String, AllocError> {
        let lines = std::mem::replace(&mut self.lines, Vec::new(alloc));
        let mut others = Vec::new(alloc);
        if has(&lines, "each") {
            add_sweep(alloc, &mut others, &lines, &self.images)?;
        } else {
            add_call(
                alloc,
                &mut others,
                &lines,
                &came_over(alloc, &lines, &self.images)?,
            )?;
        }
        if others.is_empty() {
            return String::from_str(alloc, "so");
        }
        let text = others.strip_suffix(b"\n").unwrap_or(&others);
        String::from_str(alloc, std::str::from_utf8(text).unwrap_or("?"))
    }
}
