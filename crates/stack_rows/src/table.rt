//! The lines of the table.

use crate::image::Image;
use crate::row::{Row, add_line};
use crate::runs::came_of;
use std::alloc::{AllocError, Global};
use test_table::{Judge, cut};

/// The image from here on, and the row that is read.
#[derive(Drop)]
pub struct Table {
    image: Image,
    row: Row,
}

/// Adds the lines that came, where they aren't those that were wanted.
fn add_other(text: &mut Vec<u8>, came: &[u8], wanted: &[u8]) -> Result<(), AllocError> {
    if came == wanted {
        Ok(())
    } else if came.is_empty() {
        add_line(text, "no line")
    } else {
        text.extend_from_slice(came)
    }
}

impl Table {
    /// Over no image.
    pub fn new(alloc: Global) -> Table {
        Table {
            image: Image::none(alloc),
            row: Row::new(alloc),
        }
    }
}

impl Judge for Table {
    fn set(&mut self, alloc: Global, line: &str) -> Result<bool, AllocError> {
        let (word, rest) = cut(line);
        if word == "image" {
            self.image = Image::of(alloc, rest)?;
        } else {
            self.row.add(word, rest, line)?;
        }
        Ok(true)
    }

    /// So, where the run of a row comes to what its lines say; else what came otherwise.
    fn answer(&mut self, alloc: Global, _call: &str) -> Result<String, AllocError> {
        let row = std::mem::replace(&mut self.row, Row::new(alloc));
        let came = came_of(alloc, &self.image, &row)?;
        let mut others = Vec::new(alloc);
        add_other(&mut others, &came.report, &row.report)?;
        add_other(&mut others, &came.trace, &row.trace)?;
        if others.is_empty() {
            return String::from_str(alloc, "so");
        }
        let text = others.strip_suffix(b"\n").unwrap_or(&others);
        String::from_str(alloc, std::str::from_utf8(text).unwrap_or("?"))
    }
}
