//! The lines of the table.

use crate::binding::{Target, bound_row};
use crate::forming::formed_row;
use crate::generated::generated_row;
use crate::reading::{numbers_row, printed_row, read_row};
use pi_tuple::PiType;
use std::alloc::{AllocError, Global};
use test_table::{Judge, cut, small, text_of};
use volume_table::DeviceInfo;

/// What the rows stand on.
#[derive(Drop)]
pub struct Table {
    /// What stands before a row's text, and behind its line.
    front: Vec<u8>,
    tail: Vec<u8>,
    /// What is printed.
    text: Vec<u8>,
    devices: Vec<DeviceInfo>,
}

fn type_of(word: &str) -> PiType {
    match small(word) {
        0 => PiType::Zero,
        1 => PiType::One,
        2 => PiType::Two,
        _ => PiType::Three,
    }
}

/// The device of three words or four, of 256 blocks where no number is given.
fn device_of(words: &str) -> DeviceInfo {
    let (ty, rest) = cut(words);
    let (size, rest) = cut(rest);
    let (first, blocks) = cut(rest);
    let blocks = if blocks.is_empty() {
        256
    } else {
        small(blocks)
    };
    DeviceInfo {
        ty: type_of(ty),
        blocks: u64::from(blocks),
        size: small(size),
        first: u64::from(small(first)),
    }
}

impl Table {
    /// Of no lines.
    pub fn new(alloc: Global) -> Table {
        Table {
            front: Vec::new(alloc),
            tail: Vec::new(alloc),
            text: Vec::new(alloc),
            devices: Vec::new(alloc),
        }
    }

    /// The text of a row behind the front.
    fn behind(&self, alloc: Global, text: &str) -> Result<Vec<u8>, AllocError> {
        let mut whole = Vec::from_slice(alloc, &self.front)?;
        whole.extend_from_slice(&text_of(alloc, text)?)?;
        Ok(whole)
    }

    /// The line of a row between the front and the tail.
    fn between(&self, alloc: Global, line: &str) -> Result<Vec<u8>, AllocError> {
        let mut whole = self.behind(alloc, line)?;
        whole.push(b'\n')?;
        whole.extend_from_slice(&self.tail)?;
        Ok(whole)
    }

    /// What comes of the text of a row that is bound.
    fn bound(&self, alloc: Global, text: &str, target: Target) -> Result<String, AllocError> {
        bound_row(alloc, &self.behind(alloc, text)?, target, &self.devices)
    }
}

impl Judge for Table {
    fn set(&mut self, alloc: Global, line: &str) -> Result<bool, AllocError> {
        let (word, rest) = cut(line);
        match word {
            "front" => self.front = text_of(alloc, rest)?,
            "tail" => self.tail = text_of(alloc, rest)?,
            "text" => self.text = text_of(alloc, rest)?,
            "devices" => self.devices.clear(),
            "device" => self.devices.push(device_of(rest))?,
            _ => return Ok(false),
        }
        Ok(true)
    }

    fn answer(&mut self, alloc: Global, call: &str) -> Result<String, AllocError> {
        let (word, rest) = cut(call);
        match word {
            "row" => read_row(alloc, &self.between(alloc, rest)?),
            "at" => read_row(alloc, &self.behind(alloc, rest)?),
            "bind" => self.bound(alloc, rest, Target::Volume),
            "mirror" => self.bound(alloc, rest, Target::Mirror),
            "form" => formed_row(alloc, &self.behind(alloc, rest)?),
            "prints" => printed_row(alloc, &self.text, &text_of(alloc, rest)?),
            "numbers" => numbers_row(alloc, &text_of(alloc, rest)?),
            _ => generated_row(alloc, word, rest),
        }
    }
}
