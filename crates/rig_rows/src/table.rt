//! What the rows stand on, and which part a row is about.

use crate::files::Files;
use crate::images::Images;
use crate::modes::lines;
use crate::units::type_of;
use crate::ways::Way;
use crate::{capacity, nvm, stretches};
use nvme_front::NvmFront;
use std::alloc::{AllocError, Global};
use test_table::{Judge, cut};

/// An image in memory, a front of its units, an image in a file, and the way of a block.
#[derive(Drop)]
pub struct Table {
    images: Images,
    front: Option<NvmFront>,
    files: Files,
    way: Way,
}

impl Table {
    /// Over no image.
    pub fn new(rt: HostRuntime) -> Table {
        Table {
            images: Images::new(rt.alloc()),
            front: None,
            files: Files::new(rt),
            way: Way::of(""),
        }
    }

    /// What a call comes to; none where it may not be done.
    fn told(&mut self, alloc: Global, call: &str) -> Result<Option<String>, AllocError> {
        let (word, rest) = cut(call);
        match word {
            "lengths" => nvm::lengths(alloc, &self.front, rest),
            "nvm" => nvm::answer(alloc, &mut self.images.rig, rest),
            "place" | "reads" | "writes" => {
                stretches::answer(alloc, &self.images.image, word, rest)
            }
            "capacity" => capacity::answer(alloc, &self.images.image, rest),
            "last" => self.files.answer(alloc),
            "write" => Ok(Some(self.way.written(alloc, rest)?)),
            "read" => Ok(Some(self.way.read(alloc, rest)?)),
            "modes" => Ok(Some(lines(alloc, type_of(rest))?)),
            _ => self.images.answer(alloc, word, rest),
        }
    }
}

impl Judge for Table {
    fn set(&mut self, alloc: Global, line: &str) -> Result<bool, AllocError> {
        let (word, rest) = cut(line);
        match word {
            "front" => {
                self.front = nvm::front(alloc, &mut self.images.rig);
                Ok(self.front.is_some())
            }
            "route" => {
                self.way = Way::of(rest);
                Ok(true)
            }
            "file" | "change" | "remove" => self.files.set(alloc, word, rest),
            _ => self.images.set(alloc, word, rest),
        }
    }

    fn answer(&mut self, alloc: Global, call: &str) -> Result<String, AllocError> {
        match self.told(alloc, call)? {
            Some(text) => Ok(text),
            None => String::from_str(alloc, "out of range"),
        }
    }
}
