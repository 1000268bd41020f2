//! What the rows stand on, and which part a row is about.

use crate::crowd::Crowd;
use crate::queues::Device;
use crate::scene::Scene;
use crate::{bios, gates, ops, pages, tuples};
use std::alloc::{AllocError, Global};
use test_table::{Judge, cut, small};

/// The pages and the request, a queue, and a gate.
#[derive(Drop)]
pub struct Table {
    scene: Scene,
    device: Device,
    crowd: Crowd,
}

impl Table {
    /// Of fresh pages, an empty queue and an open gate.
    pub fn new(alloc: Global) -> Result<Table, AllocError> {
        Ok(Table {
            scene: Scene::new(alloc)?,
            device: Device::new(alloc)?,
            crowd: Crowd::new(alloc)?,
        })
    }

    /// What a call comes to; none where it may not be done.
    fn told(
        &mut self,
        alloc: Global,
        word: &str,
        rest: &str,
    ) -> Result<Option<String>, AllocError> {
        match word {
            "part" | "parts" | "count" | "gather" | "segs" | "total" | "shares" => {
                pages::answer(alloc, &self.scene, word, rest)
            }
            "tuple" | "verify" => tuples::answer(alloc, &self.scene, word, rest),
            "of" | "blocks" | "split" | "complete" | "size" => {
                bios::answer(alloc, &self.scene, word, rest)
            }
            "waits" => gates::answer(alloc, rest),
            "op" => self.crowd.answer(alloc, small(rest)),
            "ops" | "alone" => ops::answer(alloc, word, rest),
            _ => self.device.answer(alloc, word, rest),
        }
    }
}

impl Judge for Table {
    fn set(&mut self, alloc: Global, line: &str) -> Result<bool, AllocError> {
        let (word, rest) = cut(line);
        match word {
            "bio" => Ok(bios::set(&mut self.scene, rest)),
            "admit" | "end" => Ok(self.crowd.set(word, small(rest))),
            "queue" | "limits" | "keep" => self.device.set(alloc, line),
            _ => self.scene.set(alloc, line),
        }
    }

    fn answer(&mut self, alloc: Global, call: &str) -> Result<String, AllocError> {
        let (word, rest) = cut(call);
        match self.told(alloc, word, rest)? {
            Some(text) => Ok(text),
            None => String::from_str(alloc, "out of range"),
        }
    }
}
