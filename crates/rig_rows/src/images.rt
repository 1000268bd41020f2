//! Images in memory, and a rig over one.

ghost use Rattle.std.specs.Prelude.{◌<◌, length};

use crate::units::{opened_word, outcome_text, part, units_of};
use dix_base::MemStore;
use fault_schedule::Label;
use image_rig::ImageRig;
use rig_api::{Outcome, Rig, blocks_of};
use std::alloc::{AllocError, Global};
use test_table::{Words, bytes_of, hex_of, small};

const LABELS: [Label; 2] = [Label { op: 3, k: 0 }, Label { op: 3, k: 1 }];

/// The image that was formatted last, and a rig over a copy of it.
#[derive(Drop)]
pub(crate) struct Images {
    pub(crate) image: Vec<u8>,
    pub(crate) rig: ImageRig<MemStore>,
}

/// A rig over this image, whose store fails at this call, or never where it is 0.
pub(crate) fn rig_over(
    alloc: Global,
    image: Vec<u8>,
    fail: u64,
) -> Result<ImageRig<MemStore>, AllocError> {
    let fails = vec![in alloc; fail]?;
    Ok(ImageRig::new(alloc, MemStore::new(image, fails)))
}

/// The formatted image of these units, which is empty where there can be none.
fn image_of(alloc: Global, words: &str) -> Result<Vec<u8>, AllocError> {
    let units = units_of(words);
    test_rig::formatted(alloc, &units)
}

fn copy(alloc: Global, bytes: &[u8]) -> Result<Vec<u8>, AllocError> {
    Vec::from_slice(alloc, bytes)
}

/// The image with one byte altered, cut to this length after one more byte.
fn altered(
    alloc: Global,
    image: &[u8],
    at: u64,
    bits: u8,
    len: u64,
) -> Result<Vec<u8>, AllocError> {
    let mut bytes = copy(alloc, image)?;
    bytes.push(0)?;
    if let Some(byte) = bytes.get_mut(at as usize) {
        *byte ^= bits;
    }
    bytes.truncate(len as usize);
    Ok(bytes)
}

/// How an opening ends, and how many devices there are then.
fn opened<R: Rig>(alloc: Global, rig: &mut R) -> Result<String, AllocError> {
    let word = opened_word(rig.open(alloc, "unit.img"));
    let devices = rig.devices();
    format!(in alloc; "{word} {devices}")
}

fn migrated<R: Rig>(alloc: Global, rig: &mut R) -> Result<String, AllocError> {
    let came = rig.migrate(alloc, "unit.img");
    let devices = rig.devices();
    match came {
        Ok(count) => format!(in alloc; "{count} {devices}"),
        Err(fault) => {
            let name = fault.name();
            format!(in alloc; "{name} {devices}")
        }
    }
}

/// Hands a command for one block to device 0, after it has made room for the record.
#[tactic(auto, using(crate::proofs::Commands::no_capacity))]
fn exchanged<R: Rig>(
    alloc: Global,
    rig: &mut R,
    cdb: &[u8],
    out: &[u8],
    into: &mut [u8],
) -> Option<Outcome> {
    if rig.devices() == 0 || cdb.len() > 32 || blocks_of(cdb) != 1 {
        return None;
    }
    let Ok(()) = rig.reserve(alloc, 1, 1) else {
        return None;
    };
    Some(rig.exchange(0, cdb, &LABELS, out, into))
}

/// The labels of a record, each as OP.K.
fn labels_text(alloc: Global, labels: &[Label]) -> Result<String, AllocError> {
    let mut text = String::new(alloc);
    for label in labels {
        let Label { op, k } = *label;
        let label = format!(in alloc; "{op}.{k} ")?;
        text.push_str(label.as_str())?;
    }
    Ok(text)
}

fn record_text<R: Rig>(alloc: Global, rig: &R, i: u32) -> Result<Option<String>, AllocError> {
    if i >= rig.records() {
        return Ok(None);
    }
    let cdb = hex_of(alloc, rig.logged(i).cdb.as_slice())?;
    let labels = labels_text(alloc, rig.labels(i))?;
    let moved = hex_of(alloc, rig.moved(i))?;
    Ok(Some(format!(in alloc; "{cdb} {labels}{moved}")?))
}

fn bytes_text(alloc: Global, bytes: &[u8], words: &str) -> Result<Option<String>, AllocError> {
    let mut words = Words::of(words);
    let (at, len) = (words.number(), words.number());
    match part(bytes, at, len) {
        Some(bytes) => Ok(Some(hex_of(alloc, bytes)?)),
        None => Ok(None),
    }
}

impl Images {
    pub(crate) fn new(alloc: Global) -> Images {
        let store = MemStore::new(Vec::new(alloc), Vec::new(alloc));
        Images {
            image: Vec::new(alloc),
            rig: ImageRig::new(alloc, store),
        }
    }

    /// Takes a line that says what there is. Answers false where it is none.
    pub(crate) fn set(
        &mut self,
        alloc: Global,
        word: &str,
        rest: &str,
    ) -> Result<bool, AllocError> {
        let fail = match word {
            "format" => {
                self.image = image_of(alloc, rest)?;
                0
            }
            "rig" => test_table::number(rest),
            _ => return Ok(false),
        };
        self.rig = rig_over(alloc, copy(alloc, &self.image)?, fail)?;
        Ok(!self.image.is_empty())
    }

    /// How an altered image is opened, by its words: the byte, the bits, the length, and the call that fails.
    fn opens(&self, alloc: Global, words: &str) -> Result<String, AllocError> {
        let mut words = Words::of(words);
        let (at, bits) = (words.number(), (words.small() % 256) as u8);
        let image = altered(alloc, &self.image, at, bits, words.number())?;
        let mut rig = rig_over(alloc, image, words.number())?;
        opened(alloc, &mut rig)
    }

    /// What comes of a command, by its words: the command block, what is written, and the room for what is read.
    fn exchange(&mut self, alloc: Global, words: &str) -> Result<Option<String>, AllocError> {
        let mut words = Words::of(words);
        let cdb = bytes_of(alloc, words.word())?;
        let out = bytes_of(alloc, words.word())?;
        let mut into = bytes_of(alloc, words.word())?;
        let Some(outcome) = exchanged(alloc, &mut self.rig, &cdb, &out, &mut into) else {
            return Ok(None);
        };
        if outcome.done == 0 {
            into.clear();
        }
        let outcome = outcome_text(alloc, outcome)?;
        let into = hex_of(alloc, &into)?;
        Ok(Some(format!(in alloc; "{outcome} [{into}]")?))
    }

    /// Whether all behind the head is as it was formatted.
    fn is_kept(&self) -> bool {
        self.rig.store().bytes().get(512..) == self.image.get(512..)
    }

    fn about_image(
        &self,
        alloc: Global,
        word: &str,
        rest: &str,
    ) -> Result<Option<String>, AllocError> {
        match word {
            "bytes" => bytes_text(alloc, &self.image, rest),
            "held" => bytes_text(alloc, self.rig.store().bytes(), rest),
            "size" => {
                let size = self.image.len();
                Ok(Some(format!(in alloc; "{size}")?))
            }
            "kept" => {
                let kept = self.is_kept();
                Ok(Some(format!(in alloc; "{kept}")?))
            }
            _ => Ok(None),
        }
    }

    /// What a call to the image or the rig comes to.
    pub(crate) fn answer(
        &mut self,
        alloc: Global,
        word: &str,
        rest: &str,
    ) -> Result<Option<String>, AllocError> {
        match word {
            "opens" => Ok(Some(self.opens(alloc, rest)?)),
            "open" => Ok(Some(opened(alloc, &mut self.rig)?)),
            "migrate" => Ok(Some(migrated(alloc, &mut self.rig)?)),
            "exchange" => self.exchange(alloc, rest),
            "record" => record_text(alloc, &self.rig, small(rest)),
            "records" => {
                let records = self.rig.records();
                Ok(Some(format!(in alloc; "{records}")?))
            }
            _ => self.about_image(alloc, word, rest),
        }
    }
}
