//! The steps of a row.

use crate::blocks::frames_of;
use crate::carrying::{carried, flips};
use crate::case::Case;
use crate::layout::{are_same, pages, put_all};
use crate::outcomes::{are_fates, outcome};
use bio_core::Dir;
use dix_adapter::Adapter;
use dix_base::MemStore;
use fault_schedule::{FaultList, Tamper};
use image_rig::ImageRig;
use page_pool::PagePool;
use rig_api::{Rig, UnitSpec, is_layout};
use std::alloc::{AllocError, Global};
use test_rig::AnswerRig;
use test_table::{cut, small};

/// An image, pages, and what is to stand in these.
#[derive(Drop)]
pub(crate) struct Scene {
    case: Case,
    adapter: Adapter,
    rig: ImageRig<MemStore>,
    /// A rig that answers as it is told, in place of the image's.
    told: Option<AnswerRig>,
    pool: PagePool,
    want: PagePool,
}

/// Formats the image of one unit, and opens it.
fn lay<R: Rig>(alloc: Global, rig: &mut R, unit: UnitSpec) {
    if is_layout(&[unit]) {
        let _ = rig.format(alloc, "a.img", &[unit]);
    }
    let _ = rig.open(alloc, "a.img");
}

/// A formatted image in memory of one unit of 8 blocks from address 4 on.
fn image(alloc: Global, case: Case) -> ImageRig<MemStore> {
    let mut rig = ImageRig::new(alloc, MemStore::new(Vec::new(alloc), Vec::new(alloc)));
    let unit = UnitSpec {
        ty: case.ty,
        blocks: 8,
        size: case.size,
        first: 4,
    };
    lay(alloc, &mut rig, unit);
    rig
}

/// Whether the record of a number has the command of a hexadecimal text.
fn has_command<R: Rig>(alloc: Global, rig: &R, words: &str) -> Result<bool, AllocError> {
    let (record, text) = cut(words);
    let i = small(record);
    let Ok(bytes) = hex::decode(alloc, text) else {
        return Ok(false);
    };
    Ok(i < rig.records() && rig.logged(i).cdb.as_slice() == bytes.as_slice())
}

/// Whether the record of a number has these frames.
fn has_moved<R: Rig>(alloc: Global, rig: &R, words: &str, size: u32) -> Result<bool, AllocError> {
    let (record, blocks) = cut(words);
    let i = small(record);
    let frames = frames_of(alloc, blocks, size)?;
    Ok(i < rig.records() && rig.moved(i) == frames.as_slice())
}

/// A rig that answers with these words: how many blocks are done, the sense, and the frames that a read gets.
fn told(alloc: Global, words: &str, size: u32) -> Result<AnswerRig, AllocError> {
    let (done, rest) = cut(words);
    let (sense, blocks) = cut(rest);
    let frames = frames_of(alloc, blocks, size)?;
    AnswerRig::new(alloc, outcome(done, sense), frames)
}

impl Scene {
    pub(crate) fn new(alloc: Global, case: Case) -> Result<Scene, AllocError> {
        let pool = pages(alloc)?;
        let want = pages(alloc)?;
        Ok(Scene {
            case,
            adapter: case.adapter(Tamper::new(FaultList::from_vec(Vec::new(alloc)))),
            rig: image(alloc, case),
            told: None,
            pool,
            want,
        })
    }

    /// Takes a step. Answers false where something else comes than it says, or it is none.
    pub(crate) fn step(&mut self, alloc: Global, step: &str) -> Result<bool, AllocError> {
        let (word, rest) = cut(step);
        match word {
            "host" | "lands" | "tamper" | "arm" | "told" => self.set(alloc, word, rest),
            "out" => self.carry(alloc, Dir::Write, rest),
            "in" => self.carry(alloc, Dir::Read, rest),
            "records" => Ok(self.rig.records() == small(rest)),
            "command" => has_command(alloc, &self.rig, rest),
            "moved" => has_moved(alloc, &self.rig, rest, self.case.size),
            "pages" => Ok(are_same(&self.pool, &self.want)),
            _ => Ok(false),
        }
    }

    /// A step that says what there is.
    fn set(&mut self, alloc: Global, word: &str, rest: &str) -> Result<bool, AllocError> {
        match word {
            "host" => {
                put_all(alloc, self.case, &mut self.pool, Dir::Write, rest)?;
                put_all(alloc, self.case, &mut self.want, Dir::Write, rest)?;
            }
            "lands" => put_all(alloc, self.case, &mut self.want, Dir::Read, rest)?,
            "tamper" => self.adapter = self.case.adapter(Tamper::new(flips(alloc, rest)?)),
            "arm" => self.rig.arm(flips(alloc, rest)?),
            _ => self.told = Some(told(alloc, rest, self.case.size)?),
        }
        Ok(true)
    }

    fn carry(&mut self, alloc: Global, dir: Dir, words: &str) -> Result<bool, AllocError> {
        let fates = match &mut self.told {
            Some(rig) => carried(alloc, self.case, &self.adapter, &mut self.pool, dir, rig)?,
            None => carried(
                alloc,
                self.case,
                &self.adapter,
                &mut self.pool,
                dir,
                &mut self.rig,
            )?,
        };
        Ok(are_fates(&fates, words))
    }
}
