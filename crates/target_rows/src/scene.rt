//! The steps of a row.

use crate::faults::{fail, flip, keep, shift};
use crate::outcomes::is_outcome;
use crate::units::answered;
use dix_base::MemStore;
use fault_schedule::{FaultLine, FaultList, Tamper};
use rig_api::Outcome;
use std::alloc::{AllocError, Global};
use target_model::LogicalUnit;
use test_table::{bytes_of, cut, number};

/// A unit and its store, what a command brings, and what it left.
#[derive(Drop)]
pub(crate) struct Scene {
    unit: LogicalUnit,
    held: Vec<u8>,
    /// The call of the store that fails, or 0.
    fails: u64,
    lines: Vec<FaultLine>,
    sent: Vec<u8>,
    /// The host's buffer.
    into: Vec<u8>,
    outcome: Option<Outcome>,
}

/// Turns the lowest bit of a byte.
fn alter(bytes: &mut Vec<u8>, place: u64) {
    if let Some(byte) = bytes.get_mut(place as usize) {
        *byte ^= 1;
    }
}

impl Scene {
    /// A unit whose store holds these bytes.
    pub(crate) fn new(alloc: Global, unit: LogicalUnit, held: &[u8]) -> Result<Scene, AllocError> {
        Ok(Scene {
            unit,
            held: Vec::from_slice(alloc, held)?,
            fails: 0,
            lines: Vec::new(alloc),
            sent: Vec::new(alloc),
            into: Vec::new(alloc),
            outcome: None,
        })
    }

    /// Takes a step. Answers false where something else comes than it says, or it is none.
    pub(crate) fn step(&mut self, alloc: Global, step: &str) -> Result<bool, AllocError> {
        let (word, rest) = cut(step);
        match word {
            "ends" => Ok(self.ends(rest)),
            "holds" => Ok(bytes_of(alloc, rest)?.as_slice() == self.held.as_slice()),
            "got" => Ok(bytes_of(alloc, rest)?.as_slice() == self.into.as_slice()),
            "ask" => {
                let cdb = bytes_of(alloc, rest)?;
                self.ask(alloc, &cdb)?;
                Ok(true)
            }
            _ => self.set(alloc, word, rest),
        }
    }

    /// A step that says what there is.
    fn set(&mut self, alloc: Global, word: &str, rest: &str) -> Result<bool, AllocError> {
        match word {
            "held" => self.held = bytes_of(alloc, rest)?,
            "alter" => alter(&mut self.held, number(rest)),
            "fails" => self.fails = number(rest),
            "flip" => self.lines.push(flip(rest))?,
            "shift" => self.lines.push(shift(rest))?,
            "keep" => self.lines.push(keep(rest))?,
            "fail" => self.lines.push(fail(rest))?,
            "sent" => self.sent = bytes_of(alloc, rest)?,
            "room" => self.into = bytes_of(alloc, rest)?,
            _ => return Ok(false),
        }
        Ok(true)
    }

    fn ends(&self, words: &str) -> bool {
        match self.outcome {
            Some(outcome) => is_outcome(outcome, words),
            None => false,
        }
    }

    fn ask(&mut self, alloc: Global, cdb: &[u8]) -> Result<(), AllocError> {
        let fails = vec![in alloc; self.fails]?;
        let held = Vec::from_slice(alloc, &self.held)?;
        let lines = std::mem::replace(&mut self.lines, Vec::new(alloc));
        let tamper = Tamper::new(FaultList::from_vec(lines));
        let mut store = MemStore::new(held, fails);
        self.outcome = answered(
            alloc,
            &mut store,
            self.unit,
            cdb,
            &self.sent,
            &mut self.into,
            &tamper,
        )?;
        self.held = Vec::from_slice(alloc, store.bytes())?;
        Ok(())
    }
}
