//! Ops that conflict with none, behind one gate.

use crate::gates::{empty, gate_of};
use range_gate::Gate;
use std::alloc::{AllocError, Global};
use std::marker::Model;

/// One more op than are looked past.
const OPS: u32 = 33;

/// A gate for them.
#[derive(Drop)]
pub(crate) struct Crowd {
    gate: Gate,
}

impl Model for Crowd {
    ghost use Rattle.std.specs.Prelude.{◌≡◌, length};
    ghost use Rattle.range_gate.specs.Gates.{Gated};

    ghost Value = { Gated };

    ghost view = { λ c. c.gate };

    ghost invariant = { λ c. length c.gate.phases ≡ 33 };
}

impl Crowd {
    pub(crate) fn new(alloc: Global) -> Result<Crowd, AllocError> {
        let mut prints = Vec::with_capacity(alloc, OPS as usize)?;
        for _ in 0..OPS {
            prints.push(empty(alloc))?;
        }
        if prints.len() != OPS as usize {
            return Err(AllocError);
        }
        let gate = gate_of(alloc, prints)?;
        Ok(Crowd { gate })
    }

    /// Lets an op start or go. Answers false where it may not, or the word says neither.
    #[tactic(auto, using(crate::proofs::Facts::is_between))]
    pub(crate) fn set(&mut self, word: &str, op: u32) -> bool {
        if op < 1 || op > OPS {
            return false;
        }
        let gate = &mut self.gate;
        if word == "admit" && gate.may_admit(op) {
            gate.admit(op);
            return true;
        }
        if word == "end" && !gate.waiting(op) && !gate.ended(op) {
            gate.end(op);
            return true;
        }
        false
    }

    /// Whether an op waits, has ended, and may be admitted.
    pub(crate) fn answer(&self, alloc: Global, op: u32) -> Result<Option<String>, AllocError> {
        if op < 1 || op > OPS {
            return Ok(None);
        }
        let (waiting, ended) = (self.gate.waiting(op), self.gate.ended(op));
        let may = self.gate.may_admit(op);
        Ok(Some(format!(in alloc; "{waiting} {ended} {may}")?))
    }
}
