//! How devices answer that don't do what they are asked.

use pi_tuple::PiType;
use rig_api::{Outcome, UnitSpec};
use sense_codes::Sense;
use std::alloc::{AllocError, Global};
use test_rig::Answer;
use test_table::{array_of, cut};

/// As many bytes as 64 blocks have with their tuples.
const FRAMES: usize = 33_280;

/// How some commands in turn are answered.
#[derive(Clone, Copy)]
pub(crate) struct Rule {
    /// How many commands.
    times: u32,
    outcome: Outcome,
    /// What a read gets in each byte, if it gets any.
    byte: Option<u8>,
}

fn sense_of(word: &str) -> Option<Sense> {
    let [key, asc, ascq] = array_of::<3>(word)?;
    Some(Sense {
        key,
        asc,
        ascq,
        info: None,
    })
}

fn byte_of(word: &str) -> Option<u8> {
    let [byte] = array_of::<1>(word)?;
    Some(byte)
}

impl Rule {
    /// The rule of four words: how many commands, how many blocks are done, the key and the two codes of the sense in
    /// hexadecimal or `-`, and the byte or `-`.
    pub(crate) fn of(words: &str) -> Rule {
        let (times, rest) = cut(words);
        let (done, rest) = cut(rest);
        let (sense, byte) = cut(rest);
        Rule {
            times: times.parse::<u32>().unwrap_or(0),
            outcome: Outcome {
                done: done.parse::<u32>().unwrap_or(0),
                sense: sense_of(sense),
            },
            byte: byte_of(byte),
        }
    }

    fn answer(self, alloc: Global) -> Result<Answer, AllocError> {
        let mut bytes = Vec::new(alloc);
        if let Some(byte) = self.byte {
            bytes.resize(FRAMES, byte)?;
        }
        Ok(Answer {
            outcome: self.outcome,
            bytes,
        })
    }
}

/// Byte 12 of what a device answers to READ CAPACITY(16): whether it has tuples, and of which type.
fn type_byte(ty: PiType) -> u8 {
    match ty {
        PiType::Zero => 0,
        PiType::One => 1,
        PiType::Two => 3,
        PiType::Three => 5,
    }
}

/// The right answer of a device to READ CAPACITY(16): its last address, its block size and its type.
fn capacity(alloc: Global, unit: UnitSpec) -> Result<Answer, AllocError> {
    let last = unit.first.wrapping_add(unit.blocks).wrapping_sub(1);
    let mut bytes = Vec::new(alloc);
    bytes.extend_from_slice(&last.to_be_bytes())?;
    bytes.extend_from_slice(&unit.size.to_be_bytes())?;
    bytes.push(type_byte(unit.ty))?;
    bytes.resize(32, 0)?;
    Ok(Answer {
        outcome: Outcome {
            done: 0,
            sense: None,
        },
        bytes,
    })
}

/// What devices answer: each of them its capacity, then by the rules in turn.
pub(crate) fn answers_by(
    alloc: Global,
    units: &[UnitSpec],
    rules: &[Rule],
) -> Result<Vec<Answer>, AllocError> {
    let mut answers = Vec::new(alloc);
    for unit in units {
        answers.push(capacity(alloc, *unit)?)?;
    }
    for rule in rules {
        add_all(alloc, &mut answers, *rule)?;
    }
    Ok(answers)
}

fn add_all(alloc: Global, answers: &mut Vec<Answer>, rule: Rule) -> Result<(), AllocError> {
    for _ in 0..rule.times {
        answers.push(rule.answer(alloc)?)?;
    }
    Ok(())
}
