//! The lines of records.

ghost use Rattle.std.specs.Prelude.{◌≡◌};
ghost use Rattle.rig_api.specs.Log.{has_key};

use crate::senses::sense_of;
use crate::sinks::{left, sink_of};
use report_text::print_trace;
use rig_api::{Outcome, Rig, blocks_of};
use sense_codes::Sense;
use std::alloc::{AllocError, Global};
use test_rig::AnswerRig;
use test_table::{bytes_of, cut, small};

fn is_keyed(sense: Option<Sense>) -> bool
    ensures { result ≡ has_key sense }
{
    match sense {
        Some(s) => s.key < 16,
        None => true,
    }
}

/// Hands a command to a device, with nothing to write or to read. Answers false where it can't be handed.
fn exchange<R: Rig>(alloc: Global, rig: &mut R, dev: u32, cdb: &[u8]) -> Result<bool, AllocError> {
    if dev >= rig.devices() || cdb.len() > 32 {
        return Ok(false);
    }
    rig.reserve(alloc, 1, blocks_of(cdb))?;
    rig.exchange(dev, cdb, &[], &[], &mut []);
    Ok(true)
}

/// What is left of the line of a record in a sink of 256 bytes, by five words: the call of the sink that fails, the
/// device, how many blocks are done, the sense, and the command.
pub(crate) fn record_row(alloc: Global, words: &str, whole: &[u8]) -> Result<String, AllocError> {
    let (call, rest) = cut(words);
    let (dev, rest) = cut(rest);
    let (done, rest) = cut(rest);
    let (sense, cdb) = cut(rest);
    let outcome = Outcome {
        done: small(done),
        sense: sense_of(sense),
    };
    if !is_keyed(outcome.sense) {
        return String::from_str(alloc, "no sense");
    }
    let mut rig = AnswerRig::new(alloc, outcome, Vec::new(alloc))?;
    if !exchange(alloc, &mut rig, small(dev), &bytes_of(alloc, cdb)?)? {
        return String::from_str(alloc, "no record");
    }
    let mut sink = sink_of(alloc, 256, call)?;
    let written = print_trace(&mut sink, &rig, 0);
    left(alloc, written, &sink, whole)
}
