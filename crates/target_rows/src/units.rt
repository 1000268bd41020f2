//! A unit in a store in memory.

ghost use Rattle.std.specs.Prelude.{◌≡◌, ◌+◌, ◌*◌, ◌≤◌, true, IfSome};
ghost use Rattle.rig_api.specs.Frames.{stored_size};
ghost use Rattle.target_model.specs.Served.{IsUnit};

use crate::faults::LABELS;
use dix_base::{MemStore, Store};
use fault_schedule::Tamper;
use pi_tuple::PiType;
use rig_api::Outcome;
use std::alloc::{AllocError, Global};
use target_model::{LogicalUnit, serve};
use test_table::{number, small};

/// The unit before the first that the table names.
pub(crate) const FIRST: LogicalUnit = LogicalUnit {
    ty: PiType::Zero,
    blocks: 0,
    at: 0,
    size: 512,
    first: 0,
};

fn type_of(word: &str) -> PiType {
    match word {
        "0" => PiType::Zero,
        "1" => PiType::One,
        "2" => PiType::Two,
        _ => PiType::Three,
    }
}

/// The unit of five words: its type, how many blocks it has and of which size, its first address, and where it begins in
/// the store.
pub(crate) fn unit_of(words: &str) -> LogicalUnit {
    let mut words = words.split(' ');
    LogicalUnit {
        ty: type_of(words.next().unwrap_or("")),
        blocks: number(words.next().unwrap_or("")),
        size: small(words.next().unwrap_or("")),
        first: number(words.next().unwrap_or("")),
        at: number(words.next().unwrap_or("")),
    }
}

/// The bytes of a stored block.
fn stored_bytes(unit: LogicalUnit) -> u64
    ensures { result ≡ stored_size unit.ty unit.size }
{
    let size = u64::from(unit.size);
    if unit.ty == PiType::Zero {
        size
    } else {
        size + 8
    }
}

/// Where the unit ends in its store.
fn end_of(unit: LogicalUnit) -> Option<u64>
    ensures { IfSome result (λ end. end ≡ unit.at + stored_size unit.ty unit.size * unit.blocks) }
{
    let bytes = stored_bytes(unit).checked_mul(unit.blocks)?;
    unit.at.checked_add(bytes)
}

/// Whether a store of so many bytes holds the unit.
fn is_held(unit: LogicalUnit, len: u64) -> bool
    ensures some { result ≡ true → 1 ≤ unit.blocks }
    ensures unit { result ≡ true → IsUnit unit len }
{
    if unit.blocks == 0 || unit.blocks >= u64::MAX - unit.first {
        return false;
    }
    if unit.size != 512 && unit.size != 4096 {
        return false;
    }
    match end_of(unit) {
        Some(end) => end <= len,
        None => false,
    }
}

/// What the unit answers to a command; none where the store doesn't hold it.
pub(crate) fn answered(
    alloc: Global,
    store: &mut MemStore,
    unit: LogicalUnit,
    cdb: &[u8],
    sent: &[u8],
    into: &mut [u8],
    tamper: &Tamper,
) -> Result<Option<Outcome>, AllocError> {
    let Ok(len) = store.open(String::from_str(alloc, "unit")?) else {
        return Ok(None);
    };
    if !is_held(unit, len) {
        return Ok(None);
    }
    let outcome = serve(store, &unit, cdb, &LABELS, sent, into, tamper);
    Ok(Some(outcome))
}
