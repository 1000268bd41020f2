//! Commands of a unit in memory.

ghost use Rattle.std.specs.Prelude.{◌≡◌, length, IfOk};

use dix_base::CalmStore;
use fault_schedule::{FaultList, Tamper};
use pi_tuple::{PiType, make};
use rig_api::Outcome;
use std::alloc::{AllocError, Global};
use target_model::{LogicalUnit, serve};

pub(crate) const BLOCKS: u32 = 1024;

const BYTES: usize = 532480;

/// 1,024 blocks of type 1.
const UNIT: LogicalUnit = LogicalUnit {
    ty: PiType::One,
    blocks: 1024,
    at: 0,
    size: 512,
    first: 0,
};

/// WRITE(10) and READ(10) of all blocks under protect field 001b.
pub(crate) const WRITE: [u8; 10] = [0x2A, 0x20, 0, 0, 0, 0, 0, 4, 0, 0];

pub(crate) const READ: [u8; 10] = [0x28, 0x20, 0, 0, 0, 0, 0, 4, 0, 0];

/// The frames of blocks of zeros.
pub(crate) fn frames(alloc: Global) -> Result<Vec<u8>, AllocError> {
    let mut frames = Vec::new(alloc);
    for i in 0..BLOCKS {
        frames.extend_from_slice(&[0; 512])?;
        frames.extend_from_slice(&make(0, 0, i).to_bytes())?;
    }
    Ok(frames)
}

fn zeros(alloc: Global) -> Result<Vec<u8>, AllocError>
    ensures { IfOk result (λ v. length v.items ≡ 532480) }
{
    let mut zeros = Vec::new(alloc);
    zeros.resize(BYTES, 0)?;
    Ok(zeros)
}

/// Hands the command to the unit.
fn served(store: &mut CalmStore, cdb: &[u8], out: &[u8], into: &mut [u8], none: &Tamper) -> Outcome
    requires { length store.old.bytes ≡ 532480 }
    ensures { length store.new.bytes ≡ 532480 }
{
    serve(store, &UNIT, cdb, &[], out, into, none)
}

/// Hands the command to the unit so many times, at least once, and answers how many blocks the last did.
fn last_done(
    store: &mut CalmStore,
    cdb: &[u8],
    out: &[u8],
    into: &mut [u8],
    none: &Tamper,
    times: u32,
) -> u32
    requires { length store.old.bytes ≡ 532480 }
    ensures { length store.new.bytes ≡ 532480 }
{
    let mut outcome = served(store, cdb, out, into, none);
    for _i in 1..times {
        outcome = served(store, cdb, out, into, none);
    }
    outcome.done
}

/// Writes or reads the unit in one command so many times, at least once. Answers how many blocks the last one did; 0
/// where what was read isn't what was written.
pub(crate) fn blocks_done(alloc: Global, is_write: bool, times: u32) -> Result<u32, AllocError> {
    let none = Tamper::new(FaultList::from_vec(Vec::new(alloc)));
    let out = frames(alloc)?;
    let mut into = zeros(alloc)?;
    let mut store = CalmStore::new(zeros(alloc)?);
    if is_write {
        return Ok(last_done(&mut store, &WRITE, &out, &mut [], &none, times));
    }
    let written = last_done(&mut store, &WRITE, &out, &mut [], &none, 1);
    let read = last_done(&mut store, &READ, &[], &mut into, &none, times);
    if into != out || written != BLOCKS {
        return Ok(0);
    }
    Ok(read)
}
