//! The blocks of a command, one after another.

ghost use Rattle.std.specs.Prelude.{◌≡◌, ◌⊎◌, ◌+◌, ◌*◌, ◌^◌, ◌<◌, ◌≤◌, [], length, drop, Some, true};
ghost use Rattle.dix_base.specs.Stores.{WasRead, WasWritten};
ghost use Rattle.dix_base.specs.Told.{Rose, over};
ghost use Rattle.rig_api.specs.Log.{IsMedium, has_key};
ghost use Rattle.rig_api.specs.Frames.{frames_of, sent_size};
ghost use Rattle.rig_api.specs.Target.{fails_at, kept_over, passage, read_by, read_end, write_end, written_by};
ghost use Rattle.target_model.specs.Served.{AllReadOn, AllVerifiedOn, AllWrittenOn, CanMove, block_bytes};

use crate::block::{read_block, write_block};
use crate::unit::block_bytes;
use cdb_codec::Rw;
use dix_base::Store;
use fault_schedule::{Label, Tamper};
use rig_api::{MOST_FRAME, Outcome, Passage, UnitSpec, sent_size};
use sense_codes::Sense;

/// The blocks of a command: the unit, the command's fields, and the LBA of the first block, as
/// the target was told it.
#[derive(Clone, Copy)]
pub(crate) struct Blocks {
    pub(crate) unit: UnitSpec,
    pub(crate) fields: Rw,
    pub(crate) lba: u64,
}

/// Block `k` of the command.
fn passage(blocks: Blocks, labels: &[Label], k: u32) -> Passage
    requires { blocks.lba + k < 2 ^ 64 }
    ensures { result ≡ passage blocks.unit blocks.fields blocks.lba labels.now k }
{
    let c = blocks.fields;
    Passage {
        ty: blocks.unit.ty,
        size: blocks.unit.size,
        protect: c.protect,
        lba: blocks.lba + k as u64,
        rtag: ((c.rtag as u64 + k as u64) % 0x1_0000_0000) as u32,
        app: c.app,
        mask: c.mask,
        label: labels.get(k as usize).copied(),
    }
}

/// The command ends at block `k`: those before it are done.
fn ends_at(k: u32, sense: Sense) -> Outcome
    ensures { result ≡ record { done = k; sense = Some sense } }
{
    Outcome {
        done: k,
        sense: Some(sense),
    }
}

/// Stores the blocks one after another from this place on, up to the first that isn't stored.
/// Each goes through a buffer, where it is altered and gets its tuple. A line may keep a part of it
/// from the store, or all of it; it counts as stored.
pub(crate) fn write_blocks<S: Store>(
    store: &mut S,
    place: u64,
    blocks: Blocks,
    tamper: &Tamper,
    labels: &[Label],
    out: &[u8],
) -> Outcome
    requires can { CanMove blocks.unit blocks.fields blocks.lba place (S.state store.old).length }
    requires out { length out.now ≡ blocks.fields.n * sent_size blocks.fields.protect blocks.unit.size }
    ensures told { AllWrittenOn (λ held. write_end blocks.lba
        (kept_over tamper.now labels.now 0 (frames_of (block_bytes blocks.unit) blocks.fields.n (drop place held)) (written_by blocks.unit blocks.fields blocks.lba tamper.now labels.now out.now)))
        (block_bytes blocks.unit) place (S.state store.old) (S.state store.new) result }
    ensures medium { IsMedium result → Rose (S.state store.old).faults (S.state store.new).faults ⊎ (fails_at tamper.now labels.now result.done ≡ true) }
    ensures key { has_key result.sense ≡ true }
    ensures stays { WasWritten (S.state store.old) (S.state store.new) }
{
    let mut buffer = [0u8; MOST_FRAME];
    let stored = block_bytes(blocks.unit);
    let sent = sent_size(blocks.fields.protect, blocks.unit.size);
    let mut rest = out;
    let mut at = place;
    for k in 0..blocks.fields.n {
        let (piece, more) = rest.split_at(sent);
        let block = passage(blocks, labels, k);
        match write_block(store, at, block, tamper, piece, &mut buffer[..stored]) {
            Some(sense) => return ends_at(k, sense),
            None => {}
        }
        rest = more;
        at += stored as u64;
    }
    Outcome {
        done: blocks.fields.n,
        sense: None,
    }
}

fn put_at(into: &mut [u8], at: usize, piece: &[u8])
    requires { at + length piece.now ≤ length into.old }
    ensures { into.new ≡ over at piece.now into.old }
{
    into[at..at + piece.len()].copy_from_slice(piece);
}

/// Reads the blocks one after another from this place on, and sends them up to the first that
/// isn't good. Each goes through a buffer, since one that isn't sent must not alter `into`.
pub(crate) fn read_blocks<S: Store>(
    store: &mut S,
    place: u64,
    blocks: Blocks,
    tamper: &Tamper,
    labels: &[Label],
    into: &mut [u8],
) -> Outcome
    requires can { CanMove blocks.unit blocks.fields blocks.lba place (S.state store.old).length }
    requires into { length into.old ≡ blocks.fields.n * sent_size blocks.fields.protect blocks.unit.size }
    ensures told { AllReadOn (λ held. read_end blocks.lba (read_by blocks.unit blocks.fields blocks.lba tamper.now labels.now (frames_of (block_bytes blocks.unit) blocks.fields.n (drop place held))))
        (block_bytes blocks.unit) (S.state store.old) (S.state store.new) result into.old into.new }
    ensures medium { IsMedium result → Rose (S.state store.old).faults (S.state store.new).faults ⊎ (fails_at tamper.now labels.now result.done ≡ true) }
    ensures key { has_key result.sense ≡ true }
    ensures stays { WasRead (S.state store.old) (S.state store.new) }
{
    let mut buffer = [0u8; MOST_FRAME];
    let stored = block_bytes(blocks.unit);
    let sent = sent_size(blocks.fields.protect, blocks.unit.size);
    let mut at = place;
    let mut end = 0usize;
    for k in 0..blocks.fields.n {
        let block = passage(blocks, labels, k);
        match read_block(store, at, block, tamper, &mut buffer[..stored]) {
            Some(sense) => return ends_at(k, sense),
            None => {}
        }
        put_at(into, end, &buffer[..sent]);
        at += stored as u64;
        end += sent;
    }
    Outcome {
        done: blocks.fields.n,
        sense: None,
    }
}

/// Reads the blocks one after another from this place on, up to the first that isn't good, and
/// sends none.
pub(crate) fn verify_blocks<S: Store>(
    store: &mut S,
    place: u64,
    blocks: Blocks,
    tamper: &Tamper,
) -> Outcome
    requires can { CanMove blocks.unit blocks.fields blocks.lba place (S.state store.old).length }
    ensures told { AllVerifiedOn (λ held. read_end blocks.lba (read_by blocks.unit blocks.fields blocks.lba tamper.now [] (frames_of (block_bytes blocks.unit) blocks.fields.n (drop place held))))
        (block_bytes blocks.unit) (S.state store.old) (S.state store.new) result }
    ensures medium { IsMedium result → Rose (S.state store.old).faults (S.state store.new).faults }
    ensures key { has_key result.sense ≡ true }
    ensures stays { WasRead (S.state store.old) (S.state store.new) }
{
    let mut buffer = [0u8; MOST_FRAME];
    let stored = block_bytes(blocks.unit);
    let mut at = place;
    for k in 0..blocks.fields.n {
        let block = passage(blocks, &[], k);
        match read_block(store, at, block, tamper, &mut buffer[..stored]) {
            Some(sense) => return ends_at(k, sense),
            None => {}
        }
        at += stored as u64;
    }
    Outcome {
        done: blocks.fields.n,
        sense: None,
    }
}
