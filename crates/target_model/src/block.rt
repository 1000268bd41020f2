//! One block of a command, over any store.

ghost use Rattle.std.specs.Prelude.{◌≡◌, ◌⊎◌, ◌+◌, ◌++◌, ◌≤◌, ◌^◌, ◌<◌, List, OnErr, OnOk, length, take, drop, true, ℕ};
ghost use Rattle.dix_base.specs.Stores.{IsCounted, WasRead, WasWritten};
ghost use Rattle.dix_base.specs.Told.{Apart, Becomes, Rose, over};
ghost use Rattle.rig_api.specs.Log.{IsMediumSense, has_key};
ghost use Rattle.rig_api.specs.Frames.{sent_size, stored_size};
ghost use Rattle.rig_api.specs.Target.{fails_under, kept_under, off_medium, onto_medium, then_kept};
ghost use Rattle.target_model.specs.Served.{BlockReadOn, BlockWrittenOn};

use crate::sense::{aborted, medium};
use dix_base::{Failed, Store};
use fault_schedule::Tamper;
use rig_api::Passage;
use sense_codes::Sense;
use sense_codes::codes::{UNRECOVERED_READ, WRITE_ERROR};

/// Whether a line says that the medium can't store or send the block.
fn is_failing(block: Passage, tamper: &Tamper) -> bool
    ensures { result ≡ fails_under tamper.now block.label }
{
    match block.label {
        None => false,
        Some(label) => tamper.fails(label),
    }
}

/// How many bytes of a block's frame are stored, of so many: all of them, where no line says else.
fn bytes_stored(block: Passage, tamper: &Tamper, all: usize) -> usize
    ensures within { result ≤ all }
    ensures front { (old frame : List ℕ) → length old ≡ all → length frame ≡ all
        → kept_under tamper.now block.label old frame ≡ take result frame ++ drop result old }
{
    let label = match block.label {
        None => return all,
        Some(label) => label,
    };
    match tamper.keep(label) {
        Some(bytes) => all.min(bytes as usize),
        None => all,
    }
}

/// Stores the front of a frame by one call of the store, and by none where it has no bytes.
fn store_front<S: Store>(store: &mut S, place: u64, front: &[u8]) -> Result<(), Failed>
    requires held { place + length front.now ≤ (S.state store.old).length }
    ensures written { OnOk result (Becomes (λ old new. new ≡ over place front.now old) (S.state store.old).bytes (S.state store.new).bytes) }
    ensures apart { OnErr result (Becomes (Apart place (length front.now)) (S.state store.old).bytes (S.state store.new).bytes) }
    ensures stays { WasWritten (S.state store.old) (S.state store.new) }
    ensures counted { IsCounted result (S.state store.old) (S.state store.new) }
{
    if front.is_empty() {
        return Ok(());
    }
    store.write_at(place, front)
}

/// Takes a block from the host to its place in the store. `frame` is scratch of the length of a
/// stored block. Where the block isn't stored, the answer is the sense: a check found it bad, a line
/// says that the medium can't store it, or the store's call failed.
pub(crate) fn write_block<S: Store>(
    store: &mut S,
    place: u64,
    block: Passage,
    tamper: &Tamper,
    sent: &[u8],
    frame: &mut [u8],
) -> Option<Sense>
    requires frame { length frame.old ≡ stored_size block.ty block.size }
    requires sent { length sent.now ≡ sent_size block.protect block.size }
    requires fits { length sent.now ≤ length frame.old }
    requires held { place + length frame.old ≤ (S.state store.old).length }
    ensures told { BlockWrittenOn (λ bytes. then_kept tamper.now block.label (take (stored_size block.ty block.size) (drop place bytes)) (onto_medium tamper.now block sent.now))
        (stored_size block.ty block.size) place block.lba (S.state store.old) (S.state store.new) result }
    ensures medium { IsMediumSense result → Rose (S.state store.old).faults (S.state store.new).faults ⊎ (fails_under tamper.now block.label ≡ true) }
    ensures key { has_key result ≡ true }
    ensures frame { length frame.new ≡ length frame.old }
    ensures stays { WasWritten (S.state store.old) (S.state store.new) }
{
    frame[..sent.len()].copy_from_slice(sent);
    match block.to_medium(tamper, frame) {
        Some(check) => Some(aborted(check, block.lba)),
        None if is_failing(block, tamper) => Some(medium(WRITE_ERROR, block.lba)),
        None => {
            let stored = bytes_stored(block, tamper, frame.len());
            match store_front(store, place, &frame[..stored]) {
                Ok(()) => None,
                Err(Failed) => Some(medium(WRITE_ERROR, block.lba)),
            }
        }
    }
}

/// Takes a block from its place in the store towards the host: what is sent then stands at the
/// front of `frame`, which has the length of a stored block. Where the block isn't sent, the
/// answer is the sense: a line says that the medium can't send it, the store's call failed, or a
/// check found it bad.
pub(crate) fn read_block<S: Store>(
    store: &mut S,
    place: u64,
    block: Passage,
    tamper: &Tamper,
    frame: &mut [u8],
) -> Option<Sense>
    requires frame { length frame.old ≡ stored_size block.ty block.size }
    requires fits { sent_size block.protect block.size ≤ length frame.old }
    requires held { place + length frame.old ≤ (S.state store.old).length }
    ensures told { BlockReadOn (λ bytes. off_medium tamper.now block (take (stored_size block.ty block.size) (drop place bytes)))
        (sent_size block.protect block.size) block.lba (S.state store.old) (S.state store.new) result frame.new }
    ensures medium { IsMediumSense result → Rose (S.state store.old).faults (S.state store.new).faults ⊎ (fails_under tamper.now block.label ≡ true) }
    ensures key { has_key result ≡ true }
    ensures frame { length frame.new ≡ length frame.old }
    ensures stays { WasRead (S.state store.old) (S.state store.new) }
{
    if is_failing(block, tamper) {
        return Some(medium(UNRECOVERED_READ, block.lba));
    }
    match store.read_at(place, frame) {
        Ok(()) => match block.from_medium(tamper, frame) {
            Some(check) => Some(aborted(check, block.lba)),
            None => None,
        },
        Err(Failed) => Some(medium(UNRECOVERED_READ, block.lba)),
    }
}
