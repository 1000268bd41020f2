//! What a unit answers to a command block, over any store.

ghost use Rattle.std.specs.Prelude.{◌≡◌, ◌⊎◌, ◌+◌, ◌-◌, ◌*◌, ◌^◌, ◌<◌, ◌≤◌, ◌≢◌, [], List, ℕ, length, min, take, Some, None, true};
ghost use Rattle.cdb_codec.specs.Decoded.{decoded};
ghost use Rattle.dix_base.specs.Stores.{WasRead, WasWritten};
ghost use Rattle.dix_base.specs.Told.{Rose};
ghost use Rattle.rig_api.specs.Log.{IsMedium, has_key};
ghost use Rattle.rig_api.specs.Target.{asc_of, capacity_data, fails_at, illegal, protection_byte, target_answer};
ghost use Rattle.rig_api.specs.declared.request.Request.TheVariants.{Read, ReadCapacity, Verify, Write};
ghost use Rattle.target_model.specs.Served.{IsUnit, ServedOn, answer_to, block_bytes, shape_in};

use crate::LogicalUnit;
use crate::refusal::{taken, taken_verify};
use crate::sense::illegal;
use crate::transfer::{Blocks, read_blocks, verify_blocks, write_blocks};
use crate::unit::block_bytes;
use cdb_codec::{Cdb, CdbFault, Rw};
use dix_base::Store;
use fault_schedule::{Crossing, Label, Tamper};
use pi_tuple::PiType;
use rig_api::{Outcome, Request, UnitSpec, request_of};
use sense_codes::codes::{INVALID_FIELD, INVALID_OPCODE};

/// ILLEGAL REQUEST, and no block is done.
fn refused(asc: u8) -> Outcome
    ensures { result ≡ record { done = 0; sense = Some (illegal asc) } }
{
    Outcome {
        done: 0,
        sense: Some(illegal(asc)),
    }
}

/// The byte of the store at which the block of this LBA begins.
fn place_of(unit: &LogicalUnit, lba: u64) -> u64
    requires first { unit.now.first ≤ lba }
    requires last { lba ≤ unit.now.first + unit.now.blocks }
    requires places { unit.now.at + block_bytes (shape_in unit.now) * unit.now.blocks < 2 ^ 64 }
    ensures { result ≡ unit.now.at + block_bytes (shape_in unit.now) * (lba - unit.now.first) }
{
    unit.at + block_bytes(unit.shape()) as u64 * (lba - unit.first)
}

/// A command, the labels of its blocks, and the faults that act on them.
#[derive(Clone, Copy)]
struct Asked<'a> {
    cdb: Cdb,
    labels: &'a [Label],
    tamper: &'a Tamper,
}

fn write<S: Store>(
    store: &mut S,
    unit: &LogicalUnit,
    asked: &Asked<'_>,
    c: Rw,
    out: &[u8],
) -> Outcome
    requires unit { IsUnit unit.now (S.state store.old).length }
    ensures told { (into : List ℕ) → ServedOn unit.now (λ found. answer_to found asked.now.cdb (Write c) asked.now.tamper.now asked.now.labels.now out.now (length into))
        (S.state store.old) (S.state store.new) result into into }
    ensures medium { IsMedium result → Rose (S.state store.old).faults (S.state store.new).faults ⊎ (fails_at asked.now.tamper.now asked.now.labels.now result.done ≡ true) }
    ensures key { has_key result.sense ≡ true }
    ensures stays { WasWritten (S.state store.old) (S.state store.new) }
{
    let shape = unit.shape();
    let at = Crossing::TargetToMedium;
    match taken(
        shape,
        asked.cdb,
        c,
        asked.tamper,
        at,
        asked.labels,
        out.len(),
    ) {
        Err(asc) => refused(asc),
        Ok((lba, to)) => {
            let blocks = Blocks {
                unit: shape,
                fields: c,
                lba,
            };
            let place = place_of(unit, to);
            write_blocks(store, place, blocks, asked.tamper, asked.labels, out)
        }
    }
}

fn read<S: Store>(
    store: &mut S,
    unit: &LogicalUnit,
    asked: &Asked<'_>,
    c: Rw,
    into: &mut [u8],
) -> Outcome
    requires unit { IsUnit unit.now (S.state store.old).length }
    ensures told { (out : List ℕ) → ServedOn unit.now (λ found. answer_to found asked.now.cdb (Read c) asked.now.tamper.now asked.now.labels.now out (length into.old))
        (S.state store.old) (S.state store.new) result into.old into.new }
    ensures medium { IsMedium result → Rose (S.state store.old).faults (S.state store.new).faults ⊎ (fails_at asked.now.tamper.now asked.now.labels.now result.done ≡ true) }
    ensures key { has_key result.sense ≡ true }
    ensures stays { WasRead (S.state store.old) (S.state store.new) }
{
    let shape = unit.shape();
    let at = Crossing::MediumToTarget;
    match taken(
        shape,
        asked.cdb,
        c,
        asked.tamper,
        at,
        asked.labels,
        into.len(),
    ) {
        Err(asc) => refused(asc),
        Ok((lba, from)) => {
            let blocks = Blocks {
                unit: shape,
                fields: c,
                lba,
            };
            let place = place_of(unit, from);
            read_blocks(store, place, blocks, asked.tamper, asked.labels, into)
        }
    }
}

fn verify<S: Store>(store: &mut S, unit: &LogicalUnit, asked: &Asked<'_>, c: Rw) -> Outcome
    requires unit { IsUnit unit.now (S.state store.old).length }
    ensures told { (out into : List ℕ) → ServedOn unit.now (λ found. answer_to found asked.now.cdb (Verify c) asked.now.tamper.now asked.now.labels.now out (length into))
        (S.state store.old) (S.state store.new) result into into }
    ensures medium { IsMedium result → Rose (S.state store.old).faults (S.state store.new).faults }
    ensures key { has_key result.sense ≡ true }
    ensures stays { WasRead (S.state store.old) (S.state store.new) }
{
    let shape = unit.shape();
    match taken_verify(shape, asked.cdb, c) {
        Err(asc) => refused(asc),
        Ok(()) => {
            let blocks = Blocks {
                unit: shape,
                fields: c,
                lba: c.lba,
            };
            verify_blocks(store, place_of(unit, c.lba), blocks, asked.tamper)
        }
    }
}

fn protection_byte(ty: PiType) -> u8
    ensures { result ≡ protection_byte ty }
{
    match ty {
        PiType::Zero => 0,
        PiType::One => 1,
        PiType::Two => 3,
        PiType::Three => 5,
    }
}

/// READ CAPACITY(16) data (SBC-3, 5.16.2).
fn capacity_data(unit: UnitSpec) -> [u8; 32]
    requires some { 1 ≤ unit.blocks }
    requires fits { unit.first + unit.blocks < 2 ^ 64 }
    ensures { result ≡ capacity_data unit }
{
    let [a0, a1, a2, a3, a4, a5, a6, a7] = (unit.first + unit.blocks - 1).to_be_bytes();
    let [b0, b1, b2, b3] = unit.size.to_be_bytes();
    let p = protection_byte(unit.ty);
    [
        a0, a1, a2, a3, a4, a5, a6, a7, b0, b1, b2, b3, p, 0, 0, 0, 0, 0, 0, 0, 0, 0, 0, 0, 0, 0,
        0, 0, 0, 0, 0, 0,
    ]
}

fn read_capacity(unit: &LogicalUnit, alloc_len: u32, into: &mut [u8]) -> Outcome
    requires some { 1 ≤ unit.now.blocks }
    requires fits { unit.now.first + unit.now.blocks < 2 ^ 64 }
    ensures refused { length into.old ≢ min alloc_len 32 → (result ≡ record { done = 0; sense = Some (illegal INVALID_FIELD) }) × (into.new ≡ into.old) }
    ensures told { length into.old ≡ min alloc_len 32
        → (result ≡ record { done = 0; sense = None }) × (into.new ≡ take (min alloc_len 32) (capacity_data (shape_in unit.now))) }
{
    let count = alloc_len.min(32) as usize;
    if into.len() != count {
        return refused(INVALID_FIELD);
    }
    let data = capacity_data(unit.shape());
    into.copy_from_slice(&data[..count]);
    Outcome {
        done: 0,
        sense: None,
    }
}

fn asc_of(fault: CdbFault) -> u8
    ensures { result ≡ asc_of fault }
{
    match fault {
        CdbFault::Opcode => INVALID_OPCODE,
        CdbFault::Field => INVALID_FIELD,
        CdbFault::Length => INVALID_FIELD,
    }
}

/// Answers the command that stands in a command block, or its fault, as `serve` answers the command block.
pub fn serve_command<S: Store>(
    store: &mut S,
    unit: &LogicalUnit,
    command: Result<Cdb, CdbFault>,
    labels: &[Label],
    out: &[u8],
    into: &mut [u8],
    tamper: &Tamper,
) -> Outcome
    requires some { 1 ≤ unit.now.blocks }
    requires unit { IsUnit unit.now (S.state store.old).length }
    ensures told { (cdb : List ℕ) → command ≡ decoded cdb → ServedOn unit.now (λ found. target_answer found tamper.now cdb labels.now out.now (length into.old))
        (S.state store.old) (S.state store.new) result into.old into.new }
    ensures medium { IsMedium result → Rose (S.state store.old).faults (S.state store.new).faults ⊎ (fails_at tamper.now labels.now result.done ≡ true) }
    ensures key { has_key result.sense ≡ true }
    ensures stays { WasWritten (S.state store.old) (S.state store.new) }
{
    let cdb = match command {
        Err(fault) => return refused(asc_of(fault)),
        Ok(cdb) => cdb,
    };
    let asked = Asked {
        cdb,
        labels,
        tamper,
    };
    match request_of(cdb) {
        Request::Read(c) => read(store, unit, &asked, c, into),
        Request::Write(c) => write(store, unit, &asked, c, out),
        Request::Verify(c) => verify(store, unit, &asked, c),
        Request::ReadCapacity(alloc_len) => read_capacity(unit, alloc_len, into),
    }
}

/// Answers a command block: the outcome, with what is stored or sent.
///
/// The first refusal comes before any block. Else the blocks are taken in order, each by one call
/// of the store at most, up to the first that is found bad, whose call fails, or of which a line says that the
/// medium fails: those before it are stored or sent. Block `k` of a command has label `k`, whose faults alter it
/// at its four crossings, and may keep a part of it from the medium. The shifts are those of the first label's op: on the
/// wire of the address that the target is told, at the medium of where its blocks are stored or fetched. Places of `into`
/// past what is sent stay.
pub fn serve<S: Store>(
    store: &mut S,
    unit: &LogicalUnit,
    cdb: &[u8],
    labels: &[Label],
    out: &[u8],
    into: &mut [u8],
    tamper: &Tamper,
) -> Outcome
    requires some { 1 ≤ unit.now.blocks }
    requires unit { IsUnit unit.now (S.state store.old).length }
    ensures told { ServedOn unit.now (λ found. target_answer found tamper.now cdb.now labels.now out.now (length into.old)) (S.state store.old) (S.state store.new) result into.old into.new }
    ensures medium { IsMedium result → Rose (S.state store.old).faults (S.state store.new).faults ⊎ (fails_at tamper.now labels.now result.done ≡ true) }
    ensures key { has_key result.sense ≡ true }
    ensures stays { WasWritten (S.state store.old) (S.state store.new) }
{
    serve_command(store, unit, Cdb::decode(cdb), labels, out, into, tamper)
}
