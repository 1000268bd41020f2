//! A stack before its first step.

ghost use Rattle.std.specs.Prelude.{◌≡◌, ◌<◌, ◌≤◌, ◌+◌, ◌||◌, ℕ, false, List, IfOk, length, map, replicate, slice_index_or};
ghost use Rattle.std.specs.Vec.{vec_capacity};
ghost use Rattle.bio_core.specs.declared.fate.Fate.TheVariants.{Untouched};
ghost use Rattle.range_gate.specs.Gates.{IsGateFor};
ghost use Rattle.dix_adapter.specs.Room.{HoldsBlocks};
ghost use Rattle.stack_laws.specs.Runs.{blocks_of_requests};
ghost use Rattle.stack_ops.specs.declared.reply.Reply.TheVariants.{Silent};
ghost use Rattle.stack_ops.specs.Footprints.{IsShortPut};
ghost use Rattle.stack_walk_laws.specs.Sheets.{IsSheet, op_in, plan_of, prints_of, request_in};
ghost use Rattle.stack_walk_laws.specs.Shifts.{is_shift, shifted_by, shifts};
ghost use Rattle.stack_walk_laws.specs.Requests.{first_page, own_blocks, page_after, pages_from, requests_from};
ghost use Rattle.stack_core.specs.Replies.{HoldsBad};
ghost use Rattle.stack_core.specs.Rooms.{Suits, blocks_in};
ghost use Rattle.stack_core.specs.Stacks.{IsStack, plan_in, room_at};
ghost use Rattle.stack_core.specs.NewStacks.{FollowsAtFirst, IsNewSheet, IsNewStack, IsSetUp};
ghost use Rattle.stack_walk_laws.specs.Settling.{AreFates};
ghost use Rattle.stack_walk_laws.specs.Starting.{CanStart};
ghost use Rattle.bio_core.specs.declared.TheConstants.{MOST_BLOCKS};
ghost use Rattle.dix_adapter.specs.declared.TheConstants.{MOST_OF_COMMAND};
ghost use Rattle.pi_tuple.specs.declared.TheConstants.{LARGEST_BLOCK};
ghost use Rattle.stack_steps.specs.declared.TheConstants.{MOST_OPS, MOST_PAGES};

use crate::kept::{Fates, Room, room_for};
use crate::requests::{own_blocks, pages_for, request_of};
use crate::sheet::{Sheet, count_devices, largest_block};
use crate::{Setup, Stack};
use bio_core::{Bio, Fate, Io};
use block_path::host_type;
use dix_adapter::{Adapter, Mode, Scratch};
use fault_schedule::{FaultKind, FaultLine, FaultList, Tamper};
use merge_queue::Limits;
use page_pool::PagePool;
use pi_tuple::PiType;
use range_gate::{Footprint, Gate};
use stack_ops::{Op, OpList, Reply, footprint_of};
use stack_steps::Machine;
use std::alloc::{AllocError, Global};
use volume_table::VolumeTable;

fn is_shift(kind: &FaultKind) -> bool
    ensures { result ≡ is_shift kind.now }
{
    matches!(kind, FaultKind::Shift { .. })
}

/// Marks the op that a line shifts.
fn mark(shifted: &mut Vec<bool>, line: &FaultLine)
    ensures count { length shifted.new.items ≡ length shifted.old.items }
    ensures each { (i : ℕ) → i < length shifted.old.items → slice_index_or shifted.new.items i false ≡ (slice_index_or shifted.old.items i false || shifts (i + 1) line.now) }
{
    let op = line.op as usize;
    if is_shift(&line.kind) && 1 <= op && op <= shifted.len() {
        shifted[op - 1] = true;
    }
}

/// Whether a line shifts each op.
fn shifted_ops(alloc: Global, n: u32, faults: &[FaultLine]) -> Result<Vec<bool>, AllocError>
    requires { n ≤ MOST_OPS }
    ensures { IfOk result (λ v. v.items ≡ shifted_by faults.now n) }
{
    let mut shifted = vec![in alloc; false; n as usize]?;
    for line in faults {
        mark(&mut shifted, line);
    }
    Ok(shifted)
}

/// What each op touches.
fn footprints(alloc: Global, ops: &[Op], shifted: &[bool]) -> Result<Vec<Footprint>, AllocError>
    requires count { length shifted.now ≡ length ops.now }
    requires short { (i : ℕ) → i < length ops.now → IsShortPut (op_in ops.now i) }
    ensures { IfOk result (λ v. v.items ≡ prints_of ops.now shifted.now) }
{
    let mut prints = Vec::with_capacity(alloc, ops.len())?;
    for i in 0..ops.len() {
        prints.push_reserved(footprint_of(alloc, &ops[i], shifted[i])?);
    }
    Ok(prints)
}

fn first_page(dix: bool, page: u32) -> Option<u32>
    ensures { result ≡ first_page dix page }
{
    if dix { Some(page) } else { None }
}

fn page_after(dix: bool, page: u32, op: &Op) -> u32
    requires few { own_blocks op.now ≤ MOST_BLOCKS }
    requires pages { page ≤ 262144 }
    ensures next { result ≡ page_after dix page op.now }
    ensures most { result ≤ page + 32 }
{
    if dix {
        page + pages_for(own_blocks(op))
    } else {
        page
    }
}

/// The requests of the ops; those whose tuples the block layer makes have them behind the first pages.
fn requests(alloc: Global, ops: &[Op], dix: bool, pages: u32) -> Result<(Vec<Io>, u32), AllocError>
    requires few { length ops.now ≤ MOST_OPS }
    requires blocks { (i : ℕ) → i < length ops.now → own_blocks (op_in ops.now i) ≤ MOST_BLOCKS }
    requires pages { pages ≤ MOST_PAGES }
    ensures ios { IfOk result (λ r. r.0.items ≡ requests_from dix pages ops.now) }
    ensures pages { IfOk result (λ r. r.1 ≡ pages_from dix pages ops.now) }
{
    let mut ios = Vec::with_capacity(alloc, ops.len())?;
    let mut next = pages;
    for op in ops {
        ios.push_reserved(request_of(alloc, op, first_page(dix, next))?);
        next = page_after(dix, next, op);
    }
    Ok((ios, next))
}

fn rooms_of(alloc: Global, ops: &[Op]) -> Result<Vec<Room>, AllocError>
    ensures count { IfOk result (λ v. length v.items ≡ length ops.now) }
    ensures bad { IfOk result (λ v. (i : ℕ) → i < length ops.now → HoldsBad (blocks_in (op_in ops.now i)) (room_at v.items i)) }
    ensures suits { IfOk result (λ v. (i : ℕ) → i < length ops.now → Suits (op_in ops.now i) (room_at v.items i)) }
{
    let mut rooms = Vec::with_capacity(alloc, ops.len())?;
    for op in ops {
        rooms.push_reserved(room_for(alloc, op)?);
    }
    Ok(rooms)
}

fn silent(alloc: Global, n: usize) -> Result<Vec<Reply>, AllocError>
    ensures { IfOk result (λ v. v.items ≡ replicate n Silent) }
{
    let mut replies = Vec::with_capacity(alloc, n)?;
    for _ in 0..n {
        replies.push_reserved(Reply::Silent);
    }
    Ok(replies)
}

fn sheet_of(
    ops: OpList,
    shifted: Vec<bool>,
    ios: Vec<Io>,
    table: VolumeTable,
    limits: Limits,
    devices: u32,
) -> Sheet
    requires { IsSheet ops shifted.items ios.items table limits devices }
    ensures plan { plan_in result ≡ plan_of ops shifted.items ios.items table limits devices }
    ensures ops { result.ops ≡ ops }
    ensures shifted { result.shifted.items ≡ shifted.items }
    ensures ios { result.ios.items ≡ ios.items }
    ensures table { result.table ≡ table }
    ensures limits { result.limits ≡ limits }
    ensures devices { result.devices ≡ devices }
{
    Sheet {
        ops,
        shifted,
        ios,
        table,
        limits,
        devices,
    }
}

fn adapter_of(mode: Mode, ty: PiType, faults: FaultList) -> Adapter
    ensures { result ≡ record { kind = mode.kind; dix = mode.dix; dif = mode.dif; protect = mode.protect; ty = ty; tamper = faults; app = mode.app; mask = mode.mask } }
{
    Adapter {
        kind: mode.kind,
        dix: mode.dix,
        dif: mode.dif,
        protect: mode.protect,
        ty,
        tamper: Tamper::new(faults),
        app: mode.app,
        mask: mode.mask,
    }
}

/// The ops as the steps are told of them, and how many pages there are with those of the block layer's tuples.
fn sheet_for(
    alloc: Global,
    ops: OpList,
    table: VolumeTable,
    mode: Mode,
    limits: Limits,
    pages: u32,
    faults: &[FaultLine],
) -> Result<(Sheet, u32), AllocError>
    requires { (pool : List (List ℕ)) × CanStart table mode.dix mode.protect limits pages pool ops }
    ensures sheet { IfOk result (λ r. IsNewSheet table mode.dix limits pages faults.now ops r.0) }
    ensures pages { IfOk result (λ r. r.1 ≡ pages_from mode.dix pages ops) }
{
    let count = ops.as_slice().len() as u32;
    let shifted = shifted_ops(alloc, count, faults)?;
    let (ios, pages) = requests(alloc, ops.as_slice(), mode.dix, pages)?;
    let devices = count_devices(&ios, &table);
    Ok((sheet_of(ops, shifted, ios, table, limits, devices), pages))
}

/// The gate of the ops, all of which wait.
fn gate_for(alloc: Global, ops: &[Op], shifted: &[bool]) -> Result<Gate, AllocError>
    requires few { length ops.now ≤ MOST_OPS }
    requires count { length shifted.now ≡ length ops.now }
    requires short { (i : ℕ) → i < length ops.now → IsShortPut (op_in ops.now i) }
    ensures { IfOk result (IsGateFor (prints_of ops.now shifted.now)) }
{
    Gate::new(alloc, footprints(alloc, ops, shifted)?)
}

/// What becomes of the blocks of each op, the room of its reply, and its reply.
#[derive(Drop)]
struct Outcomes {
    kept: Fates,
    rooms: Vec<Room>,
    replies: Vec<Reply>,
}

/// Of no op anything became yet.
fn first_outcomes(alloc: Global, ops: &[Op], ios: &[Io]) -> Result<Outcomes, AllocError>
    requires { blocks_of_requests (map request_in ios.now) ≤ MOST_BLOCKS }
    ensures fates { IfOk result (λ o. AreFates ios.now o.kept.starts.items o.kept.held.items) }
    ensures held { IfOk result (λ o. o.kept.held.items ≡ replicate (blocks_of_requests (map request_in ios.now)) Untouched) }
    ensures count { IfOk result (λ o. length o.rooms.items ≡ length ops.now) }
    ensures bad { IfOk result (λ o. (i : ℕ) → i < length ops.now → HoldsBad (blocks_in (op_in ops.now i)) (room_at o.rooms.items i)) }
    ensures suits { IfOk result (λ o. (i : ℕ) → i < length ops.now → Suits (op_in ops.now i) (room_at o.rooms.items i)) }
    ensures replies { IfOk result (λ o. o.replies.items ≡ replicate (length ios.now) Silent) }
{
    Ok(Outcomes {
        kept: Fates::new(alloc, ios)?,
        rooms: rooms_of(alloc, ops)?,
        replies: silent(alloc, ios.len())?,
    })
}

/// The room of one command: its frames, its bios and the fates of its blocks.
#[derive(Drop)]
struct CommandRoom {
    scratch: Scratch,
    group: Vec<Bio>,
    fates: Vec<Fate>,
}

/// Room for a command of so many blocks of so many bytes, of all `blocks` of a run.
fn command_room(
    alloc: Global,
    blocks: u32,
    max_blocks: u32,
    most_bytes: u32,
) -> Result<CommandRoom, AllocError>
    requires few { max_blocks ≤ MOST_OF_COMMAND }
    requires bytes { most_bytes ≤ LARGEST_BLOCK }
    ensures scratch { IfOk result (λ r. HoldsBlocks most_bytes max_blocks r.scratch) }
    ensures group { IfOk result (λ r. blocks ≤ vec_capacity r.group) }
    ensures fates { IfOk result (λ r. blocks ≤ vec_capacity r.fates) }
{
    Ok(CommandRoom {
        scratch: Scratch::for_size(alloc, max_blocks, most_bytes)?,
        group: Vec::with_capacity(alloc, blocks as usize)?,
        fates: Vec::with_capacity(alloc, blocks as usize)?,
    })
}

impl Stack {
    /// A stack of these ops, none of which has begun. Takes all the memory of the run.
    ///
    /// The ops are at most 4,096, of together at most 16,384 blocks of one size, which is at most 4,096 bytes. Their
    /// bytes lie in the pages and their blocks in the volume, which lies on at most eight devices.
    pub fn new(alloc: Global, setup: Setup, ops: OpList) -> Result<Stack, AllocError>
        requires { (pool : List (List ℕ)) × CanStart setup.table setup.mode.dix setup.mode.protect setup.limits setup.pages pool ops }
        ensures stack { IfOk result IsStack }
        ensures is { IfOk result (IsSetUp setup ops) }
        ensures new { IfOk result (IsNewStack setup ops) }
        ensures follows { IfOk result FollowsAtFirst }
    {
        let Setup {
            table,
            mode,
            limits,
            pages,
            faults,
        } = setup;
        let ty = table.ty();
        let (sheet, pages) = sheet_for(alloc, ops, table, mode, limits, pages, faults.as_slice())?;
        let gate = gate_for(alloc, sheet.all_ops(), sheet.shifted())?;
        let machine = Machine::new(alloc, &sheet, gate)?;
        let outcomes = first_outcomes(alloc, sheet.all_ops(), sheet.ios())?;
        let most_bytes = largest_block(sheet.ios());
        let blocks = outcomes.kept.blocks();
        let room = command_room(alloc, blocks, limits.max_blocks, most_bytes)?;
        let pool = PagePool::new(alloc, pages)?;
        let Outcomes {
            kept,
            rooms,
            replies,
        } = outcomes;
        let CommandRoom {
            scratch,
            group,
            fates,
        } = room;
        Ok(Stack {
            sheet,
            machine,
            adapter: adapter_of(mode, ty, faults),
            host: host_type(ty),
            pool,
            scratch,
            group,
            fates,
            kept,
            rooms,
            replies,
        })
    }
}
