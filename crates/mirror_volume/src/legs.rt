//! Requests on a leg: each is a stack of its own, run to its end.

ghost use Rattle.std.specs.Prelude.{◌≡◌, ◌<◌, ◌≤◌, ◌+◌, ◌*◌, ◌^◌, IfOk, OnOk, None, drop, length, take};
ghost use Rattle.page_pool.specs.Cells.{flat};
ghost use Rattle.page_pool.specs.Pages.{AllLieIn};
ghost use Rattle.script_stack.specs.Passed.{SuitsStack};
ghost use Rattle.script_text.specs.Bindings.{binding_fault};
ghost use Rattle.script_stack.specs.Causes.{table_of};
ghost use Rattle.stack_core.specs.Passed.{requests_from};
ghost use Rattle.stack_core.specs.Stacks.{IsStack};
ghost use Rattle.mirror_volume.specs.Inner.{page_segs, pages_for, read_pi_script, read_script, write_script};
ghost use Rattle.mirror_volume.specs.LegRuns.{OneRun, found_by, pool_of, replies_of};
ghost use Rattle.mirror_volume.specs.Helds.{HasPieceRoom};
ghost use Rattle.mirror_volume.specs.Plans.{IsPieceOf};
ghost use Rattle.mirror_volume.specs.Running.{CanRun, HasRunOnLegs};
ghost use Rattle.mirror_volume.specs.Standing.{IsBoundMirror};
ghost use Rattle.pi_tuple.specs.declared.TheConstants.{TUPLE};
ghost use Rattle.page_pool.specs.declared.TheConstants.{PAGE};

use crate::replies::found_last;
use crate::{
    Piece, a_mirror_has_what_its_legs_ask, a_stack_takes_a_read_with_tuples_on_a_leg,
    a_stack_takes_a_request_on_a_leg, page_segs, pages_for, read_pi_script, read_script,
    write_script,
};
use bio_core::Why;
use page_pool::PagePool;
use rig_api::Rig;
use script_stack::run_bound;
use script_text::Script;
use stack_core::Stack;
use std::alloc::{AllocError, Global};
use volume_table::{DeviceInfo, VolumeTable};

/// What the requests of a mirror go by: its script, which is bound to the volume of these devices, and how many blocks
/// the mirror has.
#[derive(Drop)]
pub(crate) struct Plan {
    pub(crate) script: Script,
    pub(crate) devices: Vec<DeviceInfo>,
    pub(crate) half: u64,
}

/// The volume of a mirror's script over its devices.
pub(crate) fn table_of(
    alloc: Global,
    script: &Script,
    devices: &[DeviceInfo],
) -> Result<VolumeTable, AllocError>
    requires { IsBoundMirror script.now devices.now }
    ensures { IfOk result (λ t. t ≡ table_of script.now devices.now) }
{
    match VolumeTable::new(alloc, &script.entries, devices, script.block) {
        Ok(table) => Ok(table),
        Err(_) => Err(AllocError),
    }
}

/// Runs a script of its own to its end. Its steps go on in the mirror's schedule, of which `used` entries are used.
fn run_own<R: Rig>(
    alloc: Global,
    plan: &Plan,
    own: Script,
    used: &mut usize,
    rig: &mut R,
) -> Result<Stack, AllocError>
    requires ready { CanRun plan.now used.old (R.state rig.old) }
    requires suits { SuitsStack own }
    requires lines { length own.lines ≡ length own.faults + length own.ops }
    requires block { own.block ≡ plan.now.script.block }
    requires bound { binding_fault own (table_of plan.now.script plan.now.devices.items) plan.now.devices.items ≡ None }
    ensures ran { HasRunOnLegs plan.now used.old used.new (R.state rig.old) (R.state rig.new) (λ s. s ≡ own)
        (λ runs. IfOk result (λ stack. OneRun own (λ r. r.stack ≡ stack) runs)) }
    ensures stack { IfOk result IsStack }
    ensures ios { IfOk result (λ stack. stack.sheet.ios.items ≡ requests_from own.mode.dix own.pages own.ops) }
    ensures ready { CanRun plan.now used.new (R.state rig.new) }
{
    let table = table_of(alloc, &plan.script, plan.devices.as_slice())?;
    let rest = &plan.script.schedule.as_slice()[*used..];
    let stack = run_bound(alloc, own, table, plan.devices.as_slice(), rest, rig)?;
    *used += rest.len().min(stack.steps() as usize);
    Ok(stack)
}

/// Writes these data to the blocks of the piece, with this application tag, and notes what was found of each.
pub(crate) fn write_piece<R: Rig>(
    alloc: Global,
    plan: &Plan,
    piece: Piece,
    app: u16,
    bytes: &[u8],
    found: &mut [Option<Why>],
    used: &mut usize,
    rig: &mut R,
) -> Result<(), AllocError>
    requires ready { CanRun plan.now used.old (R.state rig.old) }
    requires piece { IsPieceOf plan.now piece }
    requires long { length bytes.now ≡ piece.n * plan.now.script.block }
    requires found { length found.old ≡ piece.n }
    ensures ran { HasRunOnLegs plan.now used.old used.new (R.state rig.old) (R.state rig.new) (λ own. own ≡ write_script plan.now.script plan.now.half piece app bytes.now)
        (λ runs. IfOk result (λ u. OneRun (write_script plan.now.script plan.now.half piece app bytes.now) (λ r. found.new ≡ found_by piece.n (replies_of r)) runs)) }
    ensures found { length found.new ≡ length found.old }
    ensures ready { CanRun plan.now used.new (R.state rig.new) }
{
    // By laws.
    a_mirror_has_what_its_legs_ask();
    a_stack_takes_a_request_on_a_leg();
    let own = write_script(alloc, &plan.script, plan.half, piece, app, bytes)?;
    let stack = run_own(alloc, plan, own, used, rig)?;
    found_last(stack.replies(), found);
    Ok(())
}

/// Copies bytes out of pages, from the begin of this page on.
fn copy_out(alloc: Global, pool: &PagePool, page: u32, into: &mut [u8]) -> Result<(), AllocError>
    requires some { 1 ≤ length into.old }
    requires few { page + length into.old < 2 ^ 32 }
    requires lie { AllLieIn pool.now (page_segs page (pages_for (length into.old)) (length into.old)) }
    ensures bytes { OnOk result (into.new ≡ take (length into.old) (drop (PAGE * page) (flat pool.now))) }
    ensures long { length into.new ≡ length into.old }
{
    let _pages = pool.pages();
    let segs = page_segs(alloc, page, into.len() as u32)?;
    pool.gather(&segs, 0, into);
    Ok(())
}

/// Reads the blocks of the piece: their data, with zeros where one isn't delivered, and notes what was found of each.
pub(crate) fn read_piece<R: Rig>(
    alloc: Global,
    plan: &Plan,
    piece: Piece,
    bytes: &mut [u8],
    found: &mut [Option<Why>],
    used: &mut usize,
    rig: &mut R,
) -> Result<(), AllocError>
    requires ready { CanRun plan.now used.old (R.state rig.old) }
    requires piece { IsPieceOf plan.now piece }
    requires long { length bytes.old ≡ piece.n * plan.now.script.block }
    requires found { length found.old ≡ piece.n }
    ensures ran { HasRunOnLegs plan.now used.old used.new (R.state rig.old) (R.state rig.new) (λ own. own ≡ read_script plan.now.script plan.now.half piece)
        (λ runs. IfOk result (λ u. OneRun (read_script plan.now.script plan.now.half piece)
        (λ r. (found.new ≡ found_by piece.n (replies_of r)) × (bytes.new ≡ take (piece.n * plan.now.script.block) (flat (pool_of r)))) runs)) }
    ensures found { length found.new ≡ length found.old }
    ensures long { length bytes.new ≡ length bytes.old }
    ensures ready { CanRun plan.now used.new (R.state rig.new) }
{
    // By laws.
    a_mirror_has_what_its_legs_ask();
    a_stack_takes_a_request_on_a_leg();
    let own = read_script(alloc, &plan.script, plan.half, piece)?;
    let stack = run_own(alloc, plan, own, used, rig)?;
    found_last(stack.replies(), found);
    copy_out(alloc, stack.pool(), 0, bytes)
}

/// Copies data out of pages, from the first one on, and their tuples out of those behind.
fn copy_both(
    alloc: Global,
    pool: &PagePool,
    bytes: &mut [u8],
    tuples: &mut [u8],
) -> Result<(), AllocError>
    requires some { 1 ≤ length bytes.old }
    requires tagged { 1 ≤ length tuples.old }
    requires few { length bytes.old + length tuples.old < 2 ^ 32 }
    requires lie { AllLieIn pool.now (page_segs 0 (pages_for (length bytes.old)) (length bytes.old)) }
    requires behind { AllLieIn pool.now (page_segs (pages_for (length bytes.old)) (pages_for (length tuples.old)) (length tuples.old)) }
    ensures copied { OnOk result ((bytes.new ≡ take (length bytes.old) (flat pool.now))
        × (tuples.new ≡ take (length tuples.old) (drop (PAGE * pages_for (length bytes.old)) (flat pool.now)))) }
    ensures long { length bytes.new ≡ length bytes.old }
    ensures tuples_long { length tuples.new ≡ length tuples.old }
{
    let behind = pages_for(bytes.len() as u32);
    copy_out(alloc, pool, 0, bytes)?;
    copy_out(alloc, pool, behind, tuples)
}

/// Reads the blocks of the piece with their tuples.
pub(crate) fn read_pi_piece<R: Rig>(
    alloc: Global,
    plan: &Plan,
    piece: Piece,
    bytes: &mut [u8],
    tuples: &mut [u8],
    found: &mut [Option<Why>],
    used: &mut usize,
    rig: &mut R,
) -> Result<(), AllocError>
    requires ready { CanRun plan.now used.old (R.state rig.old) }
    requires piece { IsPieceOf plan.now piece }
    requires short { piece.n ≤ 128 }
    requires room { HasPieceRoom plan.now.script.block piece.n bytes.old tuples.old found.old }
    ensures ran { HasRunOnLegs plan.now used.old used.new (R.state rig.old) (R.state rig.new) (λ own. own ≡ read_pi_script plan.now.script plan.now.half piece)
        (λ runs. IfOk result (λ u. OneRun (read_pi_script plan.now.script plan.now.half piece)
        (λ r. (found.new ≡ found_by piece.n (replies_of r)) × ((bytes.new ≡ take (piece.n * plan.now.script.block) (flat (pool_of r)))
        × (tuples.new ≡ take (piece.n * TUPLE) (drop (PAGE * pages_for (piece.n * plan.now.script.block)) (flat (pool_of r)))))) runs)) }
    ensures room { HasPieceRoom plan.now.script.block piece.n bytes.new tuples.new found.new }
    ensures ready { CanRun plan.now used.new (R.state rig.new) }
{
    // By laws.
    a_mirror_has_what_its_legs_ask();
    a_stack_takes_a_read_with_tuples_on_a_leg();
    let own = read_pi_script(alloc, &plan.script, plan.half, piece)?;
    let stack = run_own(alloc, plan, own, used, rig)?;
    found_last(stack.replies(), found);
    copy_both(alloc, stack.pool(), bytes, tuples)
}
