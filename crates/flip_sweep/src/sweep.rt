//! All flips of a script.

ghost use Rattle.std.specs.Prelude.{◌≡◌, ◌+◌, ◌≤◌, ◌<◌, ◌^◌, [], IfErr, IfOk, IsErrOf, OnErr, OnOk, length, true, Err};
ghost use Rattle.dix_base.specs.Told.{Appended, AppendedSome, Rose};
ghost use Rattle.report_text.specs.Writing.{Wrote};
ghost use Rattle.run_command.specs.Working.{IsSound};
ghost use Rattle.rig_api.specs.Headers.{is_layout};
ghost use Rattle.flip_sweep.specs.Flips.{AreSites, IsSite, sites_of};
ghost use Rattle.flip_sweep.specs.Ground.{IsGround, swept_in};
ghost use Rattle.flip_sweep.specs.Rows.{IsSmall, all_counted, first_line, last_line, next_open, none_yet, row, row_before, stretch};
ghost use Rattle.flip_sweep.specs.Swept.{CauseUnswept, SweepEnds, all_rows, counts_of, counts_with, rows_at, sweep_text, unseen_in, verdict_at, verdicts_at};
ghost use Rattle.rig_api.specs.declared.TheConstants.{MOST_FRAME};

use crate::copying::with_faults;
use crate::counts::Counts;
use crate::flips::{Site, sites_of, with_flip};
use crate::line::{last_line, row};
use crate::own_lines::own_fault;
use crate::runs::{Came, fresh_rig, run_over};
use crate::stretch::Stretch;
use crate::verdict::{Verdict, is_same_verdict, verdict_of};
use call_refusal::Refusal;
use dix_base::{CalmStore, Failed, Sink};
use fault_schedule::FaultList;
use image_rig::ImageRig;
use pi_tuple::TUPLE;
use report_text::write_all;
use rig_api::UnitSpec;
use script_text::{LineList, Script};
use std::alloc::{AllocError, Global};

/// Why a sweep that was begun wasn't ended.
#[derive(Clone, Copy, Debug, PartialEq, Eq)]
pub enum Halt {
    /// Want of memory between two runs.
    Memory,
    /// The sink failed.
    Sink,
}

/// Why a script wasn't swept.
#[derive(Clone, Copy, Debug, PartialEq, Eq)]
pub enum Unswept {
    /// It comes to no run over the units.
    Stopped(Refusal),
    /// The sweep was begun, and not ended.
    Halted(Halt),
}

/// What stays from run to run: the units, a rig over their formatted image, the script, what its run as it is came to,
/// and the byte by which others are altered.
#[derive(Drop)]
pub(crate) struct Ground<'a> {
    units: &'a [UnitSpec],
    script: &'a Script,
    byte: u8,
    fresh: ImageRig<CalmStore>,
    plain: Came,
}

/// The bytes of a frame: a block and eight bytes.
fn frame_len(script: &Script) -> u32
    requires { IsSound script.now }
    ensures len { result ≡ script.now.block + TUPLE }
    ensures few { result ≤ MOST_FRAME }
{
    script.block + TUPLE as u32
}

/// What the flip of byte `off` of a frame comes to.
fn verdict_at(alloc: Global, base: &Ground<'_>, site: Site, off: u32) -> Result<Verdict, AllocError>
    requires base { IsGround base.now }
    requires site { IsSite site }
    requires off { off < base.now.script.now.block + TUPLE }
    ensures { IfOk result (λ v. v ≡ verdict_at (swept_in base.now) site off) }
{
    let script = with_flip(alloc, base.script, site, off, base.byte)?;
    match run_over(alloc, base.fresh.store().bytes(), script) {
        Ok(came) => Ok(verdict_of(base.units, base.script.pages, &base.plain, &came)),
        Err(_) => Err(AllocError),
    }
}

/// The stretch of the first byte.
fn first_stretch(alloc: Global, base: &Ground<'_>, site: Site) -> Result<Stretch, AllocError>
    requires base { IsGround base.now }
    requires site { IsSite site }
    ensures { IfOk result (λ s. s ≡ stretch 0 0 (verdict_at (swept_in base.now) site 0)) }
{
    let verdict = verdict_at(alloc, base, site, 0)?;
    Ok(Stretch {
        first: 0,
        last: 0,
        verdict,
    })
}

/// The open stretch with the next byte. Where that comes to something else, the stretch is written and another opened.
fn go_on<O: Sink>(
    out: &mut O,
    site: Site,
    current: Stretch,
    verdict: Verdict,
) -> Result<Stretch, Halt>
    requires { current.last + 1 < 2 ^ 32 }
    ensures current { IfOk result (λ s. s ≡ next_open current verdict) }
    ensures wrote { Wrote O.taken O.faults (row_before site current verdict) out.old out.new result }
    ensures sink { IfErr result (λ halt. halt ≡ Halt.Sink) }
{
    let next = current.last + 1;
    if is_same_verdict(current.verdict, verdict) {
        return Ok(Stretch {
            last: next,
            ..current
        });
    }
    write_row(out, site, current)?;
    Ok(Stretch {
        first: next,
        last: next,
        verdict,
    })
}

fn write_row<O: Sink>(out: &mut O, site: Site, stretch: Stretch) -> Result<(), Halt>
    ensures wrote { Wrote O.taken O.faults (row site stretch) out.old out.new result }
    ensures sink { IfErr result (λ halt. halt ≡ Halt.Sink) }
{
    write_all(out, row(site, stretch).as_slice())?;
    Ok(())
}

/// Writes what the flips of the bytes of a frame come to, and counts them.
fn sweep_site<O: Sink>(
    alloc: Global,
    base: &Ground<'_>,
    site: Site,
    counts: Counts,
    out: &mut O,
) -> Result<Counts, Halt>
    requires base { IsGround base.now }
    requires site { IsSite site }
    requires small { IsSmall counts (base.now.script.now.block + TUPLE) }
    ensures counts { IfOk result (λ c. c ≡ all_counted counts (verdicts_at (swept_in base.now) site)) }
    ensures whole { OnOk result (Appended (rows_at (swept_in base.now) site) (O.taken out.old) (O.taken out.new)) }
    ensures part { OnErr result (AppendedSome (rows_at (swept_in base.now) site) (O.taken out.old) (O.taken out.new)) }
    ensures cause { IsErrOf result Halt.Sink → Rose (O.faults out.old) (O.faults out.new) }
    ensures calm { (IsErrOf result Halt.Sink → ⊥) → O.faults out.new ≡ O.faults out.old }
    ensures count { O.faults out.old ≤ O.faults out.new }
{
    let len = frame_len(base.script);
    let opened = first_stretch(alloc, base, site)?;
    let mut current = opened;
    let mut counted = counts.with(opened.verdict);
    while current.last + 1 < len {
        let verdict = verdict_at(alloc, base, site, current.last + 1)?;
        let next = go_on(out, site, current, verdict)?;
        let more = counted.with(verdict);
        current = next;
        counted = more;
    }
    write_row(out, site, current)?;
    Ok(counted)
}

/// Writes what all flips at these crossings come to, and counts them.
fn sweep_sites<O: Sink>(
    alloc: Global,
    base: &Ground<'_>,
    sites: &[Site],
    out: &mut O,
) -> Result<Counts, Halt>
    requires base { IsGround base.now }
    requires sites { AreSites sites.now }
    requires few { length sites.now ≤ 49152 }
    ensures counts { IfOk result (λ c. c ≡ counts_with (swept_in base.now) none_yet sites.now) }
    ensures whole { OnOk result (Appended (all_rows (swept_in base.now) sites.now) (O.taken out.old) (O.taken out.new)) }
    ensures part { OnErr result (AppendedSome (all_rows (swept_in base.now) sites.now) (O.taken out.old) (O.taken out.new)) }
    ensures cause { IsErrOf result Halt.Sink → Rose (O.faults out.old) (O.faults out.new) }
    ensures calm { (IsErrOf result Halt.Sink → ⊥) → O.faults out.new ≡ O.faults out.old }
    ensures count { O.faults out.old ≤ O.faults out.new }
{
    let mut counts = Counts::none();
    let mut rest = sites;
    while let Some((site, behind)) = rest.split_first() {
        let more = sweep_site(alloc, base, *site, counts, out)?;
        counts = more;
        rest = behind;
    }
    Ok(counts)
}

fn write_text<O: Sink>(out: &mut O, text: &[u8]) -> Result<(), Halt>
    ensures wrote { Wrote O.taken O.faults text.now out.old out.new result }
    ensures sink { IfErr result (λ halt. halt ≡ Halt.Sink) }
{
    write_all(out, text)?;
    Ok(())
}

fn write_first<O: Sink>(out: &mut O) -> Result<(), Halt>
    ensures wrote { Wrote O.taken O.faults first_line out.old out.new result }
    ensures sink { IfErr result (λ halt. halt ≡ Halt.Sink) }
{
    write_text(out, b"dix sweep 1\n")
}

fn write_last<O: Sink>(out: &mut O, counts: Counts) -> Result<(), Halt>
    ensures wrote { Wrote O.taken O.faults (last_line counts) out.old out.new result }
    ensures sink { IfErr result (λ halt. halt ≡ Halt.Sink) }
{
    write_text(out, last_line(counts).as_slice())
}

/// Writes the text, and says how many flips come to what.
fn write_sweep<O: Sink>(
    alloc: Global,
    base: &Ground<'_>,
    sites: &[Site],
    out: &mut O,
) -> Result<Counts, Halt>
    requires base { IsGround base.now }
    requires sites { sites.now ≡ sites_of base.now.script.now }
    ensures counts { IfOk result (λ c. c ≡ counts_of (swept_in base.now)) }
    ensures whole { OnOk result (Appended (sweep_text (swept_in base.now)) (O.taken out.old) (O.taken out.new)) }
    ensures part { OnErr result (AppendedSome (sweep_text (swept_in base.now)) (O.taken out.old) (O.taken out.new)) }
    ensures cause { IsErrOf result Halt.Sink → Rose (O.faults out.old) (O.faults out.new) }
    ensures calm { (IsErrOf result Halt.Sink → ⊥) → O.faults out.new ≡ O.faults out.old }
    ensures count { O.faults out.old ≤ O.faults out.new }
{
    write_first(out)?;
    let counts = sweep_sites(alloc, base, sites, out)?;
    write_last(out, counts)?;
    Ok(counts)
}

/// An equal script, which has no fault of its own.
fn copy_of(alloc: Global, script: &Script) -> Result<Script, AllocError>
    requires { script.now.faults ≡ [] }
    ensures { IfOk result (λ copy. copy ≡ script.now) }
{
    let lines = Vec::from_slice(alloc, script.lines.as_slice())?;
    with_faults(
        alloc,
        script,
        FaultList::from_vec(Vec::new(alloc)),
        LineList::from_vec(lines),
    )
}

/// The script is run as it is over the freshly formatted units.
fn begun<'a>(
    alloc: Global,
    byte: u8,
    units: &'a [UnitSpec],
    script: &'a Script,
) -> Result<Ground<'a>, Refusal>
    requires layout { is_layout units.now ≡ true }
    requires sound { IsSound script.now }
    requires byte { 1 ≤ byte }
    ensures base { IfOk result (λ g. IsGround g) }
    ensures swept { IfOk result (λ g. swept_in g ≡ record { byte = byte; units = units.now; script = script.now }) }
    ensures cause { IfErr result (λ r. CauseUnswept r (record { byte = byte; units = units.now; script = script.now })) }
{
    if let Some(fault) = own_fault(script) {
        return Err(Refusal::Script(fault));
    }
    let fresh = fresh_rig(alloc, units)?;
    let copy = copy_of(alloc, script)?;
    let plain = run_over(alloc, fresh.store().bytes(), copy)?;
    Ok(Ground {
        units,
        script,
        byte,
        fresh,
        plain,
    })
}

/// Whether some flips are seen by nobody, where all of them were counted.
fn has_unseen(ended: Result<Counts, Halt>) -> Result<bool, Unswept>
    ensures { result ≡ unseen_in ended }
{
    match ended {
        Ok(counts) => Ok(counts.unseen > 0),
        Err(halt) => Err(Unswept::Halted(halt)),
    }
}

/// Sweeps a script that was run as it is. The sink passes on all that it holds.
fn sweep_ground<O: Sink>(alloc: Global, base: &Ground<'_>, out: &mut O) -> Result<bool, Unswept>
    requires base { IsGround base.now }
    ensures swept { SweepEnds result (swept_in base.now) (O.faults out.old) (O.faults out.new) (O.taken out.old) (O.taken out.new) }
    ensures count { O.faults out.old ≤ O.faults out.new }
    ensures handed { OnOk result (O.passed out.new ≡ O.taken out.new) }
    ensures halted { result ≡ Err (Unswept.Halted Halt.Memory) → O.passed out.new ≡ O.taken out.new }
    ensures calm { (result ≡ Err (Unswept.Halted Halt.Sink) → ⊥) → O.faults out.new ≡ O.faults out.old }
{
    let Ok(sites) = sites_of(alloc, base.script.ops.as_slice()) else {
        return Err(Unswept::Stopped(Refusal::Memory));
    };
    let ended = write_sweep(alloc, base, &sites, out);
    match out.flush() {
        Ok(()) => has_unseen(ended),
        Err(Failed) => Err(Unswept::Halted(Halt::Sink)),
    }
}

/// Runs the script over these units, freshly formatted in memory, once as it is and then once for each byte of a frame
/// at each crossing of each block of its reads and writes, with this byte, which isn't 0, as the bits that are flipped
/// there; writes what each of these flips comes to, and says whether some are seen by nobody. The sink passes on all
/// that it holds.
///
/// `Stopped` comes where the script comes to no run, or has a `fault`, `shift` or `overwrite` line of its own; then
/// nothing was written. After `Halted` the beginning of the text was written; `Sink` comes only where the sink's count
/// of faults rose, and with any other answer it stayed.
pub fn sweep_script<O: Sink>(
    alloc: Global,
    byte: u8,
    units: &[UnitSpec],
    script: &Script,
    out: &mut O,
) -> Result<bool, Unswept>
    requires layout { is_layout units.now ≡ true }
    requires sound { IsSound script.now }
    requires byte { 1 ≤ byte }
    ensures swept { SweepEnds result (record { byte = byte; units = units.now; script = script.now }) (O.faults out.old) (O.faults out.new) (O.taken out.old) (O.taken out.new) }
    ensures count { O.faults out.old ≤ O.faults out.new }
    ensures handed { OnOk result (O.passed out.new ≡ O.taken out.new) }
    ensures halted { result ≡ Err (Unswept.Halted Halt.Memory) → O.passed out.new ≡ O.taken out.new }
    ensures calm { (result ≡ Err (Unswept.Halted Halt.Sink) → ⊥) → O.faults out.new ≡ O.faults out.old }
{
    let base = match begun(alloc, byte, units, script) {
        Ok(base) => base,
        Err(refusal) => return Err(Unswept::Stopped(refusal)),
    };
    sweep_ground(alloc, &base, out)
}
