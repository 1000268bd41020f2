//! What was read so far.

ghost use Rattle.std.specs.Prelude.{◌≡◌, ◌∷◌, ◌++◌, ◌≤◌, ◌⊎◌, [], IfErr, IfOk, MatchResult, OnOk, map, true, vec_len};
ghost use Rattle.script_lines.specs.declared.kind.ScriptKind.{ScriptKind};
ghost use Rattle.script_text.specs.Crossings.{crossed, is_read};
ghost use Rattle.script_text.specs.Trees.{are_lengths};
ghost use Rattle.bio_core.specs.declared.TheConstants.{MOST_BLOCKS};
ghost use Rattle.pi_tuple.specs.declared.TheConstants.{LARGEST_BLOCK};
ghost use Rattle.volume_table.specs.declared.TheConstants.{MOST_LENGTH};

use crate::adding::add;
use crate::crossing::{crossing_in, crossing_of, is_third};
use crate::mode::mode_of;
use crate::ops::{Sizes, op_of};
use crate::raw_fault::RawFault;
use crate::rules::request_blocks;
use crate::script::{LineList, Script};
use crate::trees::{Inner, OverLine, entries_over};
use crate::{MOST_ENTRIES, ScriptKind};
use fault_schedule::{FaultKind, FaultLine, FaultList};
use merge_queue::Limits;
use pi_guard::GuardKind;
use script_lines::{
    ModeLine, OpLine, ScriptLine, ScriptVersion, Section, Spot, VolumeList, WordList,
};
use stack_ops::{Op, OpList};
use std::alloc::Global;
use stripe_volume::Stripe;
use volume_table::{Entry, EntryList};

/// A script of which some lines were read.
#[derive(Drop)]
pub(crate) struct Draft {
    pub(crate) version: ScriptVersion,
    pub(crate) section: Option<Section>,
    pub(crate) mode: ModeLine,
    pub(crate) app: u16,
    pub(crate) mask: u16,
    pub(crate) expect_line: u32,
    pub(crate) limits: Limits,
    pub(crate) pages: u32,
    pub(crate) block: u32,
    pub(crate) inner: Vec<Inner>,
    pub(crate) entries: Vec<Entry>,
    pub(crate) faults: Vec<RawFault>,
    pub(crate) schedule: Vec<(u32, u32)>,
    pub(crate) ops: Vec<Op>,
    pub(crate) blocks: u32,
    pub(crate) fault_lines: Vec<u32>,
    pub(crate) op_lines: Vec<u32>,
    ghost sized: { block ≤ LARGEST_BLOCK },
    ghost few: { vec_len inner ≤ 32 },
    ghost lengths: { are_lengths inner.items ≡ true },
    ghost counted: { blocks ≤ MOST_BLOCKS },
}

impl Draft {
    ghost use Rattle.std.specs.Prelude.{None, ◌+◌, ◌<◌, false, length};
    ghost use Rattle.script_lines.specs.Forms.{IsSound};
    ghost use Rattle.script_text.specs.Drafts.{drafted};
    ghost use Rattle.script_text.specs.Language.{Takes, entry_taken, fault_line_taken, fault_taken, finished, inner_taken, nothing_read, op_taken, over_taken, schedule_taken, taken, volume_line_taken};
    ghost use Rattle.script_text.specs.Rules.{broken_rule, is_too_many, request_blocks};

    /// Nothing was read.
    pub(crate) fn new(alloc: Global) -> Draft
        ensures { drafted result ≡ nothing_read }
    {
        Draft {
            version: ScriptVersion::One,
            section: None,
            mode: ModeLine {
                kind: GuardKind::Crc,
                dix: false,
                dif: false,
                protect: 1,
            },
            app: 0,
            mask: 0,
            expect_line: 0,
            limits: Limits {
                max_blocks: 1,
                max_segs: 4,
                max_pi_segs: 1,
            },
            pages: 1,
            block: 512,
            inner: Vec::new(alloc),
            entries: Vec::new(alloc),
            faults: Vec::new(alloc),
            schedule: Vec::new(alloc),
            ops: Vec::new(alloc),
            blocks: 0,
            fault_lines: Vec::new(alloc),
            op_lines: Vec::new(alloc),
        }
    }

    /// The entries of an `over` line, which may be too many.
    fn add_over(&mut self, alloc: Global, line: OverLine) -> Result<(), ScriptKind>
        requires low { 1 ≤ line.len }
        requires high { line.len ≤ MOST_LENGTH }
        requires chunk { 1 ≤ line.chunk }
        requires legs { 1 ≤ length line.volumes.now }
        ensures { Takes (over_taken line.entry.start line.entry.len line.entry.chunk line.entry.volumes.now (drafted self.old)) result (drafted self.new) }
    {
        let found = entries_over(alloc, self.inner.as_slice(), line)?;
        let entries = found.as_slice();
        if self.entries.len() + entries.len() > MOST_ENTRIES {
            return Err(ScriptKind::TooMany);
        }
        add_entries(alloc, &mut self.entries, entries)
    }

    fn add_fault(&mut self, number: u32, fault: RawFault) -> Result<(), ScriptKind>
        ensures { Takes (fault_taken number fault (drafted self.old)) result (drafted self.new) }
    {
        add(&mut self.faults, fault)?;
        add(&mut self.fault_lines, number)
    }

    fn add_schedule(&mut self, entries: &WordList) -> Result<(), ScriptKind>
        ensures { Takes (schedule_taken entries.now (drafted self.old)) result (drafted self.new) }
    {
        self.schedule.extend_from_slice(entries.as_slice())?;
        Ok(())
    }

    fn add_inner(&mut self, inner: Inner) -> Result<(), ScriptKind>
        requires few { vec_len self.old.inner < 32 }
        requires low { 1 ≤ inner.len }
        requires high { inner.len ≤ MOST_LENGTH }
        ensures { Takes (inner_taken inner (drafted self.old)) result (drafted self.new) }
    {
        add(&mut self.inner, inner)
    }

    fn add_entry(&mut self, entry: Entry) -> Result<(), ScriptKind>
        ensures { Takes (entry_taken entry (drafted self.old)) result (drafted self.new) }
    {
        add(&mut self.entries, entry)
    }

    fn add_op(&mut self, alloc: Global, number: u32, line: OpLine) -> Result<(), ScriptKind>
        requires { self.old.blocks + request_blocks line ≤ MOST_BLOCKS }
        ensures { Takes (op_taken number line (drafted self.old)) result (drafted self.new) }
    {
        let blocks = request_blocks(&line);
        let sizes = Sizes {
            pages: self.pages,
            block: self.block,
        };
        let op = op_of(alloc, line, sizes)?;
        add(&mut self.ops, op)?;
        self.blocks += blocks;
        add(&mut self.op_lines, number)
    }

    /// Takes the line of a fault. No other line has one.
    fn take_fault(&mut self, number: u32, line: ScriptLine) -> Result<(), ScriptKind>
        ensures { Takes (fault_line_taken number line (drafted self.old)) result (drafted self.new) }
    {
        let fault = match line {
            ScriptLine::Flip {
                op,
                k,
                spot,
                off,
                bytes,
            } => RawFault {
                op,
                k,
                spot,
                kind: FaultKind::Flip { off, bytes },
            },
            ScriptLine::Shift { op, spot, by } => RawFault {
                op,
                k: 0,
                spot,
                kind: FaultKind::Shift { by },
            },
            ScriptLine::Keep { op, k, bytes } => RawFault {
                op,
                k,
                spot: Spot::Medium,
                kind: FaultKind::Keep { bytes },
            },
            ScriptLine::Fail { op, k } => RawFault {
                op,
                k,
                spot: Spot::Medium,
                kind: FaultKind::Fail,
            },
            _ => return Ok(()),
        };
        self.add_fault(number, fault)
    }

    /// Takes a line of the volume, or of a fault.
    fn take_volume(
        &mut self,
        alloc: Global,
        number: u32,
        line: ScriptLine,
    ) -> Result<(), ScriptKind>
        requires few { is_too_many (drafted self.old) line ≡ false }
        requires sound { IsSound line }
        ensures { Takes (volume_line_taken number line (drafted self.old)) result (drafted self.new) }
    {
        match line {
            ScriptLine::Inner {
                volume,
                len,
                dev,
                at,
            } => self.add_inner(Inner {
                volume,
                len,
                dev,
                at,
            }),
            ScriptLine::Linear(linear) => self.add_entry(Entry::Linear(linear)),
            ScriptLine::Stripe {
                start,
                len,
                chunk,
                legs,
            } => self.add_entry(Entry::Stripe(Stripe {
                start,
                len,
                chunk,
                legs,
            })),
            ScriptLine::Over {
                start,
                len,
                chunk,
                volumes,
            } => self.add_over(alloc, over_line(start, len, chunk, &volumes)),
            other => self.take_fault(number, other),
        }
    }

    fn expect(&mut self, number: u32, app: u16, mask: u16)
        ensures { drafted self.new ≡ record (drafted self.old) { app = app; mask = mask; expect_line = number } }
    {
        self.app = app;
        self.mask = mask;
        self.expect_line = number;
    }

    /// Takes a line that keeps the rules that come before its segments.
    #[tactic(auto, unfolding(crate::specs::Language::taken))]
    pub(crate) fn take(
        &mut self,
        alloc: Global,
        number: u32,
        line: ScriptLine,
    ) -> Result<(), ScriptKind>
        requires rule { broken_rule (drafted self.old) line ≡ None }
        requires sound { IsSound line }
        ensures { Takes (taken number line (drafted self.old)) result (drafted self.new) }
    {
        match line {
            ScriptLine::Mode(mode) => {
                self.mode = mode;
                Ok(())
            }
            ScriptLine::Limits(limits) => {
                self.limits = limits;
                Ok(())
            }
            ScriptLine::Pages(pages) => {
                self.pages = pages;
                Ok(())
            }
            ScriptLine::Block(size) => {
                self.block = size;
                Ok(())
            }
            ScriptLine::Expect { app, mask } => {
                self.expect(number, app, mask);
                Ok(())
            }
            ScriptLine::Schedule(entries) => self.add_schedule(&entries),
            ScriptLine::Op(line) => self.add_op(alloc, number, line),
            other => self.take_volume(alloc, number, other),
        }
    }

    /// The script, once all lines are read.
    pub(crate) fn finish(self, alloc: Global) -> Result<Script, ScriptKind>
        ensures value { IfOk result (λ script. script ≡ finished (drafted self)) }
        ensures memory { IfErr result (λ k. k ≡ ScriptKind.Memory) }
    {
        let Draft {
            version,
            section: _,
            mode,
            app,
            mask,
            expect_line,
            limits,
            pages,
            block,
            inner: _,
            entries,
            faults,
            schedule,
            ops,
            blocks: _,
            fault_lines,
            op_lines,
        } = self;
        let mut lines = fault_lines;
        lines.extend_from_slice(op_lines.as_slice())?;
        let faults = crossed(alloc, is_third(version), faults, ops.as_slice())?;
        Ok(Script {
            mode: mode_of(mode, app, mask),
            limits,
            pages,
            block,
            expect_line,
            entries: EntryList::from_vec(entries),
            faults: FaultList::from_vec(faults),
            schedule: WordList::from_vec(schedule),
            ops: OpList::from_vec(ops),
            lines: LineList::from_vec(lines),
        })
    }
}

/// What an `over` line says, its volumes borrowed.
fn over_line(start: u64, len: u64, chunk: u32, volumes: &VolumeList) -> OverLine
    ensures start { result.start ≡ start }
    ensures len { result.len ≡ len }
    ensures chunk { result.chunk ≡ chunk }
    ensures volumes { result.volumes.now ≡ volumes.now }
{
    OverLine {
        start,
        len,
        chunk,
        volumes: volumes.as_slice(),
    }
}

/// An equal entry. The one error is want of memory.
fn copy_of(alloc: Global, entry: &Entry) -> Result<Entry, ScriptKind>
    ensures same { IfOk result (λ e. e ≡ entry.now) }
    ensures memory { IfErr result (λ k. k ≡ ScriptKind.Memory) }
{
    match entry {
        Entry::Linear(linear) => Ok(Entry::Linear(*linear)),
        Entry::Stripe(stripe) => Ok(Entry::Stripe(Stripe {
            start: stripe.start,
            len: stripe.len,
            chunk: stripe.chunk,
            legs: stripe.legs.copy(alloc)?,
        })),
    }
}

/// Adds copies of entries.
fn add_entries(alloc: Global, list: &mut Vec<Entry>, entries: &[Entry]) -> Result<(), ScriptKind>
    ensures added { OnOk result (list.new.items ≡ list.old.items ++ entries.now) }
    ensures memory { IfErr result (λ k. k ≡ ScriptKind.Memory) }
{
    for entry in entries {
        add(list, copy_of(alloc, entry)?)?;
    }
    Ok(())
}

/// Whether the op of this number, from 1, is a read.
pub fn is_read(ops: &[Op], number: u32) -> bool
    ensures { result ≡ is_read ops.now number }
{
    match ops.get(number.saturating_sub(1) as usize) {
        Some(Op::Fetch { .. }) | Some(Op::FetchPi { .. }) => true,
        _ => false,
    }
}

/// The faults with their crossings, in a script of version 3 or of an earlier one.
fn crossed(
    alloc: Global,
    third: bool,
    faults: Vec<RawFault>,
    ops: &[Op],
) -> Result<Vec<FaultLine>, ScriptKind>
    ensures value { IfOk result (λ v. v.items ≡ map (crossed third ops.now) faults.items) }
    ensures memory { IfErr result (λ k. k ≡ ScriptKind.Memory) }
{
    let mut lines = Vec::new(alloc);
    for fault in faults {
        let RawFault { op, k, spot, kind } = fault;
        let at = crossing_of(spot, &kind, is_read(ops, op));
        let at = crossing_in(third, &kind, at);
        add(&mut lines, FaultLine { op, k, at, kind })?;
    }
    Ok(lines)
}
