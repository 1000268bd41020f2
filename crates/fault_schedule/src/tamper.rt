//! The faults of a schedule, as they act on what crosses.

ghost use Rattle.std.specs.Prelude.{◌≡◌};
ghost use Rattle.fault_schedule.specs.Altered.{altered, byte_at, fails_by, fails_of, is_line_of, keep_by, keep_of, named_by, shift_by, shift_of, xored_from};
ghost use Rattle.fault_schedule.specs.Spans.{AreWithin, lines_of_op};

use crate::{Crossing, FaultKind, FaultLine, FaultList, Label};
use std::marker::Model;

/// From which line of a schedule to which those of an op stand. Two bytes do, as a place past 255 counts as 255:
/// behind a last line at 255 there may be more.
#[derive(Clone, Copy)]
struct Span {
    first: u8,
    last: u8,
}

/// The faults that act. A contract sees them as the list of their lines.
#[derive(Drop)]
pub struct Tamper {
    faults: FaultList,
    // At the op's number modulo 1,024, so that a block is held against its own op's lines, and not against each line.
    spans: [Span; 1024],
}

impl Model for Tamper {
    ghost use Rattle.std.specs.Prelude.{List};
    ghost use Rattle.fault_schedule.specs.declared.fault.FaultLine.{FaultLine};
    ghost use Rattle.fault_schedule.specs.Spans.{AreWithin};

    ghost Value = { List FaultLine };

    ghost view = { λ t. t.faults };

    ghost invariant = { λ t. AreWithin t.spans t.faults };
}

/// From which line to which those of each op stand.
fn spans_of(lines: &[FaultLine]) -> [Span; 1024]
    ensures { AreWithin result lines.now }
{
    let mut spans = [Span {
        first: 255,
        last: 0,
    }; 1024];
    for i in 0..lines.len() {
        let place = (lines[i].op % 1024) as usize;
        let at = i.min(255) as u8;
        spans[place] = Span {
            first: spans[place].first.min(at),
            last: at,
        };
    }
    spans
}

/// Xors the bytes into the block from byte `off` on, as far as the block reaches.
pub fn xor_into(block: &mut [u8], off: usize, bytes: &[u8])
    ensures { block.new ≡ xored_from (byte_at off bytes.now) 0 block.old }
{
    let reach = block.len().saturating_sub(off).min(bytes.len());
    let bytes = &bytes[..reach];
    for (i, byte) in bytes.iter().enumerate() {
        block[off + i] ^= *byte;
    }
}

impl FaultLine {
    fn is_at(&self, at: Crossing, label: Label) -> bool
        ensures { result ≡ is_line_of self.now at label }
    {
        self.at == at && self.op == label.op && self.k == label.k
    }

    fn apply(&self, at: Crossing, label: Label, block: &mut [u8])
        ensures { block.new ≡ xored_from (named_by self.now at label) 0 block.old }
    {
        if !self.is_at(at, label) {
            return;
        }
        match &self.kind {
            FaultKind::Flip { off, bytes } => xor_into(block, *off as usize, bytes.as_slice()),
            FaultKind::Shift { .. } => {}
            FaultKind::Keep { .. } => {}
            FaultKind::Fail => {}
        }
    }

    fn shift(&self, at: Crossing, op: u32) -> Option<i64>
        ensures { result ≡ shift_by self.now at op }
    {
        match self.kind {
            FaultKind::Shift { by } if self.at == at && self.op == op => Some(by),
            _ => None,
        }
    }

    fn keep(&self, label: Label) -> Option<u32>
        ensures { result ≡ keep_by self.now label }
    {
        if !self.is_at(Crossing::TargetToMedium, label) {
            return None;
        }
        match self.kind {
            FaultKind::Keep { bytes } => Some(bytes),
            _ => None,
        }
    }

    fn fails(&self, label: Label) -> bool
        ensures { result ≡ fails_by self.now label }
    {
        match self.kind {
            FaultKind::Fail => self.op == label.op && self.k == label.k,
            _ => false,
        }
    }
}

fn any_fails(lines: &[FaultLine], label: Label) -> bool
    ensures { result ≡ fails_of lines.now label }
{
    lines.iter().any(|line| line.fails(label))
}

impl Tamper {
    /// These faults. It takes no memory.
    pub fn new(faults: FaultList) -> Tamper
        ensures { result ≡ faults }
    {
        let spans = spans_of(faults.as_slice());
        Tamper { faults, spans }
    }

    /// Some lines in a row, with all that name the op among them.
    fn lines_of(&self, op: u32) -> &[FaultLine]
        ensures { lines_of_op op result.now ≡ lines_of_op op self.now }
    {
        let span = self.spans[(op % 1024) as usize];
        let lines = self.faults.as_slice();
        let end = if span.last == 255 {
            lines.len()
        } else {
            lines.len().min(span.last as usize + 1)
        };
        &lines[end.min(span.first as usize)..end]
    }

    /// Alters a block that crosses: each byte is xored with all bytes that flips of this label
    /// and crossing name for its place. What a flip names past the end of the block alters
    /// nothing. The time is linear in the lines from the op's first to its last and their bytes.
    /// For this, ops are told apart modulo 1,024, and the first 255 lines by their places.
    pub fn apply(&self, at: Crossing, label: Label, block: &mut [u8])
        ensures { block.new ≡ altered self.now at label block.old }
    {
        for line in self.lines_of(label.op) {
            line.apply(at, label, block);
        }
    }

    /// By how many blocks the op's address is off at this crossing: what the first shift of this
    /// op and crossing says, and 0 where there is none.
    pub fn shift(&self, at: Crossing, op: u32) -> i64
        ensures { result ≡ shift_of self.now at op }
    {
        for line in self.lines_of(op) {
            if let Some(by) = line.shift(at, op) {
                return by;
            }
        }
        0
    }

    /// How many bytes of this block's frame the medium stores, where a line says so: what the first
    /// such line says. Behind them stands what stood there.
    pub fn keep(&self, label: Label) -> Option<u32>
        ensures { result ≡ keep_of self.now label }
    {
        for line in self.lines_of(label.op) {
            if let Some(bytes) = line.keep(label) {
                return Some(bytes);
            }
        }
        None
    }

    /// Whether the medium can't store or send this block.
    pub fn fails(&self, label: Label) -> bool
        ensures { result ≡ fails_of self.now label }
    {
        any_fails(self.lines_of(label.op), label)
    }
}
