//! The lines of a schedule of faults.

ghost use Rattle.std.specs.Prelude.{◌≡◌, IfOk};

use crate::ShortBytes;
use std::alloc::{AllocError, Global};
use std::marker::Model;

/// A step of a block's way between the pages of the host and the medium, at which its frame is
/// copied.
#[derive(Clone, Copy, Debug, PartialEq, Eq)]
pub enum Crossing {
    /// A write, from the pages to the adapter.
    HostToAdapter,
    /// A write's frame, or the command of either direction, from the adapter to the target.
    AdapterToTarget,
    /// A write, from the target to the medium.
    TargetToMedium,
    /// A read, from the medium to the target.
    MediumToTarget,
    /// A read, from the target to the adapter.
    TargetToAdapter,
    /// A read, from the adapter to the pages.
    AdapterToHost,
}

/// What a fault does.
#[derive(Drop)]
pub enum FaultKind {
    /// Alters the bytes of a block: that at byte `off` of the frame is xored with the first of
    /// `bytes`, and so on.
    Flip { off: u32, bytes: ShortBytes },
    /// Moves the address by so many blocks.
    Shift { by: i64 },
    /// Of the frame that is stored, only so many bytes are, from its front; behind them stands what
    /// stood there. The write is acknowledged as ever: a lost one keeps none, a torn one a part.
    Keep { bytes: u32 },
    /// The medium can't store or send the block, and the command ends at it: what stood there stays.
    /// Its crossing says nothing.
    Fail,
}

impl FaultKind {
    fn copy(&self) -> FaultKind
        ensures { result ≡ self.now }
    {
        match self {
            FaultKind::Flip { off, bytes } => FaultKind::Flip {
                off: *off,
                bytes: bytes.copy(),
            },
            FaultKind::Shift { by } => FaultKind::Shift { by: *by },
            FaultKind::Keep { bytes } => FaultKind::Keep { bytes: *bytes },
            FaultKind::Fail => FaultKind::Fail,
        }
    }
}

/// One line of a schedule: a fault of a block, or of all blocks of a request, at a crossing. It
/// acts each time that the block crosses, on the copy that crosses.
#[derive(Drop)]
pub struct FaultLine {
    /// The number of the op, from 1.
    pub op: u32,
    /// The index of the block in the op's request, from 0. A shift is of the whole request, and
    /// its `k` says nothing.
    pub k: u32,
    /// Where the fault acts.
    pub at: Crossing,
    /// What the fault does.
    pub kind: FaultKind,
}

impl FaultLine {
    fn copy(&self) -> FaultLine
        ensures { result ≡ self.now }
    {
        FaultLine {
            op: self.op,
            k: self.k,
            at: self.at,
            kind: self.kind.copy(),
        }
    }
}

/// The lines of a schedule. A contract sees them as a list.
#[derive(Drop)]
pub struct FaultList {
    lines: Vec<FaultLine>,
}

impl Model for FaultList {
    ghost use Rattle.std.specs.Prelude.{List};
    ghost use Rattle.fault_schedule.specs.declared.fault.FaultLine.{FaultLine};

    ghost Value = { List FaultLine };

    ghost view = { λ f. f.lines.items };
}

impl FaultList {
    /// The same lines. It takes no memory.
    pub fn from_vec(v: Vec<FaultLine>) -> Self
        ensures { result ≡ v.items }
    {
        FaultList { lines: v }
    }

    /// The lines, in order.
    pub fn as_slice(&self) -> &[FaultLine]
        ensures { result.now ≡ self.now }
    {
        self.lines.as_slice()
    }

    /// An equal list. Its one failure is want of memory.
    pub fn copy(&self, alloc: Global) -> Result<Self, AllocError>
        ensures { IfOk result (λ f. f ≡ self.now) }
    {
        let lines = self.lines.iter().map(FaultLine::copy).collect(alloc)?;
        Ok(FaultList { lines })
    }
}
