//! A script.

ghost use Rattle.std.specs.Prelude.{◌≡◌};

use block_path::Mode;
use fault_schedule::FaultList;
use merge_queue::Limits;
use script_lines::WordList;
use stack_ops::OpList;
use std::marker::Model;
use volume_table::EntryList;

/// Numbers of lines.
#[derive(Drop)]
pub struct LineList {
    held: Vec<u32>,
}

impl Model for LineList {
    ghost use Rattle.std.specs.Prelude.{ℕ, List};

    ghost Value = { List ℕ };

    ghost view = { λ l. l.held.items };
}

impl LineList {
    /// The list of these numbers. It takes no memory.
    pub fn from_vec(v: Vec<u32>) -> LineList
        ensures { result ≡ v.items }
    {
        LineList { held: v }
    }

    /// The numbers, in order.
    pub fn as_slice(&self) -> &[u32]
        ensures { result.now ≡ self.now }
    {
        self.held.as_slice()
    }
}

/// What a run does: its setting, its faults and its ops.
#[derive(Drop)]
pub struct Script {
    /// How the tuples travel.
    pub mode: Mode,
    /// The limits of a command.
    pub limits: Limits,
    /// How many pages of 4,096 bytes there are.
    pub pages: u32,
    /// How many bytes of data a block has, 512 or 4,096.
    pub block: u32,
    /// The number of the line on which an application tag is expected; 0 without such a line.
    pub expect_line: u32,
    /// The entries of the volume.
    pub entries: EntryList,
    /// The scheduled faults.
    pub faults: FaultList,
    /// The schedule of the steps.
    pub schedule: WordList,
    /// The ops.
    pub ops: OpList,
    /// The numbers of the lines of the faults, then of those of the ops.
    pub lines: LineList,
}
