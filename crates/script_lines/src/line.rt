//! What the lines of a script say, by themselves.

use crate::{SegList, VolumeList, WordList};
use dix_base::ByteList;
use fault_schedule::ShortBytes;
use linear_volume::Linear;
use merge_queue::Limits;
use page_pool::Seg;
use pi_guard::GuardKind;
use stripe_volume::LegList;

/// The line `mode`.
#[derive(Clone, Copy, Debug, PartialEq, Eq)]
pub struct ModeLine {
    /// The guard of tuples in the host.
    pub kind: GuardKind,
    /// Whether tuples travel between host and adapter.
    pub dix: bool,
    /// Whether tuples travel between adapter and target.
    pub dif: bool,
    /// The protect field, 1, 3 or 4.
    pub protect: u8,
}

/// Where a fault acts, as a line says it: which crossing that is depends on the op.
#[derive(Clone, Copy, Debug, PartialEq, Eq)]
pub enum Spot {
    /// Between host and adapter.
    Host,
    /// Between adapter and target.
    Wire,
    /// Between target and medium.
    Medium,
}

/// An op's line.
#[derive(Drop)]
pub enum OpLine {
    /// `fill P:O:L BYTE`
    Fill {
        seg: Seg,
        byte: u8,
    },
    /// `put P:O HEX`
    Put {
        page: u32,
        off: u32,
        bytes: ByteList,
    },
    /// `show P:O:L`
    Show {
        seg: Seg,
    },
    /// `seal N DATA TUPLES TAG LONGTAG`
    Seal {
        n: u32,
        body: SegList,
        tuples: SegList,
        app: u16,
        rtag: u32,
    },
    /// `write V N DATA`, with a tag where one is named
    Write {
        v: u64,
        n: u32,
        body: SegList,
        app: Option<u16>,
    },
    /// `read V N DATA`
    Read {
        v: u64,
        n: u32,
        body: SegList,
    },
    /// `writepi V N DATA TUPLES`
    WritePi {
        v: u64,
        n: u32,
        body: SegList,
        tuples: SegList,
    },
    /// `readpi V N DATA TUPLES`
    ReadPi {
        v: u64,
        n: u32,
        body: SegList,
        tuples: SegList,
    },
    /// `overwrite DEV LBA flip OFF HEX`
    Flip {
        dev: u32,
        lba: u64,
        off: u32,
        bytes: ShortBytes,
    },
    /// `overwrite DEV LBA from DEV LBA`
    Copy {
        dev: u32,
        lba: u64,
        from_dev: u32,
        from_lba: u64,
    },
    /// `wait`
    Wait,
}

/// A line behind the first.
#[derive(Drop)]
pub enum ScriptLine {
    /// `mode GUARD DIX DIF PROTECT`
    Mode(ModeLine),
    /// `limits B S T`
    Limits(Limits),
    /// `pages N`
    Pages(u32),
    /// `block S`
    Block(u32),
    /// `expect TAG MASK`
    Expect {
        app: u16,
        mask: u16,
    },
    /// `inner I LEN dev D at A`
    Inner {
        volume: u32,
        len: u64,
        dev: u32,
        at: u64,
    },
    /// `linear START LEN dev D at A`
    Linear(Linear),
    /// `stripe START LEN chunk C legs D:A ..`
    Stripe {
        start: u64,
        len: u64,
        chunk: u32,
        legs: LegList,
    },
    /// `over START LEN chunk C legs I ..`
    Over {
        start: u64,
        len: u64,
        chunk: u32,
        volumes: VolumeList,
    },
    /// `fault OP K WHERE flip OFF HEX`
    Flip {
        op: u32,
        k: u32,
        spot: Spot,
        off: u32,
        bytes: ShortBytes,
    },
    /// `shift OP WHERE N`
    Shift {
        op: u32,
        spot: Spot,
        by: i64,
    },
    /// `lose OP K`, which keeps no byte, or `tear OP K LEN`
    Keep {
        op: u32,
        k: u32,
        bytes: u32,
    },
    /// `fail OP K`
    Fail {
        op: u32,
        k: u32,
    },
    /// `schedule E ..`
    Schedule(WordList),
    /// `begin`
    Begin,
    /// A line behind `begin`.
    Op(OpLine),
}
