//! Faults as a row writes them: of the op whose labels the commands have.

use arrayvec::ArrayVec;
use fault_schedule::{Crossing, FaultKind, FaultLine, Label, ShortBytes};
use test_table::{crossing_of, cut, small};

/// The labels of the blocks of every command.
pub(crate) const LABELS: [Label; 3] = [
    Label { op: 7, k: 0 },
    Label { op: 7, k: 1 },
    Label { op: 7, k: 2 },
];

/// A turn of the lowest bit of a byte of a block, by three words: the block's place in its command, the crossing, and the
/// byte.
pub(crate) fn flip(words: &str) -> FaultLine {
    let (k, rest) = cut(words);
    let (at, off) = cut(rest);
    let mut bytes = ArrayVec::new();
    let _ = bytes.try_push(1u8);
    FaultLine {
        op: 7,
        k: small(k),
        at: crossing_of(at),
        kind: FaultKind::Flip {
            off: small(off),
            bytes: ShortBytes::from_array(bytes),
        },
    }
}

/// How much of a block is stored, by two words: the block's place in its command, and how many bytes.
pub(crate) fn keep(words: &str) -> FaultLine {
    let (k, bytes) = cut(words);
    FaultLine {
        op: 7,
        k: small(k),
        at: Crossing::TargetToMedium,
        kind: FaultKind::Keep {
            bytes: small(bytes),
        },
    }
}

/// A block that the medium can't store or send, by its place in its command.
pub(crate) fn fail(words: &str) -> FaultLine {
    FaultLine {
        op: 7,
        k: small(words),
        at: Crossing::TargetToMedium,
        kind: FaultKind::Fail,
    }
}

/// A shift of the address, by two words: the crossing, and by how many blocks.
pub(crate) fn shift(words: &str) -> FaultLine {
    let (at, by) = cut(words);
    FaultLine {
        op: 7,
        k: 0,
        at: crossing_of(at),
        kind: FaultKind::Shift {
            by: by.parse::<i64>().unwrap_or(0),
        },
    }
}
