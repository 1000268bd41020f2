//! What happens to a block on its way, as a row writes it.

use arrayvec::ArrayVec;
use fault_schedule::{FaultKind, FaultLine, FaultList, ShortBytes, Tamper};
use std::alloc::{AllocError, Global};
use test_table::{Words, crossing_of};

/// What a byte is xored with, at an offset; or by how many blocks another is taken.
fn kind_of(words: &mut Words<'_>) -> FaultKind {
    if words.word() == "shift" {
        let by = words.word().parse::<i64>().unwrap_or(0);
        return FaultKind::Shift { by };
    }
    let off = words.small();
    let mut bytes = ArrayVec::new();
    let _ = bytes.try_push((words.small() % 256) as u8);
    FaultKind::Flip {
        off,
        bytes: ShortBytes::from_array(bytes),
    }
}

/// The faults of these words: none, or a crossing and what is done there to the block.
pub(crate) fn faults_of(alloc: Global, words: &mut Words<'_>) -> Result<Tamper, AllocError> {
    let mut lines = Vec::new(alloc);
    let word = words.word();
    if !word.is_empty() {
        lines.push(FaultLine {
            op: 1,
            k: 0,
            at: crossing_of(word),
            kind: kind_of(words),
        })?;
    }
    Ok(Tamper::new(FaultList::from_vec(lines)))
}
