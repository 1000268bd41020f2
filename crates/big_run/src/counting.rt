//! What the ops of a script are, and how many blocks failed.

ghost use Rattle.std.specs.Prelude.{◌≡◌, ◌+◌, ◌-◌, ◌^◌, ◌≤◌, length, min};
ghost use Rattle.script_laws.specs.Keeping.{blocks_of};
ghost use Rattle.script_laws.specs.Lines.{line_of};
ghost use Rattle.script_text.specs.Rules.{request_blocks};
ghost use Rattle.big_run.specs.Counting.{all_bad, bad_in, blocks_in, counts_with, no_ops, ops_in, with_op};
ghost use Rattle.bio_core.specs.declared.TheConstants.{MOST_BLOCKS};

use stack_ops::{Op, Reply};

/// How many ops of each kind there are, and how many blocks the writes and the reads have.
#[derive(Clone, Copy, Debug, PartialEq, Eq)]
pub struct OpCounts {
    pub writes: u32,
    pub reads: u32,
    pub fills: u32,
    pub shows: u32,
    pub blocks_written: u32,
    pub blocks_read: u32,
}

/// The counts, with one more op.
fn with_op(counts: OpCounts, op: &Op) -> OpCounts
    requires ops { ops_in counts ≤ 1024 }
    requires blocks { blocks_in counts + request_blocks (line_of op.now) ≤ MOST_BLOCKS }
    ensures { result ≡ with_op counts op.now }
{
    match op {
        Op::Write { n, .. } | Op::WritePi { n, .. } => OpCounts {
            writes: counts.writes + 1,
            blocks_written: counts.blocks_written + *n,
            ..counts
        },
        Op::Fetch { n, .. } | Op::FetchPi { n, .. } => OpCounts {
            reads: counts.reads + 1,
            blocks_read: counts.blocks_read + *n,
            ..counts
        },
        Op::Fill { .. } => OpCounts {
            fills: counts.fills + 1,
            ..counts
        },
        Op::Show { .. } => OpCounts {
            shows: counts.shows + 1,
            ..counts
        },
        Op::Put { .. } | Op::Seal { .. } | Op::Overwrite { .. } | Op::Wait => counts,
    }
}

/// The counts of these ops.
pub(crate) fn counts_of(ops: &[Op]) -> OpCounts
    requires count { length ops.now ≤ 1024 }
    requires blocks { blocks_of ops.now ≤ MOST_BLOCKS }
    ensures { result ≡ counts_with no_ops ops.now }
{
    let mut counts = OpCounts {
        writes: 0,
        reads: 0,
        fills: 0,
        shows: 0,
        blocks_written: 0,
        blocks_read: 0,
    };
    let mut rest = ops;
    while let Some((op, behind)) = rest.split_first() {
        counts = with_op(counts, op);
        rest = behind;
    }
    counts
}

fn bad_in(reply: &Reply) -> u64
    ensures { result ≡ bad_in reply.now }
{
    match reply {
        Reply::Bad(blocks) => blocks.as_slice().len() as u64,
        Reply::Silent | Reply::Whole | Reply::Shown(_) | Reply::Medium => 0,
    }
}

/// How many blocks of these replies failed; where they are more than 64 bits count, the greatest
/// number of 64 bits.
pub(crate) fn bad_blocks(replies: &[Reply]) -> u64
    ensures { result ≡ min (all_bad replies.now) (2 ^ 64 - 1) }
{
    let mut bad = 0u64;
    let mut rest = replies;
    while let Some((reply, behind)) = rest.split_first() {
        bad = bad.saturating_add(bad_in(reply));
        rest = behind;
    }
    bad
}
