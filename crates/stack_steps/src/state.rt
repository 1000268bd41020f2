//! What a stack keeps of its ops.

ghost use Rattle.std.specs.Prelude.{◌≡◌, ◌<◌, ◌≤◌, ◌+◌, ◌-◌, ◌^◌, if◌then◌else◌, length, take, drop, slice_index_or, slice_set};
ghost use Rattle.std.specs.List.{All};
ghost use Rattle.stack_laws.specs.Blocks.{place_of, is_settled, settled_count};
ghost use Rattle.merge_queue.specs.Groups.{size};
ghost use Rattle.stack_steps.specs.State.{OpIsIn, lowered, settle_bios};

use crate::rests::place_of_op;
use bio_core::{Bio, Fate};

/// How many blocks of an op are cut, and how many are not settled.
#[derive(Clone, Copy, Debug, PartialEq, Eq)]
pub struct OpState {
    /// The blocks that are cut.
    pub cut: u32,
    /// The blocks that are not settled.
    pub left: u32,
}

fn one_if_settled(f: Fate) -> u32
    ensures one { result ≡ (if is_settled f then 1 else 0) }
    ensures few { result ≤ 1 }
{
    match f {
        Fate::Untouched => 0,
        _ => 1,
    }
}

/// How many of n fates from a place on are settled.
fn count_settled(fates: &[Fate], from: usize, n: u32) -> u32
    requires { from + n ≤ length fates.now }
    ensures { result ≡ settled_count (take n (drop from fates.now)) }
{
    let mut count = 0u32;
    for k in 0..n {
        count += one_if_settled(fates[from + k as usize]);
    }
    count
}

/// Some blocks of an op are settled.
fn lower(ops: &mut Vec<OpState>, op: usize, n: u32)
    requires { op < length ops.old.items }
    ensures { ops.new.items ≡ slice_set ops.old.items op (lowered ops.old.items op n) }
{
    ops[op].left = ops[op].left.saturating_sub(n);
}

/// The settled blocks of these bios are settled.
pub fn settle(ops: &mut Vec<OpState>, bios: &[Bio], fates: &[Fate])
    requires each { length fates.now ≡ size bios.now }
    requires there { All (OpIsIn (length ops.old.items)) bios.now }
    ensures { ops.new.items ≡ settle_bios bios.now fates.now ops.old.items }
{
    let mut at = 0usize;
    for b in bios {
        let n = count_settled(fates, at, b.count);
        lower(ops, place_of_op(b.op) as usize, n);
        at += b.count as usize;
    }
}
