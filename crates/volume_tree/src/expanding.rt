//! A stripe over inner volumes as stripes over devices.

ghost use Rattle.std.specs.Prelude.{◌≡◌, ℕ, ◌+◌, ◌-◌, ◌*◌, ◌/◌, ◌^◌, ◌<◌, ◌≤◌, length, map, IfOk, IsOkUnless, None, OnOk, Some};
ghost use Rattle.std.specs.List.{list_any};
ghost use Rattle.volume_table.specs.Entries.{IsLength};
ghost use Rattle.volume_tree.specs.declared.TreeFault.{TreeFault};
ghost use Rattle.volume_tree.specs.Tracks.{tracks_of};
ghost use Rattle.volume_tree.specs.Trees.{AreTracks, DoFit, LieAsTree, expanded, has_bad_length, is_other_length, is_unaligned, leg_from, stripe_between, stripes, tree_fault};

use crate::TreeFault;
use crate::ends::ends_of;
use crate::track::{has_ragged, leg_from, track_len};
use linear_volume::Linear;
use std::alloc::{AllocError, Global};
use stripe_volume::{LegList, Stripe};
use volume_table::{Entry, EntryList};

fn has_other_length(legs: &[Vec<Linear>], len: u64) -> bool
    requires { AreTracks (tracks_of legs.now) }
    ensures { result ≡ list_any (is_other_length len) (tracks_of legs.now) }
{
    for leg in legs {
        if track_len(leg.as_slice()) != len {
            return true;
        }
    }
    false
}

fn has_bad_length(len: u64, chunk: u32, legs: &[Vec<Linear>]) -> bool
    requires chunk { 1 ≤ chunk }
    requires some { 1 ≤ length legs.now }
    requires few { length legs.now ≤ 8 }
    requires tracks { AreTracks (tracks_of legs.now) }
    ensures { result ≡ has_bad_length len chunk (tracks_of legs.now) }
{
    let count = legs.len() as u64;
    len % (u64::from(chunk) * count) != 0 || has_other_length(legs, len / count)
}

fn is_unaligned(chunk: u32, legs: &[Vec<Linear>]) -> bool
    requires { 1 ≤ chunk }
    ensures { result ≡ is_unaligned chunk (tracks_of legs.now) }
{
    for leg in legs {
        if has_ragged(leg.as_slice(), u64::from(chunk)) {
            return true;
        }
    }
    false
}

fn legs_from(alloc: Global, legs: &[Vec<Linear>], x: u64) -> Result<LegList, AllocError>
    requires { AreTracks (tracks_of legs.now) }
    ensures { IfOk result (λ list. list ≡ map (leg_from x) (tracks_of legs.now)) }
{
    let mut found = Vec::with_capacity(alloc, legs.len())?;
    for leg in legs {
        found.push(leg_from(leg.as_slice(), x))?;
    }
    Ok(LegList::from_vec(found))
}

/// The entries from virtual block `start` on, one for each stretch of the inner volumes' blocks
/// between two of these ends.
fn stripes(
    alloc: Global,
    start: u64,
    chunk: u32,
    legs: &[Vec<Linear>],
    ends: &[u64],
) -> Result<Vec<Entry>, AllocError>
    requires tracks { AreTracks (tracks_of legs.now) }
    requires fit { DoFit start (length legs.now) 0 ends.now }
    requires begins { start < 2 ^ 64 }
    ensures { IfOk result (λ list. list.items ≡ stripes start chunk (tracks_of legs.now) 0 ends.now) }
{
    let count = legs.len() as u64;
    let mut list = Vec::with_capacity(alloc, ends.len())?;
    let mut x = 0u64;
    for y in ends {
        let found = legs_from(alloc, legs, x)?;
        list.push(Entry::Stripe(Stripe {
            start: start + x * count,
            len: (*y - x) * count,
            chunk,
            legs: found,
        }))?;
        x = *y;
    }
    Ok(list)
}

/// The entries of a volume that say the same as a stripe of `len` virtual blocks from `start` on,
/// in chunks of `chunk` blocks, whose legs are inner volumes: one stripe for each stretch between
/// two neighbours among the ends of all their extents.
///
/// There are 1 to 8 legs, and an extent has 1 to 1,048,576 blocks. The first extent of a leg
/// starts at its block 0, each other one where the one before ends. All ends fit 64 bits.
///
/// The first refusal that holds is answered: `BadLength`, `Unaligned`, `TooMany`. Block `v` of the
/// entries lies where `tree_place` says: chunk `q` of the stripe is chunk `q / n` of leg `q mod n`,
/// and lies where the extent of that leg has it.
pub fn expand(
    alloc: Global,
    start: u64,
    len: u64,
    chunk: u32,
    legs: &[Vec<Linear>],
) -> Result<EntryList, TreeFault>
    requires chunk { 1 ≤ chunk }
    requires some { 1 ≤ length legs.now }
    requires few { length legs.now ≤ 8 }
    requires blocks { IsLength len }
    requires fits { start + len < 2 ^ 64 }
    requires tracks { AreTracks (tracks_of legs.now) }
    ensures fault { (f : TreeFault) → tree_fault len chunk (tracks_of legs.now) ≡ Some f → result ≡ Err f }
    ensures good { tree_fault len chunk (tracks_of legs.now) ≡ None → IsOkUnless result TreeFault.Memory }
    ensures value { IfOk result (λ list. list ≡ expanded start chunk (tracks_of legs.now)) }
    ensures lie { IfOk result (LieAsTree start len chunk (tracks_of legs.now)) }
{
    if has_bad_length(len, chunk, legs) {
        return Err(TreeFault::BadLength);
    }
    if is_unaligned(chunk, legs) {
        return Err(TreeFault::Unaligned);
    }
    let Some(ends) = ends_of(legs) else {
        return Err(TreeFault::TooMany);
    };
    match stripes(alloc, start, chunk, legs, ends.as_slice()) {
        Ok(list) => Ok(EntryList::from_vec(list)),
        Err(_) => Err(TreeFault::Memory),
    }
}
