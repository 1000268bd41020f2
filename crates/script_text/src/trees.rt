//! The entries of a stripe over inner volumes.

ghost use Rattle.std.specs.Prelude.{IfNone, IfSome, ◌+◌, ◌<◌, ◌^◌, ◌≡◌, ◌++◌, ◌∷◌, ◌≤◌, [], IfErr, IfOk, None, OnOk, Some, length, true};
ghost use Rattle.std.specs.List.{list_any};
ghost use Rattle.script_lines.specs.declared.kind.ScriptKind.{ScriptKind};
ghost use Rattle.script_lines.specs.Reading.{IsUnless};
ghost use Rattle.script_text.specs.Rules.{IsUnlessBroken};
ghost use Rattle.script_text.specs.Trees.{are_lengths, entries_over, is_bad_volume, over_fault, track_from, tracks_in};
ghost use Rattle.volume_tree.specs.Tracks.{FollowsFrom, tracks_of};
ghost use Rattle.volume_tree.specs.Trees.{AreTracks};
ghost use Rattle.volume_table.specs.declared.TheConstants.{MOST_LENGTH};

use crate::MOST_LEGS;
use crate::adding::add;
use linear_volume::Linear;
use script_lines::ScriptKind;
use std::alloc::Global;
use volume_table::EntryList;
use volume_tree::{TreeFault, expand};

/// An extent of an inner volume.
#[derive(Clone, Copy, Debug, PartialEq, Eq)]
pub(crate) struct Inner {
    pub(crate) volume: u32,
    pub(crate) len: u64,
    pub(crate) dev: u32,
    pub(crate) at: u64,
}

/// The extent as it begins at this block of its volume; `None` where it ends past 64 bits.
fn extent_of(inner: Inner, start: u64) -> Option<Linear>
    ensures some { IfSome result (λ e. e ≡ record { start = start; len = inner.len; dev = inner.dev; at = inner.at }) }
    ensures fits { IfSome result (λ e. inner.at + inner.len < 2 ^ 64) }
    ensures none { IfNone result (2 ^ 64 ≤ inner.at + inner.len) }
{
    let Inner { len, dev, at, .. } = inner;
    match at.checked_add(len) {
        Some(_) => Some(Linear {
            start,
            len,
            dev,
            at,
        }),
        None => None,
    }
}

/// The extents of an inner volume, one after another.
fn track(alloc: Global, inner: &[Inner], volume: u32) -> Result<Vec<Linear>, ScriptKind>
    requires few { length inner.now ≤ 32 }
    requires lengths { are_lengths inner.now ≡ true }
    ensures value { IsUnlessBroken (is_bad_volume inner.now volume) ScriptKind.BadRange (λ v. v.items ≡ track_from 0 volume inner.now) result }
    ensures follows { IfOk result (λ v. FollowsFrom 0 v.items) }
{
    let mut track = Vec::new(alloc);
    let mut start = 0u64;
    for extent in inner {
        if extent.volume != volume {
            continue;
        }
        let Some(linear) = extent_of(*extent, start) else {
            return Err(ScriptKind::BadRange);
        };
        add(&mut track, linear)?;
        start += extent.len;
    }
    if track.is_empty() {
        return Err(ScriptKind::BadRange);
    }
    Ok(track)
}

fn tracks(alloc: Global, inner: &[Inner], volumes: &[u32]) -> Result<Vec<Vec<Linear>>, ScriptKind>
    requires few { length inner.now ≤ 32 }
    requires lengths { are_lengths inner.now ≡ true }
    ensures value { IsUnlessBroken (list_any (is_bad_volume inner.now) volumes.now) ScriptKind.BadRange (λ v. tracks_of v.items ≡ tracks_in inner.now volumes.now) result }
    ensures tracks { IfOk result (λ v. AreTracks (tracks_of v.items)) }
{
    let mut tracks = Vec::new(alloc);
    for volume in volumes {
        add(&mut tracks, track(alloc, inner, *volume)?)?;
    }
    Ok(tracks)
}

/// What an `over` line says.
#[derive(Clone, Copy)]
pub(crate) struct OverLine<'a> {
    pub(crate) start: u64,
    pub(crate) len: u64,
    pub(crate) chunk: u32,
    pub(crate) volumes: &'a [u32],
}

/// The entries of an `over` line over these extents, or the first fault of the order that such
/// lines have: too many legs; an inner volume that isn't there, numbers past 64 bits, or lengths
/// that don't fit; too many ends.
pub(crate) fn entries_over(
    alloc: Global,
    inner: &[Inner],
    line: OverLine,
) -> Result<EntryList, ScriptKind>
    requires few { length inner.now ≤ 32 }
    requires lengths { are_lengths inner.now ≡ true }
    requires len { (1 ≤ line.len) × (line.len ≤ MOST_LENGTH) }
    requires chunk { 1 ≤ line.chunk }
    requires legs { 1 ≤ length line.volumes.now }
    ensures { IsUnless (entries_over inner.now line.entry.start line.entry.len line.entry.chunk line.entry.volumes.now) result }
{
    let OverLine {
        start,
        len,
        chunk,
        volumes,
    } = line;
    if volumes.len() > MOST_LEGS {
        return Err(ScriptKind::TooMany);
    }
    if start.checked_add(len).is_none() {
        return Err(ScriptKind::BadRange);
    }
    let tracks = tracks(alloc, inner, volumes)?;
    match expand(alloc, start, len, chunk, tracks.as_slice()) {
        Ok(entries) => Ok(entries),
        Err(TreeFault::TooMany) => Err(ScriptKind::TooMany),
        Err(TreeFault::Memory) => Err(ScriptKind::Memory),
        Err(_) => Err(ScriptKind::BadRange),
    }
}
