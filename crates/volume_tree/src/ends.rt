//! The ends of the extents of all inner volumes.

ghost use Rattle.std.specs.Prelude.{◌≡◌, ◌+◌, ◌<◌, ◌≤◌, ℕ, length, true, false, IfSome, IfNone, IsTrue, nat_le};
ghost use Rattle.std.specs.Bool.{OnTrue};
ghost use Rattle.std.specs.List.{position, position_or_len};
ghost use Rattle.volume_tree.specs.Tracks.{FollowsFrom, end_of, ends, has_at, is_from, put, put_all, put_ends, tracks_of};
ghost use Rattle.volume_tree.specs.Trees.{AreTracks};

use arrayvec::ArrayVec;
use linear_volume::Linear;

/// At most as many numbers as a volume has entries, ascending.
pub(crate) type Ends = ArrayVec<u64, 16>;

/// The place of the first number that isn't below this one.
fn first_from(ends: &[u64], end: u64) -> Option<usize>
    ensures { result ≡ position (is_from end) ends.now }
{
    ends.iter().position(|other| end <= *other)
}

/// That place, or the length where all are below.
fn place_for(ends: &[u64], end: u64) -> usize
    ensures value { result ≡ position_or_len (is_from end) ends.now }
    ensures bound { result ≤ length ends.now }
{
    match first_from(ends, end) {
        Some(place) => place,
        None => ends.len(),
    }
}

fn has_at(ends: &[u64], place: usize, end: u64) -> bool
    ensures { result ≡ has_at ends.now place end }
{
    place < ends.len() && ends[place] == end
}

/// Puts a number among the others, once. False where there is no room for it.
fn add(ends: &mut Ends, end: u64) -> bool
    ensures put { OnTrue result (ends.new.items ≡ put end ends.old.items) }
    ensures full { result ≡ false → 16 < length (put end ends.old.items) }
{
    let place = place_for(ends.as_slice(), end);
    if has_at(ends.as_slice(), place, end) {
        return true;
    }
    if ends.is_full() {
        return false;
    }
    ends.insert(place, end);
    true
}

fn add_ends(ends: &mut Ends, track: &[Linear]) -> bool
    requires { FollowsFrom 0 track.now }
    ensures put { OnTrue result (ends.new.items ≡ put_ends ends.old.items track.now) }
    ensures full { result ≡ false → 16 < length (put_ends ends.old.items track.now) }
{
    for extent in track {
        if !add(ends, extent.start + extent.len) {
            return false;
        }
    }
    true
}

/// The ends of all extents, ascending, each once; `None` where they are more than 16.
pub(crate) fn ends_of(legs: &[Vec<Linear>]) -> Option<Ends>
    requires { AreTracks (tracks_of legs.now) }
    ensures some { IfSome result (λ found. found.items ≡ ends (tracks_of legs.now)) }
    ensures none { IfNone result (16 < length (ends (tracks_of legs.now))) }
{
    let mut found = Ends::new();
    for leg in legs {
        if !add_ends(&mut found, leg.as_slice()) {
            return None;
        }
    }
    Some(found)
}
