//! One inner volume: extents one after another.

ghost use Rattle.std.specs.Prelude.{◌≡◌, ◌+◌, ◌<◌, ◌^◌, ◌≤◌, ◌*◌, ◌-◌, ℕ};
ghost use Rattle.std.specs.List.{list_any};
ghost use Rattle.volume_tree.specs.Tracks.{FollowsFrom, end_of, is_held, track_len, track_place};
ghost use Rattle.volume_tree.specs.Trees.{is_ragged, leg_from};

use linear_volume::Linear;
use stripe_volume::Leg;

/// How many blocks it has.
pub(crate) fn track_len(track: &[Linear]) -> u64
    requires { FollowsFrom 0 track.now }
    ensures { result ≡ track_len track.now }
{
    match track.last() {
        Some(last) => last.start + last.len,
        None => 0,
    }
}

/// Whether an extent isn't whole chunks.
pub(crate) fn has_ragged(track: &[Linear], chunk: u64) -> bool
    requires { 1 ≤ chunk }
    ensures { result ≡ list_any (is_ragged chunk) track.now }
{
    track.iter().any(|extent| extent.len % chunk != 0)
}

/// The leg from block `x` on.
pub(crate) fn leg_from(track: &[Linear], x: u64) -> Leg
    requires { FollowsFrom 0 track.now }
    ensures { result ≡ leg_from x track.now }
{
    for extent in track {
        if extent.start <= x && x < extent.start + extent.len {
            let (dev, at) = extent.place(x);
            return Leg { dev, at };
        }
    }
    Leg { dev: 0, at: 0 }
}
