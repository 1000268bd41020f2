//! The register after bytes, by vectors where they are many.

ghost use Rattle.std.specs.Prelude.{◌≡◌, ◌≤◌, length, take};
ghost use Rattle.pi_guard.specs.Windows.{window_register};
ghost use Rattle.pi_guard.specs.Register.{register};

use crate::narrow::Bytes64;
use crate::{broad, halves, narrow, quarters, slicing, wide};

// From how many bytes on a part goes by vectors of 32 bytes. For x86-64-v2, which has them as two of sixteen, that is
// where they are nowhere slower; lib/build-both proves and builds x86-64-v3 with 512, the fewest that they take.
const BROAD_FROM: usize = 4_096;

/// The register after these bytes.
#[inline(always)]
pub fn register_after(start: u16, part: &[u8]) -> u16
    ensures { result ≡ register start part.now }
{
    if part.len() < BROAD_FROM {
        after_short(start, part)
    } else if part.len() < 1_024 && part.len() % 256 >= 128 {
        // (What is left behind whole 256s is then too much of the part.)
        after_short(start, part)
    } else {
        after_long(start, part)
    }
}

/// The register after these bytes, by vectors of sixteen at most.
#[inline(always)]
fn after_short(start: u16, part: &[u8]) -> u16
    ensures { result ≡ register start part.now }
{
    if part.len() < 16 {
        slicing::after_fours(start, part)
    } else if part.len() < 32 {
        slicing::after_bytes(start, part)
    } else if part.len() < 64 {
        after_some(start, part)
    } else {
        after_many(start, part)
    }
}

/// The register after these bytes, of which there are fewer than 64. (It and the next stand out of line, so that
/// a shorter part saves no registers.)
#[inline(never)]
fn after_some(start: u16, part: &[u8]) -> u16
    ensures { result ≡ register start part.now }
{
    let Some((b, more)) = part.split_first_chunk::<32>() else {
        return slicing::after_bytes(start, part);
    };
    slicing::after_bytes(halves::after_thirty_two(start, b), more)
}

/// The register after these bytes, of which there are at least 64.
#[inline(never)]
fn after_many(start: u16, part: &[u8]) -> u16
    requires { 64 ≤ length part.now }
    ensures { result ≡ register start part.now }
{
    let (window, at) = whole_window(start, part);
    let register = halves::register_of_window(window.a, window.b, window.c, window.d);
    if at == part.len() {
        return register;
    }
    slicing::after_sixteens(register, &part[at..])
}

/// The register after these bytes, by vectors of thirty-two but for the last ones, of which there are fewer than 256.
#[inline(never)]
fn after_long(start: u16, part: &[u8]) -> u16
    requires { 512 ≤ length part.now }
    ensures { result ≡ register start part.now }
{
    let mut t = broad::first_trail(start, part);
    // (What is left is carried, not a place: then each load has a plain address.)
    let mut rest = &part[256..];
    while rest.len() >= 512 {
        t = broad::trail_after_all(t, rest, 0);
        rest = &rest[256..];
    }
    let w = broad::last_window(t, rest, 0);
    let register = quarters::register_of_window(w.a, w.b, w.c, w.d, w.e, w.f, w.g, w.h);
    after_short(register, &rest[256..])
}

/// The window of all but the last bytes, of which there are fewer than 128, and how many it stands for.
#[inline(always)]
fn whole_window(start: u16, part: &[u8]) -> (Bytes64, usize)
    requires { 64 ≤ length part.now }
    ensures { (result.1 ≤ length part.now)
        × (window_register result.0 ≡ register start (take result.1 part.now)) }
{
    if part.len() < 256 {
        narrow::whole_window(start, part)
    } else {
        wide::whole_window(start, part)
    }
}
