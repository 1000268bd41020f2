//! Bios in chains: each place has the number of the place behind it.

ghost use Rattle.std.specs.Prelude.{◌≡◌, ◌<◌, ◌≤◌, ◌+◌, ◌-◌, ◌^◌, ℕ, ◌++◌, IfOk, length};
ghost use Rattle.std.specs.Vec.{vec_capacity};
ghost use Rattle.merge_queue.specs.Chains.{after, bios_at, filled, path};
ghost use Rattle.merge_queue.specs.Groups.{numbers};

use bio_core::Bio;
use std::alloc::{AllocError, Global};

/// So many places in one chain.
pub(crate) fn one_chain(alloc: Global, places: u32) -> Result<Vec<u32>, AllocError>
    ensures { IfOk result (λ next. next.items ≡ numbers 1 places) }
{
    let mut next = Vec::with_capacity(alloc, places as usize)?;
    for place in 0..places {
        next.push_reserved(place + 1);
    }
    Ok(next)
}

/// Puts bios at the places of a chain from this one on. Answers the last of these places and the one
/// behind it.
pub(crate) fn fill(bios: &mut [Bio], next: &[u32], first: u32, run: &[Bio]) -> (u32, u32)
    requires some { 0 < length run.now }
    requires places { (k : ℕ) → k < length run.now → after next.now first k < length next.now }
    requires long { length next.now ≡ length bios.old }
    ensures bios { bios.new ≡ filled (path next.now first (length run.now)) run.now bios.old }
    ensures last { result.0 ≡ after next.now first (length run.now - 1) }
    ensures behind { result.1 ≡ after next.now first (length run.now) }
{
    let mut last = first;
    let mut place = first;
    for b in run {
        bios[place as usize] = *b;
        last = place;
        place = next[place as usize];
    }
    (last, place)
}

/// Appends the bios at the n places of a chain from this one on.
pub(crate) fn copy_out(bios: &[Bio], next: &[u32], first: u32, n: u32, into: &mut Vec<Bio>)
    requires places { (k : ℕ) → k < n → after next.now first k < length next.now }
    requires long { length next.now ≡ length bios.now }
    requires room { length into.old.items + n ≤ vec_capacity into.old }
    ensures into { into.new.items ≡ into.old.items ++ bios_at bios.now (path next.now first n) }
    ensures capacity { vec_capacity into.new ≡ vec_capacity into.old }
{
    let mut place = first;
    for k in 0..n {
        into.push_reserved(bios[place as usize]);
        place = next[place as usize];
    }
}
