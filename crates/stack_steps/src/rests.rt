//! What goes back of a command.

ghost use Rattle.std.specs.Prelude.{◌≡◌, ◌<◌, ◌≤◌, ◌+◌, ◌^◌, ◌↔◌, not, ◌∷◌, ◌++◌, IsNone, IfSome, length, drop};
ghost use Rattle.std.specs.List.{All};
ghost use Rattle.std.specs.Vec.{vec_capacity};
ghost use Rattle.stack_laws.specs.Blocks.{place_of, is_settled};
ghost use Rattle.stack_laws.specs.Pieces.{part};
ghost use Rattle.stack_laws.specs.Rests.{front, behind, rests};
ghost use Rattle.merge_queue.specs.Groups.{put, put_all};
ghost use Rattle.merge_queue.specs.Index.{bios_in};
ghost use Rattle.stack_steps.specs.Parts.{CanGoBack, Divides, Ends, WentBack, last_part, untouched_front};

use crate::Requests;
use bio_core::{Bio, Fate};
use merge_queue::DeviceQueue;

/// The place of the op of this number.
pub fn place_of_op(number: u32) -> u32
    ensures { result ≡ place_of number }
{
    if number == 0 { 0 } else { number - 1 }
}

/// The first n blocks of a bio.
fn front_of<P: Requests>(plan: &P, b: &Bio, n: u32) -> Bio
    requires some { 1 ≤ n }
    requires there { n ≤ b.now.count }
    requires divides { Divides (P.plan plan.now) b.now }
    ensures { result ≡ part (P.plan plan.now) b.now 0 n }
{
    b.part(plan.io(place_of_op(b.op)), 0, n)
}

/// What is left of a bio behind its first blocks. `None` where that is no block.
fn rest_of<P: Requests>(plan: &P, b: &Bio, skip: u32) -> Option<Bio>
    requires divides { Divides (P.plan plan.now) b.now }
    ensures none { IsNone result ↔ (b.now.count ≤ skip) }
    ensures rest { IfSome result (λ rest. rest ≡ last_part (P.plan plan.now) skip b.now) }
{
    if b.count <= skip {
        return None;
    }
    if skip == 0 {
        return Some(*b);
    }
    b.complete(plan.io(place_of_op(b.op)), skip)
}

/// Adds the first n blocks of these bios.
fn front_into<P: Requests>(plan: &P, n: u32, bios: &[Bio], into: &mut Vec<Bio>)
    requires divide { All (Divides (P.plan plan.now)) bios.now }
    requires room { length into.old.items + length bios.now ≤ vec_capacity into.old }
    ensures items { into.new.items ≡ into.old.items ++ front (P.plan plan.now) n bios.now }
    ensures capacity { vec_capacity into.new ≡ vec_capacity into.old }
{
    let mut left = n;
    for b in bios {
        if b.count <= left {
            into.push_reserved(*b);
            left -= b.count;
        } else {
            if left > 0 {
                into.push_reserved(front_of(plan, b, left));
            }
            return;
        }
    }
}

/// Adds the first n blocks of a bio and those behind it.
fn first_into<P: Requests>(plan: &P, n: u32, first: Bio, more: &[Bio], into: &mut Vec<Bio>)
    requires divides { Divides (P.plan plan.now) first }
    requires divide { All (Divides (P.plan plan.now)) more.now }
    requires room { length into.old.items + (1 + length more.now) ≤ vec_capacity into.old }
    ensures items { into.new.items ≡ into.old.items ++ front (P.plan plan.now) n (first ∷ more.now) }
    ensures capacity { vec_capacity into.new ≡ vec_capacity into.old }
{
    if first.count <= n {
        into.push_reserved(first);
        front_into(plan, n - first.count, more, into);
    } else if n > 0 {
        into.push_reserved(front_of(plan, &first, n));
    }
}

/// Adds the first n blocks behind a place.
fn rest_into<P: Requests>(plan: &P, at: u32, n: u32, bios: &[Bio], into: &mut Vec<Bio>)
    requires divide { All (Divides (P.plan plan.now)) bios.now }
    requires room { length into.old.items + length bios.now ≤ vec_capacity into.old }
    ensures items { into.new.items ≡ into.old.items ++ front (P.plan plan.now) n (behind (P.plan plan.now) at bios.now) }
    ensures capacity { vec_capacity into.new ≡ vec_capacity into.old }
{
    let mut skip = at;
    for i in 0..bios.len() {
        let b = bios[i];
        if let Some(first) = rest_of(plan, &b, skip) {
            first_into(plan, n, first, &bios[i + 1..], into);
            return;
        }
        skip -= b.count;
    }
}

fn is_untouched(f: Fate) -> bool
    ensures { result ≡ not (is_settled f) }
{
    match f {
        Fate::Untouched => true,
        _ => false,
    }
}

/// How many untouched fates stand one behind another from a place on.
fn count_untouched(fates: &[Fate], from: usize) -> usize
    requires { from ≤ length fates.now }
    ensures count { result ≡ untouched_front (drop from fates.now) }
    ensures few { from + result ≤ length fates.now }
{
    let mut n = 0usize;
    for i in from..fates.len() {
        if !is_untouched(fates[i]) {
            return n;
        }
        n += 1;
    }
    n
}

/// Puts back one run of blocks.
fn put_rest<P: Requests>(
    plan: &P,
    bios: &[Bio],
    at: u32,
    n: u32,
    scratch: &mut Vec<Bio>,
    queue: &mut DeviceQueue,
)
    requires divide { All (Divides (P.plan plan.now)) bios.now }
    requires scratch { length bios.now ≤ vec_capacity scratch.old }
    requires ends { Ends (front (P.plan plan.now) n (behind (P.plan plan.now) at bios.now)) }
    requires room { bios_in queue.old.groups + length (front (P.plan plan.now) n (behind (P.plan plan.now) at bios.now)) ≤ queue.old.room }
    ensures groups { queue.new.groups ≡ put (front (P.plan plan.now) n (behind (P.plan plan.now) at bios.now)) queue.old.groups }
    ensures room { queue.new.room ≡ queue.old.room }
    ensures capacity { vec_capacity scratch.new ≡ vec_capacity scratch.old }
{
    scratch.clear();
    rest_into(plan, at, n, bios, scratch);
    queue.put(scratch);
}

/// Puts back the run that begins at a place, or goes past one settled block.
fn put_next<P: Requests>(
    plan: &P,
    bios: &[Bio],
    fates: &[Fate],
    at: usize,
    scratch: &mut Vec<Bio>,
    queue: &mut DeviceQueue,
) -> usize
    requires more { at < length fates.now }
    requires few { length fates.now < 2 ^ 32 }
    requires divide { All (Divides (P.plan plan.now)) bios.now }
    requires scratch { length bios.now ≤ vec_capacity scratch.old }
    requires can { CanGoBack (P.plan plan.now) bios.now fates.now at queue.old }
    ensures later { at < result }
    ensures within { result ≤ length fates.now }
    ensures went { WentBack (P.plan plan.now) bios.now fates.now at result queue.old queue.new }
    ensures capacity { vec_capacity scratch.new ≡ vec_capacity scratch.old }
{
    let n = count_untouched(fates, at);
    if n == 0 {
        return at + 1;
    }
    put_rest(plan, bios, at as u32, n as u32, scratch, queue);
    at + n
}

/// Puts back each run of untouched blocks of a command, as parts of its bios.
pub fn put_rests<P: Requests>(
    plan: &P,
    bios: &[Bio],
    fates: &[Fate],
    scratch: &mut Vec<Bio>,
    queue: &mut DeviceQueue,
)
    requires few { length fates.now < 2 ^ 32 }
    requires divide { All (Divides (P.plan plan.now)) bios.now }
    requires scratch { length bios.now ≤ vec_capacity scratch.old }
    requires ends { All Ends (rests (P.plan plan.now) bios.now fates.now) }
    requires room { bios_in (put_all (rests (P.plan plan.now) bios.now fates.now) queue.old.groups) ≤ queue.old.room }
    ensures groups { queue.new.groups ≡ put_all (rests (P.plan plan.now) bios.now fates.now) queue.old.groups }
    ensures room { queue.new.room ≡ queue.old.room }
    ensures capacity { vec_capacity scratch.new ≡ vec_capacity scratch.old }
{
    let mut at = 0usize;
    while at < fates.len() {
        at = put_next(plan, bios, fates, at, scratch, queue);
    }
}
