//! How many blocks lie in so many segments, by one walk along a list.

ghost use Rattle.std.specs.Prelude.{◌≡◌, ◌<◌, ◌≤◌, ◌+◌, ◌*◌, ◌^◌, ℕ, ◌↔◌, length};
ghost use Rattle.page_pool.specs.Cuts.{cut};
ghost use Rattle.page_pool.specs.Places.{total};
ghost use Rattle.bio_core.specs.Bios.{HasTuplesFor, data_segs, tuple_segs};
ghost use Rattle.stack_steps.specs.Reach.{Reaches, reach};

use bio_core::Io;
use merge_queue::Limits;
use page_pool::{Seg, SgList};
use pi_tuple::TUPLE;

/// How many bytes of a list, from its byte `at` on, lie in at most so many segments.
fn bytes_within(segs: &[Seg], at: u32, most: u32) -> u32
    requires { total segs.now < 2 ^ 32 }
    ensures { result ≡ reach segs.now at most }
{
    let mut at = at;
    let mut left = most;
    let mut bytes = 0u32;
    for s in segs {
        if s.len <= at {
            at -= s.len;
        } else if left == 0 {
            return bytes;
        } else {
            bytes += s.len - at;
            at = 0;
            left -= 1;
        }
    }
    bytes
}

/// How many of the next blocks of a list, each of so many bytes, lie in at most so many segments. Of blocks without
/// bytes it is all that are left.
fn sized_within(list: &SgList, size: u32, k: u32, left: u32, most: u32) -> u32
    requires { (k + left) * size ≤ total list.now }
    ensures { Reaches (λ n. length (cut list.now (k * size) (n * size))) most left result }
{
    let segs = list.as_slice();
    if size == 0 {
        return left;
    }
    bytes_within(segs, k * size, most) / size
}

/// The same of the tuples of a request's blocks.
fn tuples_within(io: &Io, k: u32, left: u32, most: u32) -> u32
    requires within { k + left ≤ io.now.count }
    requires tuples { HasTuplesFor io.now.pi io.now.count }
    ensures { Reaches (tuple_segs io.now.pi k) most left result }
{
    match &io.pi {
        Some(pi) => sized_within(&pi.tuples, TUPLE as u32, k, left, most),
        None => left,
    }
}

/// The same of the data of a request's blocks.
fn data_within(io: &Io, k: u32, left: u32, most: u32) -> u32
    requires some { 0 < io.now.count }
    requires within { k + left ≤ io.now.count }
    ensures { Reaches (data_segs io.now k) most left result }
{
    sized_within(&io.body, io.block_size(), k, left, most)
}

/// How many of the next blocks of a request, of which so many are left, are within the limits on segments.
pub(crate) fn blocks_within(io: &Io, lim: &Limits, k: u32, left: u32) -> u32
    requires some { 0 < io.now.count }
    requires within { k + left ≤ io.now.count }
    requires tuples { HasTuplesFor io.now.pi io.now.count }
    ensures { (n : ℕ) → n ≤ left → (n ≤ result ↔ (data_segs io.now k n ≤ lim.now.max_segs) × (tuple_segs io.now.pi k n ≤ lim.now.max_pi_segs)) }
{
    let data = data_within(io, k, left, lim.max_segs);
    data.min(tuples_within(io, k, left, lim.max_pi_segs))
}
