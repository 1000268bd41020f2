//! Segments, and lists of them.

ghost use Rattle.std.specs.Prelude.{◌≡◌, ◌+◌, ◌≤◌, ◌<◌, ◌^◌, ◌↔◌, List, ℕ, length, IsTrue};
ghost use Rattle.page_pool.specs.Places.{Overlap, places_in, shares, total};
ghost use Rattle.page_pool.specs.Cuts.{cut, past};
ghost use Rattle.page_pool.specs.Walking.{InPages};

use crate::Walk;
use smallvec::SmallVec;
use std::marker::Model;

/// A run of bytes of one page.
#[derive(Clone, Copy, Debug, Default, PartialEq, Eq)]
pub struct Seg {
    /// The page's number in its pool, from 0.
    pub page: u32,
    /// The offset of the first byte in the page.
    pub off: u32,
    /// The number of bytes.
    pub len: u32,
}

impl Seg {
    /// Whether some byte is in both segments: in one page, the later of their first bytes is then in both.
    pub fn shares(self, other: Seg) -> bool
        ensures value { result ≡ shares self other }
        ensures exact { IsTrue result ↔ Overlap self other }
    {
        let first = self.off.max(other.off);
        self.page == other.page && first - self.off < self.len && first - other.off < other.len
    }
}

/// A scatter-gather list: segments whose bytes, one segment after another, are those of a buffer.
/// At most four segments stand in the value itself.
#[derive(Drop)]
pub struct SgList {
    segs: SmallVec<Seg, 4>,
}

impl Model for SgList {
    ghost use Rattle.std.specs.Prelude.{List, ◌<◌, ◌^◌};
    ghost use Rattle.page_pool.specs.declared.segs.Seg.{Seg};
    ghost use Rattle.page_pool.specs.Places.{total};

    ghost Value = { List Seg };

    ghost view = { λ s. s.segs.items };

    ghost invariant = { λ s. total s.segs.items < 2 ^ 32 };
}

impl SgList {
    /// The list of these segments, which have less than 2^32 bytes together.
    pub fn from_segs(segs: SmallVec<Seg, 4>) -> SgList
        requires { total segs.items < 2 ^ 32 }
        ensures { result ≡ segs.items }
    {
        SgList { segs }
    }

    /// The segments in order.
    pub fn as_slice(&self) -> &[Seg]
        ensures value { result.now ≡ self.now }
        ensures bound { total self.now < 2 ^ 32 }
    {
        self.segs.as_slice()
    }

    /// The number of bytes: the sum of the segments' lengths.
    pub fn total(&self) -> u32
        ensures { result ≡ total self.now }
    {
        sum_of(self.as_slice())
    }

    /// The number of segments that hold a byte of the range of `len` bytes from byte `at` of the list on.
    pub fn segs_in(&self, at: u32, len: u32) -> u32
        requires { at + len ≤ total self.now }
        ensures { result ≡ length (cut self.now at len) }
    {
        count_cut(self.as_slice(), at, len)
    }

    /// A walk along the list's bytes from byte `at` on. No byte may lie behind its page's end.
    pub fn walk(&self, at: u32) -> Walk<'_>
        requires { InPages (places_in self.now) }
        ensures ahead { result ≡ past at self.now }
        ensures bound { total self.now < 2 ^ 32 }
    {
        Walk::new(self.as_slice(), at)
    }
}

fn sum_of(segs: &[Seg]) -> u32
    requires { total segs.now < 2 ^ 32 }
    ensures { result ≡ total segs.now }
{
    let mut sum = 0u32;
    for s in segs {
        sum += s.len;
    }
    sum
}

fn count_cut(segs: &[Seg], at: u32, len: u32) -> u32
    ensures { result ≡ length (cut segs.now at len) }
{
    let mut at = at;
    let mut left = len;
    let mut count = 0u32;
    for s in segs {
        let here = s.len.saturating_sub(at).min(left);
        if here > 0 {
            count += 1;
        }
        left -= here;
        at = at.saturating_sub(s.len);
    }
    count
}
