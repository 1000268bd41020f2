//! A part of a request.

ghost use Rattle.std.specs.Prelude.{◌≡◌, ◌+◌, ◌-◌, ◌<◌, ◌≤◌, ◌^◌, ◌++◌, ◌↔◌, IsNone, IfSome, take, drop};
ghost use Rattle.bio_core.specs.Bios.{HasTuplesFor, bio_of, blocks_of, part_of};

use crate::{Dir, Io};

/// Blocks `k` to `k + count - 1` of one request, at consecutive addresses of one device. A bio names blocks and
/// holds no data.
#[derive(Clone, Copy, Debug, PartialEq, Eq)]
pub struct Bio {
    /// The op whose request it is, from 1.
    pub op: u32,
    /// The first of its blocks, from 0.
    pub k: u32,
    /// The number of its blocks.
    pub count: u32,
    /// The device.
    pub dev: u32,
    /// The address of its first block on the device.
    pub lba: u64,
    /// Which way the data goes.
    pub dir: Dir,
    /// The segments that hold a byte of its data.
    pub segs: u32,
    /// The segments that hold a byte of its tuples.
    pub pi_segs: u32,
}

impl Bio {
    /// Blocks `k` to `k + count - 1` of the request, at least one, from this address of the device on.
    pub fn of(io: &Io, op: u32, k: u32, count: u32, dev: u32, lba: u64) -> Bio
        requires some { 1 ≤ count }
        requires within { k + count ≤ io.now.count }
        requires tuples { HasTuplesFor io.now.pi io.now.count }
        ensures { result ≡ bio_of io.now op k count dev lba }
    {
        Bio {
            op,
            k,
            count,
            dev,
            lba,
            dir: io.dir,
            segs: io.data_segs(k, count),
            pi_segs: io.tuple_segs(k, count),
        }
    }

    /// The bio of its blocks `at` to `at + n - 1`, at least one. It is a bio of this request.
    pub fn part(&self, io: &Io, at: u32, n: u32) -> Bio
        requires some { 1 ≤ n }
        requires within { at + n ≤ self.now.count }
        requires request { self.now.k + self.now.count ≤ io.now.count }
        requires tuples { HasTuplesFor io.now.pi io.now.count }
        requires ends { self.now.lba + at < 2 ^ 64 }
        ensures part { result ≡ part_of io.now self.now at n }
        ensures blocks { blocks_of result ≡ take n (drop at (blocks_of self.now)) }
    {
        let _blocks = io.count;
        Bio {
            k: self.k + at,
            count: n,
            lba: self.lba + at as u64,
            segs: io.data_segs(self.k + at, n),
            pi_segs: io.tuple_segs(self.k + at, n),
            ..*self
        }
    }

    /// The bios of its first `n` blocks and of all behind them, neither of them none.
    pub fn split(&self, io: &Io, n: u32) -> (Bio, Bio)
        requires some { 0 < n }
        requires fewer { n < self.now.count }
        requires request { self.now.k + self.now.count ≤ io.now.count }
        requires tuples { HasTuplesFor io.now.pi io.now.count }
        requires ends { self.now.lba + n < 2 ^ 64 }
        ensures front { result.0 ≡ part_of io.now self.now 0 n }
        ensures behind { result.1 ≡ part_of io.now self.now n (self.now.count - n) }
        ensures whole { blocks_of result.0 ++ blocks_of result.1 ≡ blocks_of self.now }
    {
        (self.part(io, 0, n), self.part(io, n, self.count - n))
    }

    /// What is left after its first `n` blocks. `None` where that is no block.
    pub fn complete(&self, io: &Io, n: u32) -> Option<Bio>
        requires within { n ≤ self.now.count }
        requires request { self.now.k + self.now.count ≤ io.now.count }
        requires tuples { HasTuplesFor io.now.pi io.now.count }
        requires ends { self.now.lba + n < 2 ^ 64 }
        ensures none { IsNone result ↔ (n ≡ self.now.count) }
        ensures rest { IfSome result (λ b. b ≡ part_of io.now self.now n (self.now.count - n)) }
        ensures blocks { IfSome result (λ b. blocks_of b ≡ drop n (blocks_of self.now)) }
    {
        if n == self.count {
            return None;
        }
        Some(self.part(io, n, self.count - n))
    }
}
