//! Footprints, laid out to be compared.

ghost use Rattle.std.specs.Prelude.{◌≡◌, ◌+◌, IfOk, IsTrue, OnOk, ◌∷◌, [], ◌++◌, true, false, nat_lt, min, max};
ghost use Rattle.std.specs.List.{All};
ghost use Rattle.std.specs.List.Sorted.{IsPermutation};
ghost use Rattle.range_gate.specs.Prints.{IsSound, NotAfter, Rises, any_shared, block_shared, chosen, begins, clash};
ghost use Rattle.range_gate.specs.Layout.{IsLayoutOf};

use crate::{Footprint, Reach, Touch};
use page_pool::Seg;
use std::alloc::{AllocError, Global};
use std::marker::Model;

/// A footprint with its segments by page and offset, so that two are compared in one walk along both.
#[derive(Drop)]
pub(crate) struct Print {
    alone: bool,
    blocks: Option<Reach>,
    reads: Vec<Seg>,
    writes: Vec<Seg>,
}

impl Model for Print {
    ghost use Rattle.range_gate.specs.Prints.{KeptPrint, Rises};

    ghost Value = { KeptPrint };

    ghost view = { λ p. record { alone = p.alone; blocks = p.blocks; reads = p.reads.items; writes = p.writes.items } };

    ghost invariant = { λ p. Rises p.reads.items × Rises p.writes.items };
}

impl Print {
    pub(crate) fn of(alloc: Global, footprint: &Footprint) -> Result<Print, AllocError>
        ensures { IfOk result (λ p. IsLayoutOf footprint.now p) }
    {
        let touches = footprint.bytes.as_slice();
        let reads = sorted(alloc, touches, false)?;
        let writes = sorted(alloc, touches, true)?;
        Ok(Print {
            alone: footprint.alone,
            blocks: footprint.blocks,
            reads,
            writes,
        })
    }

    /// Whether the two conflict.
    pub(crate) fn conflicts(&self, other: &Print) -> bool
        ensures { result ≡ clash self.now other.now }
    {
        self.alone
            || other.alone
            || share_block(self.blocks, other.blocks)
            || share(&self.writes, &other.writes)
            || share(&self.writes, &other.reads)
            || share(&self.reads, &other.writes)
    }
}

/// The segments with bytes, of the touches that write or of those that don't, by page and offset.
fn sorted(alloc: Global, touches: &[Touch], writes: bool) -> Result<Vec<Seg>, AllocError>
    ensures same { IfOk result (λ v. IsPermutation (chosen writes touches.now) v.items) }
    ensures rises { IfOk result (λ v. Rises v.items) }
{
    let mut segs = segs_of(alloc, touches, writes)?;
    segs.sort_unstable_by_key(|s| begin_of(s));
    Ok(segs)
}

/// Where a segment begins, in one row of all pages.
fn begin_of(s: &Seg) -> u64
    ensures { result ≡ begins s.now }
{
    s.page as u64 * 0x1_0000_0000 + s.off as u64
}

fn segs_of(alloc: Global, touches: &[Touch], writes: bool) -> Result<Vec<Seg>, AllocError>
    ensures items { IfOk result (λ v. v.items ≡ chosen writes touches.now) }
    ensures sound { IfOk result (λ v. All IsSound v.items) }
{
    let mut segs = Vec::new(alloc);
    for t in touches {
        add(&mut segs, *t, writes)?;
    }
    Ok(segs)
}

fn add(segs: &mut Vec<Seg>, t: Touch, writes: bool) -> Result<(), AllocError>
    ensures items { OnOk result (segs.new.items ≡ segs.old.items ++ chosen writes (t ∷ [])) }
    ensures sound { OnOk result (All IsSound segs.old.items → All IsSound segs.new.items) }
{
    if t.writes == writes && t.seg.len > 0 {
        segs.push(t.seg)?;
    }
    Ok(())
}

/// Whether a block is in both, and one of them is written.
fn share_block(a: Option<Reach>, b: Option<Reach>) -> bool
    ensures { result ≡ block_shared a b }
{
    match (a, b) {
        (Some(r), Some(s)) => (r.writes || s.writes) && overlap(r, s),
        _ => false,
    }
}

/// Whether a block is in both.
fn overlap(r: Reach, s: Reach) -> bool
    ensures { result ≡ nat_lt (max r.first s.first) (min (r.first + r.count) (s.first + s.count)) }
{
    // The later of the first blocks is then in both.
    let first = r.first.max(s.first);
    first - r.first < r.count as u64 && first - s.first < s.count as u64
}

/// Whether a byte is in a segment of both, which are walked along together.
fn share(a: &[Seg], b: &[Seg]) -> bool
    requires left { Rises a.now }
    requires right { Rises b.now }
    ensures { result ≡ any_shared a.now b.now }
{
    let mut i = 0;
    let mut k = 0;
    while i < a.len() && k < b.len() {
        if a[i].shares(b[k]) {
            return true;
        }
        if is_first(a[i], b[k]) {
            i += 1;
        } else {
            k += 1;
        }
    }
    false
}

/// Whether a segment begins before another.
fn is_first(s: Seg, t: Seg) -> bool
    ensures yes { IsTrue result → NotAfter s t }
    ensures no { result ≡ false → NotAfter t s }
{
    s.page < t.page || s.page == t.page && s.off < t.off
}
