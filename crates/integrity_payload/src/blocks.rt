//! Tuples made and checked block by block.

ghost use Rattle.std.specs.Prelude.{◌≡◌, ℕ, ◌+◌, ◌*◌, ◌/◌, ◌<◌, ◌≤◌, ◌^◌, length};
ghost use Rattle.page_pool.specs.Pages.{AllLieIn, Wrote, bytes_in};
ghost use Rattle.page_pool.specs.Cuts.{past};
ghost use Rattle.page_pool.specs.Places.{Apart, NoneTwice, places_in, range_of, total};
ghost use Rattle.page_pool.specs.Walking.{AllStandIn};
ghost use Rattle.pi_guard.specs.Guards.{guard_of};
ghost use Rattle.pi_tuple.specs.Finds.{finding};
ghost use Rattle.pi_tuple.specs.Tuples.{ref_tag};
ghost use Rattle.integrity_payload.specs.Payloads.{HoldsTuple, IsPayload, all_asked, block_of, made_bytes, made_tuple, tuple_of};
ghost use Rattle.pi_tuple.specs.declared.TheConstants.{TUPLE};

use crate::Payload;
use page_pool::{PagePool, SgList, Walk};
use pi_guard::{GuardKind, GuardRun};
use pi_tuple::{Check, Checks, PiType, finds, make, own_tag, ref_tag};

impl Payload {
    /// Sets every tuple: the guard of the block's data, the payload's application tag, and the low 32 bits of the
    /// virtual block as the reference tag in types 1 and 2, else 0. A block has the body's bytes divided by the
    /// number of blocks. Data and tuples lie in the pool and share no byte.
    pub fn generate(&self, pool: &mut PagePool, body: &SgList, kind: GuardKind, ty: PiType)
        requires payload { IsPayload self.now }
        requires some { 0 < self.now.count }
        requires fits { self.now.seed + self.now.count ≤ 2 ^ 64 }
        requires body { AllLieIn pool.old body.now }
        requires lie { AllLieIn pool.old self.now.tuples }
        requires once { NoneTwice (places_in self.now.tuples) }
        requires apart { Apart (places_in body.now) (places_in self.now.tuples) }
        ensures tuples { (k : ℕ) → k < self.now.count
            → HoldsTuple pool.new self.now.tuples k (made_tuple pool.old body.now (total body.now / self.now.count) kind ty self.now.seed self.now.app k) }
        ensures wrote { Wrote pool.old pool.new (range_of self.now.tuples 0 (TUPLE * self.now.count))
            (made_bytes pool.old body.now (total body.now / self.now.count) kind ty self.now.seed self.now.app self.now.count) }
    {
        let size = body.total() / self.count;
        let mut blocks = body.walk(0);
        let mut tuples = self.walk_tuples(0);
        for k in 0..self.count {
            let guard = next_guard(pool, &mut blocks, size, kind);
            let tuple = make(guard, self.app, own_tag(ty, self.seed + k as u64));
            pool.write_ahead(&mut tuples, &tuple.to_bytes());
        }
    }

    /// The first check that finds a difference in block `k`, of guard, application tag `app` under `mask` and
    /// reference tag, the low 32 bits of the virtual block being wanted.
    pub fn verify(
        &self,
        pool: &PagePool,
        body: &SgList,
        kind: GuardKind,
        ty: PiType,
        k: u32,
        app: u16,
        mask: u16,
    ) -> Option<Check>
        requires payload { IsPayload self.now }
        requires index { k < self.now.count }
        requires fits { self.now.seed + self.now.count ≤ 2 ^ 64 }
        requires body { AllLieIn pool.now body.now }
        requires lie { AllLieIn pool.now self.now.tuples }
        ensures { result ≡ finding ty (all_asked app mask) (ref_tag (self.now.seed + k))
            (guard_of kind (block_of pool.now body.now (total body.now / self.now.count) k)) (tuple_of pool.now self.now.tuples k) }
    {
        let size = body.total() / self.count;
        let mut blocks = body.walk(k * size);
        let guard = next_guard(pool, &mut blocks, size, kind);
        let what = Checks {
            guard: true,
            rtag: true,
            app,
            mask,
        };
        let want = ref_tag(self.seed + k as u64);
        finds(ty, what, want, guard, self.tuple_at(pool, k))
    }
}

// The guard of the next bytes of the walk.
fn next_guard(pool: &PagePool, walk: &mut Walk<'_>, size: u32, kind: GuardKind) -> u16
    requires stand { AllStandIn (length pool.now) (range_of walk.old 0 size) }
    requires room { size ≤ total walk.old }
    ensures guard { result ≡ guard_of kind (bytes_in pool.now walk.old 0 size) }
    ensures ahead { walk.new ≡ past size walk.old }
{
    let mut run = GuardRun::new(kind);
    let mut left = size;
    while let Some(part) = walk.next_part(left) {
        run.update(pool.part(part));
        left -= part.len;
    }
    run.finish()
}
