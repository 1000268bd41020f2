//! The payload and its single tuples.

ghost use Rattle.std.specs.Prelude.{◌≡◌, ◌*◌, ◌^◌, ◌<◌, ◌≤◌};
ghost use Rattle.page_pool.specs.Pages.{AllLieIn, Wrote};
ghost use Rattle.page_pool.specs.Cuts.{past};
ghost use Rattle.page_pool.specs.Places.{places_in};
ghost use Rattle.page_pool.specs.Walking.{InPages};
ghost use Rattle.pi_tuple.specs.Tuples.{tuple_bytes};
ghost use Rattle.integrity_payload.specs.Payloads.{HoldsTuple, IsPayload, tuple_places};

use page_pool::{PagePool, SgList, Walk};
use pi_tuple::{TUPLE, Tuple};

/// Who made the tuples of a payload, and checks them on a read.
#[derive(Clone, Copy, Debug, PartialEq, Eq)]
pub enum Owner {
    /// The block layer.
    Block,
    /// The application.
    App,
}

/// The tuples of a request's blocks: eight bytes for each in a list of segments, block after block, each tuple
/// in one segment.
#[derive(Drop)]
pub struct Payload {
    /// The request's first virtual block.
    pub seed: u64,
    /// The number of blocks.
    pub count: u32,
    /// Where the tuples lie.
    pub tuples: SgList,
    /// Who made them.
    pub owner: Owner,
    /// The application tag of the tuples that `generate` makes.
    pub app: u16,
}

impl Payload {
    /// Tuple `k`.
    pub fn tuple_at(&self, pool: &PagePool, k: u32) -> Tuple
        requires payload { IsPayload self.now }
        requires index { k < self.now.count }
        requires lie { AllLieIn pool.now self.now.tuples }
        ensures { HoldsTuple pool.now self.now.tuples k result }
    {
        let mut bytes = [0; TUPLE];
        pool.gather(&self.tuples, self.start_of(k), &mut bytes);
        Tuple::from_bytes(&bytes)
    }

    /// Writes tuple `k`, and nothing else.
    pub fn set_tuple(&self, pool: &mut PagePool, k: u32, t: Tuple)
        requires payload { IsPayload self.now }
        requires index { k < self.now.count }
        requires lie { AllLieIn pool.old self.now.tuples }
        ensures wrote { Wrote pool.old pool.new (tuple_places self.now.tuples k) (tuple_bytes t) }
        ensures holds { HoldsTuple pool.new self.now.tuples k t }
    {
        pool.scatter(&self.tuples, self.start_of(k), &t.to_bytes());
    }

    /// A walk along the tuples' bytes from tuple `k` on, or at the end of them all. The tuples' list lies in a pool,
    /// or at least no byte of it behind its page's end.
    pub fn walk_tuples(&self, k: u32) -> Walk<'_>
        requires payload { IsPayload self.now }
        requires index { k ≤ self.now.count }
        requires lie { InPages (places_in self.now.tuples) }
        ensures ahead { result ≡ past (TUPLE * k) self.now.tuples }
        ensures few { TUPLE * self.now.count < 2 ^ 32 }
    {
        self.tuples.walk(self.start_of(k))
    }

    // The first byte of tuple `k` in the list.
    fn start_of(&self, k: u32) -> u32
        requires payload { IsPayload self.now }
        requires index { k ≤ self.now.count }
        ensures start { result ≡ TUPLE * k }
        ensures few { TUPLE * self.now.count < 2 ^ 32 }
    {
        // That the bytes are few enough is known once the list was looked at; the look costs nothing.
        let _segs = self.tuples.as_slice();
        TUPLE as u32 * k
    }
}
