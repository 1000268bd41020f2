//! A request.

ghost use Rattle.std.specs.Prelude.{◌≡◌, ◌+◌, ◌*◌, ◌<◌, ◌≤◌, length};
ghost use Rattle.page_pool.specs.Cuts.{cut};
ghost use Rattle.page_pool.specs.Places.{total};
ghost use Rattle.bio_core.specs.Bios.{HasTuplesFor, block_size, data_segs, tuple_segs};

use integrity_payload::Payload;
use page_pool::SgList;
use pi_tuple::TUPLE;

/// Which way the data of a request goes.
#[derive(Clone, Copy, Debug, PartialEq, Eq)]
pub enum Dir {
    /// From the medium into the pages.
    Read,
    /// From the pages to the medium.
    Write,
}

/// One request to read or write blocks of a volume. It names its data and its tuples and holds neither.
#[derive(Drop)]
pub struct Io {
    /// Which way the data goes.
    pub dir: Dir,
    /// The first virtual block.
    pub first: u64,
    /// The number of blocks.
    pub count: u32,
    /// Where the data lies, as many bytes for each block.
    pub body: SgList,
    /// The tuples of the blocks, where the request has them.
    pub pi: Option<Payload>,
}

impl Io {
    /// The bytes of data of each block, of which there is at least one.
    pub fn block_size(&self) -> u32
        requires { 0 < self.now.count }
        ensures { result ≡ block_size self.now }
    {
        self.body.total() / self.count
    }

    /// How many segments hold a byte of the data of its blocks `k` to `k + n - 1`, at least one.
    pub fn data_segs(&self, k: u32, n: u32) -> u32
        requires some { 1 ≤ n }
        requires within { k + n ≤ self.now.count }
        ensures { result ≡ data_segs self.now k n }
    {
        // The body's bytes are known to be few once it was looked at.
        let _segs = self.body.as_slice();
        let size = self.block_size();
        self.body.segs_in(k * size, n * size)
    }

    /// How many segments hold a byte of the tuples of its blocks `k` to `k + n - 1`: 0 where it has no tuples.
    pub fn tuple_segs(&self, k: u32, n: u32) -> u32
        requires within { k + n ≤ self.now.count }
        requires tuples { HasTuplesFor self.now.pi self.now.count }
        ensures { result ≡ tuple_segs self.now.pi k n }
    {
        match &self.pi {
            Some(pi) => segs_of_tuples(&pi.tuples, k, n),
            None => 0,
        }
    }
}

fn segs_of_tuples(tuples: &SgList, k: u32, n: u32) -> u32
    requires { TUPLE * (k + n) ≤ total tuples.now }
    ensures { result ≡ length (cut tuples.now (TUPLE * k) (TUPLE * n)) }
{
    // The list's bytes are known to be few once it was looked at.
    let _segs = tuples.as_slice();
    tuples.segs_in(TUPLE as u32 * k, TUPLE as u32 * n)
}
