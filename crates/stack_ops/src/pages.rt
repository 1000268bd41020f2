//! What ops do to pages without a device.

ghost use Rattle.std.specs.Prelude.{◌≡◌, ◌<◌, ◌^◌, length, replicate};
ghost use Rattle.page_pool.specs.Pages.{LiesIn, Wrote};
ghost use Rattle.page_pool.specs.Places.{places_of};
ghost use Rattle.stack_ops.specs.Footprints.{put_seg};

use page_pool::{PagePool, Seg};

/// Sets the bytes of a segment to one value.
pub fn fill(pool: &mut PagePool, seg: Seg, byte: u8)
    requires { LiesIn pool.old seg }
    ensures { Wrote pool.old pool.new (places_of seg) (replicate seg.len byte) }
{
    pool.part_mut(seg).fill(byte);
}

/// Writes bytes to a page, from an offset on.
pub fn put(pool: &mut PagePool, page: u32, off: u32, bytes: &[u8])
    requires lies { LiesIn pool.old (put_seg page off bytes.now) }
    requires few { length bytes.now < 2 ^ 32 }
    ensures { Wrote pool.old pool.new (places_of (put_seg page off bytes.now)) bytes.now }
{
    let seg = Seg {
        page,
        off,
        len: bytes.len() as u32,
    };
    pool.write_part(seg, bytes);
}
