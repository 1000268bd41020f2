//! The borrowed parts of a range.

ghost use Rattle.std.specs.Prelude.{◌≡◌, ◌+◌, ◌≤◌};
ghost use Rattle.std.specs.Iterator.{YieldsFirstRef, item_count};
ghost use Rattle.page_pool.specs.Cells.{flat};
ghost use Rattle.page_pool.specs.Joining.{AreReady, parts_in, parts_left};
ghost use Rattle.page_pool.specs.Pages.{AllLieIn, bytes_in};
ghost use Rattle.page_pool.specs.Places.{total};

use crate::{PagePool, SgList, Walk};

/// The borrowed parts of a range of a list: one for each segment with a byte of the range, cut to the range, in the
/// list's order. Joined they are the range's bytes.
#[derive(Drop)]
pub struct Parts<'a> {
    pool: &'a PagePool,
    walk: Walk<'a>,
    left: u32,
}

impl<'a> Iterator for Parts<'a> {
    type Item = &'a [u8];

    ghost can_next = { AreReady };

    ghost next_gives = { YieldsFirstRef parts_left };

    ghost remaining = { item_count parts_left };

    fn next(&mut self) -> Option<&'a [u8]> {
        let s = self.walk.next_part(self.left)?;
        self.left -= s.len;
        Some(self.pool.part(s))
    }
}

impl PagePool {
    /// The borrowed parts of the range of `len` bytes from byte `at` of the list on. The range lies in the list
    /// and the list's segments in the pool.
    pub fn parts<'a>(&'a self, sg: &'a SgList, at: u32, len: u32) -> Parts<'a>
        requires lie { AllLieIn self.now sg.now }
        requires range { at + len ≤ total sg.now }
        ensures ready { AreReady result }
        ensures parts { parts_left result ≡ parts_in self.now sg.now at len }
        ensures joined { flat (parts_left result) ≡ bytes_in self.now sg.now at len }
    {
        // Its pages are known to be whole once they were counted.
        let _pages = self.pages();
        Parts {
            pool: self,
            walk: sg.walk(at),
            left: len,
        }
    }
}
