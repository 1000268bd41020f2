//! Bytes copied out of and into the next bytes of a walk and a range of a list, and set to zero.

ghost use Rattle.std.specs.Prelude.{◌≡◌, ◌+◌, ◌≤◌, ◌<◌, ◌^◌, length, replicate};
ghost use Rattle.page_pool.specs.Pages.{AllLieIn, Wrote, bytes_in};
ghost use Rattle.page_pool.specs.Cuts.{past};
ghost use Rattle.page_pool.specs.Places.{NoneTwice, range_of, total};
ghost use Rattle.page_pool.specs.Walking.{AllStandIn};

use crate::{PagePool, SgList, Walk};

impl PagePool {
    /// Copies out the next bytes of the walk, as many as `into` has, and walks on. They are ahead and in the pool.
    pub fn read_ahead(&self, walk: &mut Walk<'_>, into: &mut [u8])
        requires stand { AllStandIn (length self.now) (range_of walk.old 0 (length into.old)) }
        requires room { length into.old ≤ total walk.old }
        requires small { length into.old < 2 ^ 32 }
        ensures bytes { into.new ≡ bytes_in self.now walk.old 0 (length into.old) }
        ensures ahead { walk.new ≡ past (length into.old) walk.old }
    {
        let mut done = 0usize;
        while let Some(s) = walk.next_part((into.len() - done) as u32) {
            let end = done + s.len as usize;
            into[done..end].copy_from_slice(self.part(s));
            done = end;
        }
    }

    /// Writes these bytes as the next ones of the walk, and walks on. Their places are ahead and in the pool, and
    /// none of them is there twice.
    pub fn write_ahead(&mut self, walk: &mut Walk<'_>, bytes: &[u8])
        requires stand { AllStandIn (length self.old) (range_of walk.old 0 (length bytes.now)) }
        requires once { NoneTwice (range_of walk.old 0 (length bytes.now)) }
        requires room { length bytes.now ≤ total walk.old }
        requires small { length bytes.now < 2 ^ 32 }
        ensures wrote { Wrote self.old self.new (range_of walk.old 0 (length bytes.now)) bytes.now }
        ensures ahead { walk.new ≡ past (length bytes.now) walk.old }
    {
        let mut rest = bytes;
        while let Some(s) = walk.next_part(rest.len() as u32) {
            let (front, back) = rest.split_at(s.len as usize);
            self.write_part(s, front);
            rest = back;
        }
    }

    /// Copies a range out: as many bytes as `into` has, from byte `at` of the list on. The range lies in the list
    /// and the list's segments in the pool.
    pub fn gather(&self, sg: &SgList, at: u32, into: &mut [u8])
        requires lie { AllLieIn self.now sg.now }
        requires range { at + length into.old ≤ total sg.now }
        ensures { into.new ≡ bytes_in self.now sg.now at (length into.old) }
    {
        self.read_ahead(&mut sg.walk(at), into);
    }

    /// Copies these bytes into the range from byte `at` of the list on; all other bytes are as before. The range
    /// lies in the list and has no byte twice, and the list's segments lie in the pool.
    pub fn scatter(&mut self, sg: &SgList, at: u32, from: &[u8])
        requires lie { AllLieIn self.old sg.now }
        requires once { NoneTwice (range_of sg.now at (length from.now)) }
        requires range { at + length from.now ≤ total sg.now }
        ensures { Wrote self.old self.new (range_of sg.now at (length from.now)) from.now }
    {
        self.write_ahead(&mut sg.walk(at), from);
    }

    /// Sets the range of `len` bytes from byte `at` of the list on to zero; all other bytes are as before. The
    /// range lies in the list and has no byte twice, and the list's segments lie in the pool.
    pub fn zero(&mut self, sg: &SgList, at: u32, len: u32)
        requires lie { AllLieIn self.old sg.now }
        requires once { NoneTwice (range_of sg.now at len) }
        requires range { at + len ≤ total sg.now }
        ensures { Wrote self.old self.new (range_of sg.now at len) (replicate len 0) }
    {
        let mut walk = sg.walk(at);
        let mut left = len;
        while let Some(s) = walk.next_part(left) {
            self.part_mut(s).fill(0);
            left -= s.len;
        }
    }
}
