//! Where bytes come from.

ghost use Rattle.std.specs.Prelude.{◌≡◌, ◌≤◌, ◌<◌, ℕ, List, drop, length, take, Option, IfOk, IfSome, OnErr, OnOk};
ghost use Rattle.dix_base.specs.Told.{HasLength, IsAtEnd, Rose, Took};

use crate::Failed;

/// A source of bytes, such as standard input.
pub trait Source {
    /// The bytes that are left, where the source tells them.
    ghost left: { Self → Option (List ℕ) };

    /// The count of faults. It never falls, and a count at its last value counts as risen.
    ghost faults: { Self → ℕ };

    /// Puts the next bytes at the front of `buf` and answers how many they are; the rest of the
    /// buffer stays. 0 for a buffer that isn't empty is the end of the input. After `Failed` the
    /// source has taken nothing, and what is left is as before.
    fn take(&mut self, buf: &mut [u8]) -> Result<usize, Failed>
        ensures bound { IfOk result (λ n. n ≤ length buf.old) }
        ensures taken { IfOk result (λ n. Took (take n buf.new) (left self.old) (left self.new)) }
        ensures rest { IfOk result (λ n. drop n buf.new ≡ drop n buf.old) }
        ensures end { IfOk result (λ n. n ≡ 0 → 0 < length buf.old → IsAtEnd (left self.old)) }
        ensures kept { OnErr result (left self.new ≡ left self.old) }
        ensures calm { OnOk result (faults self.new ≡ faults self.old) }
        ensures cause { OnErr result (Rose (faults self.old) (faults self.new)) }
        ensures count { faults self.old ≤ faults self.new };

    /// How many bytes are left, where that is known before they are read, as of a file.
    fn len(&self) -> Option<u64>
        ensures known { IfSome result (λ n. HasLength n (left self.now)) }
    {
        None
    }
}
