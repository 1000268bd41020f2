//! Where bytes go.

ghost use Rattle.std.specs.Prelude.{◌≡◌, ◌≤◌, ◌<◌, ℕ, List, length, take, Option, IfOk, OnErr, OnOk};
ghost use Rattle.dix_base.specs.Told.{Appended, IsBehind, Rose};

use crate::Failed;

/// A sink of bytes, such as standard output.
pub trait Sink {
    /// The bytes that it has taken, where the sink tells them.
    ghost taken: { Self → Option (List ℕ) };

    /// Those of them that it has passed on, where it tells them: the first ones, up to some byte.
    ghost passed: { Self → Option (List ℕ) };

    /// The count of faults. It never falls, and a count at its last value counts as risen.
    ghost faults: { Self → ℕ };

    /// Takes the first bytes of the piece and answers how many they are: at least one of a piece
    /// that isn't empty. It may hold them until it is flushed. After `Failed` none of them is taken.
    fn put(&mut self, bytes: &[u8]) -> Result<usize, Failed>
        ensures bound { IfOk result (λ n. n ≤ length bytes.now) }
        ensures some { IfOk result (λ n. 0 < length bytes.now → 0 < n) }
        ensures taken { IfOk result (λ n. Appended (take n bytes.now) (taken self.old) (taken self.new)) }
        ensures same { OnErr result (taken self.new ≡ taken self.old) }
        ensures calm { OnOk result (faults self.new ≡ faults self.old) }
        ensures cause { OnErr result (Rose (faults self.old) (faults self.new)) }
        ensures count { faults self.old ≤ faults self.new };

    /// Passes on all that the sink holds of the bytes that it took. After `Failed` it may hold some still.
    fn flush(&mut self) -> Result<(), Failed>
        ensures same { taken self.new ≡ taken self.old }
        ensures passed { OnOk result (passed self.new ≡ taken self.new) }
        ensures calm { OnOk result (faults self.new ≡ faults self.old) }
        ensures cause { OnErr result (Rose (faults self.old) (faults self.new)) }
        ensures count { faults self.old ≤ faults self.new };

    /// What it has passed on is the front of what it has taken.
    ghost behind: { (sink : Self) → IsBehind (passed sink) (taken sink) };
}
