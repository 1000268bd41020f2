//! Where bytes stay.

ghost use Rattle.std.specs.Prelude.{◌≡◌, ◌+◌, ◌≤◌, ◌++◌, [], length, is_some, IfOk, IsErrOf, OnOk, string_bytes};
ghost use Rattle.dix_base.specs.Stores.{IsCounted, StoreState, WasExtended, WasOpened, WasRead, WasWritten};
ghost use Rattle.dix_base.specs.Told.{Apart, AreOctets, Becomes, Begins, HasLength, IsRead, Rose, over};

use crate::{Failed, StoreFault};
use std::alloc::Global;

/// A store of bytes under a name, such as a file.
///
/// A store that tells its bytes goes on telling them, and one that doesn't never will.
pub trait Store {
    /// All that a store shows of itself.
    ghost state: { Self → StoreState };

    /// Opens the content of this name and answers its length in bytes.
    fn open(&mut self, name: String) -> Result<u64, Failed>
        ensures length { IfOk result (λ n. n ≡ (state self.new).length) }
        ensures same { (state self.new).bytes ≡ (state self.old).bytes }
        ensures opened { WasOpened (string_bytes name) (state self.old) (state self.new) }
        ensures counted { IsCounted result (state self.old) (state self.new) };

    /// Makes the content of this name empty, and opens it. A call that fails may leave any content.
    fn reset(&mut self, name: String) -> Result<(), Failed>
        ensures empty { OnOk result (Becomes (λ old new. new ≡ []) (state self.old).bytes (state self.new).bytes) }
        ensures length { OnOk result ((state self.new).length ≡ 0) }
        ensures tells { is_some (state self.new).bytes ≡ is_some (state self.old).bytes }
        ensures opened { WasOpened (string_bytes name) (state self.old) (state self.new) }
        ensures counted { IsCounted result (state self.old) (state self.new) };

    /// Fills `into` with the bytes from byte `at` on. They lie inside the length. A call that fails
    /// may leave anything in `into`.
    fn read_at(&mut self, at: u64, into: &mut [u8]) -> Result<(), Failed>
        requires { at + length into.old ≤ (state self.old).length }
        ensures read { OnOk result (IsRead at (length into.old) into.new (state self.old).bytes) }
        ensures stays { WasRead (state self.old) (state self.new) }
        ensures counted { IsCounted result (state self.old) (state self.new) };

    /// Writes the bytes over those from byte `at` on, which lie inside the length. A call that fails
    /// may leave anything in their place, and leaves all else.
    fn write_at(&mut self, at: u64, piece: &[u8]) -> Result<(), Failed>
        requires { at + length piece.now ≤ (state self.old).length }
        ensures written { OnOk result (Becomes (λ old new. new ≡ over at piece.now old) (state self.old).bytes (state self.new).bytes) }
        ensures apart { Becomes (Apart at (length piece.now)) (state self.old).bytes (state self.new).bytes }
        ensures stays { WasWritten (state self.old) (state self.new) }
        ensures counted { IsCounted result (state self.old) (state self.new) };

    /// Writes the bytes behind the last one. A call that fails may leave any bytes there, and leaves
    /// all that was there before; after want of memory the store is as before.
    fn append(&mut self, alloc: Global, piece: &[u8]) -> Result<(), StoreFault>
        ensures written { OnOk result (Becomes (λ old new. new ≡ old ++ piece.now) (state self.old).bytes (state self.new).bytes) }
        ensures length { OnOk result ((state self.new).length ≡ (state self.old).length + length piece.now) }
        ensures begins { Becomes Begins (state self.old).bytes (state self.new).bytes }
        ensures stays { WasExtended (state self.old) (state self.new) }
        ensures calm { OnOk result ((state self.new).faults ≡ (state self.old).faults) }
        ensures memory { IsErrOf result StoreFault.Memory → state self.new ≡ state self.old }
        ensures cause { IsErrOf result StoreFault.Failed → Rose (state self.old).faults (state self.new).faults };

    /// Where it tells its bytes, their number is its length.
    ghost told: { (s : Self) → HasLength (state s).length (state s).bytes };

    /// Where it tells its bytes, each is below 256.
    ghost octets: { (s : Self) → AreOctets (state s).bytes };
}
