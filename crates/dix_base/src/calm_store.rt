//! A store in memory that never fails.

ghost use Rattle.std.specs.Prelude.{◌≡◌, ◌+◌, ◌-◌, ◌^◌, min, ◌≤◌, ◌++◌, ◌<◌, [], All, drop, length, take, Some, refl, IfOk, IsErrOf, IsOk, OnOk, string_bytes};
ghost use Rattle.dix_base.specs.Forms.{kept_state};
ghost use Rattle.dix_base.specs.Stores.{WasExtended, WasOpened, WasWritten};
ghost use Rattle.dix_base.specs.Told.{Apart, Begins, over};

use crate::fault_plan::raise;
use crate::{Failed, Store, StoreFault};
use std::alloc::Global;
use std::marker::Model;

/// Bytes, each of them below 256.
#[derive(Drop)]
struct Octets {
    bytes: Vec<u8>,
    ghost below: { All (λ x. x < 256) bytes.items },
}

/// A store that holds one content under every name, and never fails.
#[derive(Drop)]
pub struct CalmStore {
    held: Octets,
    name: String,
    opened: u64,
}

impl Model for CalmStore {
    ghost use Rattle.std.specs.Prelude.{string_bytes};
    ghost use Rattle.dix_base.specs.Forms.{Kept};

    ghost Value = { Kept };

    ghost view = { λ s. record { bytes = s.held.bytes.items; octets = s.held.below; openings = s.opened; handed = string_bytes s.name } };
}

/// Writes the piece over what is there.
fn overwrite(held: &mut Vec<u8>, at: usize, piece: &[u8])
    requires { at + length piece.now ≤ length held.old.items }
    ensures { held.new.items ≡ over at piece.now held.old.items }
{
    held[at..at + piece.len()].copy_from_slice(piece);
}

impl CalmStore {
    /// A store of these bytes, with no name and not opened yet.
    pub fn new(bytes: Vec<u8>) -> CalmStore
        ensures bytes { result.bytes ≡ bytes.items }
        ensures openings { result.openings ≡ 0 }
        ensures handed { result.handed ≡ [] }
    {
        CalmStore {
            name: String::new(*bytes.allocator()),
            held: Octets { bytes },
            opened: 0,
        }
    }

    /// All bytes that it holds.
    pub fn bytes(&self) -> &[u8]
        ensures { result.now ≡ self.now.bytes }
    {
        self.held.bytes.as_slice()
    }
}

impl Store for CalmStore {
    ghost state = { λ s. kept_state s };

    ghost told = { λ s. refl };

    ghost octets = { λ s. s.octets };

    /// Keeps the name, and answers the length in bytes.
    fn open(&mut self, name: String) -> Result<u64, Failed>
        ensures length { IfOk result (λ n. n ≡ length self.new.bytes) }
        ensures same { self.new.bytes ≡ self.old.bytes }
        ensures opened { WasOpened (string_bytes name) (kept_state self.old) (kept_state self.new) }

        ensures calm { IsOk result }
    {
        self.name = name;
        raise(&mut self.opened);
        Ok(self.held.bytes.len() as u64)
    }

    /// Keeps the name, and drops all bytes.
    fn reset(&mut self, name: String) -> Result<(), Failed>
        ensures empty { OnOk result (self.new.bytes ≡ []) }
        ensures length { OnOk result (length self.new.bytes ≡ 0) }
        ensures opened { WasOpened (string_bytes name) (kept_state self.old) (kept_state self.new) }

        ensures calm { IsOk result }
    {
        self.name = name;
        raise(&mut self.opened);
        self.held.bytes.clear();
        Ok(())
    }

    /// Reads the bytes.
    fn read_at(&mut self, at: u64, into: &mut [u8]) -> Result<(), Failed>
        requires { at + length into.old ≤ length self.old.bytes }
        ensures read { OnOk result (into.new ≡ take (length into.old) (drop at self.old.bytes)) }
        ensures stays { self.new ≡ self.old }

        ensures calm { IsOk result }
    {
        let at = at as usize;
        into.copy_from_slice(&self.held.bytes[at..at + into.len()]);
        Ok(())
    }

    /// Writes the bytes.
    fn write_at(&mut self, at: u64, piece: &[u8]) -> Result<(), Failed>
        requires { at + length piece.now ≤ length self.old.bytes }
        ensures written { OnOk result (self.new.bytes ≡ over at piece.now self.old.bytes) }
        ensures apart { Apart at (length piece.now) self.old.bytes self.new.bytes }
        ensures stays { WasWritten (kept_state self.old) (kept_state self.new) }

        ensures calm { IsOk result }
    {
        overwrite(&mut self.held.bytes, at as usize, piece);
        Ok(())
    }

    /// Adds the bytes. Its one failure is want of memory.
    fn append(&mut self, _alloc: Global, piece: &[u8]) -> Result<(), StoreFault>
        ensures written { OnOk result (self.new.bytes ≡ self.old.bytes ++ piece.now) }
        ensures length { OnOk result (length self.new.bytes ≡ length self.old.bytes + length piece.now) }
        ensures begins { Begins self.old.bytes self.new.bytes }
        ensures memory { IsErrOf result StoreFault.Memory → self.new ≡ self.old }
        ensures cause { IsErrOf result StoreFault.Failed → ⊥ }
        ensures stays { WasExtended (kept_state self.old) (kept_state self.new) }
    {
        match self.held.bytes.extend_from_slice(piece) {
            Ok(()) => Ok(()),
            Err(_) => Err(StoreFault::Memory),
        }
    }
}
