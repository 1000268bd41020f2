//! The entries of a table.

ghost use Rattle.std.specs.Prelude.{◌≡◌, IfOk};

use crate::entry::Entry;
use std::alloc::{AllocError, Global};
use std::marker::Model;

/// Entries in their order. A contract sees them as a list.
#[derive(Drop)]
pub struct EntryList {
    held: Vec<Entry>,
}

impl Model for EntryList {
    ghost use Rattle.std.specs.Prelude.{List};
    ghost use Rattle.volume_table.specs.declared.entry.Entry.{Entry};

    ghost Value = { List Entry };

    ghost view = { λ l. l.held.items };
}

impl EntryList {
    /// The same entries. It takes no memory.
    pub fn from_vec(v: Vec<Entry>) -> Self
        ensures { result ≡ v.items }
    {
        EntryList { held: v }
    }

    /// The entries, in order.
    pub fn as_slice(&self) -> &[Entry]
        ensures { result.now ≡ self.now }
    {
        self.held.as_slice()
    }

    /// An equal list. The one error is want of memory.
    pub fn copy(&self, alloc: Global) -> Result<Self, AllocError>
        ensures { IfOk result (λ list. list ≡ self.now) }
    {
        let entries = self.held.as_slice();
        let mut held = Vec::with_capacity(alloc, entries.len())?;
        for entry in entries {
            held.push(entry.copy(alloc)?)?;
        }
        Ok(EntryList { held })
    }
}
