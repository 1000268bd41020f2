//! Lists that lines hold, as contracts see them.

ghost use Rattle.std.specs.Prelude.{◌≡◌};

use page_pool::Seg;
use std::marker::Model;

/// Segments of pages.
#[derive(Drop)]
pub struct SegList {
    held: Vec<Seg>,
}

impl Model for SegList {
    ghost use Rattle.std.specs.Prelude.{List};
    ghost use Rattle.page_pool.specs.declared.segs.Seg.{Seg};

    ghost Value = { List Seg };

    ghost view = { λ l. l.held.items };
}

impl SegList {
    /// The list of these segments. It takes no memory.
    pub fn from_vec(v: Vec<Seg>) -> SegList
        ensures { result ≡ v.items }
    {
        SegList { held: v }
    }

    /// The segments, in order.
    pub fn as_slice(&self) -> &[Seg]
        ensures { result.now ≡ self.now }
    {
        self.held.as_slice()
    }
}

/// The numbers of inner volumes.
#[derive(Drop)]
pub struct VolumeList {
    held: Vec<u32>,
}

impl Model for VolumeList {
    ghost use Rattle.std.specs.Prelude.{ℕ, List};

    ghost Value = { List ℕ };

    ghost view = { λ l. l.held.items };
}

impl VolumeList {
    /// The list of these numbers. It takes no memory.
    pub fn from_vec(v: Vec<u32>) -> VolumeList
        ensures { result ≡ v.items }
    {
        VolumeList { held: v }
    }

    /// The numbers, in order.
    pub fn as_slice(&self) -> &[u32]
        ensures { result.now ≡ self.now }
    {
        self.held.as_slice()
    }
}

/// The entries of a schedule: which of the enabled steps comes next, and how a request is cut.
#[derive(Drop)]
pub struct WordList {
    held: Vec<(u32, u32)>,
}

impl Model for WordList {
    ghost use Rattle.std.specs.Prelude.{ℕ, List};

    ghost Value = { List (ℕ × ℕ) };

    ghost view = { λ l. l.held.items };
}

impl WordList {
    /// The list of these entries. It takes no memory.
    pub fn from_vec(v: Vec<(u32, u32)>) -> WordList
        ensures { result ≡ v.items }
    {
        WordList { held: v }
    }

    /// The entries, in order.
    pub fn as_slice(&self) -> &[(u32, u32)]
        ensures { result.now ≡ self.now }
    {
        self.held.as_slice()
    }
}
