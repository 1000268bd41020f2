//! The legs of a stripe.

ghost use Rattle.std.specs.Prelude.{◌≡◌, IfOk};
ghost use Rattle.std.specs.List.{list_any};
ghost use Rattle.stripe_volume.specs.Stripes.{any_shared, do_share};

use std::alloc::{AllocError, Global};
use std::marker::Model;

/// Where a stripe goes on one device.
#[derive(Clone, Copy, Debug, PartialEq, Eq)]
pub struct Leg {
    /// The number of the device.
    pub dev: u32,
    /// The address (LBA) of the leg's first block.
    pub at: u64,
}

impl Leg {
    /// Whether legs of `len` blocks share a block.
    fn shares(&self, other: &Leg, len: u64) -> bool
        ensures { result ≡ do_share len self.now other.now }
    {
        self.dev == other.dev && self.at.abs_diff(other.at) < len
    }

    /// Whether one of the other legs shares a block with it, where legs have `len` blocks.
    pub(crate) fn shares_any(&self, others: &[Leg], len: u64) -> bool
        ensures { result ≡ list_any (do_share len self.now) others.now }
    {
        others.iter().any(|other| self.shares(other, len))
    }
}

/// Whether two of the legs share a block, where each has `len` blocks.
pub(crate) fn any_shared(legs: &[Leg], len: u64) -> bool
    ensures { result ≡ any_shared len legs.now }
{
    let mut rest = legs;
    while let Some((first, more)) = rest.split_first() {
        if first.shares_any(more, len) {
            return true;
        }
        rest = more;
    }
    false
}

/// The legs of a stripe, in their order. A contract sees them as a list.
#[derive(Drop)]
pub struct LegList {
    held: Vec<Leg>,
}

impl Model for LegList {
    ghost use Rattle.std.specs.Prelude.{List};
    ghost use Rattle.stripe_volume.specs.declared.legs.Leg.{Leg};

    ghost Value = { List Leg };

    ghost view = { λ l. l.held.items };
}

impl LegList {
    /// The same legs. It takes no memory.
    pub fn from_vec(v: Vec<Leg>) -> Self
        ensures { result ≡ v.items }
    {
        LegList { held: v }
    }

    /// The legs, in order.
    pub fn as_slice(&self) -> &[Leg]
        ensures { result.now ≡ self.now }
    {
        self.held.as_slice()
    }

    /// An equal list. The one error is want of memory.
    pub fn copy(&self, alloc: Global) -> Result<Self, AllocError>
        ensures { IfOk result (λ list. list ≡ self.now) }
    {
        let mut held = Vec::with_capacity(alloc, self.held.len())?;
        held.extend_from_slice(self.held.as_slice())?;
        Ok(LegList { held })
    }
}
