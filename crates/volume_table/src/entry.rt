//! One entry of a table: a linear or a striped extent.

ghost use Rattle.std.specs.Prelude.{◌≡◌, ◌^◌, ◌<◌, ◌≤◌, true, length, map, IfOk};
ghost use Rattle.volume_table.specs.Entries.{IsInRange, entry_len, entry_place, entry_run, entry_start, extents, first_device, is_held, leg_extent};
ghost use Rattle.volume_table.specs.Faults.{has_bad_chunk, have_shared_legs};

use crate::extent::Extent;
use arrayvec::ArrayVec;
use linear_volume::Linear;
use std::alloc::{AllocError, Global};
use stripe_volume::{Leg, Stripe};

/// An extent of the volume.
#[derive(Drop)]
pub enum Entry {
    /// Blocks one after another on one device.
    Linear(Linear),
    /// Chunks of blocks on several legs in turn.
    Stripe(Stripe),
}

impl Entry {
    /// The first virtual block.
    pub(crate) fn start(&self) -> u64
        ensures { result ≡ entry_start self.now }
    {
        match self {
            Entry::Linear(linear) => linear.start,
            Entry::Stripe(stripe) => stripe.start,
        }
    }

    /// How many blocks there are.
    pub(crate) fn len(&self) -> u64
        ensures { result ≡ entry_len self.now }
    {
        match self {
            Entry::Linear(linear) => linear.len,
            Entry::Stripe(stripe) => stripe.len,
        }
    }

    /// Whether virtual block `v` is one of them.
    pub(crate) fn holds(&self, v: u64) -> bool
        ensures { result ≡ is_held v self.now }
    {
        let (start, len) = (self.start(), self.len());
        start <= v && v - start < len
    }

    /// The device and the address of virtual block `v`.
    pub(crate) fn place(&self, v: u64) -> (u32, u64)
        requires ranges { IsInRange self.now }
        requires holds { is_held v self.now ≡ true }
        requires fits { (entry_place self.now v).1 < 2 ^ 64 }
        ensures { result ≡ entry_place self.now v }
    {
        match self {
            Entry::Linear(linear) => linear.place(v),
            Entry::Stripe(stripe) => stripe.place(v),
        }
    }

    /// For how many blocks from `v` on the device stays and the addresses go on.
    pub(crate) fn run_from(&self, v: u64) -> u64
        requires ranges { IsInRange self.now }
        requires holds { is_held v self.now ≡ true }
        ensures { result ≡ entry_run self.now v }
    {
        match self {
            Entry::Linear(linear) => linear.run_from(v),
            Entry::Stripe(stripe) => stripe.run_from(v),
        }
    }

    /// The number of the first device.
    pub(crate) fn first_device(&self) -> u32
        requires { IsInRange self.now }
        ensures { result ≡ first_device self.now }
    {
        match self {
            Entry::Linear(linear) => linear.dev,
            Entry::Stripe(stripe) => stripe.legs.as_slice()[0].dev,
        }
    }

    /// Whether the length isn't a multiple of a chunk on each leg.
    pub(crate) fn has_bad_chunk(&self) -> bool
        requires { IsInRange self.now }
        ensures { result ≡ has_bad_chunk self.now }
    {
        match self {
            Entry::Linear(_) => false,
            Entry::Stripe(stripe) => {
                let legs = stripe.legs.as_slice().len() as u64;
                stripe.len % (u64::from(stripe.chunk) * legs) != 0
            }
        }
    }

    /// Whether two legs share a block.
    pub(crate) fn has_shared_legs(&self) -> bool
        requires { IsInRange self.now }
        ensures { result ≡ have_shared_legs self.now }
    {
        match self {
            Entry::Linear(_) => false,
            Entry::Stripe(stripe) => !stripe.is_apart(),
        }
    }

    /// What it takes on its devices: one extent, or one for each leg.
    pub(crate) fn extents(&self) -> ArrayVec<Extent, 8>
        requires { IsInRange self.now }
        ensures { result.items ≡ extents self.now }
    {
        match self {
            Entry::Linear(linear) => {
                let mut found = ArrayVec::new();
                found.push(Extent {
                    dev: linear.dev,
                    at: linear.at,
                    len: linear.len,
                });
                found
            }
            Entry::Stripe(stripe) => {
                let legs = stripe.legs.as_slice();
                leg_extents(legs, stripe.len / legs.len() as u64)
            }
        }
    }

    /// An equal entry. The one error is want of memory.
    pub(crate) fn copy(&self, alloc: Global) -> Result<Entry, AllocError>
        ensures { IfOk result (λ entry. entry ≡ self.now) }
    {
        match self {
            Entry::Linear(linear) => Ok(Entry::Linear(*linear)),
            Entry::Stripe(stripe) => {
                let legs = stripe.legs.copy(alloc)?;
                Ok(Entry::Stripe(Stripe {
                    start: stripe.start,
                    len: stripe.len,
                    chunk: stripe.chunk,
                    legs,
                }))
            }
        }
    }
}

fn leg_extents(legs: &[Leg], len: u64) -> ArrayVec<Extent, 8>
    requires { length legs.now ≤ 8 }
    ensures { result.items ≡ map (leg_extent len) legs.now }
{
    let mut found = ArrayVec::new();
    for leg in legs {
        found.push(Extent {
            dev: leg.dev,
            at: leg.at,
            len,
        });
    }
    found
}
