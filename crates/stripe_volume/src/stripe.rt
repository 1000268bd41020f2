//! Where the blocks of a striped extent lie.

ghost use Rattle.std.specs.Prelude.{◌≡◌, ℕ, ◌+◌, ◌^◌, ◌<◌, ◌≤◌, ◌↔◌, IfSome, IsNone, IsTrue, Some};
ghost use Rattle.stripe_volume.specs.Stripes.{AreApart, HasLegs, IsWhole, LegHas, LiesAt, StripeHolds, StripeRuns, is_apart, leg, leg_len, place_on, stripe_place, stripe_run};

use crate::legs::{LegList, any_shared};

/// The virtual blocks from `start` on, `len` of them, in chunks of `chunk` blocks that go to the
/// legs in turn.
#[derive(Drop)]
pub struct Stripe {
    /// The first virtual block.
    pub start: u64,
    /// How many blocks there are.
    pub len: u64,
    /// How many blocks a chunk has, at least 1.
    pub chunk: u32,
    /// Where the chunks go, at least one leg.
    pub legs: LegList,
}

impl Stripe {
    /// The device and the address of virtual block `v`, which lies in the extent.
    ///
    /// With `n` legs, chunk `q` of the extent is chunk `q / n` of leg `q mod n`. The address has
    /// to fit 64 bits, as it does where the ends of the legs fit.
    pub fn place(&self, v: u64) -> (u32, u64)
        requires legs { HasLegs self.now }
        requires holds { StripeHolds self.now v }
        requires fits { (stripe_place self.now v).1 < 2 ^ 64 }
        ensures value { result ≡ stripe_place self.now v }
        ensures alone { IsWhole self.now → AreApart self.now → (w : ℕ) → LiesAt self.now w result.0 result.1 → w ≡ v }
    {
        let chunk = u64::from(self.chunk);
        let u = v - self.start;
        self.place_on(u / chunk, u % chunk)
    }

    /// The device and the address of block `r` of chunk `q`.
    fn place_on(&self, q: u64, r: u64) -> (u32, u64)
        requires legs { HasLegs self.now }
        requires fits { (place_on self.now q r).1 < 2 ^ 64 }
        ensures { result ≡ place_on self.now q r }
    {
        let legs = self.legs.as_slice();
        let count = legs.len() as u64;
        let leg = legs[(q % count) as usize];
        (leg.dev, leg.at + q / count * u64::from(self.chunk) + r)
    }

    /// How many blocks there are from `v` to the end of its chunk, with `v`, which lies in the
    /// extent.
    pub fn run_from(&self, v: u64) -> u64
        requires legs { HasLegs self.now }
        requires holds { StripeHolds self.now v }
        ensures value { result ≡ stripe_run self.now v }
        ensures some { 1 ≤ result }
        ensures consecutive { StripeRuns self.now v result }
        ensures within { IsWhole self.now → v + result ≤ self.now.start + self.now.len }
    {
        let chunk = u64::from(self.chunk);
        chunk - (v - self.start) % chunk
    }

    /// The virtual block that lies at this address of this device, `None` exactly where the extent
    /// has no block there.
    ///
    /// The length is a multiple of a chunk on each leg, no two legs share a block, and the
    /// extent's end fits 64 bits.
    pub fn back(&self, dev: u32, lba: u64) -> Option<u64>
        requires legs { HasLegs self.now }
        requires whole { IsWhole self.now }
        requires apart { AreApart self.now }
        requires fits { self.now.start + self.now.len ≤ 2 ^ 64 }
        ensures inverse { (v : ℕ) → (result ≡ Some v) ↔ LiesAt self.now v dev lba }
        ensures none { IsNone result ↔ ((i : ℕ) → ¬ LegHas self.now i dev lba) }
    {
        let i = self.leg_of(dev, lba)?;
        Some(self.block_on(i, lba))
    }

    /// The block at this address of leg `i`, which has it.
    fn block_on(&self, i: usize, lba: u64) -> u64
        requires legs { HasLegs self.now }
        requires whole { IsWhole self.now }
        requires has { LegHas self.now i (leg self.now i).dev lba }
        requires fits { self.now.start + self.now.len ≤ 2 ^ 64 }
        ensures { LiesAt self.now result (leg self.now i).dev lba }
    {
        let legs = self.legs.as_slice();
        let count = legs.len() as u64;
        let chunk = u64::from(self.chunk);
        let offset = lba - legs[i].at;
        self.start + ((offset / chunk * count + i as u64) * chunk + offset % chunk)
    }

    /// The first leg that has this address of this device.
    fn leg_of(&self, dev: u32, lba: u64) -> Option<usize>
        requires { HasLegs self.now }
        ensures found { IfSome result (λ i. LegHas self.now i dev lba) }
        ensures none { IsNone result → (i : ℕ) → ¬ LegHas self.now i dev lba }
    {
        let leg_len = self.leg_len();
        for (i, leg) in self.legs.as_slice().iter().enumerate() {
            if leg.dev == dev && leg.at <= lba && lba - leg.at < leg_len {
                return Some(i);
            }
        }
        None
    }

    /// How many blocks a leg has, where the length is a multiple of a chunk on each leg.
    fn leg_len(&self) -> u64
        requires { HasLegs self.now }
        ensures { result ≡ leg_len self.now }
    {
        self.len / self.legs.as_slice().len() as u64
    }

    /// Whether no two legs share a block, where the length is a multiple of a chunk on each leg.
    pub fn is_apart(&self) -> bool
        requires { HasLegs self.now }
        ensures value { result ≡ is_apart self.now }
        ensures apart { IsTrue result ↔ AreApart self.now }
    {
        !any_shared(self.legs.as_slice(), self.leg_len())
    }
}
