//! A linear extent of a volume: blocks that lie one after another on one device.
#![tactic(auto)]

ghost use Rattle.std.specs.Prelude.{◌≡◌, ℕ, ◌+◌, ◌^◌, ◌<◌, ◌≤◌};
ghost use Rattle.linear_volume.specs.Extents.{LinearHolds, LinearRuns, linear_place, linear_run};

/// The virtual blocks from `start` on, `len` of them, on one device.
#[derive(Clone, Copy, Debug, PartialEq, Eq)]
pub struct Linear {
    /// The first virtual block.
    pub start: u64,
    /// How many blocks there are.
    pub len: u64,
    /// The number of the device.
    pub dev: u32,
    /// The address (LBA) of the first block on the device.
    pub at: u64,
}

impl Linear {
    /// The device and the address of virtual block `v`, which lies in the extent.
    ///
    /// The address has to fit 64 bits, as it does where the extent's end on the device fits.
    pub fn place(&self, v: u64) -> (u32, u64)
        requires holds { LinearHolds self.now v }
        requires fits { (linear_place self.now v).1 < 2 ^ 64 }
        ensures value { result ≡ linear_place self.now v }
        ensures inside { (self.now.at ≤ result.1) × (result.1 < self.now.at + self.now.len) }
        ensures alone { (w : ℕ) → LinearHolds self.now w → linear_place self.now w ≡ result → w ≡ v }
    {
        (self.dev, self.at + (v - self.start))
    }

    /// How many blocks of the extent there are from `v` on, with `v`, which lies in it.
    pub fn run_from(&self, v: u64) -> u64
        requires { LinearHolds self.now v }
        ensures value { result ≡ linear_run self.now v }
        ensures consecutive { LinearRuns self.now v result }
    {
        self.len - (v - self.start)
    }
}
