//! What the steps are told of the requests.

ghost use Rattle.std.specs.Prelude.{◌≡◌, ◌<◌, ◌≤◌, ◌+◌, ◌^◌, ℕ, length};
ghost use Rattle.bio_core.specs.Bios.{HasTuplesFor, data_segs, tuple_segs};
ghost use Rattle.stack_laws.specs.Plan.{Plan, Place, request_at};
ghost use Rattle.stack_steps.specs.Fine.{Fine};

use bio_core::Io;
use merge_queue::Limits;

/// Where a block lies.
#[derive(Clone, Copy, Debug, PartialEq, Eq)]
pub struct Site {
    /// The device.
    pub dev: u32,
    /// The address on it.
    pub lba: u64,
    /// How many blocks from this one on lie at consecutive addresses.
    pub run: u64,
}

/// The requests of a run, where their blocks lie, and how they are segmented. Ops have their place, from 0; one that
/// is no read or write has no blocks.
pub trait Requests {
    ghost plan: { Self → Plan };

    /// The number of ops.
    fn ops(&self) -> u32
        ensures { result ≡ length (plan self.now).requests };

    /// The number of devices.
    fn devices(&self) -> u32
        ensures { result ≡ (plan self.now).devices };

    /// What one command may hold.
    fn limits(&self) -> Limits
        ensures { result ≡ (plan self.now).limits };

    /// The request that an op is. A payload of it has as many tuples as it has blocks.
    fn io(&self, op: u32) -> &Io
        requires { op < length (plan self.now).requests }
        ensures dir { result.now.dir ≡ (request_at (plan self.now) op).dir }
        ensures count { result.now.count ≡ (request_at (plan self.now) op).count }
        ensures tuples { HasTuplesFor result.now.pi result.now.count }
        ensures segs { (k n : ℕ) → data_segs result.now k n ≡ (plan self.now).segs op k n }
        ensures pi_segs { (k n : ℕ) → tuple_segs result.now.pi k n ≡ (plan self.now).pi_segs op k n };

    /// Where block `k` of an op lies.
    fn site(&self, op: u32, k: u32) -> Site
        requires { k < (request_at (plan self.now) op).count }
        ensures dev { result.dev ≡ ((plan self.now).place ((request_at (plan self.now) op).first + k)).dev }
        ensures lba { result.lba ≡ ((plan self.now).place ((request_at (plan self.now) op).first + k)).lba }
        ensures run { result.run ≡ (plan self.now).run_from ((request_at (plan self.now) op).first + k) };

    ghost fine: { (s : Self) → Fine (plan s) };
}
