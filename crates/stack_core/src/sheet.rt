//! The requests of a run over a volume, as the steps are told of them.

ghost use Rattle.std.specs.Prelude.{◌≡◌, ◌<◌, ◌≤◌, ◌+◌, ◌^◌, ℕ, length};
ghost use Rattle.bio_core.specs.Bios.{block_size};
ghost use Rattle.volume_table.specs.Places.{place_in, volume_len};
ghost use Rattle.stack_walk_laws.specs.Sheets.{HaveNumbers, IsSheet, io_at, op_in, plan_of};
ghost use Rattle.pi_tuple.specs.declared.TheConstants.{LARGEST_BLOCK};

use bio_core::Io;
use merge_queue::Limits;
use stack_ops::{Op, OpList};
use stack_steps::{Requests, Site};
use volume_table::VolumeTable;

/// The requests, the volume and the limits of a command.
#[derive(Drop)]
pub(crate) struct Sheet {
    pub(crate) ops: OpList,
    /// Whether a shift line names each op.
    pub(crate) shifted: Vec<bool>,
    /// The request of each op.
    pub(crate) ios: Vec<Io>,
    pub(crate) table: VolumeTable,
    pub(crate) limits: Limits,
    pub(crate) devices: u32,
    ghost right: { IsSheet ops shifted.items ios.items table limits devices },
}

impl Requests for Sheet {
    ghost plan = { λ s. plan_of s.ops s.shifted.items s.ios.items s.table s.limits s.devices };

    fn ops(&self) -> u32 {
        self.ios.len() as u32
    }

    fn devices(&self) -> u32 {
        self.devices
    }

    fn limits(&self) -> Limits {
        self.limits
    }

    fn io(&self, op: u32) -> &Io {
        &self.ios[op as usize]
    }

    fn site(&self, op: u32, k: u32) -> Site {
        let v = self.ios[op as usize].first + k as u64;
        let (dev, lba) = self.table.place(v);
        Site {
            dev,
            lba,
            run: self.table.run_from(v),
        }
    }

    ghost fine = { λ s. s.right.fine };
}

// A sheet is lent whole: its ghost field speaks of all others.
impl Sheet {
    /// The requests of all ops.
    pub(crate) fn ios(&self) -> &[Io]
        ensures { result.now ≡ self.now.ios.items }
    {
        self.ios.as_slice()
    }

    /// The request of an op.
    pub(crate) fn request(&self, op: usize) -> &Io
        requires { op < length self.now.ios.items }
        ensures { result.now ≡ io_at self.now.ios.items op }
    {
        &self.ios[op]
    }

    /// All ops.
    pub(crate) fn all_ops(&self) -> &[Op]
        ensures { result.now ≡ self.now.ops }
    {
        self.ops.as_slice()
    }

    /// Whether a shift line names each op.
    pub(crate) fn shifted(&self) -> &[bool]
        ensures { result.now ≡ self.now.shifted.items }
    {
        self.shifted.as_slice()
    }

    /// An op.
    pub(crate) fn op(&self, op: usize) -> &Op
        requires { op < length self.now.ops }
        ensures { result.now ≡ op_in self.now.ops op }
    {
        &self.ops.as_slice()[op]
    }
}

/// One more than the greatest device on which a block of a request lies.
fn devices_of(io: &Io, table: &VolumeTable) -> u32
    requires inside { io.now.first + io.now.count ≤ volume_len table.now.entries }
    requires numbers { io.now.first + io.now.count < 2 ^ 64 }
    requires few { (v : ℕ) → v < volume_len table.now.entries → (place_in table.now.entries v).0 < 8 }
    ensures all { (k : ℕ) → k < io.now.count → (place_in table.now.entries (io.now.first + k)).0 < result }
    ensures few { result ≤ 8 }
    ensures least { (n : ℕ) → ((v : ℕ) → v < volume_len table.now.entries → (place_in table.now.entries v).0 < n) → result ≤ n }
    ensures tight { (n : ℕ) → ((k : ℕ) → k < io.now.count → (place_in table.now.entries (io.now.first + k)).0 < n) → result ≤ n }
{
    let mut most = 0;
    let mut k = 0;
    while k < io.count {
        let v = io.first + k as u64;
        most = (table.place(v).0 + 1).max(most);
        k += table.run_from(v).min((io.count - k) as u64) as u32;
    }
    most
}

/// The bytes of data in each block of a request, or 0 where it has no block.
fn block_bytes(io: &Io) -> u32
    requires { 0 < io.now.count → block_size io.now ≤ LARGEST_BLOCK }
    ensures all { 0 < io.now.count → block_size io.now ≤ result }
    ensures few { result ≤ LARGEST_BLOCK }
{
    if io.count == 0 {
        return 0;
    }
    io.block_size()
}

/// The most bytes of data in a block of the requests.
pub(crate) fn largest_block(ios: &[Io]) -> u32
    requires { (i : ℕ) → 0 < (io_at ios.now i).count → block_size (io_at ios.now i) ≤ LARGEST_BLOCK }
    ensures all { (i : ℕ) → 0 < (io_at ios.now i).count → block_size (io_at ios.now i) ≤ result }
    ensures few { result ≤ LARGEST_BLOCK }
{
    let mut most = 0;
    for io in ios {
        most = block_bytes(io).max(most);
    }
    most
}

/// One more than the greatest device on which a block of the requests lies.
pub(crate) fn count_devices(ios: &[Io], table: &VolumeTable) -> u32
    requires inside { (i : ℕ) → i < length ios.now → (io_at ios.now i).first + (io_at ios.now i).count ≤ volume_len table.now.entries }
    requires numbers { HaveNumbers ios.now }
    requires few { (v : ℕ) → v < volume_len table.now.entries → (place_in table.now.entries v).0 < 8 }
    ensures all { (i k : ℕ) → k < (io_at ios.now i).count → (place_in table.now.entries ((io_at ios.now i).first + k)).0 < result }
    ensures few { result ≤ 8 }
    ensures least { (n : ℕ) → ((v : ℕ) → v < volume_len table.now.entries → (place_in table.now.entries v).0 < n) → result ≤ n }
    ensures tight { (n : ℕ) → ((i k : ℕ) → k < (io_at ios.now i).count → (place_in table.now.entries ((io_at ios.now i).first + k)).0 < n) → result ≤ n }
{
    let mut most = 0;
    for io in ios {
        most = devices_of(io, table).max(most);
    }
    most
}
