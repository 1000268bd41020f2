//! The eight bytes of protection information that travel with a logical block.

ghost use Rattle.std.specs.Prelude.{◌≡◌};
ghost use Rattle.pi_tuple.specs.Tuples.{ref_tag, tuple_bytes, tuple_in};

/// A protection information tuple (SBC-3, 4.22.3): the logical block guard, the logical block
/// application tag, which belongs to whoever made the tuple, and the logical block reference
/// tag, which binds the block to an LBA.
#[derive(Clone, Copy, Debug, PartialEq, Eq)]
pub struct Tuple {
    /// The guard of the data: a CRC or, in the host's memory, also an Internet checksum.
    pub guard: u16,
    /// The application tag. FFFFh makes the tuple an escape, see `is_escape`.
    pub app: u16,
    /// The reference tag: in type 1 the low 32 bits of the block's LBA.
    pub rtag: u32,
}

impl Tuple {
    /// The eight bytes of the tuple as they travel: the guard in bytes 0 and 1, the application
    /// tag in 2 and 3, the reference tag in 4 to 7, each with the most significant byte first.
    pub fn to_bytes(self) -> [u8; 8]
        ensures bytes { result ≡ tuple_bytes self }
        ensures back { tuple_in result ≡ self }
    {
        let [g0, g1] = self.guard.to_be_bytes();
        let [a0, a1] = self.app.to_be_bytes();
        let [r0, r1, r2, r3] = self.rtag.to_be_bytes();
        [g0, g1, a0, a1, r0, r1, r2, r3]
    }

    /// The tuple of these eight bytes. It undoes `to_bytes`.
    pub fn from_bytes(b: &[u8; 8]) -> Tuple
        ensures value { result ≡ tuple_in b.now }
        ensures back { tuple_bytes result ≡ b.now }
    {
        let [g0, g1, a0, a1, r0, r1, r2, r3] = *b;
        Tuple {
            guard: u16::from_be_bytes([g0, g1]),
            app: u16::from_be_bytes([a0, a1]),
            rtag: u32::from_be_bytes([r0, r1, r2, r3]),
        }
    }
}

/// The tuple of this guard, application tag and reference tag.
pub fn make(data_guard: u16, app: u16, rtag: u32) -> Tuple
    ensures { result ≡ record { guard = data_guard; app = app; rtag = rtag } }
{
    Tuple {
        guard: data_guard,
        app,
        rtag,
    }
}

/// The reference tag that names an LBA, virtual or physical: its low 32 bits (SBC-3, 4.22.2).
pub fn ref_tag(lba: u64) -> u32
    ensures { result ≡ ref_tag lba }
{
    (lba % 0x1_0000_0000) as u32
}
