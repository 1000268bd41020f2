//! The numbers of a command, and which of them its form can carry.

ghost use Rattle.std.specs.Prelude.{◌≡◌, ◌<◌, ◌≤◌, true};
ghost use Rattle.device_commands.specs.Forms.{Bounds, dld_values, fits, fits_all, fits_low, fits_size, has_no_tags, high_dld, low, ndob_values};

use crate::op::{Kind, Size};

/// A command as plain numbers, with each bit that an initiator may set (SBC-3, clause 5; SBC-4).
#[repr(C)]
#[derive(Clone, Copy, Debug, PartialEq, Eq)]
pub struct DeviceCommand {
    /// LOGICAL BLOCK ADDRESS of the first block; of READ CAPACITY 0.
    pub lba: u64,
    /// The operation code; where it has a service action, it is followed by that: 7F09h is READ(32), 9E10h READ
    /// CAPACITY(16).
    pub op: u32,
    /// The length in blocks; of READ CAPACITY the allocation length in bytes.
    pub n: u32,
    /// EXPECTED INITIAL LOGICAL BLOCK REFERENCE TAG, in the forms of 32 bytes; else 0.
    pub rtag: u32,
    /// EXPECTED LOGICAL BLOCK APPLICATION TAG, in the forms of 32 bytes; else 0.
    pub app: u16,
    /// LOGICAL BLOCK APPLICATION TAG MASK, in the forms of 32 bytes; else 0.
    pub mask: u16,
    /// RDPROTECT, WRPROTECT or VRPROTECT: 0 to 5.
    pub protect: u32,
    /// DPO is 10h, FUA 8h, RARC 4h and FUA_NV 2h, as they stand in their byte; of WRITE SAME, ANCHOR is 1000h, UNMAP
    /// 800h and NDOB 100h.
    pub flags: u32,
    /// BYTCHK of VERIFY and WRITE AND VERIFY, 0 to 3; else 0.
    pub bytchk: u32,
    /// The duration limit's descriptor of READ and WRITE of 16 and 32 bytes, 0 to 7; else 0.
    pub dld: u32,
    /// GROUP NUMBER, 0 to 63; READ CAPACITY has none.
    pub group: u32,
    /// CONTROL, 0 to 255.
    pub control: u32,
}

impl Size {
    fn dld_values(self) -> u32
        ensures { result ≡ dld_values self }
    {
        match self {
            Size::Ten | Size::Twelve => 1,
            Size::Sixteen | Size::ThirtyTwo => 8,
        }
    }

    fn ndob_values(self) -> u32
        ensures { result ≡ ndob_values self }
    {
        match self {
            Size::Ten => 1,
            Size::Twelve | Size::Sixteen | Size::ThirtyTwo => 2,
        }
    }

    fn high_dld(self, dld: u32) -> u32
        ensures { result ≡ high_dld self dld }
    {
        match self {
            Size::Sixteen => dld / 4,
            Size::Ten | Size::Twelve | Size::ThirtyTwo => 0,
        }
    }
}

impl DeviceCommand {
    fn has_no_tags(&self) -> bool
        ensures { result ≡ has_no_tags self.now }
    {
        self.rtag == 0 && self.app == 0 && self.mask == 0
    }

    fn fits_size(&self, size: Size) -> bool
        ensures { result ≡ fits_size size self.now }
    {
        match size {
            Size::Ten => self.lba <= 0xFFFF_FFFF && self.n <= 0xFFFF && self.has_no_tags(),
            Size::Twelve => self.lba <= 0xFFFF_FFFF && self.has_no_tags(),
            Size::Sixteen => self.has_no_tags(),
            Size::ThirtyTwo => true,
        }
    }

    fn fits_all(&self) -> bool
        ensures { result ≡ fits_all self.now }
    {
        self.protect <= 5 && self.group < 64 && self.control < 256
    }

    fn fits_low(&self, size: Size, kind: Kind) -> bool
        ensures { result ≡ fits_low size kind self.now }
    {
        let f = self.flags;
        match kind {
            Kind::Reads => f % 2 == 0 && f < 32 && self.bytchk == 0 && self.dld < size.dld_values(),
            Kind::Writes => {
                f % 2 == 0
                    && f < 32
                    && f / 4 % 2 == 0
                    && self.bytchk == 0
                    && self.dld < size.dld_values()
            }
            Kind::Swaps => {
                f % 2 == 0
                    && f < 32
                    && f / 4 % 2 == 0
                    && self.bytchk == 0
                    && self.dld == 0
                    && self.n < 256
            }
            Kind::Verifies => f % 16 == 0 && f < 32 && self.bytchk < 4 && self.dld == 0,
            Kind::Repeats => {
                f % 256 == 0
                    && f < 8192
                    && f / 512 % 4 == 0
                    && f / 256 % 2 < size.ndob_values()
                    && self.bytchk == 0
                    && self.dld == 0
            }
            Kind::Asks => {
                f == 0
                    && self.bytchk == 0
                    && self.dld == 0
                    && self.protect == 0
                    && self.lba == 0
                    && self.group == 0
            }
        }
    }

    // Each number is of its type.
    fn is_bounded(&self)
        ensures { Bounds self.now }
    {
        let _lba = self.lba;
        let _n = self.n;
        let _rtag = self.rtag;
        let _app = self.app;
        let _mask = self.mask;
    }

    /// Whether the form of this size and kind can carry the numbers.
    pub(crate) fn fits(&self, size: Size, kind: Kind) -> bool
        ensures value { result ≡ fits size kind self.now }
        ensures bounds { Bounds self.now }
    {
        self.is_bounded();
        self.fits_all() && self.fits_size(size) && self.fits_low(size, kind)
    }

    /// Bits 4 to 0 beside the protect field.
    pub(crate) fn low(&self, size: Size, kind: Kind) -> u32
        requires { fits_low size kind self.now ≡ true }
        ensures value { result ≡ low size kind self.now }
        ensures small { result < 32 }
    {
        match kind {
            Kind::Reads | Kind::Writes => self.flags + size.high_dld(self.dld),
            Kind::Swaps => self.flags,
            Kind::Verifies => self.flags + self.bytchk * 2,
            Kind::Repeats => self.flags / 256,
            Kind::Asks => 16,
        }
    }
}
