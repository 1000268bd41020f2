//! Command descriptor blocks as plain numbers.

ghost use Rattle.std.specs.Prelude.{◌≡◌, ◌≤◌, drop, take, IfErr, IfOk, Ok, Err, true};
ghost use Rattle.cdb_codec.specs.Decoded.{decoded};
ghost use Rattle.cdb_codec.specs.Forms.{Fits, is_protect};
ghost use Rattle.pi_blocks.specs.Commands.{Reads, cdb_fields, cleared, command_of, encoded, fits_capacity, fits_sixteen};
ghost use Rattle.pi_blocks.specs.Commands.{fits_ten, has_no_tags, rw_fields, rw_of};
ghost use Rattle.pi_blocks.specs.declared.commands.CdbFields.{CdbFields as AnyFields};

use crate::marks::Places;
use cdb_codec::{Cdb, CdbFault, Rw};

/// A command as plain numbers (SBC-3, 5.11 to 5.35).
#[repr(C)]
#[derive(Clone, Copy, Debug)]
pub struct CdbFields {
    /// LOGICAL BLOCK ADDRESS of the first block; of READ CAPACITY 0.
    pub lba: u64,
    /// The operation code; where it has a service action, it is followed by that: 7F09h and 7F0Bh are READ(32) and
    /// WRITE(32), 9E10h is READ CAPACITY(16).
    pub op: u32,
    /// The length in blocks; of READ CAPACITY the allocation length in bytes.
    pub n: u32,
    /// EXPECTED INITIAL LOGICAL BLOCK REFERENCE TAG, in the forms of 32 bytes; else 0.
    pub rtag: u32,
    /// EXPECTED LOGICAL BLOCK APPLICATION TAG, in the forms of 32 bytes; else 0.
    pub app: u16,
    /// LOGICAL BLOCK APPLICATION TAG MASK, in the forms of 32 bytes; else 0.
    pub mask: u16,
    /// RDPROTECT, WRPROTECT or VRPROTECT: 0, 1, 3 or 4.
    pub protect: u32,
    /// DPO is 10h and FUA 8h, as they stand in their byte. VERIFY has no FUA, READ CAPACITY neither.
    pub flags: u32,
    /// GROUP NUMBER, 0 to 31; READ CAPACITY has none.
    pub group: u32,
    /// CONTROL, 0 to 255.
    pub control: u32,
}

fn is_served(protect: u32) -> bool
    ensures { result ≡ is_protect protect }
{
    matches!(protect, 0 | 1 | 3 | 4)
}

fn of_rw(op: u32, c: Rw) -> CdbFields
    ensures { result ≡ rw_fields op c 0 0 0 }
{
    CdbFields {
        lba: c.lba,
        op,
        n: c.n,
        rtag: c.rtag,
        app: c.app,
        mask: c.mask,
        protect: u32::from(c.protect),
        flags: 0,
        group: 0,
        control: 0,
    }
}

fn of_cdb(cdb: Cdb) -> CdbFields
    ensures { result ≡ cdb_fields cdb 0 0 0 }
{
    match cdb {
        Cdb::Read10(c) => of_rw(0x28, c),
        Cdb::Write10(c) => of_rw(0x2A, c),
        Cdb::Verify10(c) => of_rw(0x2F, c),
        Cdb::Read16(c) => of_rw(0x88, c),
        Cdb::Write16(c) => of_rw(0x8A, c),
        Cdb::Verify16(c) => of_rw(0x8F, c),
        Cdb::Read32(c) => of_rw(0x7F09, c),
        Cdb::Write32(c) => of_rw(0x7F0B, c),
        Cdb::ReadCapacity16 { alloc_len } => CdbFields {
            lba: 0,
            op: 0x9E10,
            n: alloc_len,
            rtag: 0,
            app: 0,
            mask: 0,
            protect: 0,
            flags: 0,
            group: 0,
            control: 0,
        },
    }
}

impl CdbFields {
    fn has_no_tags(self) -> bool
        ensures { result ≡ has_no_tags self }
    {
        self.rtag == 0 && self.app == 0 && self.mask == 0
    }

    fn fits_ten(self) -> bool
        ensures { result ≡ fits_ten self }
    {
        is_served(self.protect) && self.lba <= 0xFFFF_FFFF && self.n <= 0xFFFF && self.has_no_tags()
    }

    fn fits_sixteen(self) -> bool
        ensures { result ≡ fits_sixteen self }
    {
        is_served(self.protect) && self.has_no_tags()
    }

    fn fits_capacity(self) -> bool
        ensures { result ≡ fits_capacity self }
    {
        self.protect == 0 && self.lba == 0 && self.has_no_tags()
    }

    fn rw(self) -> Rw
        requires { is_protect self.protect ≡ true }
        ensures { result ≡ rw_of self }
    {
        Rw {
            protect: self.protect as u8,
            lba: self.lba,
            n: self.n,
            rtag: self.rtag,
            app: self.app,
            mask: self.mask,
        }
    }

    fn command(self) -> Result<Cdb, CdbFault>
        ensures value { result ≡ command_of self }
        ensures fits { IfOk result (λ c. Fits c × (self ≡ cdb_fields c self.flags self.group self.control)) }
    {
        match self.op {
            0x28 if self.fits_ten() => Ok(Cdb::Read10(self.rw())),
            0x2A if self.fits_ten() => Ok(Cdb::Write10(self.rw())),
            0x2F if self.fits_ten() => Ok(Cdb::Verify10(self.rw())),
            0x88 if self.fits_sixteen() => Ok(Cdb::Read16(self.rw())),
            0x8A if self.fits_sixteen() => Ok(Cdb::Write16(self.rw())),
            0x8F if self.fits_sixteen() => Ok(Cdb::Verify16(self.rw())),
            0x7F09 if is_served(self.protect) => Ok(Cdb::Read32(self.rw())),
            0x7F0B if is_served(self.protect) => Ok(Cdb::Write32(self.rw())),
            0x9E10 if self.fits_capacity() => Ok(Cdb::ReadCapacity16 { alloc_len: self.n }),
            0x28 | 0x2A | 0x2F | 0x88 | 0x8A | 0x8F | 0x7F09 | 0x7F0B | 0x9E10 => Err(
                CdbFault::Field,
            ),
            _ => Err(CdbFault::Opcode),
        }
    }

    /// Writes the command to the front of `out`, in 10, 16 or 32 bytes, and answers how many; the rest of `out` stays.
    /// Where the operation code is none that is served, or a field doesn't fit its form, all stays.
    ///
    /// With flags, group and control 0 the bytes are those that `Cdb::encode` gives.
    pub fn encode(self, out: &mut [u8; 32]) -> Result<usize, CdbFault>
        ensures written { IfOk result (λ n. (encoded self ≡ Ok (take n out.new)) × (drop n out.new ≡ drop n out.old)) }
        ensures len { IfOk result (λ n. n ≤ 32) }
        ensures says { IfOk result (λ n. Reads self (take n out.new)) }
        ensures refused { IfErr result (λ e. (encoded self ≡ Err e) × (out.new ≡ out.old)) }
    {
        let bytes = self.command()?.encode();
        let len = bytes.len();
        let places = Places::of(bytes[0], len);
        if !places.fit(self.flags, self.group, self.control) {
            return Err(CdbFault::Field);
        }
        let front = &mut out[..len];
        front.copy_from_slice(bytes.as_slice());
        places.write(front, self.flags, self.group, self.control);
        Ok(len)
    }

    /// The command that is written as these bytes. Else the first fault, as `Cdb::decode` tells it of the bytes without
    /// flags, group and control: a bit outside the fields is one of a field.
    ///
    /// It undoes `encode`, and `encode` undoes it.
    pub fn decode(bytes: &[u8]) -> Result<CdbFields, CdbFault>
        ensures found { IfOk result (λ f. Reads f bytes.now) }
        ensures only { (f : AnyFields) → Reads f bytes.now → result ≡ Ok f }
        ensures fault { IfErr result (λ e. decoded (cleared bytes.now) ≡ Err e) }
    {
        if !matches!(bytes.len(), 10 | 16 | 32) {
            return Ok(of_cdb(Cdb::decode(bytes)?));
        }
        let mut copy = [0; 32];
        let bare = &mut copy[..bytes.len()];
        bare.copy_from_slice(bytes);
        let places = Places::of(bytes[0], bytes.len());
        let (flags, group, control) = places.take(bare);
        Ok(CdbFields {
            flags,
            group,
            control,
            ..of_cdb(Cdb::decode(bare)?)
        })
    }
}
