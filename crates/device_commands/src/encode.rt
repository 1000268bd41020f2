//! The bytes of a command.

ghost use Rattle.std.specs.Prelude.{◌≡◌, ◌<◌, ◌≤◌, ◌+◌, ◌*◌, IfErr, IfOk, drop, length, take, true};
ghost use Rattle.device_commands.specs.Forms.{Refused, Written, fits, fits_all, fits_size, form, laid, sixteen, ten, thirty_two, twelve};
ghost use Rattle.device_commands.specs.Ops.{code_of, count_of, kind_of, size_of};
ghost use Rattle.device_commands.specs.declared.op.Size.TheVariants.{Ten, Twelve};

use crate::DeviceCommand;
use crate::op::{Op, Size};
use arrayvec::ArrayVec;
use cdb_codec::CdbFault;

impl DeviceCommand {
    fn in_ten(&self, code: u8, first: u8) -> ArrayVec<u8, 32>
        requires all { fits_all self.now ≡ true }
        requires size { fits_size Ten self.now ≡ true }
        ensures { result.items ≡ ten code first self.now }
    {
        let mut out = ArrayVec::new();
        out.try_extend_from_slice(&[code, first]).unwrap();
        out.try_extend_from_slice(&(self.lba as u32).to_be_bytes())
            .unwrap();
        out.try_extend_from_slice(&[self.group as u8]).unwrap();
        out.try_extend_from_slice(&(self.n as u16).to_be_bytes())
            .unwrap();
        out.try_extend_from_slice(&[self.control as u8]).unwrap();
        out
    }

    fn in_twelve(&self, code: u8, first: u8) -> ArrayVec<u8, 32>
        requires all { fits_all self.now ≡ true }
        requires size { fits_size Twelve self.now ≡ true }
        ensures { result.items ≡ twelve code first self.now }
    {
        let mut out = ArrayVec::new();
        out.try_extend_from_slice(&[code, first]).unwrap();
        out.try_extend_from_slice(&(self.lba as u32).to_be_bytes())
            .unwrap();
        out.try_extend_from_slice(&self.n.to_be_bytes()).unwrap();
        out.try_extend_from_slice(&[self.group as u8, self.control as u8])
            .unwrap();
        out
    }

    fn in_sixteen(&self, code: u8, first: u8) -> ArrayVec<u8, 32>
        requires { fits_all self.now ≡ true }
        ensures { result.items ≡ sixteen code first self.now }
    {
        let mut out = ArrayVec::new();
        out.try_extend_from_slice(&[code, first]).unwrap();
        out.try_extend_from_slice(&self.lba.to_be_bytes()).unwrap();
        out.try_extend_from_slice(&self.n.to_be_bytes()).unwrap();
        let dld_and_group = (self.dld % 4 * 64 + self.group) as u8;
        out.try_extend_from_slice(&[dld_and_group, self.control as u8])
            .unwrap();
        out
    }

    fn in_thirty_two(&self, action: u8, first: u8) -> ArrayVec<u8, 32>
        requires all { fits_all self.now ≡ true }
        requires dld { self.now.dld < 8 }
        ensures { result.items ≡ thirty_two action first self.now }
    {
        let mut out = ArrayVec::new();
        let (group, control) = (self.group as u8, self.control as u8);
        out.try_extend_from_slice(&[0x7F, control, 0, 0, 0, 0, group, 0x18, 0, action])
            .unwrap();
        out.try_extend_from_slice(&[first, self.dld as u8]).unwrap();
        out.try_extend_from_slice(&self.lba.to_be_bytes()).unwrap();
        out.try_extend_from_slice(&self.rtag.to_be_bytes()).unwrap();
        out.try_extend_from_slice(&self.app.to_be_bytes()).unwrap();
        out.try_extend_from_slice(&self.mask.to_be_bytes()).unwrap();
        out.try_extend_from_slice(&self.n.to_be_bytes()).unwrap();
        out
    }

    fn laid(&self, size: Size, code: u8, first: u8) -> ArrayVec<u8, 32>
        requires all { fits_all self.now ≡ true }
        requires size { fits_size size self.now ≡ true }
        requires dld { self.now.dld < 8 }
        ensures { result.items ≡ laid size code first self.now }
    {
        match size {
            Size::Ten => self.in_ten(code, first),
            Size::Twelve => self.in_twelve(code, first),
            Size::Sixteen => self.in_sixteen(code, first),
            Size::ThirtyTwo => self.in_thirty_two(code, first),
        }
    }

    /// The bytes of the command with these numbers.
    pub(crate) fn form(&self, op: Op) -> ArrayVec<u8, 32>
        requires { fits (size_of op) (kind_of op) self.now ≡ true }
        ensures { result.items ≡ form op self.now }
    {
        let low = self.low(op.size(), op.kind());
        self.laid(op.size(), op.code(), (self.protect * 32 + low) as u8)
    }

    /// Writes the command to the front of `out`, in 10, 12, 16 or 32 bytes, and answers how many; the rest of `out`
    /// stays. Where no command has the operation code, or the one that has it can't carry a number, all stays.
    pub fn encode(&self, out: &mut [u8; 32]) -> Result<usize, CdbFault>
        ensures written { IfOk result (λ n. Written self.now (take n out.new)) }
        ensures stays { IfOk result (λ n. (n ≤ 32) × (drop n out.new ≡ drop n out.old)) }
        ensures refused { IfErr result (λ e. Refused self.now e × (out.new ≡ out.old)) }
    {
        let Some(op) = Op::of(self.op) else {
            return Err(CdbFault::Opcode);
        };
        if !self.fits(op.size(), op.kind()) {
            return Err(CdbFault::Field);
        }
        let bytes = self.form(op);
        let len = bytes.len();
        out[..len].copy_from_slice(bytes.as_slice());
        Ok(len)
    }
}
