//! The command that a list of bytes begins with.

ghost use Rattle.std.specs.Prelude.{◌≡◌, ◌+◌, ◌<◌, ◌≤◌, IfErr, IfOk, Ok, length};
ghost use Rattle.cdb_codec.specs.Decoded.{eight_at, four_at, two_at};
ghost use Rattle.device_commands.specs.Forms.{Says};
ghost use Rattle.device_commands.specs.Ops.{count_of, fault_of, kind_of, size_of};
ghost use Rattle.device_commands.specs.Told.{bytchk_in, dld_in, flags_in, sixteen_in, ten_in, thirty_two_in, told, twelve_in};
ghost use Rattle.device_commands.specs.declared.command.DeviceCommand.{DeviceCommand as AnyCommand};

use crate::DeviceCommand;
use crate::op::{Kind, Op, Size};
use cdb_codec::CdbFault;

fn u16_at(bytes: &[u8], at: usize) -> u16
    requires { at + 2 ≤ length bytes.now }
    ensures { result ≡ two_at bytes.now at }
{
    u16::from_be_bytes([bytes[at], bytes[at + 1]])
}

fn u32_at(bytes: &[u8], at: usize) -> u32
    requires { at + 4 ≤ length bytes.now }
    ensures { result ≡ four_at bytes.now at }
{
    u32::from_be_bytes([bytes[at], bytes[at + 1], bytes[at + 2], bytes[at + 3]])
}

fn u64_at(bytes: &[u8], at: usize) -> u64
    requires { at + 8 ≤ length bytes.now }
    ensures { result ≡ eight_at bytes.now at }
{
    let [a0, a1, a2, a3] = [bytes[at], bytes[at + 1], bytes[at + 2], bytes[at + 3]];
    let [a4, a5, a6, a7] = [bytes[at + 4], bytes[at + 5], bytes[at + 6], bytes[at + 7]];
    u64::from_be_bytes([a0, a1, a2, a3, a4, a5, a6, a7])
}

impl Kind {
    fn flags_in(self, bits: u32) -> u32
        requires { bits < 32 }
        ensures { result ≡ flags_in self bits }
    {
        match self {
            Kind::Reads | Kind::Writes | Kind::Swaps => bits / 2 * 2,
            Kind::Verifies => bits / 16 * 16,
            Kind::Repeats => bits * 256,
            Kind::Asks => 0,
        }
    }

    fn bytchk_in(self, bits: u32) -> u32
        ensures { result ≡ bytchk_in self bits }
    {
        match self {
            Kind::Verifies => bits / 2 % 4,
            Kind::Reads | Kind::Writes | Kind::Swaps | Kind::Repeats | Kind::Asks => 0,
        }
    }

    fn dld_in(self, bits: u32) -> u32
        ensures value { result ≡ dld_in self bits }
        ensures small { result ≤ 4 }
    {
        match self {
            Kind::Reads | Kind::Writes => bits % 2 * 4,
            Kind::Swaps | Kind::Verifies | Kind::Repeats | Kind::Asks => 0,
        }
    }
}

fn in_ten(op: u32, kind: Kind, bytes: &[u8]) -> DeviceCommand
    requires { 10 ≤ length bytes.now }
    ensures { result ≡ ten_in op kind bytes.now }
{
    let first = u32::from(bytes[1]);
    DeviceCommand {
        lba: u64::from(u32_at(bytes, 2)),
        op,
        n: u32::from(u16_at(bytes, 7)),
        rtag: 0,
        app: 0,
        mask: 0,
        protect: first / 32,
        flags: kind.flags_in(first % 32),
        bytchk: kind.bytchk_in(first % 32),
        dld: 0,
        group: u32::from(bytes[6]),
        control: u32::from(bytes[9]),
    }
}

fn in_twelve(op: u32, kind: Kind, bytes: &[u8]) -> DeviceCommand
    requires { 12 ≤ length bytes.now }
    ensures { result ≡ twelve_in op kind bytes.now }
{
    let first = u32::from(bytes[1]);
    DeviceCommand {
        lba: u64::from(u32_at(bytes, 2)),
        op,
        n: u32_at(bytes, 6),
        rtag: 0,
        app: 0,
        mask: 0,
        protect: first / 32,
        flags: kind.flags_in(first % 32),
        bytchk: kind.bytchk_in(first % 32),
        dld: 0,
        group: u32::from(bytes[10]),
        control: u32::from(bytes[11]),
    }
}

fn in_sixteen(op: u32, kind: Kind, bytes: &[u8]) -> DeviceCommand
    requires { 16 ≤ length bytes.now }
    ensures { result ≡ sixteen_in op kind bytes.now }
{
    let (first, last) = (u32::from(bytes[1]), u32::from(bytes[14]));
    DeviceCommand {
        lba: u64_at(bytes, 2),
        op,
        n: u32_at(bytes, 10),
        rtag: 0,
        app: 0,
        mask: 0,
        protect: first / 32,
        flags: kind.flags_in(first % 32),
        bytchk: kind.bytchk_in(first % 32),
        dld: kind.dld_in(first % 32) + last / 64,
        group: last % 64,
        control: u32::from(bytes[15]),
    }
}

fn in_thirty_two(op: u32, kind: Kind, bytes: &[u8]) -> DeviceCommand
    requires { 32 ≤ length bytes.now }
    ensures { result ≡ thirty_two_in op kind bytes.now }
{
    let first = u32::from(bytes[10]);
    DeviceCommand {
        lba: u64_at(bytes, 12),
        op,
        n: u32_at(bytes, 28),
        rtag: u32_at(bytes, 20),
        app: u16_at(bytes, 24),
        mask: u16_at(bytes, 26),
        protect: first / 32,
        flags: kind.flags_in(first % 32),
        bytchk: kind.bytchk_in(first % 32),
        dld: u32::from(bytes[11]),
        group: u32::from(bytes[6]),
        control: u32::from(bytes[1]),
    }
}

// The numbers at their places.
fn told(op: Op, bytes: &[u8]) -> DeviceCommand
    requires { count_of (size_of op) ≤ length bytes.now }
    ensures { result ≡ told op bytes.now }
{
    let (number, kind) = (op.number(), op.kind());
    match op.size() {
        Size::Ten => in_ten(number, kind, bytes),
        Size::Twelve => in_twelve(number, kind, bytes),
        Size::Sixteen => in_sixteen(number, kind, bytes),
        Size::ThirtyTwo => in_thirty_two(number, kind, bytes),
    }
}

impl DeviceCommand {
    /// The command that these bytes begin with; what stands behind it isn't read. Else the first fault: that there are
    /// no bytes, an operation code that isn't served, fewer bytes than it asks for, and last a field with a value that
    /// isn't served or a bit set outside the fields.
    pub fn decode(bytes: &[u8]) -> Result<DeviceCommand, CdbFault>
        ensures found { IfOk result (λ c. Says c bytes.now) }
        ensures only { (c : AnyCommand) → Says c bytes.now → result ≡ Ok c }
        ensures fault { IfErr result (λ e. e ≡ fault_of bytes.now) }
    {
        let op = Op::of_bytes(bytes)?;
        let command = told(op, bytes);
        if !command.fits(op.size(), op.kind()) {
            return Err(CdbFault::Field);
        }
        let front = &bytes[..op.size().count()];
        if command.form(op).as_slice() != front {
            return Err(CdbFault::Field);
        }
        Ok(command)
    }
}
