//! What the adapter does with one block, slowly and in place.
//!
//! Each call works on a buffer that has room for the block's data and its tuple. The frame stands at its front, with
//! its tuple or without, as it travels there.

ghost use Rattle.std.specs.Prelude.{◌≡◌, ◌+◌, length, take};
ghost use Rattle.pi_guard.specs.Guards.{guard_of};
ghost use Rattle.pi_tuple.specs.declared.TheConstants.{TUPLE};
ghost use Rattle.fault_schedule.specs.Altered.{altered};
ghost use Rattle.integrity_payload.specs.Payloads.{all_asked};
ghost use Rattle.pi_tuple.specs.Finds.{own_tag};
ghost use Rattle.rig_api.specs.Frames.{data_of, frame_of};
ghost use Rattle.rig_api.specs.Passing.{unless};
ghost use Rattle.block_path.specs.Routes.{converted, host_finding, host_size, host_type, passes_tuples, wire_size, with_guard};
ghost use Rattle.block_path.specs.Operations.{IsHandedOn};
ghost use Rattle.block_path.specs.WayIn.{adapter_finds_in, from_wire};
ghost use Rattle.block_path.specs.WayOut.{adapter_finds_out, to_wire};

use crate::{Operation, Route, operation_for};
use bio_core::Dir;
use fault_schedule::{Crossing, Tamper};
use pi_guard::{GuardKind, crc16};
use pi_tuple::{Check, Checks, PiType, finds, make, own_tag, ref_tag};
use rig_api::{put_tuple, tuple_behind};

/// The type of the tuples that a host has in memory for a unit of this type: the unit's, and type 1 where the unit
/// has none.
pub fn host_type(ty: PiType) -> PiType
    ensures { result ≡ host_type ty }
{
    if ty == PiType::Zero { PiType::One } else { ty }
}

fn put_guard(frame: &mut [u8], size: usize, guard: u16)
    requires { length frame.old ≡ size + TUPLE }
    ensures { frame.new ≡ with_guard size guard frame.old }
{
    frame[size..size + 2].copy_from_slice(&guard.to_be_bytes());
}

impl Route {
    /// Whether the block's tuple travels between adapter and target.
    pub fn passes_tuples(&self) -> bool
        ensures { result ≡ passes_tuples self.now }
    {
        self.mode.passes_tuples(self.ty)
    }

    fn checks(&self) -> Checks
        ensures { result ≡ all_asked self.now.mode.app self.now.mode.mask }
    {
        Checks {
            guard: true,
            rtag: true,
            app: self.mode.app,
            mask: self.mode.mask,
        }
    }

    /// What is found in a frame in the host's form whose reference tag is to be that of this address or block.
    pub fn host_finding(&self, address: u64, frame: &[u8]) -> Option<Check>
        requires { length frame.now ≡ self.now.size + TUPLE }
        ensures { result ≡ host_finding self.now address frame.now }
    {
        let size = self.size as usize;
        finds(
            host_type(self.ty),
            self.checks(),
            ref_tag(address),
            self.mode.kind.guard(&frame[..size]),
            tuple_behind(frame, size),
        )
    }

    fn adapter_finds_in(&self, frame: &[u8]) -> Option<Check>
        requires { length frame.now ≡ self.now.size + TUPLE }
        ensures { result ≡ adapter_finds_in self.now (take (wire_size self.now) frame.now) }
    {
        if !self.passes_tuples() {
            return None;
        }
        let size = self.size as usize;
        finds(
            self.ty,
            self.checks(),
            ref_tag(self.lba),
            crc16(&frame[..size]),
            tuple_behind(frame, size),
        )
    }
}

impl Route {
    /// Puts a tuple of the adapter's own behind the data: this guard of them, no application tag, and the block's
    /// address as far as tuples of this type have it.
    fn insert(&self, kind: GuardKind, ty: PiType, frame: &mut [u8])
        requires { length frame.old ≡ self.now.size + TUPLE }
        ensures { frame.new ≡ frame_of (data_of self.now.size frame.old) (record { guard = guard_of kind (data_of self.now.size frame.old); app = 0; rtag = own_tag ty self.now.lba }) }
    {
        let size = self.size as usize;
        let guard = kind.guard(&frame[..size]);
        put_tuple(frame, size, make(guard, 0, own_tag(ty, self.lba)));
    }

    /// Where the host's guard is the checksum, replaces the guard by one of this kind.
    fn convert(&self, kind: GuardKind, frame: &mut [u8])
        requires { length frame.old ≡ self.now.size + TUPLE }
        ensures { frame.new ≡ converted self.now kind frame.old }
    {
        if self.mode.kind == GuardKind::Ip {
            let size = self.size as usize;
            let guard = kind.guard(&frame[..size]);
            put_guard(frame, size, guard);
        }
    }

    /// What the adapter hands on of a frame that it has checked, in place.
    fn hand_on(&self, dir: Dir, frame: &mut [u8])
        requires { length frame.old ≡ self.now.size + TUPLE }
        ensures handed { IsHandedOn self.now dir frame.old frame.new }
        ensures length { length frame.new ≡ length frame.old }
    {
        match operation_for(self.mode.dix, self.passes_tuples(), dir) {
            // What is stripped lies behind the bytes that go on.
            Operation::Normal | Operation::ReadStrip | Operation::WriteStrip => {}
            Operation::WriteInsert => self.insert(GuardKind::Crc, self.ty, frame),
            Operation::ReadInsert => self.insert(self.mode.kind, host_type(self.ty), frame),
            Operation::WritePass => self.convert(GuardKind::Crc, frame),
            Operation::ReadPass => self.convert(GuardKind::Ip, frame),
        }
    }

    /// The frame crosses between host and adapter.
    fn cross(&self, tamper: &Tamper, at: Crossing, frame: &mut [u8])
        requires { length frame.old ≡ self.now.size + TUPLE }
        ensures crossed { take (host_size self.now) frame.new ≡ altered tamper.now at self.now.label (take (host_size self.now) frame.old) }
        ensures length { length frame.new ≡ length frame.old }
    {
        let size = self.size as usize;
        if self.mode.dix {
            tamper.apply(at, self.label, frame);
        } else {
            tamper.apply(at, self.label, &mut frame[..size]);
        }
    }

    /// From the host onto the wire. In `frame`, which has eight bytes more than the block has data, stands what the
    /// host sends; afterwards there stands what the adapter sends, where it finds nothing.
    ///
    /// The frame crosses to the adapter and is checked there, where the host has tuples. The tuple is passed, with
    /// the CRC as its guard, or stripped, or inserted, or there is none.
    #[tactic(auto, unfolding(crate::specs::WayOut::to_wire))]
    pub fn to_wire(&self, tamper: &Tamper, frame: &mut [u8]) -> Option<Check>
        requires { length frame.old ≡ self.now.size + TUPLE }
        ensures judged { unless result (take (wire_size self.now) frame.new) ≡ to_wire tamper.now self.now (take (host_size self.now) frame.old) }
        ensures length { length frame.new ≡ length frame.old }
    {
        self.cross(tamper, Crossing::HostToAdapter, frame);
        if self.mode.dix {
            if let Some(check) = self.host_finding(self.lba, frame) {
                return Some(check);
            }
        }
        self.hand_on(Dir::Write, frame);
        None
    }

    /// From the wire to the host. In `frame`, which has eight bytes more than the block has data, stands what came to
    /// the adapter; afterwards there stands what the host gets, where the adapter finds nothing.
    ///
    /// The frame is checked where it has a tuple. The tuple is passed, with the guard of the host's kind, or stripped,
    /// or inserted, or there is none. Then the frame crosses to the host.
    #[tactic(auto, unfolding(crate::specs::WayIn::from_wire))]
    pub fn from_wire(&self, tamper: &Tamper, frame: &mut [u8]) -> Option<Check>
        requires { length frame.old ≡ self.now.size + TUPLE }
        ensures judged { unless result (take (host_size self.now) frame.new) ≡ from_wire tamper.now self.now (take (wire_size self.now) frame.old) }
        ensures length { length frame.new ≡ length frame.old }
    {
        if let Some(check) = self.adapter_finds_in(frame) {
            return Some(check);
        }
        self.hand_on(Dir::Read, frame);
        self.cross(tamper, Crossing::AdapterToHost, frame);
        None
    }
}
