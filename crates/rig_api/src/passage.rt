//! One block on its way through a target.

ghost use Rattle.std.specs.Prelude.{◌≡◌, ◌≤◌, length, take};
ghost use Rattle.rig_api.specs.Frames.{sent_size, stored_size};
ghost use Rattle.rig_api.specs.Passing.{asked_of, crossed, found_in, from_medium, to_medium, unless, wanted_of, with_own_tuple};

use crate::{put_tuple, tuple_behind};
use fault_schedule::{Crossing, Label, Tamper};
use pi_guard::crc16;
use pi_tuple::{Check, Checks, PiType, finds, make, own_tag, ref_tag};

/// A block of a command, as the target knows it.
#[derive(Clone, Copy, Debug, PartialEq, Eq)]
pub struct Passage {
    /// The unit's type.
    pub ty: PiType,
    /// The bytes of data in a block of the unit.
    pub size: u32,
    /// The command's protect field: 0, 1, 3 or 4.
    pub protect: u8,
    /// The block's LBA, as the target was told it.
    pub lba: u64,
    /// The reference tag that the command expects of the block, which type 2 asks for.
    pub rtag: u32,
    /// The application tag that the command expects, which type 2 asks for.
    pub app: u16,
    /// The bits of the application tag that are checked.
    pub mask: u16,
    /// Whose block it is. A block without a label crosses unaltered.
    pub label: Option<Label>,
}

fn cross(tamper: &Tamper, label: Option<Label>, at: Crossing, frame: &mut [u8])
    ensures { frame.new ≡ crossed tamper.now label at frame.old }
{
    match label {
        Some(label) => tamper.apply(at, label, frame),
        None => {}
    }
}

impl Passage {
    fn checks(&self) -> Checks
        ensures { result ≡ asked_of self.now }
    {
        let protect = self.protect;
        Checks {
            guard: protect != 3,
            rtag: protect == 1 || protect == 0 && self.ty == PiType::One,
            app: self.app,
            mask: if self.ty == PiType::Two && protect == 1 {
                self.mask
            } else {
                0
            },
        }
    }

    fn wanted(&self) -> u32
        ensures { result ≡ wanted_of self.now }
    {
        if self.ty == PiType::Two {
            self.rtag
        } else {
            ref_tag(self.lba)
        }
    }

    /// What is found in the frame of the block, as it is stored: the first check that is asked
    /// for and differs. In type 0 there is nothing to find.
    #[tactic(auto, unfolding(crate::specs::Passing::found_in))]
    pub fn finding(&self, frame: &[u8]) -> Option<Check>
        requires { length frame.now ≡ stored_size self.now.ty self.now.size }
        ensures { result ≡ found_in self.now frame.now }
    {
        if self.ty == PiType::Zero {
            return None;
        }
        let size = self.size as usize;
        finds(
            self.ty,
            self.checks(),
            self.wanted(),
            crc16(&frame[..size]),
            tuple_behind(frame, size),
        )
    }

    /// Under protect field 000b the tuple of the block is made by the target, where its unit has
    /// tuples: the guard of the data, application tag 0, and the block's own reference tag.
    fn make_tuple(&self, frame: &mut [u8])
        requires { length frame.old ≡ stored_size self.now.ty self.now.size }
        ensures { frame.new ≡ with_own_tuple self.now.ty self.now.lba (take self.now.size frame.old) }
    {
        if self.ty == PiType::Zero {
            return;
        }
        let size = self.size as usize;
        let guard = crc16(&frame[..size]);
        put_tuple(frame, size, make(guard, 0, own_tag(self.ty, self.lba)));
    }

    /// Takes a block to the medium. At the front of `frame`, which has the length of the block as
    /// it is stored, stands what the host sent; afterwards there stands what is stored, where
    /// nothing is found.
    ///
    /// The block crosses from the adapter to the target, is checked there or gets a tuple, and
    /// crosses to the medium.
    #[tactic(auto, unfolding(crate::specs::Passing::to_medium))]
    pub fn to_medium(&self, tamper: &Tamper, frame: &mut [u8]) -> Option<Check>
        requires stored { length frame.old ≡ stored_size self.now.ty self.now.size }
        requires sent { sent_size self.now.protect self.now.size ≤ length frame.old }
        ensures judged { unless result frame.new ≡ to_medium tamper.now self.now (take (sent_size self.now.protect self.now.size) frame.old) }
        ensures length { length frame.new ≡ length frame.old }
    {
        let size = self.size as usize;
        if self.protect == 0 {
            cross(
                tamper,
                self.label,
                Crossing::AdapterToTarget,
                &mut frame[..size],
            );
            self.make_tuple(frame);
        } else {
            cross(tamper, self.label, Crossing::AdapterToTarget, frame);
            match self.finding(frame) {
                Some(check) => return Some(check),
                None => {}
            }
        }
        cross(tamper, self.label, Crossing::TargetToMedium, frame);
        None
    }

    /// Takes a block from the medium. In `frame` stands the block as it is stored; afterwards
    /// there stands at its front what is sent to the host, where nothing is found.
    ///
    /// The block crosses from the medium to the target, is checked there, and crosses to the
    /// adapter, without its tuple under protect field 000b.
    #[tactic(auto, unfolding(crate::specs::Passing::from_medium))]
    pub fn from_medium(&self, tamper: &Tamper, frame: &mut [u8]) -> Option<Check>
        requires stored { length frame.old ≡ stored_size self.now.ty self.now.size }
        requires sent { sent_size self.now.protect self.now.size ≤ length frame.old }
        ensures judged { unless result (take (sent_size self.now.protect self.now.size) frame.new) ≡ from_medium tamper.now self.now frame.old }
        ensures length { length frame.new ≡ length frame.old }
    {
        cross(tamper, self.label, Crossing::MediumToTarget, frame);
        match self.finding(frame) {
            Some(check) => return Some(check),
            None => {}
        }
        let sent = if self.protect == 0 {
            self.size as usize
        } else {
            frame.len()
        };
        cross(
            tamper,
            self.label,
            Crossing::TargetToAdapter,
            &mut frame[..sent],
        );
        None
    }
}
