//! The head of an image: its length and its first bytes.

ghost use Rattle.std.specs.Prelude.{◌≡◌, ◌≤◌, ◌+◌, ◌*◌, [], None, Some, eqb, if◌then◌else◌, true};
ghost use Rattle.rig_api.specs.Headers.{bytes_of, image_size, is_header, is_layout, is_spec, specs_in};
ghost use Rattle.rig_api.specs.Head.{fault_of_header, head_fault, units_of, version_in};
ghost use Rattle.image_rig.specs.Heads.{head_in};

use crate::image_head::ImageHead;
use arrayvec::ArrayVec;
use rig_api::{RigFault, UnitSpec, Version, front, is_header, specs_in, stored_size, version_of};

impl ImageHead {
    /// The head of no image.
    pub fn none() -> ImageHead
        ensures { head_in result ≡ record { size = 0; first = [] } }
    {
        ImageHead {
            size: 0,
            have: 0,
            first: [0; 512],
        }
    }

    /// The version that the head names, if one.
    pub fn version(&self) -> Option<Version>
        ensures { result ≡ version_in (head_in self.now) }
    {
        version_of(front(&self.first[..self.have], 8))
    }

    /// The first fault of the head.
    pub fn fault(&self) -> Option<RigFault>
        ensures { result ≡ head_fault (head_in self.now) }
    {
        let Some(version) = self.version() else {
            return Some(RigFault::BadMagic);
        };
        if self.have < 512 {
            return Some(RigFault::BadLength);
        }
        header_fault(version, &self.first, self.size)
    }

    /// The units that a right head tells.
    pub fn units(&self) -> ArrayVec<UnitSpec, 8>
        requires { head_fault (head_in self.now) ≡ None }
        ensures { result.items ≡ units_of (head_in self.now) }
    {
        match self.version() {
            Some(version) => specs_in(version, &self.first),
            None => ArrayVec::new(),
        }
    }
}

/// The bytes of a unit's blocks in the image.
pub(crate) fn unit_bytes(unit: UnitSpec) -> u64
    requires { is_spec unit ≡ true }
    ensures value { result ≡ bytes_of unit }
    ensures bound { result ≤ 65536 * 520 }
{
    unit.blocks * stored_size(unit.ty, unit.size) as u64
}

/// The length of the image of these units.
fn image_size(units: &[UnitSpec]) -> u64
    requires { is_layout units.now ≡ true }
    ensures { result ≡ image_size units.now }
{
    let mut size = 512u64;
    for unit in units {
        size += unit_bytes(*unit);
    }
    size
}

fn length_fault(size: u64, units: &[UnitSpec]) -> Option<RigFault>
    requires { is_layout units.now ≡ true }
    ensures { result ≡ (if eqb size (image_size units.now) then None else Some RigFault.BadLength) }
{
    if size == image_size(units) {
        None
    } else {
        Some(RigFault::BadLength)
    }
}

/// The first fault of 512 bytes that begin with the text of this version.
fn header_fault(version: Version, first: &[u8; 512], size: u64) -> Option<RigFault>
    ensures { result ≡ fault_of_header (is_header version first.now) size (image_size (specs_in version first.now)) }
{
    if !is_header(version, first) {
        return Some(RigFault::BadHeader);
    }
    length_fault(size, &specs_in(version, first))
}
