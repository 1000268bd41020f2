//! The rig over a store.

ghost use Rattle.std.specs.Prelude.{◌≡◌, ◌<◌, List, ℕ, length, Some, None};
ghost use Rattle.rig_api.specs.Head.{head_fault, head_of, units_of};
ghost use Rattle.image_rig.specs.Heads.{head_in};

use crate::{ImageHead, Log};
use arrayvec::ArrayVec;
use dix_base::Store;
use fault_schedule::Tamper;
use rig_api::UnitSpec;

/// A rig over an image in a store. Once an image is opened, each of its units is a device.
#[derive(Drop)]
pub struct ImageRig<S: Store> {
    pub(crate) store: S,
    /// The head of the image that was looked at last.
    pub(crate) head: ImageHead,
    /// The units of the image that is open.
    pub(crate) units: ArrayVec<UnitSpec, 8>,
    pub(crate) tamper: Tamper,
    pub(crate) log: Log,
    ghost right: { 0 < length units.items → head_fault (head_in head) ≡ None },
    ghost devices: { 0 < length units.items → units.items ≡ units_of (head_in head) },
    ghost told: { 0 < length units.items → (image : List ℕ) → (S.state store).bytes ≡ Some image → head_in head ≡ head_of image },
    ghost held: { 0 < length units.items → (S.state store).length ≡ head.size },
}
