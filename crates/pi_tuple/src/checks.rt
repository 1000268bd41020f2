//! Which tuples are checked, and what a check finds.

ghost use Rattle.std.specs.Prelude.{◌≡◌};
ghost use Rattle.pi_tuple.specs.Finds.{finding, has_ref_tag, is_escaped, own_tag};

use crate::{Tuple, ref_tag};

/// A unit's protection type (SBC-3, 4.22.2). `Zero` is a unit without protection.
#[derive(Clone, Copy, Debug, PartialEq, Eq)]
pub enum PiType {
    /// No protection information.
    Zero,
    /// Type 1: the reference tag is the low 32 bits of the block's LBA.
    One,
    /// Type 2: the command tells the reference tag.
    Two,
    /// Type 3: the reference tag isn't checked.
    Three,
}

/// What is asked of a tuple. The guard and the reference tag are checked where asked, the
/// application tag in the bits of the mask.
#[derive(Clone, Copy, Debug, PartialEq, Eq)]
pub struct Checks {
    /// Whether the guard is checked.
    pub guard: bool,
    /// Whether the reference tag is checked, in the types 1 and 2.
    pub rtag: bool,
    /// The application tag that is wanted.
    pub app: u16,
    /// The bits of the application tag that are checked; 0 checks none.
    pub mask: u16,
}

/// The check that found a difference. Sense data tell it by additional sense code 10h with the
/// qualifier 01h, 02h or 03h (SPC-4, "LOGICAL BLOCK GUARD CHECK FAILED" and its neighbours).
#[derive(Clone, Copy, Debug, PartialEq, Eq)]
pub enum Check {
    /// The guard isn't that of the data.
    Guard,
    /// The application tag isn't the one wanted, in the bits of the mask.
    AppTag,
    /// The reference tag isn't the one wanted.
    RefTag,
}

/// Whether the tuple says that the block isn't to be checked (SBC-3, 4.22.3): in the types 1 and
/// 2 where the application tag is FFFFh, in type 3 where the reference tag is FFFFFFFFh too.
pub fn is_escape(t: Tuple, ty: PiType) -> bool
    ensures { result ≡ is_escaped ty t }
{
    match ty {
        PiType::Zero => false,
        PiType::One | PiType::Two => t.app == 0xFFFF,
        PiType::Three => t.app == 0xFFFF && t.rtag == 0xFFFF_FFFF,
    }
}

/// Whether the reference tag binds a block to an LBA: in the types 1 and 2 (SBC-3, 4.22.2).
pub fn has_ref_tag(ty: PiType) -> bool
    ensures { result ≡ has_ref_tag ty }
{
    match ty {
        PiType::Zero | PiType::Three => false,
        PiType::One | PiType::Two => true,
    }
}

/// The reference tag that a tuple gets when it is made for the block at this LBA: that of the
/// LBA in the types 1 and 2, else 0.
pub fn own_tag(ty: PiType, lba: u64) -> u32
    ensures { result ≡ own_tag ty lba }
{
    if has_ref_tag(ty) { ref_tag(lba) } else { 0 }
}

/// The first check that finds a difference, in the order guard, application tag, reference tag,
/// or `None`. Nothing is found in type 0 and in an escape.
///
/// `data_guard` is the guard of the block's data, `want_ref` the reference tag that is wanted.
pub fn finds(ty: PiType, what: Checks, want_ref: u32, data_guard: u16, t: Tuple) -> Option<Check>
    ensures { result ≡ finding ty what want_ref data_guard t }
{
    if ty == PiType::Zero || is_escape(t, ty) {
        return None;
    }
    if what.guard && t.guard != data_guard {
        return Some(Check::Guard);
    }
    if t.app & what.mask != what.app & what.mask {
        return Some(Check::AppTag);
    }
    if what.rtag && has_ref_tag(ty) && t.rtag != want_ref {
        return Some(Check::RefTag);
    }
    None
}
