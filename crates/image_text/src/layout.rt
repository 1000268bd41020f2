//! What of each block a dump holds.

ghost use Rattle.std.specs.Prelude.{◌≡◌};
ghost use Rattle.rig_api.specs.Frames.{stored_size};
ghost use Rattle.image_text.specs.Dumps.{fits, piece_len};

use pi_tuple::{PiType, TUPLE};
use rig_api::{UnitSpec, stored_size};

/// What of each block a dump holds.
#[derive(Clone, Copy, Debug, PartialEq, Eq)]
pub enum Layout {
    /// All of it: its data, and its tuple where it has one.
    Interleaved,
    /// Its data.
    Plain,
    /// Its tuple.
    Tuples,
}

/// Whether units of a type have what the layout holds.
pub fn fits(layout: Layout, ty: PiType) -> bool
    ensures { result ≡ fits layout ty }
{
    match (layout, ty) {
        (Layout::Tuples, PiType::Zero) => false,
        _ => true,
    }
}

/// The bytes of a stored block.
pub(crate) fn stored_len(unit: UnitSpec) -> usize
    ensures { result ≡ stored_size unit.ty unit.size }
{
    stored_size(unit.ty, unit.size)
}

/// The bytes of a block's piece.
pub fn piece_len(layout: Layout, unit: UnitSpec) -> usize
    ensures { result ≡ piece_len layout unit.ty unit.size }
{
    match layout {
        Layout::Interleaved => stored_len(unit),
        Layout::Plain => unit.size as usize,
        Layout::Tuples => TUPLE,
    }
}
