//! The bytes of a block: on the medium, and between host and target.

ghost use Rattle.std.specs.Prelude.{◌≡◌, ◌+◌, ◌≤◌};
ghost use Rattle.rig_api.specs.Frames.{sent_size, stored_size};

use pi_tuple::{PiType, TUPLE};

/// The bytes of a block on the medium: its data, and behind them its tuple where the unit is formatted with protection
/// (SBC-3, 4.22).
pub fn stored_size(ty: PiType, size: u32) -> usize
    ensures value { result ≡ stored_size ty size }
    ensures bound { result ≤ size + TUPLE }
{
    match ty {
        PiType::Zero => size as usize,
        PiType::One | PiType::Two | PiType::Three => size as usize + TUPLE,
    }
}

/// The bytes of a block between host and target: its data, and behind them its tuple under a protect field other
/// than 000b.
pub fn sent_size(protect: u8, size: u32) -> usize
    ensures value { result ≡ sent_size protect size }
    ensures bound { result ≤ size + TUPLE }
{
    let size = size as usize;
    if protect == 0 { size } else { size + TUPLE }
}
