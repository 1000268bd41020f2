//! Pieces of a dump, taken from a source and made blocks.

ghost use Rattle.std.specs.Prelude.{◌≡◌, ◌+◌, ◌*◌, ◌^◌, ◌<◌, ◌≤◌, IfOk, List, OnErr, OnOk, ℕ, length, take, true};
ghost use Rattle.dix_base.specs.Told.{IsAtEnd, Rose, Took};
ghost use Rattle.rig_api.specs.Frames.{frames_of, joined, stored_size};
ghost use Rattle.rig_api.specs.Passing.{with_own_tuple};
ghost use Rattle.image_text.specs.Dumps.{fits, imported, imported_block, piece_len};

use crate::layout::{Layout, piece_len, stored_len};
use dix_base::{Failed, Source};
use pi_guard::crc16;
use pi_tuple::{PiType, make, own_tag};
use rig_api::{UnitSpec, put_tuple};

/// Takes bytes until `into` is full or the source at its end, and says how many came.
pub fn fill<S: Source>(source: &mut S, into: &mut [u8]) -> Result<usize, Failed>
    ensures bound { IfOk result (λ n. n ≤ length into.old) }
    ensures taken { IfOk result (λ n. Took (take n into.new) (S.left source.old) (S.left source.new)) }
    ensures end { IfOk result (λ n. n < length into.old → IsAtEnd (S.left source.new)) }
    ensures broken { OnErr result ((bytes : List ℕ) × Took bytes (S.left source.old) (S.left source.new)) }
    ensures calm { OnOk result (S.faults source.new ≡ S.faults source.old) }
    ensures cause { OnErr result (Rose (S.faults source.old) (S.faults source.new)) }
    ensures long { length into.new ≡ length into.old }
    ensures count { S.faults source.old ≤ S.faults source.new }
{
    let len = into.len();
    let mut got = 0;
    while got < len {
        let n = match source.take(&mut into[got..]) {
            Ok(n) => n,
            Err(Failed) => return Err(Failed),
        };
        if n == 0 {
            return Ok(got);
        }
        got += n;
    }
    Ok(got)
}

/// Puts plain data under a tuple of their own, where the unit has tuples.
fn put_plain(unit: UnitSpec, lba: u64, plain: &[u8], block: &mut [u8])
    requires plain { length plain.now ≡ unit.size }
    requires block { length block.old ≡ stored_size unit.ty unit.size }
    ensures { block.new ≡ with_own_tuple unit.ty lba plain.now }
{
    let size = unit.size as usize;
    block[..size].copy_from_slice(plain);
    if unit.ty == PiType::Zero {
        return;
    }
    put_tuple(block, size, make(crc16(plain), 0, own_tag(unit.ty, lba)));
}

/// Makes a block what is stored of a piece in its place.
fn put_piece(layout: Layout, unit: UnitSpec, lba: u64, piece: &[u8], block: &mut [u8])
    requires fits { fits layout unit.ty ≡ true }
    requires piece { length piece.now ≡ piece_len layout unit.ty unit.size }
    requires block { length block.old ≡ stored_size unit.ty unit.size }
    ensures { block.new ≡ imported_block layout unit.ty unit.size lba block.old piece.now }
{
    match layout {
        Layout::Interleaved => block.copy_from_slice(piece),
        Layout::Plain => put_plain(unit, lba, piece, block),
        Layout::Tuples => block[unit.size as usize..].copy_from_slice(piece),
    }
}

/// Makes so many blocks what is stored of as many pieces in their place. The first has this address.
pub(crate) fn put_pieces(
    layout: Layout,
    unit: UnitSpec,
    first: u64,
    count: u32,
    pieces: &[u8],
    blocks: &mut [u8],
)
    requires fits { fits layout unit.ty ≡ true }
    requires end { first + count < 2 ^ 64 }
    requires pieces { length pieces.now ≡ count * piece_len layout unit.ty unit.size }
    requires blocks { length blocks.old ≡ count * stored_size unit.ty unit.size }
    ensures { blocks.new ≡ joined (imported layout unit.ty unit.size first
        (frames_of (stored_size unit.ty unit.size) count blocks.old) (frames_of (piece_len layout unit.ty unit.size) count pieces.now)) }
{
    let len = stored_len(unit);
    let each = piece_len(layout, unit);
    let mut rest = pieces;
    let mut i = 0u32;
    while i < count {
        let (piece, more) = rest.split_at(each);
        let (_, behind) = blocks.split_at_mut(i as usize * len);
        let (block, _) = behind.split_at_mut(len);
        put_piece(layout, unit, first + i as u64, piece, block);
        rest = more;
        i += 1;
    }
}
