//! Bytes written to parts that lie apart.

ghost use Rattle.std.specs.Prelude.{◌≡◌, ℕ, ◌++◌, ◌+◌, ◌-◌, ◌<◌, ◌≤◌, length, take, drop};
ghost use Rattle.pi_blocks.specs.Parts.{IsInside, StaySame, all_parts_mut, before_in, bytes_of_mut, first_of, left_in};
ghost use Rattle.pi_blocks.specs.Puts.{put_at};

use crate::PartMut;
use crate::parts::{Place, rest_of};

fn put(part: &mut PartMut, at: usize, piece: &[u8])
    requires { at + length piece.now ≤ length part.old.bytes.now }
    ensures there { part.new.bytes.ghost_name ≡ part.old.bytes.ghost_name }
    ensures put { part.new.bytes.now ≡ put_at at piece.now part.old.bytes.now }
    ensures long { length part.new.bytes.now ≡ length part.old.bytes.now }
{
    part.bytes[at..at + piece.len()].copy_from_slice(piece);
}

// Writes a piece into the part at the place.
fn put_in(parts: &mut [PartMut], place: Place, piece: &[u8])
    requires there { place.part < length parts.old }
    requires inside { place.at + length piece.now ≤ length (first_of bytes_of_mut (drop place.part parts.old)) }
    ensures front { take place.part parts.new ≡ take place.part parts.old }
    ensures put { first_of bytes_of_mut (drop place.part parts.new)
        ≡ put_at place.at piece.now (first_of bytes_of_mut (drop place.part parts.old)) }
    ensures rest { drop (place.part + 1) parts.new ≡ drop (place.part + 1) parts.old }
    ensures count { length parts.new ≡ length parts.old }
    ensures same { StaySame parts.old parts.new }
{
    put(&mut parts[place.part], place.at, piece);
}

// Writes the next of these bytes that lie in one part.
fn write_part(parts: &mut [PartMut], place: &mut Place, bytes: &[u8]) -> usize
    requires inside { IsInside bytes_of_mut parts.old place.old }
    requires some { 0 < length bytes.now }
    requires enough { length bytes.now ≤ length (left_in bytes_of_mut parts.old place.old) }
    ensures written { result ≤ length bytes.now }
    ensures before { before_in bytes_of_mut parts.new place.new
        ≡ before_in bytes_of_mut parts.old place.old ++ take result bytes.now }
    ensures inside { IsInside bytes_of_mut parts.new place.new }
    ensures left { left_in bytes_of_mut parts.new place.new ≡ drop result (left_in bytes_of_mut parts.old place.old) }
    ensures count { length parts.new ≡ length parts.old }
    ensures same { StaySame parts.old parts.new }
    ensures less { length bytes.now - result + (length parts.new - place.new.part)
        < length bytes.now + (length parts.old - place.old.part) }
{
    let room = rest_of(parts, *place).len();
    if bytes.len() < room {
        put_in(parts, *place, bytes);
        place.at += bytes.len();
        return bytes.len();
    }
    put_in(parts, *place, &bytes[..room]);
    place.part += 1;
    place.at = 0;
    room
}

/// Writes these bytes in the place of the next ones of the parts.
pub(crate) fn write_next(parts: &mut [PartMut], place: &mut Place, bytes: &[u8])
    requires inside { IsInside bytes_of_mut parts.old place.old }
    requires enough { length bytes.now ≤ length (left_in bytes_of_mut parts.old place.old) }
    ensures written { (at : ℕ) → at ≤ length (all_parts_mut parts.old)
        → left_in bytes_of_mut parts.old place.old ≡ drop at (all_parts_mut parts.old)
        → all_parts_mut parts.new ≡ put_at at bytes.now (all_parts_mut parts.old) }
    ensures inside { IsInside bytes_of_mut parts.new place.new }
    ensures left { left_in bytes_of_mut parts.new place.new
        ≡ drop (length bytes.now) (left_in bytes_of_mut parts.old place.old) }
    ensures same { StaySame parts.old parts.new }
{
    let mut done = 0;
    while done < bytes.len() {
        done += write_part(parts, place, &bytes[done..]);
    }
}
