//! The header of an image.

ghost use Rattle.std.specs.Prelude.{◌≡◌, ◌≤◌, ◌<◌, ◌+◌, ◌++◌, [], ◌∷◌, length};
ghost use Rattle.std.specs.Int.{to_be_bytes, w16};
ghost use Rattle.std.specs.List.{list_all};
ghost use Rattle.arrayvec.specs.ArrayVec.{array_vec_len};
ghost use Rattle.cdb_codec.specs.Decoded.{eight_at};
ghost use Rattle.rig_api.specs.Headers.{entry_1, entry_2, entry_of, exponent_of, entry_size, header, is_header, is_layout, is_spec, magic_of, most_blocks, number_of, spec_of, specs_in, type_of, version_of};

use crate::{MOST_LARGE, MOST_SMALL};
use arrayvec::ArrayVec;
use pi_tuple::PiType;

/// A unit, as it is ordered and as the header of an image tells it.
#[derive(Clone, Copy, Debug, PartialEq, Eq)]
pub struct UnitSpec {
    /// The protection type.
    pub ty: PiType,
    /// The number of blocks.
    pub blocks: u64,
    /// The bytes of data in a block: 512 or 4,096.
    pub size: u32,
    /// The LBA of the first block.
    pub first: u64,
}

impl Default for UnitSpec {
    /// No unit: what stands in the unused places of a list.
    fn default() -> UnitSpec {
        UnitSpec {
            ty: PiType::Zero,
            blocks: 0,
            size: 0,
            first: 0,
        }
    }
}

/// The version of an image.
#[derive(Clone, Copy, Debug, PartialEq, Eq)]
pub enum Version {
    /// Blocks of 512 bytes and first addresses of 0.
    First,
    /// Blocks of 512 or 4,096 bytes and any first address.
    Second,
}

fn magic(version: Version) -> [u8; 8]
    ensures { result ≡ magic_of version }
{
    match version {
        Version::First => *b"DIXIMG01",
        Version::Second => *b"DIXIMG02",
    }
}

/// The version that these bytes at the front of an image name, if one.
pub fn version_of(text: &[u8]) -> Option<Version>
    ensures { result ≡ version_of text.now }
{
    if text == magic(Version::First).as_slice() {
        return Some(Version::First);
    }
    if text == magic(Version::Second).as_slice() {
        return Some(Version::Second);
    }
    None
}

fn number_of(ty: PiType) -> u8
    ensures { result ≡ number_of ty }
{
    match ty {
        PiType::Zero => 0,
        PiType::One => 1,
        PiType::Two => 2,
        PiType::Three => 3,
    }
}

fn type_of(number: u8) -> PiType
    ensures { result ≡ type_of number }
{
    match number {
        0 => PiType::Zero,
        1 => PiType::One,
        2 => PiType::Two,
        _ => PiType::Three,
    }
}

fn append<const CAP: usize>(out: &mut ArrayVec<u8, CAP>, part: &[u8])
    requires { array_vec_len out.old + length part.now ≤ CAP }
    ensures items { out.new.items ≡ out.old.items ++ part.now }
    ensures len { array_vec_len out.new ≡ array_vec_len out.old + length part.now }
{
    match out.try_extend_from_slice(part) {
        Ok(()) => {}
        Err(_) => unreachable!(),
    }
}

fn first_entry(unit: UnitSpec) -> ArrayVec<u8, 32>
    ensures { result.items ≡ entry_1 unit }
{
    let mut out = ArrayVec::new();
    append(&mut out, &[number_of(unit.ty), 0, 0, 0, 0, 0, 0, 0]);
    append(&mut out, &unit.blocks.to_be_bytes());
    out
}

fn exponent_of(size: u32) -> u8
    ensures { result ≡ exponent_of size }
{
    if size == 512 { 9 } else { 12 }
}

fn second_entry(unit: UnitSpec) -> ArrayVec<u8, 32>
    ensures { result.items ≡ entry_2 unit }
{
    let mut out = ArrayVec::new();
    let exponent = exponent_of(unit.size);
    append(&mut out, &[number_of(unit.ty), exponent, 0, 0, 0, 0, 0, 0]);
    append(&mut out, &unit.blocks.to_be_bytes());
    append(&mut out, &unit.first.to_be_bytes());
    append(&mut out, &[0; 8]);
    out
}

fn entry(version: Version, unit: UnitSpec) -> ArrayVec<u8, 32>
    ensures { result.items ≡ entry_of version unit }
{
    match version {
        Version::First => first_entry(unit),
        Version::Second => second_entry(unit),
    }
}

/// The first 16 bytes of a header.
fn front(version: Version, count: u16) -> ArrayVec<u8, 512>
    ensures { result.items ≡ magic_of version ++ (to_be_bytes w16 count ++ (0 ∷ 0 ∷ 0 ∷ 0 ∷ 0 ∷ 0 ∷ [])) }
{
    let mut out = ArrayVec::new();
    append(&mut out, &magic(version));
    append(&mut out, &count.to_be_bytes());
    append(&mut out, &[0; 6]);
    out
}

/// The 512 bytes of the header of an image of these units, at most 8.
pub fn header(version: Version, units: &[UnitSpec]) -> ArrayVec<u8, 512>
    requires { length units.now ≤ 8 }
    ensures { result.items ≡ header version units.now }
{
    let mut out = front(version, units.len() as u16);
    for unit in units {
        append(&mut out, &entry(version, *unit));
    }
    let rest = 512 - out.len();
    append(&mut out, &[0; 512][..rest]);
    out
}

fn u64_at(bytes: &[u8], at: usize) -> u64
    requires { at + 8 ≤ length bytes.now }
    ensures { result ≡ eight_at bytes.now at }
{
    let [a0, a1, a2, a3] = [bytes[at], bytes[at + 1], bytes[at + 2], bytes[at + 3]];
    let [a4, a5, a6, a7] = [bytes[at + 4], bytes[at + 5], bytes[at + 6], bytes[at + 7]];
    u64::from_be_bytes([a0, a1, a2, a3, a4, a5, a6, a7])
}

fn spec_at(version: Version, entry: &[u8]) -> UnitSpec
    requires { entry_size version ≤ length entry.now }
    ensures { result ≡ spec_of version entry.now }
{
    let ty = type_of(entry[0]);
    let blocks = u64_at(entry, 8);
    match version {
        Version::First => UnitSpec {
            ty,
            blocks,
            size: 512,
            first: 0,
        },
        Version::Second => UnitSpec {
            ty,
            blocks,
            size: if entry[1] == 9 { 512 } else { 4096 },
            first: u64_at(entry, 16),
        },
    }
}

fn entry_size(version: Version) -> usize
    ensures { result ≡ entry_size version }
{
    match version {
        Version::First => 16,
        Version::Second => 32,
    }
}

fn add(units: &mut ArrayVec<UnitSpec, 8>, unit: UnitSpec)
    requires { array_vec_len units.old < 8 }
    ensures { units.new.items ≡ units.old.items ++ unit ∷ [] }
{
    match units.try_push(unit) {
        Ok(()) => {}
        Err(_) => unreachable!(),
    }
}

/// The units that a header tells: as many as it says, and at most 8.
pub fn specs_in(version: Version, first: &[u8]) -> ArrayVec<UnitSpec, 8>
    requires { length first.now ≡ 512 }
    ensures { result.items ≡ specs_in version first.now }
{
    let count = u16::from_be_bytes([first[8], first[9]]).min(8);
    let mut units = ArrayVec::new();
    let mut rest = &first[16..];
    for _ in 0..count {
        add(&mut units, spec_at(version, rest));
        let (_, more) = rest.split_at(entry_size(version));
        rest = more;
    }
    units
}

fn most_blocks(size: u32) -> u64
    ensures { result ≡ most_blocks size }
{
    match size {
        512 => MOST_SMALL,
        4096 => MOST_LARGE,
        _ => 0,
    }
}

/// Whether an image may have this unit: 1 to 65,536 blocks of 512 bytes, or 1 to 8,192 of 4,096,
/// and the first address and the blocks together at most 2^63.
pub fn is_spec(unit: UnitSpec) -> bool
    ensures { result ≡ is_spec unit }
{
    1 <= unit.blocks
        && unit.blocks <= most_blocks(unit.size)
        && unit.first as u128 + unit.blocks as u128 <= 0x8000_0000_0000_0000
}

fn are_specs(units: &[UnitSpec]) -> bool
    ensures { result ≡ list_all is_spec units.now }
{
    units.iter().all(|u| is_spec(*u))
}

/// Whether an image may have these units: 1 to 8 of them.
pub fn is_layout(units: &[UnitSpec]) -> bool
    ensures { result ≡ is_layout units.now }
{
    if units.is_empty() {
        return false;
    }
    if units.len() > 8 {
        return false;
    }
    are_specs(units)
}

/// Whether the bytes are a header of this version, with units that an image may have.
#[tactic(auto, unfolding(crate::specs::Headers::is_header))]
pub fn is_header(version: Version, first: &[u8]) -> bool
    requires { length first.now ≡ 512 }
    ensures { result ≡ is_header version first.now }
{
    let units = specs_in(version, first);
    is_layout(&units) && header(version, &units).as_slice() == first
}
