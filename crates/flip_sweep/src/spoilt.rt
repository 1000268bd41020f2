//! Stored blocks that are at fault, and wouldn't be otherwise.

ghost use Rattle.std.specs.Prelude.{◌≡◌, ◌+◌, ◌*◌, ◌<◌, ◌^◌, Some, None, length, true};
ghost use Rattle.image_text.specs.Passed.{stored_finding};
ghost use Rattle.rig_api.specs.Frames.{frames_of, stored_size};
ghost use Rattle.rig_api.specs.Headers.{all_bytes, bytes_of, is_layout, is_spec};
ghost use Rattle.rig_api.specs.Image.{units_from};
ghost use Rattle.rig_api.specs.Passing.{is_one};
ghost use Rattle.flip_sweep.specs.Verdicts.{first_spoilt, first_spoilt_from, new_finding};

use crate::verdict::Verdict;
use pi_guard::crc16;
use pi_tuple::{Check, Checks, PiType, TUPLE, Tuple, finds, ref_tag};
use rig_api::{UnitSpec, stored_size};

fn is_one(ty: PiType) -> bool
    ensures { result ≡ is_one ty }
{
    match ty {
        PiType::One => true,
        PiType::Zero | PiType::Two | PiType::Three => false,
    }
}

/// What a check of a block of a unit with tuples finds.
fn protected_finding(unit: UnitSpec, lba: u64, block: &[u8]) -> Option<Check>
    requires { length block.now ≡ unit.size + TUPLE }
    ensures { result ≡ stored_finding unit.ty unit.size lba block.now }
{
    let (data, behind) = block.split_at(unit.size as usize);
    let mut eight = [0; TUPLE];
    eight.copy_from_slice(behind);
    let checks = Checks {
        guard: true,
        rtag: is_one(unit.ty),
        app: 0,
        mask: 0,
    };
    finds(
        unit.ty,
        checks,
        ref_tag(lba),
        crc16(data),
        Tuple::from_bytes(&eight),
    )
}

/// What a check of a stored block finds.
fn stored_finding(unit: UnitSpec, lba: u64, block: &[u8]) -> Option<Check>
    requires { length block.now ≡ stored_size unit.ty unit.size }
    ensures { result ≡ stored_finding unit.ty unit.size lba block.now }
{
    match unit.ty {
        PiType::Zero => None,
        PiType::One | PiType::Two | PiType::Three => protected_finding(unit, lba, block),
    }
}

/// What a check finds of a block where it finds nothing of it otherwise. Where the block is the same there is nothing
/// to be looked at.
fn new_finding(unit: UnitSpec, lba: u64, was: &[u8], now: &[u8]) -> Option<Check>
    requires was { length was.now ≡ stored_size unit.ty unit.size }
    requires now { length now.now ≡ stored_size unit.ty unit.size }
    ensures { result ≡ new_finding unit.ty unit.size lba was.now now.now }
{
    if was == now {
        return None;
    }
    match stored_finding(unit, lba, was) {
        Some(_) => None,
        None => stored_finding(unit, lba, now),
    }
}

/// The first block of a unit that is at fault and isn't so otherwise, by the bytes of the unit's blocks.
fn first_in(dev: u32, unit: UnitSpec, was: &[u8], now: &[u8]) -> Option<Verdict>
    requires was { length was.now ≡ unit.blocks * stored_size unit.ty unit.size }
    requires now { length now.now ≡ unit.blocks * stored_size unit.ty unit.size }
    requires end { unit.first + unit.blocks < 2 ^ 64 }
    ensures { result ≡ first_spoilt_from unit.ty unit.size dev unit.first
        (frames_of (stored_size unit.ty unit.size) unit.blocks was.now) (frames_of (stored_size unit.ty unit.size) unit.blocks now.now) }
{
    let len = stored_size(unit.ty, unit.size);
    let mut lba = unit.first;
    let mut left = unit.blocks;
    let mut before = was;
    let mut rest = now;
    while left > 0 {
        let (one, behind) = before.split_at(len);
        let (other, more) = rest.split_at(len);
        if let Some(check) = new_finding(unit, lba, one, other) {
            return Some(Verdict::Scrub { dev, lba, check });
        }
        before = behind;
        rest = more;
        lba += 1;
        left -= 1;
    }
    None
}

/// The bytes of a unit's blocks.
fn bytes_of(unit: UnitSpec) -> usize
    requires { is_spec unit ≡ true }
    ensures { result ≡ bytes_of unit }
{
    unit.blocks as usize * stored_size(unit.ty, unit.size)
}

/// The first stored block of these units that is at fault and isn't so otherwise, by the bytes of all their blocks.
pub(crate) fn first_spoilt(units: &[UnitSpec], was: &[u8], now: &[u8]) -> Option<Verdict>
    requires layout { is_layout units.now ≡ true }
    requires was { length was.now ≡ all_bytes units.now }
    requires now { length now.now ≡ all_bytes units.now }
    ensures { result ≡ first_spoilt 0 (units_from units.now was.now) (units_from units.now now.now) }
{
    let mut dev = 0u32;
    let mut left = units;
    let mut before = was;
    let mut rest = now;
    while let Some((unit, others)) = left.split_first() {
        let bytes = bytes_of(*unit);
        let (one, behind) = before.split_at(bytes);
        let (other, more) = rest.split_at(bytes);
        if let Some(verdict) = first_in(dev, *unit, one, other) {
            return Some(verdict);
        }
        dev += 1;
        left = others;
        before = behind;
        rest = more;
    }
    None
}
