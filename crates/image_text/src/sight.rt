//! What a line says of a stored block.

ghost use Rattle.std.specs.Prelude.{◌≡◌, ◌+◌, ◌≤◌, ◌++◌, length};
ghost use Rattle.pi_tuple.specs.Finds.{is_zero};
ghost use Rattle.pi_tuple.specs.Tuples.{tuple_in};
ghost use Rattle.pi_guard.specs.Guards.{crc};
ghost use Rattle.rig_api.specs.Frames.{data_of, stored_size, tuple_of};
ghost use Rattle.rig_api.specs.Passing.{is_one};
ghost use Rattle.image_text.specs.Sights.{block_line, have_text, is_at_fault, is_unchecked, ref_text, sight_text, tuple_text, verdict_by, verdict_of, verdict_text, want_text};

use crate::line::add_hex;
use pi_guard::crc16;
use pi_tuple::{Check, Checks, PiType, TUPLE, Tuple, finds, is_escape, ref_tag};
use report_text::{Line, add, add_number};
use rig_api::UnitSpec;

/// What is found of a stored block.
#[derive(Clone, Copy, Debug, PartialEq, Eq)]
pub enum Verdict {
    /// Its unit has no tuples.
    NoTuple,
    /// Its tuple says that it isn't to be checked.
    Escape,
    /// This check finds it at fault.
    AtFault(Check),
    /// Nothing is found.
    Good,
}

/// A block under a tuple: its type, its address, the guard of its data, and the tuple.
#[derive(Clone, Copy)]
struct Protected {
    ty: PiType,
    lba: u64,
    guard: u16,
    tuple: Tuple,
}

fn is_one(ty: PiType) -> bool
    ensures { result ≡ is_one ty }
{
    match ty {
        PiType::One => true,
        PiType::Zero | PiType::Two | PiType::Three => false,
    }
}

pub(crate) fn is_zero(ty: PiType) -> bool
    ensures { result ≡ is_zero ty }
{
    match ty {
        PiType::Zero => true,
        PiType::One | PiType::Two | PiType::Three => false,
    }
}

pub(crate) fn tuple_in(eight: &[u8]) -> Tuple
    requires { length eight.now ≡ TUPLE }
    ensures { result ≡ tuple_in eight.now }
{
    let mut bytes = [0; TUPLE];
    bytes.copy_from_slice(eight);
    Tuple::from_bytes(&bytes)
}

/// What is found of a block under a tuple. The guard is checked, and in type 1 the reference tag.
fn verdict_by(block: Protected) -> Verdict
    ensures { result ≡ verdict_by block.ty block.lba block.guard block.tuple }
{
    if is_escape(block.tuple, block.ty) {
        return Verdict::Escape;
    }
    let checks = Checks {
        guard: true,
        rtag: is_one(block.ty),
        app: 0,
        mask: 0,
    };
    match finds(
        block.ty,
        checks,
        ref_tag(block.lba),
        block.guard,
        block.tuple,
    ) {
        None => Verdict::Good,
        Some(check) => Verdict::AtFault(check),
    }
}

/// Whether a block is at fault.
pub(crate) fn is_at_fault(verdict: Verdict) -> bool
    ensures { result ≡ is_at_fault verdict }
{
    match verdict {
        Verdict::AtFault(_) => true,
        Verdict::NoTuple | Verdict::Escape | Verdict::Good => false,
    }
}

/// Whether a block isn't checked: it has no tuple, or one that says so.
pub(crate) fn is_unchecked(verdict: Verdict) -> bool
    ensures { result ≡ is_unchecked verdict }
{
    match verdict {
        Verdict::NoTuple | Verdict::Escape => true,
        Verdict::AtFault(_) | Verdict::Good => false,
    }
}

fn verdict_text(verdict: Verdict) -> &'static [u8]
    ensures text { result.now ≡ verdict_text verdict }
    ensures short { length result.now ≤ 7 }
{
    match verdict {
        Verdict::NoTuple => b"none",
        Verdict::Escape => b"escape",
        Verdict::AtFault(Check::Guard) => b"guard",
        Verdict::AtFault(Check::AppTag) => b"apptag",
        Verdict::AtFault(Check::RefTag) => b"ref",
        Verdict::Good => b"ok",
    }
}

fn add_tuple(line: &mut Line, tuple: Tuple)
    requires { length line.old.items ≤ 256 }
    ensures items { line.new.items ≡ line.old.items ++ tuple_text tuple }
    ensures len { length line.new.items ≡ length line.old.items + 18 }
{
    add_hex(line, &tuple.guard.to_be_bytes());
    add(line, b" ");
    add_hex(line, &tuple.app.to_be_bytes());
    add(line, b" ");
    add_hex(line, &tuple.rtag.to_be_bytes());
}

/// The tuple that a block has, or none in type 0.
fn add_have(line: &mut Line, ty: PiType, tuple: Tuple)
    requires { length line.old.items ≤ 256 }
    ensures items { line.new.items ≡ line.old.items ++ have_text ty tuple }
    ensures bound { length line.new.items ≤ length line.old.items + 18 }
{
    if is_zero(ty) {
        add(line, b"- - -");
    } else {
        add_tuple(line, tuple);
    }
}

/// The wanted reference tag, in a type that wants one.
fn add_ref(line: &mut Line, ty: PiType, lba: u64)
    requires { length line.old.items ≤ 300 }
    ensures items { line.new.items ≡ line.old.items ++ ref_text ty lba }
    ensures bound { length line.new.items ≤ length line.old.items + 8 }
{
    if is_one(ty) {
        add_hex(line, &ref_tag(lba).to_be_bytes());
    } else {
        add(line, b"-");
    }
}

/// The guard and the reference tag that a block should have, or none in type 0.
fn add_want(line: &mut Line, ty: PiType, lba: u64, guard: u16)
    requires { length line.old.items ≤ 256 }
    ensures items { line.new.items ≡ line.old.items ++ want_text ty lba guard }
    ensures bound { length line.new.items ≤ length line.old.items + 13 }
{
    if is_zero(ty) {
        add(line, b"- -");
        return;
    }
    add_hex(line, &guard.to_be_bytes());
    add(line, b" ");
    add_ref(line, ty, lba);
}

/// What is told of a block under a tuple, and what is found of it.
fn add_protected(line: &mut Line, block: Protected) -> Verdict
    requires { length line.old.items ≤ 128 }
    ensures items { line.new.items ≡ line.old.items ++ sight_text block.ty block.lba block.guard block.tuple (verdict_by block.ty block.lba block.guard block.tuple) }
    ensures bound { length line.new.items ≤ length line.old.items + 64 }
    ensures verdict { result ≡ verdict_by block.ty block.lba block.guard block.tuple }
{
    let verdict = verdict_by(block);
    add(line, b"have ");
    add_have(line, block.ty, block.tuple);
    add(line, b" want ");
    add_want(line, block.ty, block.lba, block.guard);
    add(line, b" ");
    add(line, verdict_text(verdict));
    verdict
}

/// What is told of a stored block, and what is found of it.
fn add_sight(line: &mut Line, unit: UnitSpec, lba: u64, block: &[u8]) -> Verdict
    requires room { length line.old.items ≤ 128 }
    requires stored { length block.now ≡ stored_size unit.ty unit.size }
    ensures items { line.new.items ≡ line.old.items ++ sight_text unit.ty lba (crc (data_of unit.size block.now)) (tuple_of unit.size block.now) (verdict_of unit.ty unit.size lba block.now) }
    ensures bound { length line.new.items ≤ length line.old.items + 64 }
    ensures verdict { result ≡ verdict_of unit.ty unit.size lba block.now }
{
    if is_zero(unit.ty) {
        add(line, b"have - - - want - - none");
        return Verdict::NoTuple;
    }
    let (data, behind) = block.split_at(unit.size as usize);
    let block = Protected {
        ty: unit.ty,
        lba,
        guard: crc16(data),
        tuple: tuple_in(behind),
    };
    add_protected(line, block)
}

/// Puts the line of a stored block behind the line, and says what is found of the block.
pub fn add_block(line: &mut Line, dev: u32, unit: UnitSpec, lba: u64, block: &[u8]) -> Verdict
    requires room { length line.old.items ≤ 16 }
    requires stored { length block.now ≡ stored_size unit.ty unit.size }
    ensures items { line.new.items ≡ line.old.items ++ block_line dev unit.ty unit.size lba block.now }
    ensures verdict { result ≡ verdict_of unit.ty unit.size lba block.now }
{
    add_number(line, u64::from(dev));
    add(line, b" ");
    add_number(line, lba);
    add(line, b" ");
    let verdict = add_sight(line, unit, lba, block);
    add(line, b"\n");
    verdict
}
