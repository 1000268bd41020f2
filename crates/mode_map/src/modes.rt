//! The text of the modes of a type.

ghost use Rattle.std.specs.Prelude.{◌≡◌, ◌++◌, IfOk, OnOk, true};
ghost use Rattle.mode_map.specs.Finders.{AreFirstFinders, is_served};
ghost use Rattle.mode_map.specs.Modes.{four_lines, in_words, line, mode_of, mode_text, modes_text, on_off, out_words, protect_text, seen_text, word};

use crate::finder::{Seen, first_finder};
use block_path::Mode;
use fault_schedule::Crossing;
use pi_guard::GuardKind;
use pi_tuple::PiType;
use std::alloc::{AllocError, Global};

pub(crate) fn on_off(on: bool) -> &'static [u8]
    ensures { result.now ≡ on_off on }
{
    if on { b"on" } else { b"off" }
}

pub(crate) fn protect_text(mode: &Mode) -> &'static [u8]
    ensures { result.now ≡ protect_text mode.now }
{
    if !mode.dif {
        return b"-";
    }
    match mode.protect {
        1 => b"1",
        3 => b"3",
        _ => b"4",
    }
}

fn seen_text(seen: Option<Seen>) -> &'static [u8]
    ensures { result.now ≡ seen_text seen }
{
    match seen {
        Some(Seen::Adapter) => b"adapter",
        Some(Seen::Target) => b"target",
        Some(Seen::Owner) => b"owner",
        None => b"none",
    }
}

/// A mode whose host guard is the CRC and that expects no application tag.
pub(crate) fn mode_of(dix: bool, dif: bool, protect: u8) -> Mode
    ensures { result ≡ mode_of dix dif protect }
{
    Mode {
        kind: GuardKind::Crc,
        dix,
        dif,
        protect,
        app: 0,
        mask: 0,
    }
}

/// Adds the word for a crossing, behind a space.
fn add_word(text: &mut Vec<u8>, mode: &Mode, ty: PiType, at: Crossing) -> Result<(), AllocError>
    requires { is_served mode.now.protect ≡ true }
    ensures { OnOk result (text.new.items ≡ text.old.items ++ word mode.now ty at) }
{
    text.extend_from_slice(b" ")?;
    text.extend_from_slice(seen_text(first_finder(mode, ty, at)))
}

/// Adds what names a mode.
fn add_mode(text: &mut Vec<u8>, mode: &Mode) -> Result<(), AllocError>
    ensures { OnOk result (text.new.items ≡ text.old.items ++ mode_text mode.now) }
{
    text.extend_from_slice(on_off(mode.dix))?;
    text.extend_from_slice(b" ")?;
    text.extend_from_slice(on_off(mode.dif))?;
    text.extend_from_slice(b" ")?;
    text.extend_from_slice(protect_text(mode))
}

/// Adds the words for the crossings of a write.
fn add_way_out(text: &mut Vec<u8>, mode: &Mode, ty: PiType) -> Result<(), AllocError>
    requires { is_served mode.now.protect ≡ true }
    ensures { OnOk result (text.new.items ≡ text.old.items ++ out_words mode.now ty) }
{
    add_word(text, mode, ty, Crossing::HostToAdapter)?;
    add_word(text, mode, ty, Crossing::AdapterToTarget)?;
    add_word(text, mode, ty, Crossing::TargetToMedium)
}

/// Adds the words for the crossings of a read.
fn add_way_in(text: &mut Vec<u8>, mode: &Mode, ty: PiType) -> Result<(), AllocError>
    requires { is_served mode.now.protect ≡ true }
    ensures { OnOk result (text.new.items ≡ text.old.items ++ in_words mode.now ty) }
{
    add_word(text, mode, ty, Crossing::MediumToTarget)?;
    add_word(text, mode, ty, Crossing::TargetToAdapter)?;
    add_word(text, mode, ty, Crossing::AdapterToHost)
}

/// Adds the line of a mode.
fn add_line(text: &mut Vec<u8>, mode: &Mode, ty: PiType) -> Result<(), AllocError>
    requires { is_served mode.now.protect ≡ true }
    ensures { OnOk result (text.new.items ≡ text.old.items ++ line mode.now ty) }
{
    add_mode(text, mode)?;
    add_way_out(text, mode, ty)?;
    add_way_in(text, mode, ty)?;
    text.extend_from_slice(b"\n")
}

/// Adds the lines of the modes with or without tuples between host and adapter.
fn add_four(text: &mut Vec<u8>, dix: bool, ty: PiType) -> Result<(), AllocError>
    ensures { OnOk result (text.new.items ≡ text.old.items ++ four_lines dix ty) }
{
    add_line(text, &mode_of(dix, false, 1), ty)?;
    add_line(text, &mode_of(dix, true, 1), ty)?;
    add_line(text, &mode_of(dix, true, 3), ty)?;
    add_line(text, &mode_of(dix, true, 4), ty)
}

/// The eight lines of a type, `DIX DIF PROTECT` and the first finder at each crossing from the host
/// to the medium and back: `adapter`, `target`, `owner` or `none`. The protect field is `-` where no
/// tuple travels between adapter and target. Each is the first that finds a flip there.
pub fn modes_text(alloc: Global, ty: PiType) -> Result<Vec<u8>, AllocError>
    ensures text { IfOk result (λ v. v.items ≡ modes_text ty) }
    ensures first { AreFirstFinders ty }
{
    let mut text = Vec::new(alloc);
    add_four(&mut text, false, ty)?;
    add_four(&mut text, true, ty)?;
    Ok(text)
}
