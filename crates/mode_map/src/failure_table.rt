//! The text of the failures of a type.

ghost use Rattle.std.specs.Prelude.{◌≡◌, ◌++◌, IfOk, OnOk};
ghost use Rattle.mode_map.specs.declared.failures.Failure.TheVariants.{MisdirectedWrite};
ghost use Rattle.mode_map.specs.Failures.{AreFailuresFound};
ghost use Rattle.mode_map.specs.FailureTable.{by_dir, cell_text, cell_word, cells, conditions, disk_rows, failures_text, field_rows, field_text, flip_row, flip_rows, found_text, frame_rows, four_cells, four_modes, header, in_rows, kept_rows, medium_rows, misread_rows, mode_word, op_text, out_rows, pair, row, stray_rows, torn, turned, unread_rows, where_text, wire_rows};

use crate::failures::{Cell, Failure, Field, Link, Place, failure_cell};
use crate::finder::Seen;
use crate::modes::{mode_of, on_off, protect_text};
use bio_core::Dir;
use block_path::{Mode, host_type};
use fault_schedule::Crossing;
use pi_tuple::{PiType, has_ref_tag};
use std::alloc::{AllocError, Global};

fn by_dir(dir: Dir, read: &'static [u8], write: &'static [u8]) -> &'static [u8]
    ensures { result.now ≡ by_dir dir read.now write.now }
{
    match dir {
        Dir::Read => read,
        Dir::Write => write,
    }
}

fn found_text(layer: Seen, at: Dir) -> &'static [u8]
    ensures { result.now ≡ found_text layer at }
{
    match layer {
        Seen::Adapter => by_dir(at, b"adapter:read", b"adapter:write"),
        Seen::Target => by_dir(at, b"target:read", b"target:write"),
        Seen::Owner => by_dir(at, b"owner:read", b"owner:write"),
    }
}

fn cell_text(cell: Cell) -> &'static [u8]
    ensures { result.now ≡ cell_text cell }
{
    match cell {
        Cell::Found { layer, at } => found_text(layer, at),
        Cell::Medium(at) => by_dir(at, b"medium:read", b"medium:write"),
        Cell::Unseen => b"unseen",
        Cell::Where => b"where",
        Cell::NoTuple => b"-",
    }
}

/// Adds a mode in one word, behind a space.
fn add_mode(text: &mut Vec<u8>, mode: &Mode) -> Result<(), AllocError>
    ensures { OnOk result (text.new.items ≡ text.old.items ++ mode_word mode.now) }
{
    text.extend_from_slice(b" ")?;
    text.extend_from_slice(on_off(mode.dix))?;
    text.extend_from_slice(b"/")?;
    text.extend_from_slice(on_off(mode.dif))?;
    text.extend_from_slice(b"/")?;
    text.extend_from_slice(protect_text(mode))
}

fn add_four_modes(text: &mut Vec<u8>, dix: bool) -> Result<(), AllocError>
    ensures { OnOk result (text.new.items ≡ text.old.items ++ four_modes dix) }
{
    add_mode(text, &mode_of(dix, false, 1))?;
    add_mode(text, &mode_of(dix, true, 1))?;
    add_mode(text, &mode_of(dix, true, 3))?;
    add_mode(text, &mode_of(dix, true, 4))
}

/// Adds the line that names the modes.
fn add_header(text: &mut Vec<u8>) -> Result<(), AllocError>
    ensures { OnOk result (text.new.items ≡ text.old.items ++ header) }
{
    text.extend_from_slice(b"failure")?;
    add_four_modes(text, false)?;
    add_four_modes(text, true)?;
    text.extend_from_slice(b"\n")
}

/// Adds the word for a failure in a mode, behind a space.
fn add_cell(text: &mut Vec<u8>, failure: Failure, mode: &Mode, ty: PiType) -> Result<(), AllocError>
    ensures { OnOk result (text.new.items ≡ text.old.items ++ cell_word failure mode.now ty) }
{
    text.extend_from_slice(b" ")?;
    text.extend_from_slice(cell_text(failure_cell(failure, mode, ty)))
}

fn add_four_cells(
    text: &mut Vec<u8>,
    failure: Failure,
    dix: bool,
    ty: PiType,
) -> Result<(), AllocError>
    ensures { OnOk result (text.new.items ≡ text.old.items ++ four_cells failure dix ty) }
{
    add_cell(text, failure, &mode_of(dix, false, 1), ty)?;
    add_cell(text, failure, &mode_of(dix, true, 1), ty)?;
    add_cell(text, failure, &mode_of(dix, true, 3), ty)?;
    add_cell(text, failure, &mode_of(dix, true, 4), ty)
}

/// Adds the words for a failure in all modes, and ends the line.
fn add_cells(text: &mut Vec<u8>, failure: Failure, ty: PiType) -> Result<(), AllocError>
    ensures { OnOk result (text.new.items ≡ text.old.items ++ cells failure ty) }
{
    add_four_cells(text, failure, false, ty)?;
    add_four_cells(text, failure, true, ty)?;
    text.extend_from_slice(b"\n")
}

fn field_text(field: Field) -> &'static [u8]
    ensures { result.now ≡ field_text field }
{
    match field {
        Field::Data => b"data",
        Field::Guard => b"guard",
        Field::App => b"app",
        Field::Ref => b"ref",
    }
}

fn op_text(at: Crossing) -> &'static [u8]
    ensures { result.now ≡ op_text at }
{
    match at {
        Crossing::HostToAdapter | Crossing::AdapterToTarget | Crossing::TargetToMedium => b"write-",
        Crossing::MediumToTarget | Crossing::TargetToAdapter | Crossing::AdapterToHost => b"read-",
    }
}

fn where_text(at: Crossing) -> &'static [u8]
    ensures { result.now ≡ where_text at }
{
    match at {
        Crossing::HostToAdapter | Crossing::AdapterToHost => b"-host",
        Crossing::AdapterToTarget | Crossing::TargetToAdapter => b"-wire",
        Crossing::TargetToMedium | Crossing::MediumToTarget => b"-medium",
    }
}

/// Adds the line of a flip.
fn add_flip(text: &mut Vec<u8>, field: Field, at: Crossing, ty: PiType) -> Result<(), AllocError>
    ensures { OnOk result (text.new.items ≡ text.old.items ++ flip_row field at ty) }
{
    text.extend_from_slice(op_text(at))?;
    text.extend_from_slice(field_text(field))?;
    text.extend_from_slice(where_text(at))?;
    add_cells(text, Failure::Flip { field, at }, ty)
}

fn add_way_out(text: &mut Vec<u8>, field: Field, ty: PiType) -> Result<(), AllocError>
    ensures { OnOk result (text.new.items ≡ text.old.items ++ out_rows field ty) }
{
    add_flip(text, field, Crossing::HostToAdapter, ty)?;
    add_flip(text, field, Crossing::AdapterToTarget, ty)?;
    add_flip(text, field, Crossing::TargetToMedium, ty)
}

fn add_way_in(text: &mut Vec<u8>, field: Field, ty: PiType) -> Result<(), AllocError>
    ensures { OnOk result (text.new.items ≡ text.old.items ++ in_rows field ty) }
{
    add_flip(text, field, Crossing::MediumToTarget, ty)?;
    add_flip(text, field, Crossing::TargetToAdapter, ty)?;
    add_flip(text, field, Crossing::AdapterToHost, ty)
}

fn add_field(text: &mut Vec<u8>, field: Field, ty: PiType) -> Result<(), AllocError>
    ensures { OnOk result (text.new.items ≡ text.old.items ++ field_rows field ty) }
{
    add_way_out(text, field, ty)?;
    add_way_in(text, field, ty)
}

fn add_flips(text: &mut Vec<u8>, ty: PiType) -> Result<(), AllocError>
    ensures { OnOk result (text.new.items ≡ text.old.items ++ flip_rows ty) }
{
    add_field(text, Field::Data, ty)?;
    add_field(text, Field::Guard, ty)?;
    add_field(text, Field::App, ty)?;
    add_field(text, Field::Ref, ty)
}

/// Adds the line of a failure with this name.
fn add_row(text: &mut Vec<u8>, name: &[u8], failure: Failure, ty: PiType) -> Result<(), AllocError>
    ensures { OnOk result (text.new.items ≡ text.old.items ++ row name.now failure ty) }
{
    text.extend_from_slice(name)?;
    add_cells(text, failure, ty)
}

/// Adds two lines.
fn add_pair(
    text: &mut Vec<u8>,
    one: &[u8],
    first: Failure,
    other: &[u8],
    second: Failure,
    ty: PiType,
) -> Result<(), AllocError>
    ensures { OnOk result (text.new.items ≡ text.old.items ++ pair one.now first other.now second ty) }
{
    add_row(text, one, first, ty)?;
    add_row(text, other, second, ty)
}

fn written(link: Link, read: Place) -> Failure
    ensures { result ≡ MisdirectedWrite link read }
{
    Failure::MisdirectedWrite { link, read }
}

/// Adds the lines of misdirected reads.
fn add_misreads(text: &mut Vec<u8>, ty: PiType) -> Result<(), AllocError>
    ensures { OnOk result (text.new.items ≡ text.old.items ++ misread_rows ty) }
{
    add_pair(
        text,
        b"misread-wire",
        Failure::MisdirectedRead(Link::OnWire),
        b"misread-medium",
        Failure::MisdirectedRead(Link::OnMedium),
        ty,
    )
}

/// Adds the lines of writes that are misdirected on the wire.
fn add_wire(text: &mut Vec<u8>, ty: PiType) -> Result<(), AllocError>
    ensures { OnOk result (text.new.items ≡ text.old.items ++ wire_rows ty) }
{
    add_pair(
        text,
        b"miswrite-wire-home",
        written(Link::OnWire, Place::Home),
        b"miswrite-wire-hit",
        written(Link::OnWire, Place::Hit),
        ty,
    )
}

/// Adds the lines of those that are at the medium.
fn add_medium(text: &mut Vec<u8>, ty: PiType) -> Result<(), AllocError>
    ensures { OnOk result (text.new.items ≡ text.old.items ++ medium_rows ty) }
{
    add_pair(
        text,
        b"miswrite-medium-home",
        written(Link::OnMedium, Place::Home),
        b"miswrite-medium-hit",
        written(Link::OnMedium, Place::Hit),
        ty,
    )
}

/// Adds the lines of what goes astray.
fn add_strays(text: &mut Vec<u8>, ty: PiType) -> Result<(), AllocError>
    ensures { OnOk result (text.new.items ≡ text.old.items ++ stray_rows ty) }
{
    add_misreads(text, ty)?;
    add_wire(text, ty)?;
    add_medium(text, ty)
}

/// Adds the lines of writes that aren't kept whole.
fn add_kept(text: &mut Vec<u8>, ty: PiType) -> Result<(), AllocError>
    ensures { OnOk result (text.new.items ≡ text.old.items ++ kept_rows ty) }
{
    add_pair(text, b"lost", Failure::Lost, b"torn", Failure::Torn, ty)
}

/// Adds the lines of blocks that the medium fails.
fn add_unread(text: &mut Vec<u8>, ty: PiType) -> Result<(), AllocError>
    ensures { OnOk result (text.new.items ≡ text.old.items ++ unread_rows ty) }
{
    add_pair(
        text,
        b"unreadable-write",
        Failure::Unreadable(Dir::Write),
        b"unreadable-read",
        Failure::Unreadable(Dir::Read),
        ty,
    )
}

/// Adds the lines of frames that don't belong there.
fn add_frames(text: &mut Vec<u8>, ty: PiType) -> Result<(), AllocError>
    ensures { OnOk result (text.new.items ≡ text.old.items ++ frame_rows ty) }
{
    add_pair(
        text,
        b"other-block",
        Failure::OtherBlock,
        b"older-frame",
        Failure::OlderFrame,
        ty,
    )
}

/// Adds the lines of what a disk does.
fn add_disk(text: &mut Vec<u8>, ty: PiType) -> Result<(), AllocError>
    ensures { OnOk result (text.new.items ≡ text.old.items ++ disk_rows ty) }
{
    add_kept(text, ty)?;
    add_unread(text, ty)?;
    add_frames(text, ty)
}

fn turned_text(ty: PiType) -> &'static [u8]
    ensures { result.now ≡ turned ty }
{
    if has_ref_tag(host_type(ty)) {
        b"where read-ref-host: owner:read, but unseen where the flip turns the tag of the address into that of the virtual block\n"
    } else {
        b""
    }
}

fn torn_text(ty: PiType) -> &'static [u8]
    ensures { result.now ≡ torn ty }
{
    if ty == PiType::Zero {
        b""
    } else {
        b"where torn: as read-guard-medium where the guard that is left isn't that of the data that are left and the tuple that is left is no escape, else unseen\n"
    }
}

/// Adds a line for each condition that a cell names.
fn add_conditions(text: &mut Vec<u8>, ty: PiType) -> Result<(), AllocError>
    ensures { OnOk result (text.new.items ≡ text.old.items ++ conditions ty) }
{
    text.extend_from_slice(turned_text(ty))?;
    text.extend_from_slice(torn_text(ty))
}

/// The table of a type: a line with the eight modes, then one for each failure, with what it comes to in each mode:
/// `LAYER:OP` for the first layer that finds it, `medium:OP`, `unseen`, `where` if it depends, or `-` if no tuple
/// crosses there. Below it the conditions.
///
/// Of flips of the data, of misdirected reads, of writes that the medium misdirects, loses or fails, of torn ones whose guard
/// no longer fits, and of frames that don't belong in a place, each run comes to its cell (`found`). Of writes that are
/// misdirected on the wire, and of all torn ones, `each_other_failure_comes_to_its_cell` says so. The lines of flips in tuples
/// are computed from who asks for what; nothing is said of their runs.
pub fn failures_text(alloc: Global, ty: PiType) -> Result<Vec<u8>, AllocError>
    ensures text { IfOk result (λ v. v.items ≡ failures_text ty) }
    ensures found { AreFailuresFound }
{
    let mut text = Vec::new(alloc);
    add_header(&mut text)?;
    add_flips(&mut text, ty)?;
    add_strays(&mut text, ty)?;
    add_disk(&mut text, ty)?;
    add_conditions(&mut text, ty)?;
    Ok(text)
}
