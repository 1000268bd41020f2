//! A read: each block is asked on leg 0 if it is fresh there; if it isn't, or isn't delivered, on leg 1 if it is fresh
//! there.

ghost use Rattle.std.specs.Prelude.{◌≡◌, ◌*◌, [], ◌∷◌, IfOk, None, not, ◌&&◌, ◌||◌, if◌then◌else◌, is_none, is_some, length};
ghost use Rattle.mirror_volume.specs.Plans.{IsPieceOf};
ghost use Rattle.mirror_volume.specs.Running.{CanRun, HasRunOnLegs};
ghost use Rattle.mirror_volume.specs.Inner.{read_script};
ghost use Rattle.mirror_volume.specs.Asked.{AreOf, IsInside, IsReadOf, ReadOnBoth, bytes_after, first_listed, found_after, fresh_on0, last_listed, rest_wanted, stretches};

use crate::Piece;
use crate::legs::{Plan, read_piece};
use crate::stretches::stretches_of;
use bio_core::Why;
use mirror_laws::Marks;
use rig_api::Rig;
use std::alloc::{AllocError, Global};

/// What came of the blocks of a read so far.
#[derive(Drop)]
pub(crate) struct Came {
    /// Their data, with zeros where none were delivered.
    pub(crate) bytes: Vec<u8>,
    /// What was found of each when it was asked last.
    pub(crate) found: Vec<Option<Why>>,
}

/// Asks a stretch of blocks of a piece on its leg: `stretch` says the first one's place there, and how many there are.
fn ask_stretch<R: Rig>(
    alloc: Global,
    plan: &Plan,
    whole: Piece,
    stretch: (usize, usize),
    came: &mut Came,
    used: &mut usize,
    rig: &mut R,
) -> Result<(), AllocError>
    requires ready { CanRun plan.now used.old (R.state rig.old) }
    requires piece { IsPieceOf plan.now whole }
    requires stretch { IsInside whole.n stretch }
    requires found { length came.old.found.items ≡ whole.n }
    requires bytes { length came.old.bytes.items ≡ whole.n * plan.now.script.block }
    ensures ran { HasRunOnLegs plan.now used.old used.new (R.state rig.old) (R.state rig.new) (IsReadOf plan.now.script plan.now.half whole)
        (λ runs. IfOk result (λ u. AreOf (read_script plan.now.script plan.now.half) whole (stretch ∷ []) runs
        × ((came.new.found.items ≡ found_after (stretch ∷ []) runs came.old.found.items) × (came.new.bytes.items ≡ bytes_after plan.now.script.block (stretch ∷ []) runs came.old.bytes.items)))) }
    ensures ready { CanRun plan.now used.new (R.state rig.new) }
    ensures found { length came.new.found.items ≡ length came.old.found.items }
    ensures bytes { length came.new.bytes.items ≡ length came.old.bytes.items }
{
    let (start, n) = stretch;
    let piece = Piece {
        first: whole.first + start as u32,
        n: n as u32,
        v: whole.v + start as u64,
        ..whole
    };
    let size = plan.script.block as usize;
    let at = start * size;
    let bytes = &mut came.bytes[at..at + n * size];
    let found = &mut came.found[start..start + n];
    read_piece(alloc, plan, piece, bytes, found, used, rig)?;
    Ok(())
}

/// Asks the wanted blocks of a piece on its leg, stretch by stretch.
fn ask<R: Rig>(
    alloc: Global,
    plan: &Plan,
    whole: Piece,
    wanted: &[bool],
    came: &mut Came,
    used: &mut usize,
    rig: &mut R,
) -> Result<(), AllocError>
    requires ready { CanRun plan.now used.old (R.state rig.old) }
    requires piece { IsPieceOf plan.now whole }
    requires wanted { length wanted.now ≡ whole.n }
    requires found { length came.old.found.items ≡ whole.n }
    requires bytes { length came.old.bytes.items ≡ whole.n * plan.now.script.block }
    ensures ran { HasRunOnLegs plan.now used.old used.new (R.state rig.old) (R.state rig.new) (IsReadOf plan.now.script plan.now.half whole)
        (λ runs. IfOk result (λ u. AreOf (read_script plan.now.script plan.now.half) whole (stretches wanted.now) runs
        × ((came.new.found.items ≡ found_after (stretches wanted.now) runs came.old.found.items)
        × (came.new.bytes.items ≡ bytes_after plan.now.script.block (stretches wanted.now) runs came.old.bytes.items)))) }
    ensures ready { CanRun plan.now used.new (R.state rig.new) }
    ensures found { length came.new.found.items ≡ length came.old.found.items }
    ensures bytes { length came.new.bytes.items ≡ length came.old.bytes.items }
{
    let parts = stretches_of(alloc, wanted)?;
    for i in 0..parts.len() {
        ask_stretch(alloc, plan, whole, parts[i], came, used, rig)?;
    }
    Ok(())
}

/// Which blocks are fresh on leg 0.
pub(crate) fn fresh(alloc: Global, marks: &[Marks]) -> Result<Vec<bool>, AllocError>
    ensures { IfOk result (λ v. v.items ≡ fresh_on0 marks.now) }
{
    marks.iter().map(|k| k.leg0).collect(alloc)
}

/// What a block is listed with after leg 0 was asked.
fn listed_first(mark: Marks, why: Option<Why>) -> Option<Why>
    ensures { result ≡ (if mark.leg0 then why else None) }
{
    if mark.leg0 { why } else { None }
}

/// What leg 0 found of the blocks that are fresh there.
fn first_listed(
    alloc: Global,
    marks: &[Marks],
    found: &[Option<Why>],
) -> Result<Vec<Option<Why>>, AllocError>
    requires { length found.now ≡ length marks.now }
    ensures { IfOk result (λ v. v.items ≡ first_listed marks.now found.now) }
{
    let mut listed = Vec::with_capacity(alloc, marks.len())?;
    for i in 0..marks.len() {
        listed.push(listed_first(marks[i], found[i]))?;
    }
    Ok(listed)
}

/// Whether leg 1 is asked for a block, by its mark and by what leg 0 found of it.
fn is_left(mark: Marks, why: Option<Why>) -> bool
    ensures { result ≡ (mark.leg1 && (not mark.leg0 || is_some why)) }
{
    mark.leg1 && (!mark.leg0 || why.is_some())
}

/// Which blocks leg 1 is asked for: those that are fresh there, and stale on leg 0 or not delivered by it.
fn rest(alloc: Global, marks: &[Marks], found: &[Option<Why>]) -> Result<Vec<bool>, AllocError>
    requires { length found.now ≡ length marks.now }
    ensures { IfOk result (λ v. v.items ≡ rest_wanted marks.now found.now) }
{
    let mut wanted = Vec::with_capacity(alloc, marks.len())?;
    for i in 0..marks.len() {
        wanted.push(is_left(marks[i], found[i]))?;
    }
    Ok(wanted)
}

/// What a block is listed with after leg 1 was asked for it, if it was wanted there.
fn listed_last(mark: Marks, is_wanted: bool, old: Option<Why>, why: Option<Why>) -> Option<Why>
    ensures { result ≡ (if is_wanted && (not mark.leg0 || is_none why) then why else old) }
{
    if is_wanted && (!mark.leg0 || why.is_none()) {
        why
    } else {
        old
    }
}

/// Takes what leg 1 found: what it delivers isn't listed any more, and what it alone was asked for is listed with its
/// finding.
fn list_last(marks: &[Marks], wanted: &[bool], listed: &mut [Option<Why>], found: &[Option<Why>])
    requires wanted { length wanted.now ≡ length marks.now }
    requires listed { length listed.old ≡ length marks.now }
    requires found { length found.now ≡ length marks.now }
    ensures { listed.new ≡ last_listed marks.now wanted.now listed.old found.now }
{
    for i in 0..marks.len() {
        listed[i] = listed_last(marks[i], wanted[i], listed[i], found[i]);
    }
}

/// Reads the blocks of a piece on leg 0, which have these marks, and where that isn't enough on leg 1. Answers what each
/// block is listed with, and the data.
pub(crate) fn read_blocks<R: Rig>(
    alloc: Global,
    plan: &Plan,
    marks: &[Marks],
    on0: Piece,
    used: &mut usize,
    rig: &mut R,
) -> Result<(Vec<Option<Why>>, Vec<u8>), AllocError>
    requires ready { CanRun plan.now used.old (R.state rig.old) }
    requires piece { IsPieceOf plan.now on0 }
    requires marks { length marks.now ≡ on0.n }
    ensures ran { HasRunOnLegs plan.now used.old used.new (R.state rig.old) (R.state rig.new) (IsReadOf plan.now.script plan.now.half on0)
        (λ runs. IfOk result (λ v. ReadOnBoth plan.now.script plan.now.half on0 marks.now runs v.0.items v.1.items)) }
    ensures ready { CanRun plan.now used.new (R.state rig.new) }
    ensures listed { IfOk result (λ v. length v.0.items ≡ on0.n) }
    ensures bytes { IfOk result (λ v. length v.1.items ≡ on0.n * plan.now.script.block) }
{
    let n = on0.n as usize;
    let mut came = Came {
        bytes: vec![in alloc; 0u8; n * plan.script.block as usize]?,
        found: vec![in alloc; None; n]?,
    };
    let wanted = fresh(alloc, marks)?;
    ask(alloc, plan, on0, &wanted, &mut came, used, rig)?;
    let mut listed = first_listed(alloc, marks, &came.found)?;
    let wanted = rest(alloc, marks, &came.found)?;
    let on1 = Piece { on1: true, ..on0 };
    ask(alloc, plan, on1, &wanted, &mut came, used, rig)?;
    list_last(marks, &wanted, &mut listed, &came.found);
    Ok((listed, came.bytes))
}
