//! The repair of a mirror, after its script: where just one leg of a block is good, its data and its application tag
//! are written to the other one.

ghost use Rattle.std.specs.Prelude.{◌≡◌, ◌<◌, ◌≤◌, ◌+◌, ◌*◌, ◌^◌, ◌&&◌, [], ◌∷◌, IfOk, drop, get_or, None, is_none, length, take};
ghost use Rattle.mirror_volume.specs.LegRuns.{OneRun, found_by, replies_of};
ghost use Rattle.mirror_volume.specs.Plans.{IsPieceOf, IsStretchOf};
ghost use Rattle.mirror_volume.specs.Running.{CanRun, HasRunOnLegs};
ghost use Rattle.pi_tuple.specs.Tuples.{tuple_in};
ghost use Rattle.mirror_volume.specs.Inner.{read_pi_script, write_script};
ghost use Rattle.mirror_volume.specs.Asked.{AreOf, IsInside, stretches};
ghost use Rattle.mirror_volume.specs.Helds.{AreHeld, IsAfter, IsHeldByLeg, IsSeen, goods_in, so_far};
ghost use Rattle.mirror_volume.specs.Mending.{IsRepairOf, MendsBy, StretchBy, delivered, fresh_on1, looked, need_by, needs_by};

use crate::Piece;
use crate::legs::{Plan, read_pi_piece, write_piece};
use crate::reading::fresh;
use crate::stretches::stretches_of;
use bio_core::Why;
use mirror_laws::Marks;
use pi_tuple::TUPLE;
use rig_api::Rig;
use std::alloc::{AllocError, Global};

/// How many blocks are looked at in one go.
pub(crate) const STRETCH: u64 = 128;

/// What a repair did: how many blocks were repaired, and of how many no leg is good.
#[derive(Clone, Copy, Debug, PartialEq, Eq)]
pub struct Repair {
    /// Blocks that were written to one leg from the other.
    pub repaired: u32,
    /// Blocks of which no leg is good.
    pub lost: u32,
}

/// What a leg has of a stretch of blocks.
#[derive(Drop)]
struct Held {
    bytes: Vec<u8>,
    tuples: Vec<u8>,
    /// Which blocks are fresh there and were delivered.
    good: Vec<bool>,
}

/// The application tag of block i, in its tuple.
fn tag_of(tuples: &[u8], i: usize) -> u16
    requires { TUPLE * i + TUPLE ≤ length tuples.now }
    ensures { result ≡ (tuple_in (drop (TUPLE * i) tuples.now)).app }
{
    u16::from_be_bytes([tuples[TUPLE * i + 2], tuples[TUPLE * i + 3]])
}

/// Whether a block is wanted and has nothing found of it.
fn is_delivered(is_wanted: bool, why: Option<Why>) -> bool
    ensures { result ≡ (is_wanted && is_none why) }
{
    is_wanted && why.is_none()
}

/// Which blocks are wanted and have nothing found of them.
fn delivered(alloc: Global, wanted: &[bool], found: &[Option<Why>]) -> Result<Vec<bool>, AllocError>
    requires { length found.now ≡ length wanted.now }
    ensures { IfOk result (λ v. v.items ≡ delivered wanted.now found.now) }
{
    let mut good = Vec::with_capacity(alloc, wanted.len())?;
    for i in 0..wanted.len() {
        good.push(is_delivered(wanted[i], found[i]))?;
    }
    Ok(good)
}

/// What came of the blocks of a stretch so far.
#[derive(Drop)]
struct Seen {
    /// Their data, with zeros where none were delivered.
    bytes: Vec<u8>,
    /// Their tuples, with zeros where none were delivered.
    tuples: Vec<u8>,
    /// What was found of each when it was read.
    found: Vec<Option<Why>>,
}

/// Reads some blocks of a stretch on its leg, with their tuples: `part` says the first one's place, and how many there
/// are.
fn look_at_part<R: Rig>(
    alloc: Global,
    plan: &Plan,
    whole: Piece,
    part: (usize, usize),
    seen: &mut Seen,
    used: &mut usize,
    rig: &mut R,
) -> Result<(), AllocError>
    requires ready { CanRun plan.now used.old (R.state rig.old) }
    requires piece { IsPieceOf plan.now whole }
    requires short { whole.n ≤ 128 }
    requires repair { whole.op ≡ 0 }
    requires part { IsInside whole.n part }
    requires seen { IsSeen plan.now.script.block whole.n seen.old }
    ensures ran { HasRunOnLegs plan.now used.old used.new (R.state rig.old) (R.state rig.new) (IsRepairOf plan.now.script plan.now.half)
        (λ runs. IfOk result (λ u. AreOf (read_pi_script plan.now.script plan.now.half) whole (part ∷ []) runs
        × IsAfter plan.now.script.block (part ∷ []) runs seen.old seen.new)) }
    ensures ready { CanRun plan.now used.new (R.state rig.new) }
    ensures seen { IsSeen plan.now.script.block whole.n seen.new }
{
    let (start, n) = part;
    let piece = Piece {
        first: whole.first + start as u32,
        n: n as u32,
        v: whole.v + start as u64,
        ..whole
    };
    let size = plan.script.block as usize;
    let at = start * size;
    let bytes = &mut seen.bytes[at..at + n * size];
    let tuples = &mut seen.tuples[start * TUPLE..start * TUPLE + n * TUPLE];
    let found = &mut seen.found[start..start + n];
    read_pi_piece(alloc, plan, piece, bytes, tuples, found, used, rig)?;
    Ok(())
}

/// Reads the wanted blocks of a stretch on its leg, with their tuples, part by part.
fn look_at_parts<R: Rig>(
    alloc: Global,
    plan: &Plan,
    whole: Piece,
    wanted: &[bool],
    seen: &mut Seen,
    used: &mut usize,
    rig: &mut R,
) -> Result<(), AllocError>
    requires ready { CanRun plan.now used.old (R.state rig.old) }
    requires piece { IsPieceOf plan.now whole }
    requires short { whole.n ≤ 128 }
    requires repair { whole.op ≡ 0 }
    requires wanted { length wanted.now ≡ whole.n }
    requires seen { IsSeen plan.now.script.block whole.n seen.old }
    ensures ran { HasRunOnLegs plan.now used.old used.new (R.state rig.old) (R.state rig.new) (IsRepairOf plan.now.script plan.now.half)
        (λ runs. IfOk result (λ u. AreOf (read_pi_script plan.now.script plan.now.half) whole (stretches wanted.now) runs
        × IsAfter plan.now.script.block (stretches wanted.now) runs seen.old seen.new)) }
    ensures ready { CanRun plan.now used.new (R.state rig.new) }
    ensures seen { IsSeen plan.now.script.block whole.n seen.new }
{
    let parts = stretches_of(alloc, wanted)?;
    for i in 0..parts.len() {
        look_at_part(alloc, plan, whole, parts[i], seen, used, rig)?;
    }
    Ok(())
}

/// Reads the wanted blocks of a stretch on a leg, with their tuples.
fn look<R: Rig>(
    alloc: Global,
    plan: &Plan,
    whole: Piece,
    wanted: &[bool],
    used: &mut usize,
    rig: &mut R,
) -> Result<Held, AllocError>
    requires ready { CanRun plan.now used.old (R.state rig.old) }
    requires piece { IsPieceOf plan.now whole }
    requires short { whole.n ≤ 128 }
    requires repair { whole.op ≡ 0 }
    requires wanted { length wanted.now ≡ whole.n }
    ensures ran { HasRunOnLegs plan.now used.old used.new (R.state rig.old) (R.state rig.new) (IsRepairOf plan.now.script plan.now.half)
        (λ runs. IfOk result (λ h. AreOf (read_pi_script plan.now.script plan.now.half) whole (stretches wanted.now) runs
        × (goods_in plan.now.script.block h ≡ looked plan.now.script.block whole.n wanted.now runs))) }
    ensures ready { CanRun plan.now used.new (R.state rig.new) }
    ensures held { IfOk result (λ h. IsHeldByLeg plan.now.script.block whole.n h) }
{
    let count = whole.n as usize;
    let mut seen = Seen {
        bytes: vec![in alloc; 0u8; count * plan.script.block as usize]?,
        tuples: vec![in alloc; 0u8; count * TUPLE]?,
        found: vec![in alloc; None; count]?,
    };
    look_at_parts(alloc, plan, whole, wanted, &mut seen, used, rig)?;
    let good = delivered(alloc, wanted, &seen.found)?;
    Ok(Held {
        bytes: seen.bytes,
        tuples: seen.tuples,
        good,
    })
}

/// Writes block i of a stretch, as one leg has it, to the other leg. Says whether it is accepted.
fn mend<R: Rig>(
    alloc: Global,
    plan: &Plan,
    whole: Piece,
    i: usize,
    from: &Held,
    used: &mut usize,
    rig: &mut R,
) -> Result<bool, AllocError>
    requires ready { CanRun plan.now used.old (R.state rig.old) }
    requires piece { IsPieceOf plan.now whole }
    requires repair { whole.op ≡ 0 }
    requires block { i < whole.n }
    requires held { IsHeldByLeg plan.now.script.block whole.n from.now }
    ensures ran { HasRunOnLegs plan.now used.old used.new (R.state rig.old) (R.state rig.new) (IsRepairOf plan.now.script plan.now.half)
        (λ runs. IfOk result (λ is_accepted. OneRun (write_script plan.now.script plan.now.half (record whole { n = 1; v = whole.v + i })
        (tuple_in (drop (TUPLE * i) from.now.tuples.items)).app (take plan.now.script.block (drop (i * plan.now.script.block) from.now.bytes.items)))
        (λ r. is_accepted ≡ is_none (get_or (found_by 1 (replies_of r)) 0 None)) runs)) }
    ensures ready { CanRun plan.now used.new (R.state rig.new) }
{
    let size = plan.script.block as usize;
    let piece = Piece {
        n: 1,
        v: whole.v + i as u64,
        ..whole
    };
    let mut found = [None; 1];
    let bytes = &from.bytes[i * size..(i + 1) * size];
    let app = tag_of(&from.tuples, i);
    write_piece(alloc, plan, piece, app, bytes, &mut found, used, rig)?;
    Ok(found[0].is_none())
}

/// Mends block i of a stretch, whose marks are that of block `whole.v + i`, by what both legs have of it.
fn mend_block<R: Rig>(
    alloc: Global,
    plan: &Plan,
    marks: &mut [Marks],
    whole: Piece,
    i: usize,
    held0: &Held,
    held1: &Held,
    done: &mut Repair,
    used: &mut usize,
    rig: &mut R,
) -> Result<(), AllocError>
    requires ready { CanRun plan.now used.old (R.state rig.old) }
    requires stretch { IsStretchOf plan.now whole }
    requires block { i < whole.n }
    requires marks { length marks.old ≡ plan.now.half }
    requires held { AreHeld plan.now.script.block whole.n held0.now held1.now }
    requires few { done.old.repaired + (done.old.lost + 1) < 2 ^ 32 }
    ensures ran { HasRunOnLegs plan.now used.old used.new (R.state rig.old) (R.state rig.new) (IsRepairOf plan.now.script plan.now.half)
        (λ runs. IfOk result (λ u. MendsBy plan.now.script plan.now.half whole.n (whole.v + i)
        (need_by (get_or (goods_in plan.now.script.block held0.now) i None) (get_or (goods_in plan.now.script.block held1.now) i None) ∷ [])
        (so_far marks.old done.old) (so_far marks.new done.new) runs)) }
    ensures ready { CanRun plan.now used.new (R.state rig.new) }
    ensures marks { length marks.new ≡ length marks.old }
    ensures few { IfOk result (λ u. done.new.repaired + done.new.lost ≤ done.old.repaired + (done.old.lost + 1)) }
{
    let at = whole.v as usize + i;
    match (held0.good[i], held1.good[i]) {
        (true, true) => Ok(()),
        (false, false) => {
            done.lost += 1;
            Ok(())
        }
        (true, false) => {
            let on1 = Piece { on1: true, ..whole };
            let is_accepted = mend(alloc, plan, on1, i, held0, used, rig)?;
            marks[at].leg1 = is_accepted;
            done.repaired += u32::from(is_accepted);
            Ok(())
        }
        (false, true) => {
            let is_accepted = mend(alloc, plan, whole, i, held1, used, rig)?;
            marks[at].leg0 = is_accepted;
            done.repaired += u32::from(is_accepted);
            Ok(())
        }
    }
}

/// Mends the blocks of a stretch, one after another, by what both legs have of them.
fn mend_all<R: Rig>(
    alloc: Global,
    plan: &Plan,
    marks: &mut [Marks],
    whole: Piece,
    held0: &Held,
    held1: &Held,
    done: &mut Repair,
    used: &mut usize,
    rig: &mut R,
) -> Result<(), AllocError>
    requires ready { CanRun plan.now used.old (R.state rig.old) }
    requires stretch { IsStretchOf plan.now whole }
    requires marks { length marks.old ≡ plan.now.half }
    requires held { AreHeld plan.now.script.block whole.n held0.now held1.now }
    requires few { done.old.repaired + (done.old.lost + whole.n) < 2 ^ 32 }
    ensures ran { HasRunOnLegs plan.now used.old used.new (R.state rig.old) (R.state rig.new) (IsRepairOf plan.now.script plan.now.half)
        (λ runs. IfOk result (λ u. MendsBy plan.now.script plan.now.half whole.n whole.v (needs_by (goods_in plan.now.script.block held0.now) (goods_in plan.now.script.block held1.now))
        (so_far marks.old done.old) (so_far marks.new done.new) runs)) }
    ensures ready { CanRun plan.now used.new (R.state rig.new) }
    ensures marks { length marks.new ≡ length marks.old }
    ensures few { IfOk result (λ u. done.new.repaired + done.new.lost ≤ done.old.repaired + (done.old.lost + whole.n)) }
{
    for i in 0..whole.n as usize {
        mend_block(alloc, plan, marks, whole, i, held0, held1, done, used, rig)?;
    }
    Ok(())
}

/// Which blocks are fresh on leg 1.
fn fresh_on1(alloc: Global, marks: &[Marks]) -> Result<Vec<bool>, AllocError>
    ensures { IfOk result (λ v. v.items ≡ fresh_on1 marks.now) }
{
    marks.iter().map(|k| k.leg1).collect(alloc)
}

/// Repairs a stretch of blocks, `whole` on leg 0.
pub(crate) fn repair_stretch<R: Rig>(
    alloc: Global,
    plan: &Plan,
    marks: &mut [Marks],
    whole: Piece,
    done: &mut Repair,
    used: &mut usize,
    rig: &mut R,
) -> Result<(), AllocError>
    requires ready { CanRun plan.now used.old (R.state rig.old) }
    requires stretch { IsStretchOf plan.now whole }
    requires short { whole.n ≤ 128 }
    requires marks { length marks.old ≡ plan.now.half }
    requires few { done.old.repaired + (done.old.lost + whole.n) < 2 ^ 32 }
    ensures ran { HasRunOnLegs plan.now used.old used.new (R.state rig.old) (R.state rig.new) (IsRepairOf plan.now.script plan.now.half)
        (λ runs. IfOk result (λ u. StretchBy plan.now.script plan.now.half whole.v whole.n
        (so_far marks.old done.old) (so_far marks.new done.new) runs)) }
    ensures ready { CanRun plan.now used.new (R.state rig.new) }
    ensures marks { length marks.new ≡ length marks.old }
    ensures few { IfOk result (λ u. done.new.repaired + done.new.lost ≤ done.old.repaired + (done.old.lost + whole.n)) }
{
    let first = whole.v as usize;
    let ours = &marks[first..first + whole.n as usize];
    let wanted0 = fresh(alloc, ours)?;
    let wanted1 = fresh_on1(alloc, ours)?;
    let held0 = look(alloc, plan, whole, &wanted0, used, rig)?;
    let on1 = Piece { on1: true, ..whole };
    let held1 = look(alloc, plan, on1, &wanted1, used, rig)?;
    mend_all(alloc, plan, marks, whole, &held0, &held1, done, used, rig)
}
