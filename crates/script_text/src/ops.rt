//! Ops in place of their lines, where these keep the rules on counts, segments and alterations.

ghost use Rattle.std.specs.Prelude.{All, ◌++◌, ◌≡◌, ℕ, ◌⊎◌, ◌≤◌, IfErr, IfOk, MatchResult, Ok, false, length, nat_lt, not, true};
ghost use Rattle.page_pool.specs.Places.{places_in};
ghost use Rattle.page_pool.specs.Walking.{InPages};
ghost use Rattle.script_lines.specs.declared.kind.ScriptKind.{ScriptKind};
ghost use Rattle.script_lines.specs.declared.line.OpLine.{OpLine};
ghost use Rattle.script_lines.specs.Reading.{IsUnless};
ghost use Rattle.stack_ops.specs.Passed.{IsSound};
ghost use Rattle.script_text.specs.Ops.{are_tuples, both_fault, data_fault, is_body, op_in};
ghost use Rattle.script_text.specs.Rules.{IsUnlessBroken, IsUnlessFault};
ghost use Rattle.script_text.specs.Segments.{are_inside, do_overlap, is_inside};
ghost use Rattle.pi_tuple.specs.declared.TheConstants.{LARGEST_BLOCK};

use crate::rules::{is_bad_flip, is_count};
use crate::segments::{are_few_each, are_inside, are_whole_tuples, do_overlap, is_inside, sg_list};
use dix_base::ByteList;
use fault_schedule::ShortBytes;
use page_pool::{PAGE, Seg, SgList};
use pi_tuple::TUPLE;
use rig_api::Change;
use script_lines::{OpLine, ScriptKind, SegList};
use stack_ops::Op;
use std::alloc::Global;

/// A `show` has at most this many bytes.
const MOST_SHOWN: u32 = 64;
/// A list has at most this many segments.
const MOST_SEGS: usize = 512;

/// How many pages a script has, and how long its blocks are.
#[derive(Clone, Copy, Debug)]
pub(crate) struct Sizes {
    pub(crate) pages: u32,
    pub(crate) block: u32,
}

fn is_long(segs: &[Seg]) -> bool
    ensures { result ≡ nat_lt 512 (length segs.now) }
{
    segs.len() > MOST_SEGS
}

fn list_of(alloc: Global, segs: &[Seg]) -> Result<SgList, ScriptKind>
    requires few { length segs.now ≤ 512 }
    requires inside { (pages : ℕ) × (are_inside pages segs.now ≡ true) }
    ensures value { IfOk result (λ list. list ≡ segs.now) }
    ensures pages { IfOk result (λ list. InPages (places_in list)) }
    ensures memory { IfErr result (λ k. k ≡ ScriptKind.Memory) }
{
    Ok(sg_list(alloc, segs)?)
}

/// The data of `n` blocks.
fn body_of(alloc: Global, segs: &[Seg], n: u32, sizes: Sizes) -> Result<SgList, ScriptKind>
    requires { length segs.now ≤ 512 }
    ensures { IsUnlessBroken (not (is_body sizes.pages sizes.block n segs.now)) ScriptKind.BadSegments (λ list. list ≡ segs.now) result }
{
    if !are_inside(segs, sizes.pages) {
        return Err(ScriptKind::BadSegments);
    }
    let list = list_of(alloc, segs)?;
    if u64::from(list.total()) != u64::from(sizes.block) * u64::from(n) {
        return Err(ScriptKind::BadSegments);
    }
    if !are_few_each(&list, n, sizes.block) {
        return Err(ScriptKind::BadSegments);
    }
    Ok(list)
}

/// The tuples of `n` blocks.
fn tuples_of(alloc: Global, segs: &[Seg], n: u32, sizes: Sizes) -> Result<SgList, ScriptKind>
    requires { length segs.now ≤ 512 }
    ensures { IsUnlessBroken (not (are_tuples sizes.pages n segs.now)) ScriptKind.BadSegments (λ list. list ≡ segs.now) result }
{
    if !are_inside(segs, sizes.pages) {
        return Err(ScriptKind::BadSegments);
    }
    let list = list_of(alloc, segs)?;
    if u64::from(list.total()) != TUPLE as u64 * u64::from(n) {
        return Err(ScriptKind::BadSegments);
    }
    if !are_whole_tuples(segs) {
        return Err(ScriptKind::BadSegments);
    }
    Ok(list)
}

fn apart(alloc: Global, body: &[Seg], tuples: &[Seg]) -> Result<(), ScriptKind>
    requires { All IsSound (body.now ++ tuples.now) }
    ensures { MatchResult result (λ u. do_overlap body.now tuples.now ≡ false)
        (λ k. (k ≡ ScriptKind.Memory) ⊎ ((k ≡ ScriptKind.SegOverlap) × (do_overlap body.now tuples.now ≡ true))) }
{
    if do_overlap(alloc, body, tuples)? {
        return Err(ScriptKind::SegOverlap);
    }
    Ok(())
}

/// The data of a request without tuples of its own.
fn data_of(alloc: Global, n: u32, body: &SegList, sizes: Sizes) -> Result<SgList, ScriptKind>
    ensures { IsUnlessFault (data_fault sizes.pages sizes.block n body.now) (λ list. list ≡ body.now) result }
{
    if is_long(body.as_slice()) {
        return Err(ScriptKind::TooMany);
    }
    if !is_count(n) {
        return Err(ScriptKind::BadRange);
    }
    let list = body_of(alloc, body.as_slice(), n, sizes)?;
    apart(alloc, body.as_slice(), &[])?;
    Ok(list)
}

/// The data and the tuples of a request or a `seal`.
fn both_of(
    alloc: Global,
    n: u32,
    body: &SegList,
    tuples: &SegList,
    sizes: Sizes,
) -> Result<(SgList, SgList), ScriptKind>
    ensures { IsUnlessFault (both_fault sizes.pages sizes.block n body.now tuples.now) (λ lists. (lists.0 ≡ body.now) × (lists.1 ≡ tuples.now)) result }
{
    if is_long(body.as_slice()) || is_long(tuples.as_slice()) {
        return Err(ScriptKind::TooMany);
    }
    if !is_count(n) {
        return Err(ScriptKind::BadRange);
    }
    let body_list = body_of(alloc, body.as_slice(), n, sizes)?;
    let tuple_list = tuples_of(alloc, tuples.as_slice(), n, sizes)?;
    apart(alloc, body.as_slice(), tuples.as_slice())?;
    Ok((body_list, tuple_list))
}

fn fill(seg: Seg, byte: u8, sizes: Sizes) -> Result<Op, ScriptKind>
    ensures { result ≡ op_in sizes.pages sizes.block (OpLine.Fill seg byte) }
{
    if is_inside(seg, sizes.pages) {
        Ok(Op::Fill { seg, byte })
    } else {
        Err(ScriptKind::BadSegments)
    }
}

/// Whether so many bytes from an offset on lie in one of the pages.
fn has_room(page: u32, off: u32, len: usize, pages: u32) -> bool
    ensures { result ≡ is_inside pages (record { page = page; off = off; len = len }) }
{
    page < pages && len > 0 && off <= PAGE && len <= (PAGE - off) as usize
}

fn put(page: u32, off: u32, bytes: ByteList, sizes: Sizes) -> Result<Op, ScriptKind>
    ensures { result ≡ op_in sizes.pages sizes.block (OpLine.Put page off bytes) }
{
    if has_room(page, off, bytes.as_slice().len(), sizes.pages) {
        Ok(Op::Put { page, off, bytes })
    } else {
        Err(ScriptKind::BadSegments)
    }
}

fn show(seg: Seg, sizes: Sizes) -> Result<Op, ScriptKind>
    ensures { result ≡ op_in sizes.pages sizes.block (OpLine.Show seg) }
{
    if is_inside(seg, sizes.pages) && seg.len <= MOST_SHOWN {
        Ok(Op::Show { seg })
    } else {
        Err(ScriptKind::BadSegments)
    }
}

fn flip(dev: u32, lba: u64, off: u32, bytes: ShortBytes, sizes: Sizes) -> Result<Op, ScriptKind>
    requires { sizes.block ≤ LARGEST_BLOCK }
    ensures { result ≡ op_in sizes.pages sizes.block (OpLine.Flip dev lba off bytes) }
{
    if is_bad_flip(off, &bytes, sizes.block) {
        return Err(ScriptKind::BadFault);
    }
    Ok(Op::Overwrite {
        dev,
        lba,
        change: Change::Flip { off, bytes },
    })
}

fn copy(dev: u32, lba: u64, from_dev: u32, from_lba: u64) -> Op
    ensures { op_in 1 512 (OpLine.Copy dev lba from_dev from_lba) ≡ Ok result }
{
    Op::Overwrite {
        dev,
        lba,
        change: Change::Copy {
            dev: from_dev,
            lba: from_lba,
        },
    }
}

fn seal(
    alloc: Global,
    n: u32,
    lists: (SegList, SegList),
    tags: (u16, u32),
    sizes: Sizes,
) -> Result<Op, ScriptKind>
    ensures { IsUnless (op_in sizes.pages sizes.block (OpLine.Seal n lists.0 lists.1 tags.0 tags.1)) result }
{
    let (body, tuples) = both_of(alloc, n, &lists.0, &lists.1, sizes)?;
    let (app, rtag) = tags;
    Ok(Op::Seal {
        n,
        body,
        tuples,
        app,
        rtag,
    })
}

fn write(
    alloc: Global,
    v: u64,
    n: u32,
    body: SegList,
    app: Option<u16>,
    sizes: Sizes,
) -> Result<Op, ScriptKind>
    ensures { IsUnless (op_in sizes.pages sizes.block (OpLine.Write v n body app)) result }
{
    let body = data_of(alloc, n, &body, sizes)?;
    let app = app.unwrap_or(0);
    Ok(Op::Write { v, n, body, app })
}

fn read(alloc: Global, v: u64, n: u32, body: SegList, sizes: Sizes) -> Result<Op, ScriptKind>
    ensures { IsUnless (op_in sizes.pages sizes.block (OpLine.Read v n body)) result }
{
    let body = data_of(alloc, n, &body, sizes)?;
    Ok(Op::Fetch { v, n, body })
}

/// The op of a line, or the first rule that it breaks.
pub(crate) fn op_of(alloc: Global, line: OpLine, sizes: Sizes) -> Result<Op, ScriptKind>
    requires { sizes.block ≤ LARGEST_BLOCK }
    ensures { IsUnless (op_in sizes.pages sizes.block line) result }
{
    match line {
        OpLine::Fill { seg, byte } => fill(seg, byte, sizes),
        OpLine::Put { page, off, bytes } => put(page, off, bytes, sizes),
        OpLine::Show { seg } => show(seg, sizes),
        OpLine::Seal {
            n,
            body,
            tuples,
            app,
            rtag,
        } => seal(alloc, n, (body, tuples), (app, rtag), sizes),
        OpLine::Write { v, n, body, app } => write(alloc, v, n, body, app, sizes),
        OpLine::Read { v, n, body } => read(alloc, v, n, body, sizes),
        OpLine::WritePi { v, n, body, tuples } => {
            let (body, tuples) = both_of(alloc, n, &body, &tuples, sizes)?;
            Ok(Op::WritePi { v, n, body, tuples })
        }
        OpLine::ReadPi { v, n, body, tuples } => {
            let (body, tuples) = both_of(alloc, n, &body, &tuples, sizes)?;
            Ok(Op::FetchPi { v, n, body, tuples })
        }
        OpLine::Flip {
            dev,
            lba,
            off,
            bytes,
        } => flip(dev, lba, off, bytes, sizes),
        OpLine::Copy {
            dev,
            lba,
            from_dev,
            from_lba,
        } => Ok(copy(dev, lba, from_dev, from_lba)),
        OpLine::Wait => Ok(Op::Wait),
    }
}
