//! A request on a leg as a script of its own.

ghost use Rattle.std.specs.Prelude.{◌≡◌, ◌+◌, ◌*◌, ◌<◌, ◌≤◌, ◌^◌, ◌++◌, IfOk, OnOk, length};
ghost use Rattle.mirror_volume.specs.Inner.{own_faults, own_script, page_segs, pages_for, puts, read_pi_script, read_script, write_script};

use crate::Piece;
use dix_base::ByteList;
use fault_schedule::{FaultKind, FaultLine, FaultList};
use merge_queue::Limits;
use page_pool::{PAGE, Seg, SgList};
use pi_tuple::TUPLE;
use script_lines::WordList;
use script_text::{LineList, Script};
use smallvec::SmallVec;
use stack_ops::{Op, OpList};
use std::alloc::{AllocError, Global};
use volume_table::EntryList;

fn copy_of(kind: &FaultKind) -> FaultKind
    ensures { result ≡ kind.now }
{
    match kind {
        FaultKind::Flip { off, bytes } => FaultKind::Flip {
            off: *off,
            bytes: bytes.copy(),
        },
        FaultKind::Shift { by } => FaultKind::Shift { by: *by },
        FaultKind::Keep { bytes } => FaultKind::Keep { bytes: *bytes },
        FaultKind::Fail => FaultKind::Fail,
    }
}

/// The fault lines that name a block of the piece, each with the number of the request in the script of its own, and
/// the block's place there.
fn own_faults(
    alloc: Global,
    piece: Piece,
    request: u32,
    faults: &[FaultLine],
) -> Result<FaultList, AllocError>
    requires { piece.count + piece.first < 2 ^ 32 }
    ensures { IfOk result (λ f. f ≡ own_faults piece request faults.now) }
{
    let first = piece.label();
    let mut own = Vec::new(alloc);
    for line in faults {
        if line.op == piece.op && first <= line.k && line.k - first < piece.n {
            own.push(FaultLine {
                op: request,
                k: line.k - first,
                at: line.at,
                kind: copy_of(&line.kind),
            })?;
        }
    }
    Ok(FaultList::from_vec(own))
}

/// How many pages so many bytes take.
pub fn pages_for(bytes: u32) -> u32
    ensures { result ≡ pages_for bytes }
{
    bytes.div_ceil(PAGE)
}

/// So many bytes of whole pages from this page on, the last one perhaps in part.
pub fn page_segs(alloc: Global, first: u32, bytes: u32) -> Result<SgList, AllocError>
    requires { first + bytes < 2 ^ 32 }
    ensures { IfOk result (λ s. s ≡ page_segs first (pages_for bytes) bytes) }
{
    let mut segs = SmallVec::new(alloc);
    let mut left = bytes;
    for page in first..first + pages_for(bytes) {
        let len = left.min(PAGE);
        segs.push(Seg { page, off: 0, len })?;
        left -= len;
    }
    Ok(SgList::from_segs(segs))
}

/// Puts these bytes into pages, from page 0 on.
fn puts(alloc: Global, bytes: &[u8], ops: &mut Vec<Op>) -> Result<(), AllocError>
    requires { length bytes.now < 2 ^ 32 }
    ensures { OnOk result (ops.new.items ≡ ops.old.items ++ puts 0 (pages_for (length bytes.now)) bytes.now) }
{
    let mut rest = bytes;
    for page in 0..pages_for(bytes.len() as u32) {
        let (front, back) = rest.split_at(rest.len().min(PAGE as usize));
        ops.push(Op::Put {
            page,
            off: 0,
            bytes: ByteList::from_vec(Vec::from_slice(alloc, front)?),
        })?;
        rest = back;
    }
    Ok(())
}

/// A script with the mirror's mode and limits, for a request of n blocks: no group has more, so it takes room for no more.
fn own_script(
    alloc: Global,
    script: &Script,
    n: u32,
    pages: u32,
    faults: FaultList,
    ops: Vec<Op>,
) -> Result<Script, AllocError>
    ensures { IfOk result (λ s. s ≡ own_script script.now n pages faults ops.items) }
{
    let lines = vec![in alloc; 0u32; faults.as_slice().len() + ops.len()]?;
    Ok(Script {
        mode: script.mode,
        limits: Limits {
            max_blocks: script.limits.max_blocks.min(n),
            ..script.limits
        },
        pages,
        block: script.block,
        expect_line: script.expect_line,
        entries: EntryList::from_vec(Vec::new(alloc)),
        faults,
        schedule: WordList::from_vec(Vec::new(alloc)),
        ops: OpList::from_vec(ops),
        lines: LineList::from_vec(lines),
    })
}

/// The script that writes the piece, with these data and this application tag.
pub fn write_script(
    alloc: Global,
    script: &Script,
    half: u64,
    piece: Piece,
    app: u16,
    bytes: &[u8],
) -> Result<Script, AllocError>
    requires block { piece.n * script.now.block < 2 ^ 31 }
    requires label { piece.count + piece.first < 2 ^ 32 }
    requires virt { half + piece.v < 2 ^ 64 }
    requires long { length bytes.now ≡ piece.n * script.now.block }
    requires few { length script.now.faults < 2 ^ 16 }
    ensures { IfOk result (λ s. s ≡ write_script script.now half piece app bytes.now) }
{
    let pages = pages_for(piece.n * script.block);
    let faults = own_faults(alloc, piece, pages + 1, script.faults.as_slice())?;
    let mut ops = Vec::with_capacity(alloc, pages as usize + 1)?;
    puts(alloc, bytes, &mut ops)?;
    ops.push(Op::Write {
        v: piece.virt(half),
        n: piece.n,
        body: page_segs(alloc, 0, piece.n * script.block)?,
        app,
    })?;
    own_script(alloc, script, piece.n, pages, faults, ops)
}

/// The script that reads the piece.
pub fn read_script(
    alloc: Global,
    script: &Script,
    half: u64,
    piece: Piece,
) -> Result<Script, AllocError>
    requires block { piece.n * script.now.block < 2 ^ 31 }
    requires label { piece.count + piece.first < 2 ^ 32 }
    requires virt { half + piece.v < 2 ^ 64 }
    requires few { length script.now.faults < 2 ^ 16 }
    ensures { IfOk result (λ s. s ≡ read_script script.now half piece) }
{
    let pages = pages_for(piece.n * script.block);
    let faults = own_faults(alloc, piece, 1, script.faults.as_slice())?;
    let mut ops = Vec::with_capacity(alloc, 1)?;
    ops.push(Op::Fetch {
        v: piece.virt(half),
        n: piece.n,
        body: page_segs(alloc, 0, piece.n * script.block)?,
    })?;
    own_script(alloc, script, piece.n, pages, faults, ops)
}

/// The script that reads the piece with its tuples, which stand in pages behind those of the data.
pub fn read_pi_script(
    alloc: Global,
    script: &Script,
    half: u64,
    piece: Piece,
) -> Result<Script, AllocError>
    requires block { piece.n * script.now.block < 2 ^ 31 }
    requires label { piece.count + piece.first < 2 ^ 32 }
    requires virt { half + piece.v < 2 ^ 64 }
    requires tuples { piece.n * TUPLE < 2 ^ 31 }
    requires few { length script.now.faults < 2 ^ 16 }
    ensures { IfOk result (λ s. s ≡ read_pi_script script.now half piece) }
{
    let pages = pages_for(piece.n * script.block);
    let faults = own_faults(alloc, piece, 1, script.faults.as_slice())?;
    let mut ops = Vec::with_capacity(alloc, 1)?;
    ops.push(Op::FetchPi {
        v: piece.virt(half),
        n: piece.n,
        body: page_segs(alloc, 0, piece.n * script.block)?,
        tuples: page_segs(alloc, pages, piece.n * TUPLE as u32)?,
    })?;
    own_script(
        alloc,
        script,
        piece.n,
        pages + pages_for(piece.n * TUPLE as u32),
        faults,
        ops,
    )
}
