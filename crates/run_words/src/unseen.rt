//! The lines of blocks of reads that nobody lists and that aren't what was last accepted.

ghost use Rattle.std.specs.Prelude.{◌≡◌, ◌+◌, ◌≤◌, ◌<◌, ◌^◌, ◌++◌, IfOk, codes, length};
ghost use Rattle.report_text.specs.Writing.{Wrote};
ghost use Rattle.volume_table.specs.Places.{volume_len};
ghost use Rattle.volume_table.specs.Tables.{IsTable, Table};
ghost use Rattle.run_words.specs.Ledgers.{IsKept, LieInside, book_in, moved_in};
ghost use Rattle.run_words.specs.Lies.{lie_at, request_in};
ghost use Rattle.run_words.specs.Unseen.{all_lines, all_unseen, block_line, block_lines, block_of, front_words, lie_words, one_by, op_lines, unseen_blocks, unseen_text, unseen_words};

use crate::asked::request_in;
use crate::guide::{Guide, site_at};
use crate::ledger::Ledger;
use crate::lies::Lie;
use crate::place::place_in;
use dix_base::{Failed, Sink};
use report_text::{Line, add, add_number, write_all};
use rig_api::Rig;
use stack_ops::Reply;

/// A block of a read: its op's number and line, its place in the request, and its virtual block.
#[derive(Clone, Copy)]
struct Block {
    number: u64,
    line: u32,
    k: u32,
    v: u64,
}

/// Block `k` of op `i`, from 0.
fn block_of(guide: &Guide, ledger: &Ledger, i: usize, k: u32) -> Block
    requires few { i < 2 ^ 32 }
    requires fits { (request_in ledger.now.asked.items i).first + k < 2 ^ 64 }
    ensures { result ≡ block_of guide.now.sites.items (book_in ledger.now) i k }
{
    let asked = request_in(ledger.asked.as_slice(), i);
    Block {
        number: i as u64 + 1,
        line: site_at(guide.sites.as_slice(), i).line,
        k,
        v: asked.first + u64::from(k),
    }
}

/// Which block it is.
fn front_of(block: Block) -> Line
    ensures items { result.items ≡ front_words block }
    ensures bound { length result.items ≤ 192 }
{
    let mut line = Line::new();
    add(&mut line, b"read ");
    add_number(&mut line, block.number);
    add(&mut line, b" ");
    add_number(&mut line, u64::from(block.k));
    add(&mut line, b" line ");
    add_number(&mut line, u64::from(block.line));
    add(&mut line, b" virtual ");
    add_number(&mut line, block.v);
    line
}

/// Puts what is wrong with it behind the line, and ends that.
fn add_lie(line: &mut Line, lie: Lie)
    requires { length line.old.items ≤ 400 }
    ensures { line.new.items ≡ line.old.items ++ (lie_words lie ++ codes "\n") }
{
    match lie {
        Lie::Stale(op) => {
            add(line, b" stale op ");
            add_number(line, u64::from(op));
        }
        Lie::Wrong => add(line, b" wrong"),
    }
    add(line, b"\n");
}

/// The line of a block that lies there.
fn words_of(block: Block, place: (u32, u64), lie: Lie) -> Line
    ensures { result.items ≡ unseen_words block place lie }
{
    let (dev, lba) = place;
    let mut line = front_of(block);
    add(&mut line, b" dev ");
    add_number(&mut line, u64::from(dev));
    add(&mut line, b" at ");
    add_number(&mut line, lba);
    add_lie(&mut line, lie);
    line
}

/// Writes the line of block `k` of op `i`, from 0, where something is wrong with it, and gives how many lines that are.
fn print_block<O: Sink, R: Rig>(
    out: &mut O,
    guide: &Guide,
    ledger: &Ledger,
    replies: &[Reply],
    rig: &R,
    i: usize,
    k: u32,
) -> Result<u32, Failed>
    requires table { (t : Table) × (t.entries ≡ guide.now.entries) × IsTable t }
    requires inside { LieInside (volume_len guide.now.entries) ledger.now.asked.items }
    requires kept { IsKept ledger.now (R.state rig.now).log }
    requires op { i < length ledger.now.asked.items }
    requires within { k < (request_in ledger.now.asked.items i).count }
    ensures count { IfOk result (λ n. n ≡ one_by (lie_at (book_in ledger.now) (moved_in ledger.now (R.state rig.now).log) replies.now i k)) }
    ensures wrote { Wrote O.taken O.faults (block_line guide.now.sites.items guide.now.entries (book_in ledger.now) (moved_in ledger.now (R.state rig.now).log) replies.now i k) out.old out.new result }
{
    let block = block_of(guide, ledger, i, k);
    let place = place_in(guide.entries.as_slice(), block.v);
    match ledger.lie_at(rig, replies, i, k) {
        None => Ok(0),
        Some(lie) => {
            write_all(out, words_of(block, place, lie).as_slice())?;
            Ok(1)
        }
    }
}

/// Writes the lines of the blocks of op `i`, from 0, and gives how many they are.
fn print_op<O: Sink, R: Rig>(
    out: &mut O,
    guide: &Guide,
    ledger: &Ledger,
    replies: &[Reply],
    rig: &R,
    i: usize,
) -> Result<u32, Failed>
    requires table { (t : Table) × (t.entries ≡ guide.now.entries) × IsTable t }
    requires inside { LieInside (volume_len guide.now.entries) ledger.now.asked.items }
    requires kept { IsKept ledger.now (R.state rig.now).log }
    requires op { i < length ledger.now.asked.items }
    ensures count { IfOk result (λ n. n ≡ unseen_blocks (book_in ledger.now) (moved_in ledger.now (R.state rig.now).log) replies.now i 0 (request_in ledger.now.asked.items i).count) }
    ensures bound { IfOk result (λ n. n ≤ (request_in ledger.now.asked.items i).count) }
    ensures wrote { Wrote O.taken O.faults
        (block_lines guide.now.sites.items guide.now.entries (book_in ledger.now) (moved_in ledger.now (R.state rig.now).log) replies.now i 0 (request_in ledger.now.asked.items i).count)
        out.old out.new result }
{
    let asked = request_in(ledger.asked.as_slice(), i);
    let mut unseen = 0u32;
    for k in 0..asked.count {
        unseen += print_block(out, guide, ledger, replies, rig, i, k)?;
    }
    Ok(unseen)
}

/// How many lines there are.
fn last_line(unseen: u32) -> Line
    ensures { result.items ≡ unseen_text unseen }
{
    let mut line = Line::new();
    add(&mut line, b"unseen ");
    add_number(&mut line, u64::from(unseen));
    add(&mut line, b"\n");
    line
}

/// Writes the lines of the blocks of all ops, and gives how many they are.
fn print_ops<O: Sink, R: Rig>(
    out: &mut O,
    guide: &Guide,
    ledger: &Ledger,
    replies: &[Reply],
    rig: &R,
) -> Result<u32, Failed>
    requires table { (t : Table) × (t.entries ≡ guide.now.entries) × IsTable t }
    requires inside { LieInside (volume_len guide.now.entries) ledger.now.asked.items }
    requires kept { IsKept ledger.now (R.state rig.now).log }
    ensures count { IfOk result (λ n. n ≡ all_unseen (book_in ledger.now) (moved_in ledger.now (R.state rig.now).log) replies.now) }
    ensures wrote { Wrote O.taken O.faults
        (op_lines guide.now.sites.items guide.now.entries (book_in ledger.now) (moved_in ledger.now (R.state rig.now).log) replies.now 0 (length ledger.now.asked.items))
        out.old out.new result }
{
    let mut unseen = 0u32;
    for i in 0..ledger.asked.len() {
        unseen += print_op(out, guide, ledger, replies, rig, i)?;
    }
    Ok(unseen)
}

/// Writes a line for each block of a read that nobody lists and that isn't what was last accepted, and how many these are,
/// which it gives.
pub(crate) fn print_unseen<O: Sink, R: Rig>(
    out: &mut O,
    guide: &Guide,
    ledger: &Ledger,
    replies: &[Reply],
    rig: &R,
) -> Result<u32, Failed>
    requires table { (t : Table) × (t.entries ≡ guide.now.entries) × IsTable t }
    requires inside { LieInside (volume_len guide.now.entries) ledger.now.asked.items }
    requires kept { IsKept ledger.now (R.state rig.now).log }
    ensures count { IfOk result (λ n. n ≡ all_unseen (book_in ledger.now) (moved_in ledger.now (R.state rig.now).log) replies.now) }
    ensures wrote { Wrote O.taken O.faults (all_lines guide.now.sites.items guide.now.entries (book_in ledger.now) (moved_in ledger.now (R.state rig.now).log) replies.now) out.old out.new result }
{
    let unseen = print_ops(out, guide, ledger, replies, rig)?;
    write_all(out, last_line(unseen).as_slice())?;
    Ok(unseen)
}
