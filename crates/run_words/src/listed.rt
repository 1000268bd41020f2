//! The blocks that a report lists.

ghost use Rattle.std.specs.Prelude.{◌≡◌, ◌+◌, ◌≤◌, ◌<◌, All, length};
ghost use Rattle.report_text.specs.Writing.{Wrote};
ghost use Rattle.stack_ops.specs.declared.reply.BadBlock.{BadBlock as AnyBlock};
ghost use Rattle.volume_table.specs.Places.{volume_len};
ghost use Rattle.volume_table.specs.Tables.{IsTable, Table};
ghost use Rattle.run_words.specs.Sites.{AreInside, IsInside};
ghost use Rattle.run_words.specs.Texts.{all_listed, listed_front, listed_line, listed_lines, listed_words, reply_lines};

use crate::guide::OpSite;
use crate::place::place_in;
use dix_base::{Failed, Sink};
use report_text::{Line, add, add_number, add_why, write_all};
use stack_ops::{BadBlock, Reply};
use volume_table::Entry;

/// The virtual block of a listed one, which the volume of these entries has.
fn virtual_block(entries: &[Entry], site: OpSite, block: BadBlock) -> u64
    requires table { (t : Table) × (t.entries ≡ entries.now) × IsTable t }
    requires inside { site.first + block.k < volume_len entries.now }
    ensures { result ≡ site.first + block.k }
{
    let _entries = entries;
    site.first + u64::from(block.k)
}

/// A listed block of the op of this number, which is this virtual one.
fn front_of(number: u64, site: OpSite, block: BadBlock, v: u64) -> Line
    ensures items { result.items ≡ listed_front number site block v }
    ensures bound { length result.items ≤ 192 }
{
    let mut line = Line::new();
    add(&mut line, b"bad ");
    add_number(&mut line, number);
    add(&mut line, b" ");
    add_number(&mut line, u64::from(block.k));
    add(&mut line, b" line ");
    add_number(&mut line, u64::from(site.line));
    add(&mut line, b" virtual ");
    add_number(&mut line, v);
    line
}

/// The line of a listed block, which is this virtual one and lies there.
fn words_of(number: u64, site: OpSite, block: BadBlock, v: u64, place: (u32, u64)) -> Line
    ensures { result.items ≡ listed_words number site block v place }
{
    let (dev, lba) = place;
    let mut line = front_of(number, site, block, v);
    add(&mut line, b" dev ");
    add_number(&mut line, u64::from(dev));
    add(&mut line, b" at ");
    add_number(&mut line, lba);
    add(&mut line, b" ");
    add_why(&mut line, block.why);
    add(&mut line, b"\n");
    line
}

/// The line of a listed block of the op of this number.
fn listed_line(entries: &[Entry], number: u64, site: OpSite, block: BadBlock) -> Line
    requires table { (t : Table) × (t.entries ≡ entries.now) × IsTable t }
    requires inside { site.first + block.k < volume_len entries.now }
    ensures { result.items ≡ listed_line entries.now number site block }
{
    let v = virtual_block(entries, site, block);
    let place = place_in(entries, v);
    words_of(number, site, block, v, place)
}

/// Writes the lines of the listed blocks of an op.
fn print_listed<O: Sink>(
    out: &mut O,
    entries: &[Entry],
    number: u64,
    site: OpSite,
    blocks: &[BadBlock],
) -> Result<(), Failed>
    requires table { (t : Table) × (t.entries ≡ entries.now) × IsTable t }
    requires inside { All (λ (b : AnyBlock). site.first + b.k < volume_len entries.now) blocks.now }
    ensures { Wrote O.taken O.faults (listed_lines entries.now number site blocks.now) out.old out.new result }
{
    for block in blocks {
        write_all(out, listed_line(entries, number, site, *block).as_slice())?;
    }
    Ok(())
}

/// Writes the lines of the blocks that a reply lists.
fn print_reply<O: Sink>(
    out: &mut O,
    entries: &[Entry],
    number: u64,
    site: OpSite,
    reply: &Reply,
) -> Result<(), Failed>
    requires table { (t : Table) × (t.entries ≡ entries.now) × IsTable t }
    requires inside { IsInside site.first (volume_len entries.now) reply.now }
    ensures { Wrote O.taken O.faults (reply_lines entries.now number site reply.now) out.old out.new result }
{
    match reply {
        Reply::Silent => Ok(()),
        Reply::Whole => Ok(()),
        Reply::Bad(blocks) => print_listed(out, entries, number, site, blocks.as_slice()),
        Reply::Shown(_) => Ok(()),
        Reply::Medium => Ok(()),
    }
}

/// Writes the lines of all blocks that these replies list.
pub(crate) fn print_all_listed<O: Sink>(
    out: &mut O,
    entries: &[Entry],
    sites: &[OpSite],
    replies: &[Reply],
) -> Result<(), Failed>
    requires table { (t : Table) × (t.entries ≡ entries.now) × IsTable t }
    requires inside { AreInside (volume_len entries.now) sites.now replies.now }
    ensures { Wrote O.taken O.faults (all_listed entries.now 1 sites.now replies.now) out.old out.new result }
{
    let mut rest = sites;
    for (i, reply) in replies.iter().enumerate() {
        let Some((site, more)) = rest.split_first() else {
            return Ok(());
        };
        print_reply(out, entries, i as u64 + 1, *site, reply)?;
        rest = more;
    }
    Ok(())
}
