//! The text of a run that is explained.

ghost use Rattle.std.specs.Prelude.{◌≡◌, ◌≤◌, ◌++◌, IfOk, OnOk, drop, length};
ghost use Rattle.report_text.specs.Writing.{Wrote};
ghost use Rattle.volume_table.specs.Places.{volume_len};
ghost use Rattle.volume_table.specs.Tables.{IsTable, Table};
ghost use Rattle.run_words.specs.Explained.{IsReady};
ghost use Rattle.run_words.specs.Ledgers.{book_in};
ghost use Rattle.run_words.specs.Lies.{all_moved};
ghost use Rattle.run_words.specs.Sites.{AreInside, Guides};
ghost use Rattle.run_words.specs.Texts.{all_listed, explained_by, record_lines, words_text};
ghost use Rattle.run_words.specs.Unseen.{all_unseen};

use crate::explain::Explained;
use crate::guide::{Guide, OpSite};
use crate::listed::print_all_listed;
use crate::records::print_records;
use crate::unseen::print_unseen;
use dix_base::{Failed, Sink};
use report_text::print_report;
use rig_api::Rig;
use stack_ops::Reply;
use volume_table::Entry;

/// Writes the records from this one on, and behind them the listed blocks.
fn print_parts<O: Sink, R: Rig>(
    out: &mut O,
    sites: &[OpSite],
    entries: &[Entry],
    replies: &[Reply],
    rig: &R,
    from: u32,
) -> Result<(), Failed>
    requires records { from ≤ length (R.state rig.now).log }
    requires table { (t : Table) × (t.entries ≡ entries.now) × IsTable t }
    requires inside { AreInside (volume_len entries.now) sites.now replies.now }
    ensures { Wrote O.taken O.faults
        (record_lines 0 sites.now (drop from (R.state rig.now).log) ++ all_listed entries.now 1 sites.now replies.now)
        out.old out.new result }
{
    print_records(out, sites, rig, from)?;
    print_all_listed(out, entries, sites, replies)
}

/// Writes what stands behind the report of these replies: each of the rig's records from number `from` on, which is
/// numbered 0 here, with a line for each longest run of neighbouring blocks of one op that it carried; and where each
/// listed block stands in the script and lies on the devices.
fn print_words<O: Sink, R: Rig>(
    out: &mut O,
    guide: &Guide,
    replies: &[Reply],
    rig: &R,
    from: u32,
) -> Result<(), Failed>
    requires records { from ≤ length (R.state rig.now).log }
    requires guides { Guides guide.now replies.now }
    ensures { Wrote O.taken O.faults (words_text guide.now.sites.items guide.now.entries (drop from (R.state rig.now).log) replies.now) out.old out.new result }
{
    let (sites, entries) = (guide.sites.as_slice(), guide.entries.as_slice());
    print_parts(out, sites, entries, replies, rig, from)
}

/// Writes the report of a run, and behind it what it means. It gives how many blocks of reads nobody lists though they
/// aren't what was last accepted.
fn print_told<O: Sink, R: Rig>(out: &mut O, told: &Explained, rig: &R) -> Result<u32, Failed>
    requires records { told.now.run.first ≤ length (R.state rig.now).log }
    requires guides { Guides told.now.guide told.now.run.stack.replies.items }
    requires ready { IsReady told.now (R.state rig.now).log }
    ensures count { IfOk result (λ n. n ≡ all_unseen (book_in told.now.ledger) (all_moved told.now.ledger.size (drop told.now.run.first (R.state rig.now).log)) told.now.run.stack.replies.items) }
    ensures wrote { Wrote O.taken O.faults
        (explained_by told.now.guide.sites.items told.now.guide.entries (book_in told.now.ledger) (drop told.now.run.first (R.state rig.now).log) told.now.run.stack.replies.items)
        out.old out.new result }
{
    let replies = told.run.stack.replies();
    print_report(out, replies)?;
    print_words(out, &told.guide, replies, rig, told.run.first)?;
    print_unseen(out, &told.guide, &told.ledger, replies, rig)
}

/// Writes the report of a run, and behind it what it means: its records, where the blocks that it lists stand and lie, and
/// which blocks of reads aren't what was last accepted though nobody lists them. It gives how many these are. The sink
/// passes on all that it holds.
///
/// `Failed` comes only where the sink's count of faults rose; then a prefix of the text was written. It takes no
/// memory.
pub fn print_explained<O: Sink, R: Rig>(
    out: &mut O,
    told: &Explained,
    rig: &R,
) -> Result<u32, Failed>
    requires records { told.now.run.first ≤ length (R.state rig.now).log }
    requires guides { Guides told.now.guide told.now.run.stack.replies.items }
    requires ready { IsReady told.now (R.state rig.now).log }
    ensures count { IfOk result (λ n. n ≡ all_unseen (book_in told.now.ledger) (all_moved told.now.ledger.size (drop told.now.run.first (R.state rig.now).log)) told.now.run.stack.replies.items) }
    ensures wrote { Wrote O.taken O.faults
        (explained_by told.now.guide.sites.items told.now.guide.entries (book_in told.now.ledger) (drop told.now.run.first (R.state rig.now).log) told.now.run.stack.replies.items)
        out.old out.new result }
    ensures handed { OnOk result (O.passed out.new ≡ O.taken out.new) }
{
    let unseen = print_told(out, told, rig)?;
    out.flush()?;
    Ok(unseen)
}
