//! The lines of a sweep.

ghost use Rattle.std.specs.Prelude.{◌≡◌, ◌+◌, ◌≤◌, ◌++◌, codes, decimal, length};
ghost use Rattle.script_laws.specs.Lines.{spot_word};
ghost use Rattle.flip_sweep.specs.Rows.{last_line, row, verdict_text};
ghost use Rattle.flip_sweep.specs.declared.verdict.Verdict.{Verdict as AnyVerdict};

use crate::counts::Counts;
use crate::flips::Site;
use crate::stretch::Stretch;
use crate::verdict::Verdict;
use bio_core::Why;
use pi_tuple::Check;
use report_text::{Line, add, add_check, add_number, add_why};
use script_lines::Spot;

fn spot_word(spot: Spot) -> &'static [u8]
    ensures word { result.now ≡ spot_word spot }
    ensures short { length result.now ≤ 6 }
{
    match spot {
        Spot::Host => b"host",
        Spot::Wire => b"wire",
        Spot::Medium => b"medium",
    }
}

/// A number and a space.
fn add_word(line: &mut Line, number: u64)
    requires { length line.old.items + 41 ≤ 512 }
    ensures items { line.new.items ≡ line.old.items ++ (decimal number ++ codes " ") }
    ensures bound { length line.new.items ≤ length line.old.items + 41 }
{
    add_number(line, number);
    add(line, b" ");
}

fn add_found(line: &mut Line, op: u32, k: u32, why: Why)
    requires { length line.old.items ≤ 256 }
    ensures items { line.new.items ≡ line.old.items ++ verdict_text (AnyVerdict.Found op k why) }
    ensures bound { length line.new.items ≤ length line.old.items + 128 }
{
    add(line, b"found ");
    add_word(line, u64::from(op));
    add_word(line, u64::from(k));
    add_why(line, why);
}

fn add_scrub(line: &mut Line, dev: u32, lba: u64, check: Check)
    requires { length line.old.items ≤ 256 }
    ensures items { line.new.items ≡ line.old.items ++ verdict_text (AnyVerdict.Scrub dev lba check) }
    ensures bound { length line.new.items ≤ length line.old.items + 128 }
{
    add(line, b"scrub ");
    add_word(line, u64::from(dev));
    add_word(line, lba);
    add_check(line, b"target ", check);
}

fn add_verdict(line: &mut Line, verdict: Verdict)
    requires { length line.old.items ≤ 256 }
    ensures items { line.new.items ≡ line.old.items ++ verdict_text verdict }
    ensures bound { length line.new.items ≤ length line.old.items + 128 }
{
    match verdict {
        Verdict::Found { op, k, why } => add_found(line, op, k, why),
        Verdict::Scrub { dev, lba, check } => add_scrub(line, dev, lba, check),
        Verdict::Same => add(line, b"same"),
        Verdict::Unseen => add(line, b"unseen"),
    }
}

/// The line of a stretch of bytes of the frame that crosses there.
pub(crate) fn row(site: Site, stretch: Stretch) -> Line
    ensures { result.items ≡ row site stretch }
{
    let mut line = Line::new();
    add_word(&mut line, u64::from(site.op));
    add_word(&mut line, u64::from(site.k));
    add(&mut line, spot_word(site.spot));
    add(&mut line, b" ");
    add_word(&mut line, u64::from(stretch.first));
    add_word(&mut line, u64::from(stretch.last));
    add_verdict(&mut line, stretch.verdict);
    add(&mut line, b"\n");
    line
}

/// The last line.
pub(crate) fn last_line(counts: Counts) -> Line
    ensures { result.items ≡ last_line counts }
{
    let mut line = Line::new();
    add(&mut line, b"runs ");
    add_number(&mut line, counts.runs);
    add(&mut line, b" found ");
    add_number(&mut line, counts.found);
    add(&mut line, b" scrub ");
    add_number(&mut line, counts.scrub);
    add(&mut line, b" same ");
    add_number(&mut line, counts.same);
    add(&mut line, b" unseen ");
    add_number(&mut line, counts.unseen);
    add(&mut line, b"\n");
    line
}
