//! The lines behind those of the blocks.

ghost use Rattle.std.specs.Prelude.{◌≡◌, ◌+◌, ◌-◌, ◌*◌, ◌^◌, ◌%◌, ◌<◌, ◌≤◌, ◌++◌, length, decimal, codes, ltb, true};
ghost use Rattle.dump_check.specs.Forms.{bits_of, first_tag, is_fit, stride_of};
ghost use Rattle.dump_check.specs.Lines.{count_line, cut_line, is_shifted, last_text, line_if, shift_line, way_text};
ghost use Rattle.dump_check.specs.Tallies.{IsTally};
ghost use Rattle.report_text.specs.Writing.{Wrote};

use crate::finding::low;
use crate::form::Form;
use crate::tally::DumpTally;
use dix_base::{Failed, Sink};
use report_text::{Line, add, add_number, write_all};

fn count_line(tally: DumpTally) -> Line
    ensures { result.items ≡ count_line tally }
{
    let mut line = Line::new();
    add(&mut line, b"checked ");
    add_number(&mut line, tally.blocks);
    add(&mut line, b" bad ");
    add_number(&mut line, tally.bad);
    add(&mut line, b" unchecked ");
    add_number(&mut line, tally.unchecked);
    add(&mut line, b"\n");
    line
}

/// Puts how much higher, or lower, tags are than those that are wanted behind the line.
fn add_way(line: &mut Line, form: Form, shift: u64)
    requires fit { is_fit form ≡ true }
    requires room { length line.old.items ≤ 128 }
    ensures items { line.new.items ≡ line.old.items ++ way_text form shift }
    ensures bound { length line.new.items ≤ length line.old.items + 47 }
{
    let all = 1u128 << form.bits();
    let higher = u128::from(shift);
    if 2 * higher <= all {
        add_number(line, shift);
        add(line, b" higher");
    } else {
        add_number(line, all.saturating_sub(higher) as u64);
        add(line, b" lower");
    }
}

fn shift_line(form: Form, tally: DumpTally) -> Line
    requires { is_fit form ≡ true }
    ensures { result.items ≡ shift_line form tally }
{
    let first = u128::from(form.first_tag()) + u128::from(tally.shift);
    let mut line = Line::new();
    add(&mut line, b"most reference tags are ");
    add_way(&mut line, form, tally.shift);
    add(&mut line, b": is the first one ");
    add_number(&mut line, low(first, form.bits()));
    add(&mut line, b"?\n");
    line
}

fn cut_line(form: Form, rest: u64) -> Line
    ensures { result.items ≡ cut_line form rest }
{
    let mut line = Line::new();
    add(&mut line, b"the dump ends within a block: ");
    add_number(&mut line, rest);
    add(&mut line, b" of ");
    add_number(&mut line, form.stride() as u64);
    add(&mut line, b" bytes\n");
    line
}

/// Whether two of the bad reference tags and more than half differ from the wanted ones by one number, that of the first of
/// them.
fn is_shifted(tally: DumpTally) -> bool
    requires { IsTally tally }
    ensures { result ≡ is_shifted tally }
{
    1 < tally.same && tally.tags - tally.same < tally.same
}

/// Writes by how much most bad reference tags differ, where they do.
fn write_shift<O: Sink>(out: &mut O, form: Form, tally: DumpTally) -> Result<(), Failed>
    requires fit { is_fit form ≡ true }
    requires tally { IsTally tally }
    ensures { Wrote O.taken O.faults (line_if (is_shifted tally) (shift_line form tally)) out.old out.new result }
{
    if !is_shifted(tally) {
        return Ok(());
    }
    write_all(out, shift_line(form, tally).as_slice())
}

/// Writes how many bytes there are of a block that is cut off, where one is.
fn write_cut<O: Sink>(out: &mut O, form: Form, rest: u64) -> Result<(), Failed>
    ensures { Wrote O.taken O.faults (line_if (ltb 0 rest) (cut_line form rest)) out.old out.new result }
{
    let is_cut = 0 < rest;
    if !is_cut {
        return Ok(());
    }
    write_all(out, cut_line(form, rest).as_slice())
}

/// Writes by how much most bad reference tags differ, and how many bytes there are of a block that is cut off.
fn write_more<O: Sink>(out: &mut O, form: Form, tally: DumpTally, rest: u64) -> Result<(), Failed>
    requires fit { is_fit form ≡ true }
    requires tally { IsTally tally }
    ensures { Wrote O.taken O.faults
        (line_if (is_shifted tally) (shift_line form tally) ++ line_if (ltb 0 rest) (cut_line form rest)) out.old out.new result }
{
    write_shift(out, form, tally)?;
    write_cut(out, form, rest)
}

/// Writes how many blocks there were, were bad and weren't checked, by how much most tags differ, where they do, and how
/// many bytes there are of a block that is cut off.
pub(crate) fn write_last<O: Sink>(
    out: &mut O,
    form: Form,
    tally: DumpTally,
    rest: u64,
) -> Result<(), Failed>
    requires fit { is_fit form ≡ true }
    requires tally { IsTally tally }
    ensures { Wrote O.taken O.faults (last_text form tally rest) out.old out.new result }
{
    write_all(out, count_line(tally).as_slice())?;
    write_more(out, form, tally, rest)
}
