//! The text that tells the units of an image.

ghost use Rattle.std.specs.Prelude.{◌≡◌, ◌+◌, ◌≤◌, ◌++◌, length};
ghost use Rattle.report_text.specs.Writing.{Wrote};
ghost use Rattle.rig_api.specs.Headers.{number_of};
ghost use Rattle.image_text.specs.UnitText.{unit_line, unit_lines, unit_word, units_text};

use crate::show::write_first;
use dix_base::{Failed, Sink};
use pi_tuple::PiType;
use report_text::{Line, add, add_number, write_all};
use rig_api::UnitSpec;

fn number_of(ty: PiType) -> u64
    ensures { result ≡ number_of ty }
{
    match ty {
        PiType::Zero => 0,
        PiType::One => 1,
        PiType::Two => 2,
        PiType::Three => 3,
    }
}

fn add_word(line: &mut Line, unit: UnitSpec)
    requires { length line.old.items ≤ 64 }
    ensures items { line.new.items ≡ line.old.items ++ unit_word unit }
    ensures bound { length line.new.items ≤ length line.old.items + 163 }
{
    add_number(line, number_of(unit.ty));
    add(line, b":");
    add_number(line, unit.blocks);
    add(line, b":");
    add_number(line, u64::from(unit.size));
    add(line, b":");
    add_number(line, unit.first);
}

/// The line of a unit, with the word by which `dix format` makes it.
fn unit_line(dev: u32, unit: UnitSpec) -> Line
    ensures { result.items ≡ unit_line dev unit }
{
    let mut line = Line::new();
    add(&mut line, b"unit ");
    add_number(&mut line, u64::from(dev));
    add(&mut line, b" ");
    add_word(&mut line, unit);
    add(&mut line, b"\n");
    line
}

/// Writes a line for each of at most eight units.
fn write_lines<O: Sink>(out: &mut O, units: &[UnitSpec]) -> Result<(), Failed>
    requires { length units.now ≤ 8 }
    ensures { Wrote O.taken O.faults (unit_lines 0 units.now) out.old out.new result }
{
    let mut dev = 0u32;
    for unit in units {
        let line = unit_line(dev, *unit);
        write_all(out, line.as_slice())?;
        dev += 1;
    }
    Ok(())
}

/// Writes the text that tells the units of an image, at most eight: the first line, and a line for each.
pub fn write_units<O: Sink>(out: &mut O, units: &[UnitSpec]) -> Result<(), Failed>
    requires { length units.now ≤ 8 }
    ensures { Wrote O.taken O.faults (units_text units.now) out.old out.new result }
{
    write_first(out)?;
    write_lines(out, units)
}
