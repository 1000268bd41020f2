//! The commands that make images and look after them. None of them reads the source.

ghost use Rattle.std.specs.Prelude.{◌≡◌, ◌≤◌, ◌++◌, ℕ, List, Option, codes, decimal, length, true};
ghost use Rattle.rig_api.specs.Headers.{is_layout};
ghost use Rattle.call_verdict.specs.Words.{word_bytes};
ghost use Rattle.dix_run.specs.Commands.{format_work, migrate_work, scrub_work};
ghost use Rattle.call_verdict.specs.Verdicts.{EndedAs, IsPassedOn};
ghost use Rattle.dix_run.specs.Verdict.{dix};

use crate::refusal::Refusal;
use crate::scrub_text::{has_some, scrub_text};
use call_verdict::{Status, UnitList, finish, image_of, refuse, status_for};
use dix_base::Sink;
use image_commands::{format_image, migrate_image, scrub_image};
use report_text::{Line, add, add_number};
use rig_api::Rig;
use std::alloc::Global;

/// The line that says how many units were formatted or migrated.
fn count_line(what: &[u8], count: u32) -> Line
    requires { length what.now ≤ 16 }
    ensures { result.items ≡ what.now ++ (decimal count ++ codes "\n") }
{
    let mut line = Line::new();
    add(&mut line, what);
    add_number(&mut line, u64::from(count));
    add(&mut line, b"\n");
    line
}

/// `format IMAGE T:BLOCKS ..`: makes the image of the words the formatted one of these units.
pub(crate) fn format<R: Rig, O: Sink>(
    alloc: Global,
    words: &[String],
    units: &UnitList,
    rig: &mut R,
    out: &mut O,
) -> Status
    requires { is_layout units.now ≡ true }
    ensures ended { (left : Option (List ℕ)) (reads : ℕ) → EndedAs dix (format_work units.now) (record {
      words = word_bytes words.now;
      left = left;
      left_after = left;
      reads = reads;
      reads_after = reads;
      rig = R.state rig.old;
      rig_after = R.state rig.new;
    }) (O.taken out.old) (O.taken out.new) (O.faults out.old) (O.faults out.new) result }
    ensures handed { IsPassedOn result (O.passed out.new) (O.taken out.new) }
{
    let units = units.as_slice();
    match format_image(alloc, image_of(words), units, rig) {
        Ok(()) => finish(
            out,
            count_line(b"formatted ", units.len() as u32).as_slice(),
            Status::Whole,
        ),
        Err(stop) => refuse(out, Refusal::Stopped(stop)),
    }
}

/// `migrate IMAGE`: replaces the header of version 1 of the image by the equal one of version 2.
pub(crate) fn migrate<R: Rig, O: Sink>(
    alloc: Global,
    words: &[String],
    rig: &mut R,
    out: &mut O,
) -> Status
    ensures ended { (left : Option (List ℕ)) (reads : ℕ) → EndedAs dix migrate_work (record {
      words = word_bytes words.now;
      left = left;
      left_after = left;
      reads = reads;
      reads_after = reads;
      rig = R.state rig.old;
      rig_after = R.state rig.new;
    }) (O.taken out.old) (O.taken out.new) (O.faults out.old) (O.faults out.new) result }
    ensures handed { IsPassedOn result (O.passed out.new) (O.taken out.new) }
{
    match migrate_image(alloc, image_of(words), rig) {
        Ok(count) => finish(
            out,
            count_line(b"migrated ", count).as_slice(),
            Status::Whole,
        ),
        Err(stop) => refuse(out, Refusal::Stopped(stop)),
    }
}

/// `scrub IMAGE`: looks at every stored block of the image, and reports those at fault.
pub(crate) fn scrub<R: Rig, O: Sink>(
    alloc: Global,
    words: &[String],
    rig: &mut R,
    out: &mut O,
) -> Status
    ensures ended { (left : Option (List ℕ)) (reads : ℕ) → EndedAs dix scrub_work (record {
      words = word_bytes words.now;
      left = left;
      left_after = left;
      reads = reads;
      reads_after = reads;
      rig = R.state rig.old;
      rig_after = R.state rig.new;
    }) (O.taken out.old) (O.taken out.new) (O.faults out.old) (O.faults out.new) result }
    ensures handed { IsPassedOn result (O.passed out.new) (O.taken out.new) }
{
    let mut found = Vec::new(alloc);
    let devices = match scrub_image(alloc, image_of(words), rig, &mut found) {
        Ok(devices) => devices,
        Err(stop) => return refuse(out, Refusal::Stopped(stop)),
    };
    match scrub_text(alloc, &devices, &found) {
        Ok(text) => finish(out, &text, status_for(has_some(&found))),
        Err(_) => refuse(out, Refusal::MEMORY),
    }
}
