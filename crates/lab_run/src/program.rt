//! The top call.

ghost use Rattle.std.specs.Prelude.{IfOk};
ghost use Rattle.call_verdict.specs.Verdicts.{IsPassedOn};
ghost use Rattle.lab_run.specs.Grammar.{command_in};
ghost use Rattle.call_verdict.specs.Words.{word_bytes};
ghost use Rattle.lab_run.specs.Calls.{Facts};
ghost use Rattle.lab_run.specs.Commands.{Came};
ghost use Rattle.lab_run.specs.Headline.{Carries};
ghost use Rattle.lab_run.specs.Sinks.{sunk};

use crate::checking::check;
use crate::command::{Command, command_of};
use crate::comparing::diff;
use crate::explaining::explain;
use crate::exporting::export;
use crate::failing::failures;
use crate::importing::import;
use crate::judging::judge;
use crate::playing::vectors;
use crate::refusal::Refusal;
use crate::showing::{show_blocks, show_units};
use crate::sweeping::sweep;
use crate::usage::HELP;
use call_verdict::{Status, finish, refuse};
use dix_base::{Sink, Source, Store};
use rig_api::Rig;
use std::alloc::Global;

/// Does the command of the words, and writes its text where it was done.
fn answer<S: Source, R: Rig, A: Store, B: Store, O: Sink>(
    alloc: Global,
    words: &[String],
    input: &mut S,
    rig: &mut R,
    first: &mut A,
    second: &mut B,
    out: &mut O,
) -> Result<Status, Refusal>
    ensures came { let f : Facts = record {
      words = word_bytes words.now;
      left = S.left input.old;
      left_after = S.left input.new;
      reads = S.faults input.old;
      reads_after = S.faults input.new;
      rig = R.state rig.old;
      rig_after = R.state rig.new;
      first = A.state first.old;
      first_after = A.state first.new;
      second = B.state second.old;
      second_after = B.state second.new;
    } in
        Came (command_in f.words) result f (O.taken out.old) (O.taken out.new) (O.faults out.old) (O.faults out.new) }
    ensures handed { IfOk result (λ status. IsPassedOn status (O.passed out.new) (O.taken out.new)) }
{
    let Some(command) = command_of(words) else {
        return Err(Refusal::Words);
    };
    match command {
        Command::Help => Ok(finish(out, HELP, Status::Whole)),
        Command::Version => Ok(finish(out, b"dixlab 1\n", Status::Whole)),
        Command::ShowUnits => show_units(alloc, words, first, out),
        Command::ShowBlocks { only_bad, place } => {
            show_blocks(alloc, words, only_bad, place, first, out)
        }
        Command::Diff { one, other } => diff(alloc, words, one, other, first, second, out),
        Command::Export { place, layout } => export(alloc, words, place, layout, first, out),
        Command::Import { place, layout } => {
            import(alloc, words, place, layout, input, first, out)
        }
        Command::Vectors => vectors(alloc, words, input, rig, out),
        Command::Judge => judge(alloc, words, input, out),
        Command::Explain => explain(alloc, words, input, rig, out),
        Command::Sweep { byte, units } => sweep(alloc, words, byte, &units, input, out),
        Command::Check { words: said } => check(alloc, words, said, input, out),
        Command::Failures(ty) => failures(alloc, ty, out),
    }
}

/// Runs the program on its words, without its own name: does the command that they are, and writes its
/// text to `out`, or the line of its refusal to `says`. `show` and `export` work on the first store, `diff` on both,
/// `import` on the source and the first store, `vectors` on the source and the rig, `explain` on the source and, where
/// it has an image, on the rig, `sweep` and `check` on the source; `failures` on none of them.
pub fn run<S: Source, R: Rig, A: Store, B: Store, O: Sink, E: Sink>(
    alloc: Global,
    words: &[String],
    input: &mut S,
    rig: &mut R,
    first: &mut A,
    second: &mut B,
    out: &mut O,
    says: &mut E,
) -> Status
    ensures carries { let f : Facts = record {
      words = word_bytes words.now;
      left = S.left input.old;
      left_after = S.left input.new;
      reads = S.faults input.old;
      reads_after = S.faults input.new;
      rig = R.state rig.old;
      rig_after = R.state rig.new;
      first = A.state first.old;
      first_after = A.state first.new;
      second = B.state second.old;
      second_after = B.state second.new;
    } in
        Carries f (sunk (O.taken out.old) (O.taken out.new) (O.passed out.new) (O.faults out.old) (O.faults out.new))
        (sunk (E.taken says.old) (E.taken says.new) (E.passed says.new) (E.faults says.old) (E.faults says.new)) result }
{
    match answer(alloc, words, input, rig, first, second, out) {
        Ok(status) => status,
        Err(refusal) => refuse(says, refusal),
    }
}
