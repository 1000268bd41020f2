//! Explaining the run of a script.

ghost use Rattle.std.specs.Prelude.{◌≡◌, ◌≤◌, ◌||◌, Some, drop, length, ltb, IfOk};
ghost use Rattle.call_verdict.specs.Words.{word_bytes};
ghost use Rattle.call_verdict.specs.Verdicts.{IsPassedOn, Written, done_status};
ghost use Rattle.dix_base.specs.Stores.{StoreState};
ghost use Rattle.lab_run.specs.declared.command.Command.{Command};
ghost use Rattle.run_words.specs.Explained.{IsReady};
ghost use Rattle.run_words.specs.Ledgers.{book_in};
ghost use Rattle.run_words.specs.Lies.{all_moved};
ghost use Rattle.run_words.specs.Sites.{Guides};
ghost use Rattle.run_words.specs.Texts.{explained_by};
ghost use Rattle.run_words.specs.Unseen.{all_unseen};
ghost use Rattle.run_command.specs.Texts.{has_bad};
ghost use Rattle.lab_run.specs.Calls.{on_rig};
ghost use Rattle.lab_run.specs.Commands.{Came};

use crate::refusal::Refusal;
use call_verdict::{Status, finish, image_of, status_for};
use dix_base::{Failed, Sink, Source};
use rig_api::Rig;
use run_words::{Explained, Unexplained, explain_source, print_explained};
use std::alloc::Global;

/// Writes the report of a run and what it means.
fn tell_run<R: Rig, O: Sink>(out: &mut O, told: &Explained, rig: &R) -> Status
    requires records { told.now.run.first ≤ length (R.state rig.now).log }
    requires guides { Guides told.now.guide told.now.run.stack.replies.items }
    requires ready { IsReady told.now (R.state rig.now).log }
    ensures written { Written (done_status (has_bad told.now.run.stack.replies.items || ltb 0 (all_unseen (book_in told.now.ledger) (all_moved told.now.ledger.size (drop told.now.run.first (R.state rig.now).log)) told.now.run.stack.replies.items)))
        (explained_by told.now.guide.sites.items told.now.guide.entries (book_in told.now.ledger) (drop told.now.run.first (R.state rig.now).log) told.now.run.stack.replies.items)
        (O.taken out.old) (O.taken out.new) (O.faults out.old) (O.faults out.new) result }
    ensures handed { IsPassedOn result (O.passed out.new) (O.taken out.new) }
{
    match print_explained(out, told, rig) {
        Ok(unseen) => status_for(told.run.has_bad() || unseen > 0),
        Err(Failed) => Status::WriteFault,
    }
}

/// `explain IMAGE`: runs the script that the source gives over the image, and writes its report and what it means.
pub(crate) fn explain<S: Source, R: Rig, O: Sink>(
    alloc: Global,
    words: &[String],
    input: &mut S,
    rig: &mut R,
    out: &mut O,
) -> Result<Status, Refusal>
    ensures came { (first second : StoreState) → Came (Some Command.Explain) result
        (on_rig (word_bytes words.now) (S.left input.old) (S.left input.new) (S.faults input.old) (S.faults input.new) (R.state rig.old) (R.state rig.new) first second)
        (O.taken out.old) (O.taken out.new) (O.faults out.old) (O.faults out.new) }
    ensures handed { IfOk result (λ status. IsPassedOn status (O.passed out.new) (O.taken out.new)) }
{
    match explain_source(alloc, image_of(words), input, rig) {
        Ok(told) => Ok(tell_run(out, &told, rig)),
        Err(Unexplained::Marked(said)) => Ok(finish(out, &said, Status::Input)),
        Err(Unexplained::Misfit(said)) => Ok(finish(out, &said, Status::Image)),
        Err(Unexplained::Refused(reason)) => Err(Refusal::Stopped(reason)),
    }
}
