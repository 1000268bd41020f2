//! The end of a call: its text is written, and its status said.

ghost use Rattle.std.specs.Prelude.{◌≡◌};
ghost use Rattle.call_verdict.specs.Verdicts.{IsPassedOn, Written, done_status};

use crate::reason::Reason;
use crate::status::Status;
use dix_base::{Failed, Sink};
use report_text::write_out;

/// Writes the text, and says what the call comes to.
pub fn finish<O: Sink>(out: &mut O, text: &[u8], status: Status) -> Status
    ensures written { Written status text.now (O.taken out.old) (O.taken out.new) (O.faults out.old) (O.faults out.new) result }
    ensures handed { IsPassedOn result (O.passed out.new) (O.taken out.new) }
{
    match write_out(out, text) {
        Ok(()) => status,
        Err(Failed) => Status::WriteFault,
    }
}

/// Writes the line of a refusal.
pub fn refuse<O: Sink, R: Reason>(out: &mut O, reason: R) -> Status
    ensures written { Written (R.ends reason) (R.says reason) (O.taken out.old) (O.taken out.new) (O.faults out.old) (O.faults out.new) result }
    ensures handed { IsPassedOn result (O.passed out.new) (O.taken out.new) }
{
    finish(out, reason.line().as_slice(), reason.status())
}

/// The status of a command that was done, by whether something failed or was found in it.
pub fn status_for(bad: bool) -> Status
    ensures { result ≡ done_status bad }
{
    if bad { Status::SomeBad } else { Status::Whole }
}
