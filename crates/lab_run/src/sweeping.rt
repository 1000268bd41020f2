//! Sweeping a script.

ghost use Rattle.call_verdict.specs.Verdicts.{IsPassedOn};
ghost use Rattle.std.specs.Prelude.{◌≡◌, Some, IfOk};
ghost use Rattle.call_verdict.specs.Words.{word_bytes};
ghost use Rattle.dix_base.specs.Stores.{StoreState};
ghost use Rattle.rig_api.specs.State.{RigState};
ghost use Rattle.lab_run.specs.declared.command.Command.{Command};
ghost use Rattle.lab_run.specs.Grammar.{command_in};
ghost use Rattle.lab_run.specs.Calls.{on_input};
ghost use Rattle.lab_run.specs.Commands.{Came};
ghost use Rattle.lab_run.specs.Swept.{halt_status};

use crate::refusal::Refusal;
use call_verdict::{Status, UnitList, status_for};
use dix_base::{Sink, Source};
use flip_sweep::{Halt, Unswept, sweep_script};
use run_command::take_script;
use std::alloc::Global;

/// The status of a sweep that was broken off.
fn halt_status(halt: Halt) -> Status
    ensures { result ≡ halt_status halt }
{
    match halt {
        Halt::Memory => Status::Memory,
        Halt::Sink => Status::WriteFault,
    }
}

/// `sweep BYTE T:BLOCKS ..`: runs the script that the source gives in memory, once as it is and once for each byte that
/// may be altered, and writes who finds it.
pub(crate) fn sweep<S: Source, O: Sink>(
    alloc: Global,
    words: &[String],
    byte: u8,
    units: &UnitList,
    input: &mut S,
    out: &mut O,
) -> Result<Status, Refusal>
    requires { command_in (word_bytes words.now) ≡ Some (Command.Sweep byte units.now) }
    ensures came { (h : StoreState) (rig : RigState) (second : StoreState) → Came (Some (Command.Sweep byte units.now)) result
        (on_input (word_bytes words.now) h h (S.left input.old) (S.left input.new) (S.faults input.old) (S.faults input.new) rig second)
        (O.taken out.old) (O.taken out.new) (O.faults out.old) (O.faults out.new) }
    ensures handed { IfOk result (λ status. IsPassedOn status (O.passed out.new) (O.taken out.new)) }
{
    let _words = words;
    let script = take_script(alloc, input)?;
    match sweep_script(alloc, byte, units.as_slice(), &script, out) {
        Ok(unseen) => Ok(status_for(unseen)),
        Err(Unswept::Stopped(refusal)) => Err(Refusal::Stopped(refusal)),
        Err(Unswept::Halted(halt)) => Ok(halt_status(halt)),
    }
}
