//! The script of a source.

ghost use Rattle.std.specs.Prelude.{◌≤◌, IfErr, IfOk};
ghost use Rattle.run_command.specs.Verdict.{CauseUntaken, HasRead};
ghost use Rattle.run_command.specs.Working.{IsSound};

use call_refusal::Refusal;
use dix_base::{Source, read_all};
use script_laws::a_read_script_keeps_the_rules;
use script_text::{Script, read_script};
use std::alloc::Global;

/// Reads the source to its end, but no further than one byte more than a script may have, and the script that it holds.
pub fn take_script<S: Source>(alloc: Global, source: &mut S) -> Result<Script, Refusal>
    ensures reads { IfOk result (λ s. HasRead s (S.left source.old) (S.left source.new) (S.faults source.old) (S.faults source.new)) }
    ensures sound { IfOk result (λ s. IsSound s) }
    ensures cause { IfErr result (λ r. CauseUntaken r (S.left source.old) (S.left source.new) (S.faults source.old) (S.faults source.new)) }
    ensures count { S.faults source.old ≤ S.faults source.new }
{
    let text = read_all(alloc, source)?;
    let script = read_script(alloc, &text)?;
    // By a law.
    a_read_script_keeps_the_rules(&text, &script);
    Ok(script)
}
