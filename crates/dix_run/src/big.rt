//! The run of a script that numbers make.

ghost use Rattle.std.specs.Prelude.{◌≡◌, ◌≤◌};
ghost use Rattle.dix_run.specs.Commands.{big_work};
ghost use Rattle.call_verdict.specs.Verdicts.{EndedAs, IsPassedOn};
ghost use Rattle.dix_run.specs.Verdict.{Facts, LeavesSource, dix};

use crate::refusal::Refusal;
use big_run::{big_text, run_big};
use call_verdict::{Status, finish, refuse, status_for};
use dix_base::Sink;
use std::alloc::Global;

/// `big N SEED`: runs the script that the two numbers make over two units in memory, and writes six
/// lines on it. Neither source nor rig is touched.
pub(crate) fn big<O: Sink>(alloc: Global, n: u32, seed: u32, out: &mut O) -> Status
    requires { n ≤ 1024 }
    ensures ended { (f : Facts) → f.rig_after ≡ f.rig → LeavesSource f
        → EndedAs dix (big_work n seed) f (O.taken out.old) (O.taken out.new) (O.faults out.old) (O.faults out.new) result }
    ensures handed { IsPassedOn result (O.passed out.new) (O.taken out.new) }
{
    match run_big(alloc, n, seed) {
        Ok(run) => finish(
            out,
            big_text(n, seed, run).as_slice(),
            status_for(run.has_bad),
        ),
        Err(_) => refuse(out, Refusal::MEMORY),
    }
}
