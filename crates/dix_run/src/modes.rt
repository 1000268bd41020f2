//! The map of finders.

ghost use Rattle.std.specs.Prelude.{◌≡◌};
ghost use Rattle.dix_run.specs.Commands.{modes_work};
ghost use Rattle.call_verdict.specs.Verdicts.{EndedAs, IsPassedOn};
ghost use Rattle.dix_run.specs.Verdict.{Facts, LeavesSource, dix};

use crate::refusal::Refusal;
use call_verdict::{Status, finish, refuse};
use dix_base::Sink;
use mode_map::modes_text;
use pi_tuple::PiType;
use std::alloc::Global;

/// `modes T`: writes which layer finds a block altered, for each mode of units of this type. Neither
/// source nor rig is touched.
pub(crate) fn modes<O: Sink>(alloc: Global, ty: PiType, out: &mut O) -> Status
    ensures ended { (f : Facts) → f.rig_after ≡ f.rig → LeavesSource f
        → EndedAs dix (modes_work ty) f (O.taken out.old) (O.taken out.new) (O.faults out.old) (O.faults out.new) result }
    ensures handed { IsPassedOn result (O.passed out.new) (O.taken out.new) }
{
    match modes_text(alloc, ty) {
        Ok(text) => finish(out, &text, Status::Whole),
        Err(_) => refuse(out, Refusal::MEMORY),
    }
}
