//! The table of failures.

ghost use Rattle.std.specs.Prelude.{IfOk};
ghost use Rattle.call_verdict.specs.Verdicts.{Comes, IsPassedOn};
ghost use Rattle.lab_run.specs.Calls.{Facts};
ghost use Rattle.lab_run.specs.Failing.{failures_work};
ghost use Rattle.lab_run.specs.Texts.{lab};

use crate::refusal::Refusal;
use call_verdict::{Status, finish};
use dix_base::Sink;
use mode_map::failures_text;
use pi_tuple::PiType;
use std::alloc::Global;

/// `failures T`: writes who finds which failure, in each mode of units of this type.
pub(crate) fn failures<O: Sink>(alloc: Global, ty: PiType, out: &mut O) -> Result<Status, Refusal>
    ensures comes { (f : Facts) → Comes lab (failures_work ty) result f (O.taken out.old) (O.taken out.new) (O.faults out.old) (O.faults out.new) }
    ensures handed { IfOk result (λ status. IsPassedOn status (O.passed out.new) (O.taken out.new)) }
{
    match failures_text(alloc, ty) {
        Ok(text) => Ok(finish(out, &text, Status::Whole)),
        Err(_) => Err(Refusal::MEMORY),
    }
}
