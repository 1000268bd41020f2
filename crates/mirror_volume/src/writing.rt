//! A write: all its blocks go to leg 0, then all to leg 1.

ghost use Rattle.std.specs.Prelude.{◌≡◌, ◌*◌, IfOk, length};
ghost use Rattle.mirror_volume.specs.Plans.{IsPieceOf};
ghost use Rattle.mirror_volume.specs.Running.{CanRun, HasRunOnLegs};
ghost use Rattle.mirror_volume.specs.OnOps.{IsWriteOf, WroteBy, whole_request};

use crate::Piece;
use crate::legs::{Plan, write_piece};
use crate::marks::mark;
use crate::replies::{list_by_both, request_reply};
use mirror_laws::Marks;
use rig_api::Rig;
use stack_ops::Reply;
use std::alloc::{AllocError, Global};

/// Writes these data to all blocks of a request on both legs, marks them, and replies. `on0` is the whole request on leg 0.
pub(crate) fn write_request<R: Rig>(
    alloc: Global,
    plan: &Plan,
    marks: &mut [Marks],
    on0: Piece,
    app: u16,
    bytes: &[u8],
    used: &mut usize,
    rig: &mut R,
) -> Result<Reply, AllocError>
    requires ready { CanRun plan.now used.old (R.state rig.old) }
    requires piece { IsPieceOf plan.now on0 }
    requires whole { on0 ≡ whole_request on0.op on0.v on0.n }
    requires long { length bytes.now ≡ on0.n * plan.now.script.block }
    requires marks { length marks.old ≡ plan.now.half }
    ensures ran { HasRunOnLegs plan.now used.old used.new (R.state rig.old) (R.state rig.new) (IsWriteOf plan.now.script plan.now.half on0.op on0.v on0.n app bytes.now)
        (λ runs. IfOk result (WroteBy plan.now.script plan.now.half on0.op on0.v on0.n app bytes.now marks.old marks.new runs)) }
    ensures ready { CanRun plan.now used.new (R.state rig.new) }
    ensures marks { length marks.new ≡ length marks.old }
{
    let on1 = Piece { on1: true, ..on0 };
    let mut found0 = vec![in alloc; None; on0.n as usize]?;
    let mut found1 = vec![in alloc; None; on0.n as usize]?;
    write_piece(alloc, plan, on0, app, bytes, &mut found0, used, rig)?;
    write_piece(alloc, plan, on1, app, bytes, &mut found1, used, rig)?;
    mark(marks, on0.v as usize, &found0, &found1);
    list_by_both(&mut found0, &found1);
    request_reply(alloc, &found0)
}
