//! A script on a mirror, op by op.

ghost use Rattle.std.specs.Prelude.{IfErr, IfOk, IsTrue, List, Ok, [], false, is_err, length, true, ◌+◌, ◌<◌, ◌↔◌, ◌≡◌};
ghost use Rattle.mirror_volume.specs.Helds.{none_mended, so_far};
ghost use Rattle.mirror_volume.specs.Plans.{IsMirror, sides_of};
ghost use Rattle.mirror_volume.specs.Running.{CanGoOn, CanRun, DidNext, HasRunOnLegs};
ghost use Rattle.rig_api.specs.Target.{Stored};
ghost use Rattle.mirror_volume.specs.OnOps.{RanOp, whole_request};
ghost use Rattle.mirror_volume.specs.Mending.{IsRepairOf, RepairBy, stretches_in};
ghost use Rattle.mirror_volume.specs.Standing.{IsBoundMirror, RepairsAsWalk, StandsAt, op_at};

use crate::legs::{Plan, table_of};
use crate::marks::FRESH;
use crate::ops::do_op;
pub use crate::repair::Repair;
use crate::repair::{STRETCH, repair_stretch};
use crate::{
    Piece, a_repair_of_a_mirror_is_that_of_its_walk, an_op_of_a_mirror_goes_on_in_its_walk,
};
use mirror_laws::Marks;
use page_pool::PagePool;
use rig_api::Rig;
use script_text::Script;
use stack_ops::Reply;
use std::alloc::{AllocError, Global};
use volume_table::DeviceInfo;

/// What the ops of a mirror's script change besides the rig.
#[derive(Drop)]
pub(crate) struct State {
    pub(crate) pool: PagePool,
    /// Of each block of the mirror.
    pub(crate) marks: Vec<Marks>,
    /// How many entries of the schedule are used.
    pub(crate) used: usize,
}

/// A script on a mirror: its ops are done one after another, each request as stacks of its own on both legs.
#[derive(Drop)]
pub struct Mirror {
    plan: Plan,
    state: State,
    replies: Vec<Reply>,
    failed: bool,
}

/// All blocks of a request, on leg 0.
pub(crate) fn whole_request(op: u32, v: u64, n: u32) -> Piece
    ensures { result ≡ whole_request op v n }
{
    Piece {
        op,
        count: n,
        first: 0,
        n,
        v,
        on1: false,
    }
}

impl Mirror {
    /// The mirror of a script that is bound to it over these devices: none of its ops is done, and all blocks are fresh on
    /// both legs. Its one failure is want of memory.
    pub fn new(
        alloc: Global,
        script: Script,
        devices: Vec<DeviceInfo>,
    ) -> Result<Mirror, AllocError>
        requires bound { IsBoundMirror script devices.items }
        ensures mirror { IfOk result IsMirror }
        ensures script { IfOk result (λ r. r.plan.script ≡ script) }
        ensures devices { IfOk result (λ r. r.plan.devices.items ≡ devices.items) }
        ensures none { IfOk result (λ r. r.replies.items ≡ []) }
        ensures fine { IfOk result (λ r. r.failed ≡ false) }
        ensures unused { IfOk result (λ r. r.state.used ≡ 0) }
        ensures told { IfOk result (λ r. (us : List Stored) → StandsAt script devices.items us (sides_of r) [] us) }
    {
        let half = table_of(alloc, &script, devices.as_slice())?.len() / 2;
        let pool = PagePool::new(alloc, script.pages)?;
        let marks = vec![in alloc; FRESH; half as usize]?;
        let replies = Vec::with_capacity(alloc, script.ops.as_slice().len())?;
        Ok(Mirror {
            plan: Plan {
                script,
                devices,
                half,
            },
            state: State {
                pool,
                marks,
                used: 0,
            },
            replies,
            failed: false,
        })
    }

    /// Does the next op; false exactly where none is left, and then nothing is done.
    pub fn next<R: Rig>(&mut self, alloc: Global, rig: &mut R) -> Result<bool, AllocError>
        requires ready { CanGoOn self.old (R.state rig.old) }
        ensures mirror { IsMirror self.new }
        ensures plan { self.new.plan ≡ self.old.plan }
        ensures more { IfOk result (λ more. IsTrue more ↔ length self.old.replies.items < length self.old.plan.script.ops) }
        ensures ended { result ≡ Ok false → (self.new ≡ self.old) × (R.state rig.new ≡ R.state rig.old) }
        ensures failed { self.new.failed ≡ is_err result }
        ensures wanting { IfErr result (λ e. self.new.replies.items ≡ self.old.replies.items) }
        ensures op { RanOp self.old.plan.script self.old.plan.devices.items self.old.plan.half
            (length self.old.replies.items + 1) (op_at self.old.plan.script.ops (length self.old.replies.items))
            self.old.state.pool self.old.state.used self.new.state.used (R.state rig.old) (R.state rig.new)
            (λ runs. result ≡ Ok true → DidNext self.old self.new (R.state rig.old) (R.state rig.new) runs) }
    {
        // By laws.
        an_op_of_a_mirror_goes_on_in_its_walk();
        // The pages are whole, which the law asks.
        let _pages = self.state.pool.pages();
        let at = self.replies.len();
        if at == self.plan.script.ops.as_slice().len() {
            return Ok(false);
        }
        match do_op(alloc, &self.plan, &mut self.state, at, rig) {
            Ok(reply) => {
                self.replies.push_reserved(reply);
                Ok(true)
            }
            Err(wanting) => {
                self.failed = true;
                Err(wanting)
            }
        }
    }

    /// Looks at every block of both legs without faults, and where just one leg is good, writes the block to the other.
    pub fn repair<R: Rig>(&mut self, alloc: Global, rig: &mut R) -> Result<Repair, AllocError>
        requires ready { CanGoOn self.old (R.state rig.old) }
        ensures mirror { IsMirror self.new }
        ensures plan { self.new.plan ≡ self.old.plan }
        ensures replies { self.new.replies.items ≡ self.old.replies.items }
        ensures pages { self.new.state.pool ≡ self.old.state.pool }
        ensures failed { self.new.failed ≡ is_err result }
        ensures ran { HasRunOnLegs self.old.plan self.old.state.used self.new.state.used (R.state rig.old) (R.state rig.new)
            (IsRepairOf self.old.plan.script self.old.plan.half)
            (λ runs. IfOk result (λ done. RepairBy self.old.plan.script self.old.plan.half 0 (stretches_in self.old.plan.half)
            (none_mended self.old.state.marks.items) (so_far self.new.state.marks.items done) runs
            × RepairsAsWalk self.old.plan.script self.old.plan.devices.items (sides_of self.old) (R.state rig.old) (R.state rig.new)
            self.old.replies.items self.new.state.marks.items done.repaired done.lost runs)) }
    {
        // By laws.
        a_repair_of_a_mirror_is_that_of_its_walk();
        match repair_all(alloc, &self.plan, &mut self.state, rig) {
            Ok(done) => Ok(done),
            Err(wanting) => {
                self.failed = true;
                Err(wanting)
            }
        }
    }

    /// What each op that is done replied.
    pub fn replies(&self) -> &[Reply]
        ensures { result.now ≡ self.now.replies.items }
    {
        self.replies.as_slice()
    }

    /// The pages.
    pub fn pool(&self) -> &PagePool
        ensures { result.now ≡ self.now.state.pool }
    {
        &self.state.pool
    }

    /// Whether memory was wanting. Then ops before the one under way stand as they should, and blocks of that op may
    /// stand on one leg.
    pub fn failed(&self) -> bool
        ensures { result ≡ self.now.failed }
    {
        self.failed
    }
}

/// Repairs all blocks, stretch by stretch.
fn repair_all<R: Rig>(
    alloc: Global,
    plan: &Plan,
    state: &mut State,
    rig: &mut R,
) -> Result<Repair, AllocError>
    requires ready { CanRun plan.now state.old.used (R.state rig.old) }
    requires marks { length state.old.marks.items ≡ plan.now.half }
    ensures ran { HasRunOnLegs plan.now state.old.used state.new.used (R.state rig.old) (R.state rig.new) (IsRepairOf plan.now.script plan.now.half)
        (λ runs. IfOk result (λ done. RepairBy plan.now.script plan.now.half 0 (stretches_in plan.now.half)
        (none_mended state.old.marks.items) (so_far state.new.marks.items done) runs)) }
    ensures ready { CanRun plan.now state.new.used (R.state rig.new) }
    ensures pages { state.new.pool ≡ state.old.pool }
    ensures marks { length state.new.marks.items ≡ length state.old.marks.items }
{
    let mut done = Repair {
        repaired: 0,
        lost: 0,
    };
    for i in 0..plan.half.div_ceil(STRETCH) {
        let at = STRETCH * i;
        let n = STRETCH.min(plan.half - at);
        let whole = whole_request(0, at, n as u32);
        repair_stretch(
            alloc,
            plan,
            &mut state.marks,
            whole,
            &mut done,
            &mut state.used,
            rig,
        )?;
    }
    Ok(done)
}
