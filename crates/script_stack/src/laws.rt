//! What the stack of a script comes to, once it has been run to its end.

ghost use Rattle.std.specs.Prelude.{◌≡◌, ◌*◌, ◌+◌, ℕ, List, Some, None, drop, length, map};
ghost use Rattle.fault_schedule.specs.declared.fault.FaultLine.{FaultLine};
ghost use Rattle.rig_api.specs.Target.{Stored};
ghost use Rattle.rig_api.specs.Log.{LogEntry};
ghost use Rattle.rig_api.specs.Telling.{Standing};
ghost use Rattle.script_run_laws.specs.Passed.{info_of};
ghost use Rattle.volume_table.specs.declared.device.DeviceInfo.{DeviceInfo as AnyDevice};
ghost use Rattle.volume_table.specs.Tables.{MadeFor, Table};
ghost use Rattle.dix_adapter.specs.Ways.{blocks_told, shapes_of};
ghost use Rattle.script_text.specs.declared.script.Script.{Script as AnyScript};
ghost use Rattle.script_text.specs.Bindings.{binding_fault};
ghost use Rattle.script_run_laws.specs.SuitsStack.{SuitsStack};
ghost use Rattle.script_run_laws.specs.Units.{AreStored};
ghost use Rattle.stack_core.specs.declared.stack.Stack.{Stack as AnyStack};
ghost use Rattle.stack_core.specs.Stacks.{IsFinished, IsStack};
ghost use Rattle.stack_core.specs.Mediums.{unscheduled_mediums};
ghost use Rattle.stack_core.specs.Walking.{NoneFailed, Walks, WalksFalling, WalksTold};
ghost use Rattle.script_stack.specs.Followed.{HasFallen, HasWalked, IsBackedBy, begun_of, failed_in, none_fails, setting_of, unit_of};
ghost use Rattle.page_pool.specs.declared.TheConstants.{PAGE};

use script_run_laws::{
    a_bound_script_is_bound_at_its_target, a_bound_script_is_bound_over_its_record,
    a_bound_script_takes_any_block_at_its_target,
};
use stack_core::{
    a_finished_stack_has_done_the_falling_walk, a_finished_stack_has_done_the_walk,
    a_finished_stack_is_backed, a_finished_stack_that_names_no_medium_has_followed_the_walk,
};

/// Over any rig, honest or not, the log of a script that was run to its end backs its replies.
pub fn a_script_run_is_backed()
    ensures { (s : AnyScript) (t : Table) (devices : List AnyDevice) (first : ℕ) (r : AnyStack) (st : Standing) (log : List LogEntry) → SuitsStack s → IsStack r → r.sheet.ops ≡ s.ops
        → ((blocks : List (List ℕ)) → Walks (setting_of s t (map unit_of devices) (failed_in r.replies.items)) (PAGE * s.pages) (begun_of s (map unit_of devices) blocks) first r st log)
        → IsFinished r → IsBackedBy s t devices (drop first log) r.replies.items }
{
    // By laws.
    a_bound_script_is_bound_over_its_record();
    a_finished_stack_is_backed();
}

/// Over a rig that tells its blocks, where no line of the replies names the medium but as fault lines say, or where no store
/// call failed, the script's ops were done one after another at the target.
pub fn a_told_script_run_has_walked()
    ensures calm { (s : AnyScript) (t : Table) (us left : List Stored) (first : ℕ) (r : AnyStack) (armed : List FaultLine) (st : Standing) (log : List LogEntry)
        → SuitsStack s → length s.lines ≡ length s.faults + length s.ops → MadeFor t (map info_of (shapes_of us)) s.block → binding_fault s t (map info_of (shapes_of us)) ≡ None
        → AreStored us → shapes_of left ≡ shapes_of us → IsStack r → r.sheet.ops ≡ s.ops
        → NoneFailed r.replies.items → WalksTold (setting_of s t (shapes_of us) none_fails) (PAGE * s.pages) (begun_of s (shapes_of us) (blocks_told us)) first r (Some left) armed st log
        → IsFinished r → HasWalked s t us left r.pool (drop first log) r.replies.items }
    ensures unnamed { (s : AnyScript) (t : Table) (us left : List Stored) (first : ℕ) (r : AnyStack) (armed : List FaultLine) (st : Standing) (log : List LogEntry)
        → SuitsStack s → length s.lines ≡ length s.faults + length s.ops → MadeFor t (map info_of (shapes_of us)) s.block → binding_fault s t (map info_of (shapes_of us)) ≡ None
        → AreStored us → shapes_of left ≡ shapes_of us → IsStack r → r.sheet.ops ≡ s.ops
        → unscheduled_mediums s.faults r.replies.items ≡ 0 → WalksFalling (setting_of s t (shapes_of us) none_fails) (PAGE * s.pages) (begun_of s (shapes_of us) (blocks_told us)) first r (Some left) armed st log
        → IsFinished r → HasWalked s t us left r.pool (drop first log) r.replies.items }
{
    // By laws.
    a_bound_script_is_bound_at_its_target();
    a_finished_stack_that_names_no_medium_has_followed_the_walk();
    a_finished_stack_has_done_the_walk();
}

/// And whatever lines name it, so they were but for what the store calls that failed left.
pub fn a_told_script_run_has_fallen()
    ensures { (s : AnyScript) (t : Table) (us left : List Stored) (first : ℕ) (r : AnyStack) (armed : List FaultLine) (st : Standing) (log : List LogEntry)
        → SuitsStack s → length s.lines ≡ length s.faults + length s.ops → MadeFor t (map info_of (shapes_of us)) s.block → binding_fault s t (map info_of (shapes_of us)) ≡ None
        → AreStored us → shapes_of left ≡ shapes_of us → IsStack r → r.sheet.ops ≡ s.ops
        → WalksFalling (setting_of s t (shapes_of us) (failed_in r.replies.items)) (PAGE * s.pages) (begun_of s (shapes_of us) (blocks_told us)) first r (Some left) armed st log
        → IsFinished r → HasFallen s t us left r.pool (drop first log) r.replies.items }
{
    // By laws.
    a_bound_script_is_bound_at_its_target();
    a_bound_script_takes_any_block_at_its_target();
    a_finished_stack_has_done_the_falling_walk();
}
