//! The steps of a stack, to the end.

ghost use Rattle.std.specs.Prelude.{◌≡◌, ◌≤◌, length};
ghost use Rattle.rig_api.specs.State.{Stays as RigStays};
ghost use Rattle.stack_core.specs.Going.{StandsOver, Went};
ghost use Rattle.stack_core.specs.Stacks.{GoesOn, HasStep, IsFinished, StackStays, plan_in};
ghost use Rattle.script_stack.specs.Sends.{SendsBy, entries_of};

use rig_api::Rig;
use stack_core::Stack;

/// Does the steps of these words and cuts, as far as steps are left.
fn run_schedule<R: Rig>(stack: &mut Stack, schedule: &[(u32, u32)], rig: &mut R)
    requires { StandsOver stack.old (R.state rig.old) }
    ensures stands { StandsOver stack.new (R.state rig.new) }
    ensures stays { StackStays stack.old stack.new }
    ensures rig { RigStays (R.state rig.old) (R.state rig.new) }
    ensures goes { GoesOn (R.state rig.old) (R.state rig.new) }
    ensures went { Went stack.old (R.state rig.old) stack.new (R.state rig.new) }
    ensures sends { stack.old.machine.steps ≡ 0 → SendsBy (entries_of schedule.now) stack.old stack.new (R.state rig.old).log (R.state rig.new).log }
    ensures long { stack.old.machine.steps ≡ 0 → HasStep (plan_in stack.new.sheet) stack.new.machine → length schedule.now ≤ stack.new.machine.steps }
{
    for (word, cut) in schedule {
        if stack.finished() {
            return;
        }
        stack.step(*word, *cut, rig);
    }
}

/// Lets all ops of a stack come to their ends: by the steps of these words and cuts, then always by the first step that
/// may be taken.
pub fn run_all<R: Rig>(stack: &mut Stack, schedule: &[(u32, u32)], rig: &mut R)
    requires { StandsOver stack.old (R.state rig.old) }
    ensures stands { StandsOver stack.new (R.state rig.new) }
    ensures stays { StackStays stack.old stack.new }
    ensures rig { RigStays (R.state rig.old) (R.state rig.new) }
    ensures goes { GoesOn (R.state rig.old) (R.state rig.new) }
    ensures went { Went stack.old (R.state rig.old) stack.new (R.state rig.new) }
    ensures ended { IsFinished stack.new }
    ensures sends { stack.old.machine.steps ≡ 0 → SendsBy (entries_of schedule.now) stack.old stack.new (R.state rig.old).log (R.state rig.new).log }
{
    run_schedule(stack, schedule, rig);
    while !stack.finished() {
        stack.step(0, 0, rig);
    }
}
