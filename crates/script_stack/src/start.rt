//! The stack of a script.

ghost use Rattle.std.specs.Prelude.{IfOk};
ghost use Rattle.script_stack.specs.Beginning.{Begins, BlocksAreEnough, IsBoundTo, ReachesTheirs};

use script_lines::WordList;
use script_text::Script;
use stack_core::{Setup, Stack};
use std::alloc::{AllocError, Global};
use volume_table::{DeviceInfo, VolumeTable};

/// A stack and the schedule of its steps.
#[derive(Drop)]
pub struct Run {
    pub stack: Stack,
    /// Of each step its word and its cut, as far as they are scheduled.
    pub schedule: WordList,
}

/// The stack of a script over a volume of these devices, none of whose ops has begun. Takes all the memory of the run.
///
/// The script suits a stack, and has no fault over the volume. A rig with these devices has the
/// blocks that the ops name, and room for as many exchanges and frames as there are blocks is enough.
pub fn start_script(
    alloc: Global,
    script: Script,
    table: VolumeTable,
    _devices: &[DeviceInfo],
) -> Result<Run, AllocError>
    requires { IsBoundTo script table _devices.now }
    ensures begins { IfOk result (Begins script table _devices.now) }
    ensures reaches { IfOk result (λ r. ReachesTheirs _devices.now r.stack) }
    ensures spare { IfOk result (λ r. BlocksAreEnough r.stack) }
{
    let Script {
        mode,
        limits,
        pages,
        faults,
        schedule,
        ops,
        ..
    } = script;
    let setup = Setup {
        table,
        mode,
        limits,
        pages,
        faults,
    };
    Ok(Run {
        stack: Stack::new(alloc, setup, ops)?,
        schedule,
    })
}
