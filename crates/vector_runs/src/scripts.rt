//! Which scripts have vectors.

ghost use Rattle.std.specs.Prelude.{◌≡◌};
ghost use Rattle.vector_runs.specs.Unplayed.{first_overwrite, unplayed, unplayed_line};

use fault_schedule::FaultLine;
use script_text::{Script, ScriptFault, ScriptKind};
use stack_ops::Op;

/// The line of the first op that alters a stored block behind the rig's back; each op has a line.
fn first_overwrite(lines: &[u32], ops: &[Op]) -> Option<u32>
    ensures { result ≡ first_overwrite lines.now ops.now }
{
    let mut rest = lines;
    let mut left = ops;
    while let Some((line, behind)) = rest.split_first() {
        let Some((op, more)) = left.split_first() else {
            return None;
        };
        if op.is_overwrite() {
            return Some(*line);
        }
        rest = behind;
        left = more;
    }
    None
}

/// The first line of a fault, which stands before all ops, or of an overwrite.
fn unplayed_line(lines: &[u32], faults: &[FaultLine], ops: &[Op]) -> Option<u32>
    ensures { result ≡ unplayed_line lines.now faults.now ops.now }
{
    match faults {
        [] => first_overwrite(lines, ops),
        [_, ..] => match lines {
            [] => None,
            [line, ..] => Some(*line),
        },
    }
}

/// The first line of a script for which there are no vectors: a fault, a shift, a lost or torn write, or an
/// overwrite. It acts behind the
/// commands, and a vector has nothing but a command.
pub fn unplayed(script: &Script) -> Option<ScriptFault>
    ensures { result ≡ unplayed script.now }
{
    match unplayed_line(
        script.lines.as_slice(),
        script.faults.as_slice(),
        script.ops.as_slice(),
    ) {
        Some(line) => Some(ScriptFault {
            line,
            kind: ScriptKind::BadFault,
        }),
        None => None,
    }
}
