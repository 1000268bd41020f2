//! Faults that a script has itself.

ghost use Rattle.std.specs.Prelude.{◌≡◌};
ghost use Rattle.flip_sweep.specs.Flips.{bad_at, overwrite_fault, own_fault};

use script_text::{Script, ScriptFault, ScriptKind};
use stack_ops::Op;

fn bad_at(line: u32) -> Option<ScriptFault>
    ensures { result ≡ bad_at line }
{
    Some(ScriptFault {
        line,
        kind: ScriptKind::BadFault,
    })
}

/// The first `overwrite` among these ops, whose lines have these numbers.
fn overwrite_fault(ops: &[Op], lines: &[u32]) -> Option<ScriptFault>
    ensures { result ≡ overwrite_fault ops.now lines.now }
{
    let mut rest = ops;
    let mut numbers = lines;
    while let Some((op, behind)) = rest.split_first() {
        let (line, more) = numbers.split_first()?;
        if op.is_overwrite() {
            return bad_at(*line);
        }
        rest = behind;
        numbers = more;
    }
    None
}

/// The fault of a script that has a `fault`, `shift` or `overwrite` line of its own: the first such line can't be.
pub fn own_fault(script: &Script) -> Option<ScriptFault>
    ensures { result ≡ own_fault script.now }
{
    let lines = script.lines.as_slice();
    if let (Some(_), Some(line)) = (script.faults.as_slice().first(), lines.first()) {
        return bad_at(*line);
    }
    overwrite_fault(script.ops.as_slice(), lines)
}
