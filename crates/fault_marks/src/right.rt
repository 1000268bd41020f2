//! Scripts without a fault.

ghost use Rattle.std.specs.Prelude.{◌≡◌, ◌≤◌, ℕ, IfOk, length};
ghost use Rattle.fault_marks.specs.Texts.{all_asked, blocks_asked, right_text};

use crate::premises::add_premises;
use crate::texts::add_number;
use script_text::Script;
use stack_ops::Op;
use std::alloc::{AllocError, Global};

/// How many blocks an op asks for.
fn blocks_asked(op: &Op) -> u32
    ensures { result ≡ blocks_asked op.now }
{
    match op {
        Op::Write { n, .. } => *n,
        Op::Fetch { n, .. } => *n,
        Op::WritePi { n, .. } => *n,
        Op::FetchPi { n, .. } => *n,
        _ => 0,
    }
}

/// How many blocks all of these ops ask for.
fn all_asked(ops: &[Op]) -> u64
    requires { length ops.now ≤ 1024 }
    ensures { result ≡ all_asked ops.now }
{
    let mut blocks = 0u64;
    for op in ops {
        blocks += u64::from(blocks_asked(op));
    }
    blocks
}

/// What is said of a script without a fault: how many ops it has, how many blocks its requests ask for, how many
/// faults it schedules, and which premises of the theorems on a run it meets by its form.
pub fn right_text(alloc: Global, script: &Script) -> Result<Vec<u8>, AllocError>
    requires { length script.now.ops ≤ 1024 }
    ensures { IfOk result (λ v. v.items ≡ right_text script.now) }
{
    let ops = script.ops.as_slice();
    let mut out = Vec::new(alloc);
    out.extend_from_slice(b"right ops ")?;
    add_number(&mut out, ops.len() as u64)?;
    out.extend_from_slice(b" blocks ")?;
    add_number(&mut out, all_asked(ops))?;
    out.extend_from_slice(b" faults ")?;
    add_number(&mut out, script.faults.as_slice().len() as u64)?;
    out.extend_from_slice(b"\n")?;
    add_premises(alloc, &mut out, script)?;
    Ok(out)
}
