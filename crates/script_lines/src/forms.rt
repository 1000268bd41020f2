//! What a line says, by its first word.

ghost use Rattle.std.specs.Prelude.{◌≡◌, ◌≤◌, IfOk};
ghost use Rattle.script_lines.specs.Forms.{IsSound, line_form};
ghost use Rattle.script_lines.specs.Reading.{IsUnless, ended};
ghost use Rattle.script_lines.specs.declared.line.ScriptLine.{ScriptLine};
ghost use Rattle.pi_tuple.specs.declared.TheConstants.{LARGEST_BLOCK};

use crate::fault_lines::{fail_line, fault_line, lose_line, schedule_line, shift_line, tear_line};
use crate::header_lines::{block_line, expect_line, limits_line, mode_line, pages_line};
use crate::op_lines::{
    fill_line, overwrite_line, put_line, read_line, readpi_line, seal_line, show_line, wait_line,
    write_line, writepi_line,
};
use crate::volume_lines::{inner_line, linear_line, over_line, stripe_line};
use crate::{ScriptKind, ScriptLine, Verb, Words};
use std::alloc::Global;

fn begin_line(words: &mut Words) -> Result<ScriptLine, ScriptKind>
    ensures value { result ≡ ended ScriptLine.Begin words.old }
    ensures sound { IfOk result IsSound }
{
    words.end()?;
    Ok(ScriptLine::Begin)
}

/// The line that begins with this first word and goes on with these words, in a script of blocks
/// of this size, at most 4,096: its first fault from the left, or want of memory.
pub fn line_of(
    alloc: Global,
    verb: Verb,
    words: &mut Words,
    size: u32,
) -> Result<ScriptLine, ScriptKind>
    requires { size ≤ LARGEST_BLOCK }
    ensures value { IsUnless (line_form verb size words.old) result }
    ensures sound { IfOk result IsSound }
{
    match verb {
        Verb::Mode => mode_line(words),
        Verb::Limits => limits_line(words),
        Verb::Pages => pages_line(words),
        Verb::Block => block_line(words),
        Verb::Expect => expect_line(words),
        Verb::Inner => inner_line(words),
        Verb::Linear => linear_line(words),
        Verb::Stripe => stripe_line(alloc, words),
        Verb::Over => over_line(alloc, words),
        Verb::Fault => fault_line(words, size),
        Verb::Shift => shift_line(words),
        Verb::Lose => lose_line(words),
        Verb::Tear => tear_line(words, size),
        Verb::Fail => fail_line(words),
        Verb::Schedule => schedule_line(alloc, words),
        Verb::Begin => begin_line(words),
        Verb::Fill => Ok(ScriptLine::Op(fill_line(words)?)),
        Verb::Put => Ok(ScriptLine::Op(put_line(alloc, words)?)),
        Verb::Show => Ok(ScriptLine::Op(show_line(words)?)),
        Verb::Seal => Ok(ScriptLine::Op(seal_line(alloc, words)?)),
        Verb::Write => Ok(ScriptLine::Op(write_line(alloc, words)?)),
        Verb::Read => Ok(ScriptLine::Op(read_line(alloc, words)?)),
        Verb::WritePi => Ok(ScriptLine::Op(writepi_line(alloc, words)?)),
        Verb::ReadPi => Ok(ScriptLine::Op(readpi_line(alloc, words)?)),
        Verb::Overwrite => Ok(ScriptLine::Op(overwrite_line(words, size)?)),
        _ => Ok(ScriptLine::Op(wait_line(words)?)),
    }
}
