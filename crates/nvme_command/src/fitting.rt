//! Whether the metadata of lines fit their commands.

ghost use Rattle.std.specs.Prelude.{◌≡◌};
ghost use Rattle.nvme_command.specs.Fits.{fits, meta_wanted, misfit};

use crate::NvmLine;
use nvme_front::{NvmCommand, NvmFront};
use script_lines::ScriptKind;
use script_text::ScriptFault;

/// The bytes of metadata that a line needs: those of a write; a read takes none.
fn meta_wanted(command: &NvmCommand, meta: u32) -> u32
    ensures { result ≡ meta_wanted command.now meta }
{
    if command.is_write() { meta } else { 0 }
}

/// Whether the line has as many bytes of metadata as its command needs. Of a command that is refused
/// nothing is asked.
fn fits(front: &NvmFront, line: &NvmLine) -> bool
    ensures { result ≡ fits front.now line.now }
{
    match front.lengths(&line.sqe) {
        Ok((_, meta)) => {
            line.meta.as_slice().len() == meta_wanted(&NvmCommand::of(&line.sqe), meta) as usize
        }
        Err(_) => true,
    }
}

/// The first line whose metadata don't fit.
pub(crate) fn misfit(front: &NvmFront, lines: &[NvmLine]) -> Option<ScriptFault>
    ensures { result ≡ misfit front.now lines.now }
{
    for line in lines {
        if !fits(front, line) {
            return Some(ScriptFault {
                line: line.number,
                kind: ScriptKind::BadRange,
            });
        }
    }
    None
}
