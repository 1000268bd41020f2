//! Whether a rig can do the commands of a list.

ghost use Rattle.std.specs.Prelude.{◌≡◌};
ghost use Rattle.vector_runs.specs.Ranges.{asked, asked_of, is_inside, out_of_range};

use cdb_codec::Cdb;
use rig_api::{Request, Rig, request_of};
use script_lines::ScriptKind;
use script_text::ScriptFault;
use vector_lines::VectorLine;

/// A command of a list has at most this many blocks.
const MOST_BLOCKS: u32 = 1024;
/// A command block has at most this many bytes.
const LONGEST: usize = 32;

fn asked(request: Request) -> u32
    ensures { result ≡ asked request }
{
    match request {
        Request::Read(c) => c.n,
        Request::Write(c) => c.n,
        Request::Verify(c) => c.n,
        Request::ReadCapacity(_) => 0,
    }
}

/// The number of blocks that a command block asks for.
fn asked_of(cdb: &[u8]) -> u32
    ensures { result ≡ asked_of cdb.now }
{
    match Cdb::decode(cdb) {
        Ok(command) => asked(request_of(command)),
        Err(_) => 0,
    }
}

/// Whether the rig has the line's device, and its command has at most 1,024 blocks and 32 bytes.
fn is_inside(devices: u32, line: &VectorLine) -> bool
    ensures { result ≡ is_inside devices line.now }
{
    let cdb = line.cdb.as_slice();
    line.dev < devices && asked_of(cdb) <= MOST_BLOCKS && cdb.len() <= LONGEST
}

/// The first line whose device the rig hasn't, or whose command has more than 1,024 blocks (or 32 bytes, which no line
/// that was read has).
pub fn out_of_range<R: Rig>(rig: &R, lines: &[VectorLine]) -> Option<ScriptFault>
    ensures { result ≡ out_of_range (R.state rig.now).standing.devices lines.now }
{
    for line in lines {
        if !is_inside(rig.devices(), line) {
            return Some(ScriptFault {
                line: line.number,
                kind: ScriptKind::BadRange,
            });
        }
    }
    None
}
