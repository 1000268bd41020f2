//! The commands of a list, one after another.

ghost use Rattle.std.specs.Prelude.{◌≡◌, ◌*◌, ◌≤◌, [], true, IfOk, MatchResult, None, replicate};
ghost use Rattle.rig_api.specs.Frames.{sent_size};
ghost use Rattle.rig_api.specs.Requests.{blocks_of, transferred};
ghost use Rattle.vector_runs.specs.Done.{HaveDone, HaveDoneSome, VectorsStay, LineWasDone, room_by, room_of};
ghost use Rattle.vector_runs.specs.Ranges.{is_inside, out_of_range};

use cdb_codec::Cdb;
use rig_api::{Request, Rig, blocks_of, request_of, sent_size};
use std::alloc::{AllocError, Global};
use vector_lines::VectorLine;

/// The bytes that so many frames have.
#[tactic(auto, using(crate::proofs::Bounds::within))]
fn frames_len(n: u32, protect: u8, size: u32) -> usize
    requires { n ≤ 1024 }
    ensures { result ≡ n * sent_size protect size }
{
    n as usize * sent_size(protect, size)
}

fn room_by(size: u32, request: Request) -> usize
    requires { transferred request ≤ 1024 }
    ensures { result ≡ room_by size request }
{
    match request {
        Request::Read(c) => frames_len(c.n, c.protect, size),
        Request::Write(_) => 0,
        Request::Verify(_) => 0,
        Request::ReadCapacity(len) => len.min(32) as usize,
    }
}

/// The bytes that a command reads.
fn room_of(size: u32, cdb: &[u8]) -> usize
    requires { blocks_of cdb.now ≤ 1024 }
    ensures { result ≡ room_of size cdb.now }
{
    match Cdb::decode(cdb) {
        Ok(command) => room_by(size, request_of(command)),
        Err(_) => 0,
    }
}

fn zeros(alloc: Global, count: usize) -> Result<Vec<u8>, AllocError>
    ensures { IfOk result (λ v. v.items ≡ replicate count 0) }
{
    Ok(vec![in alloc; 0u8; count]?)
}

/// Does the command of a line.
fn do_line<R: Rig>(alloc: Global, line: &VectorLine, rig: &mut R) -> Result<(), AllocError>
    requires inside { is_inside (R.state rig.old).standing.devices line.now ≡ true }
    requires calm { (R.state rig.old).armed ≡ [] }
    ensures { let old = R.state rig.old in
        let new = R.state rig.new in
        MatchResult result (λ _. LineWasDone line.now old new) (λ _. VectorsStay old new) }
{
    let cdb = line.cdb.as_slice();
    let sent = line.out.as_slice();
    rig.reserve(alloc, 1, blocks_of(cdb))?;
    let mut held = zeros(alloc, room_of(rig.size(line.dev), cdb))?;
    let into = held.as_mut_slice();
    rig.exchange(line.dev, cdb, &[], sent, into);
    Ok(())
}

/// Does the commands of the lines, in order, each on its device as it stands: with room for what it reads, and
/// without labels. No fault is armed. Want of memory may come between two commands; then those before it are done.
pub fn do_list<R: Rig>(alloc: Global, lines: &[VectorLine], rig: &mut R) -> Result<(), AllocError>
    requires inside { out_of_range (R.state rig.old).standing.devices lines.now ≡ None }
    requires calm { (R.state rig.old).armed ≡ [] }
    ensures { let old = R.state rig.old in
        let new = R.state rig.new in
        MatchResult result (λ _. HaveDone lines.now old new) (λ _. HaveDoneSome lines.now old new) }
{
    for line in lines {
        do_line(alloc, line, rig)?;
    }
    Ok(())
}
