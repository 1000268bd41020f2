//! What a request replies.

ghost use Rattle.std.specs.Prelude.{◌≡◌, ◌<◌, ◌^◌, IfOk, length};
ghost use Rattle.walk_laws.specs.ScriptWalk.{bad_from, whole_or_bad};
ghost use Rattle.mirror_laws.specs.Mirror.{neither};
ghost use Rattle.mirror_laws.specs.OnLegs.{listed_written};
ghost use Rattle.mirror_volume.specs.LegRuns.{AreBelow, Fits, LastFits, found_by, found_in, noted};

use bio_core::Why;
use stack_ops::{BadBlock, BadList, Reply};
use std::alloc::{AllocError, Global};

/// The reply of a request, by what each of its blocks is listed with.
pub(crate) fn request_reply(alloc: Global, listed: &[Option<Why>]) -> Result<Reply, AllocError>
    requires { length listed.now < 2 ^ 32 }
    ensures { IfOk result (λ reply. reply ≡ whole_or_bad (bad_from 0 listed.now)) }
{
    let mut bad = Vec::new(alloc);
    for (k, found) in listed.iter().enumerate() {
        if let Some(why) = found {
            bad.push(BadBlock {
                k: k as u32,
                why: *why,
            })?;
        }
    }
    if bad.is_empty() {
        Ok(Reply::Whole)
    } else {
        Ok(Reply::Bad(BadList::from_vec(bad)))
    }
}

/// Notes of each listed block what was found of it.
fn note(blocks: &[BadBlock], found: &mut [Option<Why>])
    requires { AreBelow (length found.old) blocks.now }
    ensures { found.new ≡ noted blocks.now found.old }
{
    for bad in blocks {
        found[bad.k as usize] = Some(bad.why);
    }
}

/// Notes what is found of each block, by the reply of their request.
fn found_in(reply: &Reply, found: &mut [Option<Why>])
    requires { Fits (length found.old) reply.now }
    ensures { found.new ≡ found_in (length found.old) reply.now }
{
    found.fill(None);
    if let Reply::Bad(blocks) = reply {
        note(blocks.as_slice(), found);
    }
}

/// Notes what is found of each block of a request, by the replies of its own script, whose last op it is.
pub(crate) fn found_last(replies: &[Reply], found: &mut [Option<Why>])
    requires { LastFits replies.now (length found.old) }
    ensures { found.new ≡ found_by (length found.old) replies.now }
{
    let count = replies.len();
    if count > 0 {
        found_in(&replies[count - 1], found);
    } else {
        found.fill(None);
    }
}

/// What a block of a write is listed with, by what was found of it on each leg.
fn neither(why0: Option<Why>, why1: Option<Why>) -> Option<Why>
    ensures { result ≡ neither why0 why1 }
{
    if why1.is_none() { None } else { why0 }
}

/// Where neither leg accepted a block it is listed, with the finding of leg 0.
pub(crate) fn list_by_both(found0: &mut [Option<Why>], found1: &[Option<Why>])
    requires { length found1.now ≡ length found0.old }
    ensures { found0.new ≡ listed_written found0.old found1.now }
{
    for i in 0..found0.len() {
        found0[i] = neither(found0[i], found1[i]);
    }
}
