//! NVM commands to the units of an image.

use nvme_command::{NvmReply, do_command, front_of};
use nvme_front::{Completion, NvmFront};
use pi_guard::crc16;
use rig_api::Rig;
use std::alloc::{AllocError, Global};
use test_table::{Words, bytes_of, hex_of};

/// The 64 bytes of a command, in pieces.
fn command_of(alloc: Global, word: &str) -> Result<Option<[u8; 64]>, AllocError> {
    let bytes = bytes_of(alloc, word)?;
    Ok(<[u8; 64]>::try_from(bytes.as_slice()).ok())
}

/// The lengths of a command's buffers, or its refusal.
fn lengths_text(alloc: Global, front: &NvmFront, sqe: &[u8; 64]) -> Result<String, AllocError> {
    match front.lengths(sqe) {
        Ok((data, meta)) => format!(in alloc; "{data} {meta}"),
        Err(Completion { sct, sc }) => {
            let status = hex_of(alloc, &[sct, sc])?;
            format!(in alloc; "refused {status}")
        }
    }
}

/// The front of a rig, whose image is opened first.
pub(crate) fn front<R: Rig>(alloc: Global, rig: &mut R) -> Option<NvmFront> {
    if let Ok(()) = rig.open(alloc, "n.img") {
        return front_of(alloc, rig).ok();
    }
    None
}

/// What a row about the lengths of a command comes to.
pub(crate) fn lengths(
    alloc: Global,
    front: &Option<NvmFront>,
    word: &str,
) -> Result<Option<String>, AllocError> {
    match (front, command_of(alloc, word)?) {
        (Some(front), Some(sqe)) => Ok(Some(lengths_text(alloc, front, &sqe)?)),
        _ => Ok(None),
    }
}

/// Does a command on a rig, whose image is opened first.
fn done<R: Rig>(
    alloc: Global,
    rig: &mut R,
    sqe: &[u8; 64],
    fill: u8,
    meta: &[u8],
) -> Result<Option<NvmReply>, AllocError> {
    if let Ok(()) = rig.open(alloc, "n.img") {
        if let Ok(mut front) = front_of(alloc, rig) {
            return Ok(Some(do_command(alloc, &mut front, sqe, fill, meta, rig)?));
        }
    }
    Ok(None)
}

/// Status code type and status code, the CRC of the data, and the metadata.
fn reply_text(alloc: Global, reply: &NvmReply) -> Result<String, AllocError> {
    let status = hex_of(alloc, &[reply.completion.sct, reply.completion.sc])?;
    let guard = hex_of(alloc, &crc16(&reply.body).to_be_bytes())?;
    let meta = hex_of(alloc, &reply.meta)?;
    format!(in alloc; "{status} {guard} [{meta}]")
}

/// What a row about a command comes to. Behind the command stand the byte of its data and its metadata.
pub(crate) fn answer<R: Rig>(
    alloc: Global,
    rig: &mut R,
    rest: &str,
) -> Result<Option<String>, AllocError> {
    let mut words = Words::of(rest);
    let Some(sqe) = command_of(alloc, words.word())? else {
        return Ok(None);
    };
    let fill = (words.small() % 256) as u8;
    let meta = bytes_of(alloc, words.word())?;
    match done(alloc, rig, &sqe, fill, &meta)? {
        Some(reply) => Ok(Some(reply_text(alloc, &reply)?)),
        None => Ok(None),
    }
}
