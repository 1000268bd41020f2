//! The text of a command's completion.

ghost use Rattle.std.specs.Prelude.{◌≡◌, ◌++◌, ◌∷◌, [], OnOk, codes};
ghost use Rattle.hex.specs.Hex.{encode_lower};
ghost use Rattle.nvme_front.specs.Completions.{is_success};
ghost use Rattle.nvme_command.specs.Replies.{brought, completion_text, meta_text, reply_line, reply_of};

use crate::NvmReply;
use nvme_front::{Completion, NvmCommand};
use pi_guard::crc16;
use std::alloc::{AllocError, Global};

fn add_byte(text: &mut Vec<u8>, byte: u8) -> Result<(), AllocError>
    ensures { OnOk result (text.new.items ≡ text.old.items ++ encode_lower (byte ∷ [])) }
{
    let mut digits = [0u8; 2];
    match hex::encode_to_slice([byte].as_slice(), &mut digits) {
        Ok(()) => text.extend_from_slice(&digits),
        Err(_) => unreachable!(),
    }
}

/// Adds the bytes in hexadecimal digits in lower case.
fn add_hex(alloc: Global, text: &mut Vec<u8>, bytes: &[u8]) -> Result<(), AllocError>
    ensures { OnOk result (text.new.items ≡ text.old.items ++ encode_lower bytes.now) }
{
    let digits = hex::encode(alloc, bytes)?;
    text.extend_from_slice(digits.as_bytes())
}

fn add_completion(text: &mut Vec<u8>, completion: Completion) -> Result<(), AllocError>
    ensures { OnOk result (text.new.items ≡ text.old.items ++ completion_text completion) }
{
    add_byte(text, completion.sct)?;
    text.extend_from_slice(b" ")?;
    add_byte(text, completion.sc)
}

/// Adds the metadata, or a hyphen where there are none.
fn add_meta(alloc: Global, text: &mut Vec<u8>, meta: &[u8]) -> Result<(), AllocError>
    ensures { OnOk result (text.new.items ≡ text.old.items ++ meta_text meta.now) }
{
    match meta {
        [] => text.extend_from_slice(b"-"),
        [..] => add_hex(alloc, text, meta),
    }
}

/// Adds the CRC of the data that were read, and the metadata.
fn add_brought(
    alloc: Global,
    text: &mut Vec<u8>,
    body: &[u8],
    meta: &[u8],
) -> Result<(), AllocError>
    ensures { OnOk result (text.new.items ≡ text.old.items ++ brought body.now meta.now) }
{
    text.extend_from_slice(b" ")?;
    add_hex(alloc, text, &crc16(body).to_be_bytes())?;
    text.extend_from_slice(b" ")?;
    add_meta(alloc, text, meta)
}

/// Whether it is 0h/00h.
pub(crate) fn is_success(completion: Completion) -> bool
    ensures { result ≡ is_success completion }
{
    completion.sct == 0 && completion.sc == 0
}

/// Adds the line of a command: its completion and, of a read that succeeded, what it brought.
pub(crate) fn add_reply(
    alloc: Global,
    text: &mut Vec<u8>,
    command: &NvmCommand,
    reply: &NvmReply,
) -> Result<(), AllocError>
    ensures { OnOk result (text.new.items ≡ text.old.items ++ reply_line (reply_of command.now reply.now)) }
{
    add_completion(text, reply.completion)?;
    if command.opcode == 2 && is_success(reply.completion) {
        add_brought(alloc, text, &reply.body, &reply.meta)?;
    }
    text.extend_from_slice(b"\n")
}
