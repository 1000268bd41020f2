//! What is measured, again and again for callers in C that take the time. A slice is a pointer and a length there.
//!
//! But for the guards these have no contracts, since a clause can't tell how often something was done: that each round
//! does all is read in the source, and the programs in C look at the answers.
#![tactic(auto)]

ghost use Rattle.std.specs.Prelude.{◌≡◌};
ghost use Rattle.pi_guard.specs.Guards.{crc, ip};

mod alone;
mod exchanges;
mod gates;
mod groups;
mod payloads;
mod queues;
mod rig;
mod rounds;
mod run;
mod scripts;
mod targets;

use pi_guard::{GuardKind, crc16, ip_sum};
use rounds::Way;
use run::Words;
use std::alloc::Global;

/// The answer for want of memory, and for what isn't run.
const NONE: u32 = 0xffff_ffff;

/// The CRC guard of the bytes.
#[unsafe(no_mangle)]
pub extern "C" fn bench_crc16(bytes: &[u8]) -> u16
    ensures { result ≡ crc bytes.now }
{
    crc16(bytes)
}

/// The Internet checksum of the bytes.
#[unsafe(no_mangle)]
pub extern "C" fn bench_ip_sum(bytes: &[u8]) -> u16
    ensures { result ≡ ip bytes.now }
{
    ip_sum(bytes)
}

/// Makes the tuples of a request so many times, at least once: 2,048 blocks of 512 zeros in whole pages, with the CRC as
/// guard, or the Internet checksum. Answers the last block's guard, or 2^32 - 1 for want of memory.
#[unsafe(no_mangle)]
pub extern "C" fn bench_generate(alloc: Global, is_ip: bool, times: u32) -> u32 {
    let kind = if is_ip { GuardKind::Ip } else { GuardKind::Crc };
    match payloads::last_guard(alloc, kind, times) {
        Ok(guard) => u32::from(guard),
        Err(_) => NONE,
    }
}

/// Makes a gate for so many ops that touch so many segments each and don't conflict, and, where asked, lets them run.
/// Answers how many ended, or 2^32 - 1 for want of memory or too many ops.
#[unsafe(no_mangle)]
pub extern "C" fn bench_gate(alloc: Global, ops: u32, segs: u32, runs: bool) -> u32 {
    if ops == u32::MAX {
        return NONE;
    }
    gates::gate_run(alloc, ops, segs, runs).unwrap_or(NONE)
}

/// Puts so many groups of one block into a queue, a power of two, in a scattered order of addresses; joins them from both
/// ends to one; and takes it. Answers how many bios it had, or 2^32 - 1 for want of memory.
#[unsafe(no_mangle)]
pub extern "C" fn bench_queue(alloc: Global, groups: u32) -> u32 {
    queues::queue_run(alloc, groups).unwrap_or(NONE)
}

/// Writes or reads a unit of 1,024 blocks of 512 zeros in one command so many times, at least once. Answers how many
/// blocks the last one did, or 2^32 - 1 for want of memory; 0 where what was read isn't what was written.
#[unsafe(no_mangle)]
pub extern "C" fn bench_serve(alloc: Global, is_write: bool, times: u32) -> u32 {
    targets::blocks_done(alloc, is_write, times).unwrap_or(NONE)
}

/// Reads the text. Answers 0 where it is a script, else the number of the line at fault; 2^32 - 1 for want of memory.
#[unsafe(no_mangle)]
pub extern "C" fn bench_read(alloc: Global, text: &[u8]) -> u32 {
    scripts::line_at_fault(alloc, text).unwrap_or(NONE)
}

/// Makes the script of so many ops from this seed. Answers the number of lines that it has; 0 for want of memory, and for
/// more than 1,024 ops.
#[unsafe(no_mangle)]
pub extern "C" fn bench_big(alloc: Global, n: u32, seed: u32) -> usize {
    if n > 1024 {
        return 0;
    }
    scripts::lines_made(alloc, n, seed).unwrap_or(0)
}

/// Makes such a script and prints it. Answers the number of bytes; 0 as above.
#[unsafe(no_mangle)]
pub extern "C" fn bench_print(alloc: Global, n: u32, seed: u32) -> usize {
    if n > 1024 {
        return 0;
    }
    scripts::bytes_printed(alloc, n, seed).unwrap_or(0)
}

/// Carries a group of 1,024 blocks of 512 bytes of type 1 so many times: out, or in, with passed tuples whose guard in
/// the pages is the CRC or the Internet checksum. Answers how many blocks the last one found good, or 2^32 - 1 for want
/// of memory.
#[unsafe(no_mangle)]
pub extern "C" fn bench_carry(alloc: Global, is_write: bool, is_ip: bool, times: u32) -> u32 {
    rounds::carried(alloc, Way { is_write, is_ip }, times).unwrap_or(NONE)
}

/// Has the rig do the exchanges of so many of these rounds by itself. Answers how many blocks the last one did, or
/// 2^32 - 1 for want of memory.
#[unsafe(no_mangle)]
pub extern "C" fn bench_exchange(alloc: Global, is_write: bool, times: u32) -> u32 {
    exchanges::exchanged(alloc, is_write, times).unwrap_or(NONE)
}

/// Carries 1,024 requests of 16 blocks without a stack, in groups of so many requests, over the rig of `bench_run`, or
/// only looks at the groups. Answers how many blocks were found good, or how many there are.
#[unsafe(no_mangle)]
pub extern "C" fn bench_groups(alloc: Global, requests: u32, carries: bool) -> u32 {
    alone::carried(alloc, requests, carries).unwrap_or(NONE)
}

/// Makes the stack of a script over the second of eight devices, each of 65,536 blocks of 512 bytes, and lets it run to
/// its end under words of this number: 0 for none, 1 for `0/1` at every step, 2 for the last enabled step at every
/// step, 3 for the same once all blocks are cut one by one, 4 for 16,384 random words with cuts of 1; under any other
/// number it isn't run. Answers how many commands were sent, or 2^32 - 1 for a text that is no script over them.
#[unsafe(no_mangle)]
pub extern "C" fn bench_run(alloc: Global, text: &[u8], words: u32) -> u32 {
    match run::ended(alloc, text, Words::of(words)) {
        Ok(Some(sent)) => sent,
        _ => NONE,
    }
}
