//! The text of a scrub.

ghost use Rattle.std.specs.Prelude.{◌≡◌, ◌+◌, ◌≤◌, ◌++◌, IfOk, decimal, length};
ghost use Rattle.dix_run.specs.ScrubText.{all_blocks, found_line, has_some, last_line, scrub_text};

use pi_scrub::Found;
use report_text::{Line, add, add_number, add_why};
use std::alloc::{AllocError, Global};
use volume_table::DeviceInfo;

/// As `add_number`, for a sum that 64 bits may not hold.
fn add_wide(line: &mut Line, number: u128)
    requires { length line.old.items + 40 ≤ 512 }
    ensures items { line.new.items ≡ line.old.items ++ decimal number }
    ensures bound { length line.new.items ≤ length line.old.items + 40 }
{
    let mut buffer = itoa::Buffer::new();
    add(line, buffer.format(number).as_bytes());
}

/// The line of a block at fault.
fn line_of(found: Found) -> Line
    ensures { result.items ≡ found_line found }
{
    let mut line = Line::new();
    add(&mut line, b"bad ");
    add_number(&mut line, u64::from(found.dev));
    add(&mut line, b" ");
    add_number(&mut line, found.lba);
    add(&mut line, b" ");
    add_why(&mut line, found.why);
    add(&mut line, b"\n");
    line
}

/// The last line: how many blocks there are, and how many of them are at fault.
fn last_line(blocks: u128, bad: usize) -> Line
    ensures { result.items ≡ last_line blocks bad }
{
    let mut line = Line::new();
    add(&mut line, b"scrubbed ");
    add_wide(&mut line, blocks);
    add(&mut line, b" bad ");
    add_number(&mut line, bad as u64);
    add(&mut line, b"\n");
    line
}

/// The blocks of at most eight devices together.
fn all_blocks(devices: &[DeviceInfo]) -> u128
    requires { length devices.now ≤ 8 }
    ensures { result ≡ all_blocks devices.now }
{
    let mut sum = 0u128;
    for device in devices {
        sum += device.blocks as u128;
    }
    sum
}

/// The text of a scrub of these devices, at most eight, that found these blocks.
pub(crate) fn scrub_text(
    alloc: Global,
    devices: &[DeviceInfo],
    found: &[Found],
) -> Result<Vec<u8>, AllocError>
    requires { length devices.now ≤ 8 }
    ensures { IfOk result (λ v. v.items ≡ scrub_text devices.now found.now) }
{
    let mut text = Vec::new(alloc);
    text.extend_from_slice(b"dix scrub 1\n")?;
    for one in found {
        text.extend_from_slice(line_of(*one).as_slice())?;
    }
    text.extend_from_slice(last_line(all_blocks(devices), found.len()).as_slice())?;
    Ok(text)
}

/// Whether some block is at fault.
pub(crate) fn has_some(found: &[Found]) -> bool
    ensures { result ≡ has_some found.now }
{
    match found {
        [] => false,
        [..] => true,
    }
}
