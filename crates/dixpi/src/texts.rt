//! What is found, and what a status says, in words.

ghost use Rattle.std.specs.Prelude.{◌≡◌, length};
ghost use Rattle.pi_blocks.specs.Texts.{check_name, ended, found_text};
ghost use Rattle.dixpi.specs.Texts.{status_text};

use pi_blocks::{Found, check_name, found_text, write_ended};

fn status_words(status: u32) -> &'static [u8]
    ensures { result.now ≡ status_text status }
{
    match status {
        0 => b"no block differs, or it is done",
        1 => b"a block differs",
        2 => b"the layout is none",
        3 => b"the length is none",
        4 => b"the operation code isn't served",
        5 => b"a field isn't served",
        _ => b"no status",
    }
}

/// Writes the name of the check that has this flag, "no check" of any other number, as `dixpi_found_text` writes.
#[unsafe(no_mangle)]
pub extern "C" fn dixpi_check_name(check: u32, out: &mut [u8]) -> u64
    ensures len { result ≡ length (check_name check) }
    ensures text { out.new ≡ ended (check_name check) out.old }
{
    let text = check_name(check);
    write_ended(text, out);
    text.len() as u64
}

/// Writes what a status says, as `dixpi_found_text` writes.
#[unsafe(no_mangle)]
pub extern "C" fn dixpi_status_text(status: u32, out: &mut [u8]) -> u64
    ensures len { result ≡ length (status_text status) }
    ensures text { out.new ≡ ended (status_text status) out.old }
{
    let text = status_words(status);
    write_ended(text, out);
    text.len() as u64
}

/// Writes what was found, as "block 7: guard wanted f684, has bdb6", and answers how many bytes the text has, whatever
/// room there was. As with `snprintf`, it is cut where it doesn't fit, and ended by a byte of 0 wherever there is room.
#[unsafe(no_mangle)]
pub extern "C" fn dixpi_found_text(found: &Found, out: &mut [u8]) -> u64
    ensures len { result ≡ length (found_text found.now) }
    ensures text { out.new ≡ ended (found_text found.now) out.old }
{
    found_text(found, out) as u64
}
