//! Hexadecimal digits of a few bytes.

ghost use Rattle.std.specs.Prelude.{◌≡◌, ◌+◌, ◌*◌, ◌≤◌, ◌++◌, length};
ghost use Rattle.hex.specs.Hex.{encode_lower};

use report_text::{Line, add};

/// Puts at most four bytes behind the line, as hexadecimal digits in lower case. Of a line for each block the room of
/// more would cost what the line does.
pub(crate) fn add_hex(line: &mut Line, bytes: &[u8])
    requires few { length bytes.now ≤ 4 }
    requires room { length line.old.items + 8 ≤ 512 }
    ensures items { line.new.items ≡ line.old.items ++ encode_lower bytes.now }
    ensures len { length line.new.items ≡ length line.old.items + 2 * length bytes.now }
{
    let mut digits = [0u8; 8];
    let (part, _) = digits.split_at_mut(2 * bytes.len());
    match hex::encode_to_slice(bytes, part) {
        Ok(()) => add(line, part),
        Err(_) => unreachable!(),
    }
}
