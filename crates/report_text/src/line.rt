//! Short pieces of text.

ghost use Rattle.std.specs.Prelude.{◌≡◌, ◌+◌, ◌*◌, ◌≤◌, ◌++◌, length, decimal};
ghost use Rattle.hex.specs.Hex.{encode_lower};

use arrayvec::ArrayVec;

/// A piece of text of at most 512 bytes, on the stack.
pub type Line = ArrayVec<u8, 512>;

/// Puts a piece, for which there is room, behind the line.
pub fn add(line: &mut Line, piece: &[u8])
    requires { length line.old.items + length piece.now ≤ 512 }
    ensures { line.new.items ≡ line.old.items ++ piece.now }
{
    match line.try_extend_from_slice(piece) {
        Ok(()) => {}
        Err(_) => unreachable!(),
    }
}

/// Puts the decimal digits of a number behind the line.
pub fn add_number(line: &mut Line, number: u64)
    requires { length line.old.items + 40 ≤ 512 }
    ensures items { line.new.items ≡ line.old.items ++ decimal number }
    ensures bound { length line.new.items ≤ length line.old.items + 40 }
{
    let mut buffer = itoa::Buffer::new();
    add(line, buffer.format(number).as_bytes());
}

/// Puts the bytes behind the line, as hexadecimal digits in lower case.
pub fn add_hex(line: &mut Line, bytes: &[u8])
    requires few { length bytes.now ≤ 64 }
    requires room { length line.old.items + 2 * length bytes.now ≤ 512 }
    ensures items { line.new.items ≡ line.old.items ++ encode_lower bytes.now }
    ensures len { length line.new.items ≡ length line.old.items + 2 * length bytes.now }
{
    let mut digits = [0u8; 128];
    let (part, _) = digits.split_at_mut(2 * bytes.len());
    match hex::encode_to_slice(bytes, part) {
        Ok(()) => add(line, part),
        Err(_) => unreachable!(),
    }
}
