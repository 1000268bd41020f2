//! What is found, in words.

ghost use Rattle.std.specs.Prelude.{◌≡◌, ◌+◌, ◌≤◌, ◌++◌, codes, decimal, length};
ghost use Rattle.pi_blocks.specs.Texts.{check_name, digits_of, ended, found_text};

use crate::Found;
use arrayvec::ArrayVec;

type Line = ArrayVec<u8, 128>;

fn add(line: &mut Line, piece: &[u8])
    requires { length line.old.items + length piece.now ≤ 128 }
    ensures { line.new.items ≡ line.old.items ++ piece.now }
{
    match line.try_extend_from_slice(piece) {
        Ok(()) => {}
        Err(_) => unreachable!(),
    }
}

fn add_number(line: &mut Line, number: u64)
    requires { length line.old.items + 40 ≤ 128 }
    ensures items { line.new.items ≡ line.old.items ++ decimal number }
    ensures bound { length line.new.items ≤ length line.old.items + 40 }
{
    let mut buffer = itoa::Buffer::new();
    add(line, buffer.format(number).as_bytes());
}

fn add_digits(line: &mut Line, check: u32, value: u32)
    requires { length line.old.items + 8 ≤ 128 }
    ensures items { line.new.items ≡ line.old.items ++ digits_of check value }
    ensures bound { length line.new.items ≤ length line.old.items + 8 }
{
    let mut digits = [0u8; 8];
    let bytes = value.to_be_bytes();
    if check == 8 || value >= 0x1_0000 {
        match hex::encode_to_slice(&bytes, &mut digits) {
            Ok(()) => add(line, &digits),
            Err(_) => unreachable!(),
        }
    } else {
        let (four, _) = digits.split_at_mut(4);
        match hex::encode_to_slice(&(value as u16).to_be_bytes(), four) {
            Ok(()) => add(line, four),
            Err(_) => unreachable!(),
        }
    }
}

/// The name of the check that has this flag; "no check" of any other number.
pub fn check_name(check: u32) -> &'static [u8]
    ensures name { result.now ≡ check_name check }
    ensures short { length result.now ≤ 15 }
{
    match check {
        2 => b"guard",
        4 => b"application tag",
        8 => b"reference tag",
        _ => b"no check",
    }
}

fn line_of(found: &Found) -> Line
    ensures { result.items ≡ found_text found.now }
{
    let mut line = Line::new();
    add(&mut line, b"block ");
    add_number(&mut line, found.block);
    add(&mut line, b": ");
    add(&mut line, check_name(found.check));
    add(&mut line, b" wanted ");
    add_digits(&mut line, found.check, found.expected);
    add(&mut line, b", has ");
    add_digits(&mut line, found.check, found.actual);
    line
}

/// Writes a text to the front of `out` and a byte of 0 behind it, as much of it as there is room for, and answers how many
/// bytes it has. The rest of `out` stays, and all of it where it has no byte.
pub fn write_ended(text: &[u8], out: &mut [u8])
    ensures { out.new ≡ ended text.now out.old }
{
    if out.is_empty() {
        return;
    }
    let len = text.len().min(out.len() - 1);
    out[..len].copy_from_slice(&text[..len]);
    out[len] = 0;
}

/// Writes what was found, as "block 7: guard wanted f684, has bdb6", and answers how many bytes the text has, whatever
/// room there was. As with `snprintf`, it is cut where it doesn't fit, and ended by a byte of 0 wherever there is room.
pub fn found_text(found: &Found, out: &mut [u8]) -> usize
    ensures len { result ≡ length (found_text found.now) }
    ensures text { out.new ≡ ended (found_text found.now) out.old }
{
    let line = line_of(found);
    write_ended(line.as_slice(), out);
    line.len()
}
