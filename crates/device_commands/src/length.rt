//! How many bytes a command has, by its operation code.

ghost use Rattle.std.specs.Prelude.{◌≡◌};
ghost use Rattle.device_commands.specs.Lengths.{len_by, len_of};

fn len_by(group: u8) -> u32
    ensures { result ≡ len_by group }
{
    match group {
        0 => 6,
        1 | 2 => 10,
        4 => 16,
        5 => 12,
        _ => 0,
    }
}

/// How many bytes the command has that these bytes begin with, by its operation code (SPC-4, 4.2.5.1), whether or not it
/// is served; behind 7Fh by its additional length too. 0 where they don't tell it: there are none, fewer than 8 behind
/// 7Fh, or the operation code is a vendor's or reserved.
pub fn cdb_len(bytes: &[u8]) -> u32
    ensures { result ≡ len_of bytes.now }
{
    let Some(code) = bytes.first() else {
        return 0;
    };
    if *code != 0x7F {
        return len_by(*code / 32);
    }
    if bytes.len() < 8 {
        return 0;
    }
    8 + u32::from(bytes[7])
}
