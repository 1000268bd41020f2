//! Scripts from a number.

use crate::reading::{numbers_text, wanted};
use pi_guard::crc16;
use script_text::{Script, ScriptKind, big_script, print_script, read_script};
use std::alloc::{AllocError, Global};
use test_table::{cut, hex_of, small, text_of};

/// How many bytes are printed of a script, and their CRC.
fn sum(alloc: Global, script: &Script) -> Result<String, AllocError> {
    let text = print_script(alloc, script)?;
    let count = text.as_slice().len();
    let crc = hex_of(alloc, &crc16(text.as_slice()).to_be_bytes())?;
    format!(in alloc; "{count} {crc}")
}

/// Whether the same is printed of what is printed of a script and read, and its lines have the same numbers.
fn again(alloc: Global, script: &Script) -> Result<String, AllocError> {
    let text = print_script(alloc, script)?;
    let Ok(read) = read_script(alloc, text.as_slice()) else {
        return String::from_str(alloc, "not read");
    };
    if read.lines.as_slice() != script.lines.as_slice() {
        return String::from_str(alloc, "other lines");
    }
    wanted(
        alloc,
        print_script(alloc, &read)?.as_slice(),
        text.as_slice(),
    )
}

/// What a row asks of a script.
fn asked(alloc: Global, word: &str, script: &Script, rest: &str) -> Result<String, AllocError> {
    match word {
        "big" => wanted(
            alloc,
            print_script(alloc, script)?.as_slice(),
            &text_of(alloc, rest)?,
        ),
        "sum" => sum(alloc, script),
        "again" => again(alloc, script),
        _ => numbers_text(alloc, script),
    }
}

/// What comes of a row of the script of so many ops that a seed makes.
pub(crate) fn generated_row(alloc: Global, word: &str, words: &str) -> Result<String, AllocError> {
    if word == "memory" {
        let kind = ScriptKind::Memory;
        return format!(in alloc; "{} {}", kind.number(), kind.name());
    }
    let (n, rest) = cut(words);
    let (seed, rest) = cut(rest);
    let n = small(n);
    if n > 1024 {
        return String::from_str(alloc, "too many ops");
    }
    let script = big_script(alloc, n, small(seed))?;
    asked(alloc, word, &script, rest)
}
