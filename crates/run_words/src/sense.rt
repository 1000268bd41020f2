//! Outcomes in words.

ghost use Rattle.std.specs.Prelude.{◌≡◌, ◌+◌, ◌≤◌, ◌++◌, length};
ghost use Rattle.run_words.specs.Commands.{check_words, code_words, info_words, key_words, other_words, outcome_words, plain_words, sense_words};

use report_text::{Line, add, add_hex, add_number};
use rig_api::Outcome;
use sense_codes::Sense;
use sense_codes::codes::{
    ABORTED_COMMAND, ILLEGAL_REQUEST, INVALID_FIELD, INVALID_OPCODE, MEDIUM_ERROR, OUT_OF_RANGE,
    PROTECTION, UNRECOVERED_READ, WRITE_ERROR,
};

/// Adds the name of a sense key.
fn add_key(line: &mut Line, key: u8)
    requires { length line.old.items ≤ 128 }
    ensures items { line.new.items ≡ line.old.items ++ key_words key }
    ensures bound { length line.new.items ≤ length line.old.items + 32 }
{
    match key {
        MEDIUM_ERROR => add(line, b"MEDIUM ERROR"),
        ILLEGAL_REQUEST => add(line, b"ILLEGAL REQUEST"),
        ABORTED_COMMAND => add(line, b"ABORTED COMMAND"),
        _ => {
            add(line, b"key ");
            add_hex(line, &[key]);
        }
    }
}

/// Adds an additional sense code and its qualifier, which have no name here.
fn add_other(line: &mut Line, asc: u8, ascq: u8)
    requires { length line.old.items ≤ 256 }
    ensures items { line.new.items ≡ line.old.items ++ other_words asc ascq }
    ensures bound { length line.new.items ≤ length line.old.items + 48 }
{
    add(line, b"asc ");
    add_hex(line, &[asc]);
    add(line, b" ascq ");
    add_hex(line, &[ascq]);
}

/// Adds a check of protection information that failed.
fn add_check(line: &mut Line, asc: u8, ascq: u8)
    requires { length line.old.items ≤ 256 }
    ensures items { line.new.items ≡ line.old.items ++ check_words asc ascq }
    ensures bound { length line.new.items ≤ length line.old.items + 48 }
{
    match ascq {
        0x01 => add(line, b"guard check failed"),
        0x02 => add(line, b"application tag check failed"),
        0x03 => add(line, b"reference tag check failed"),
        _ => add_other(line, asc, ascq),
    }
}

/// Adds a code with the qualifier 00h.
fn add_plain(line: &mut Line, asc: u8, ascq: u8)
    requires { length line.old.items ≤ 256 }
    ensures items { line.new.items ≡ line.old.items ++ plain_words asc ascq }
    ensures bound { length line.new.items ≤ length line.old.items + 48 }
{
    match asc {
        INVALID_OPCODE => add(line, b"invalid command operation code"),
        OUT_OF_RANGE => add(line, b"logical block address out of range"),
        INVALID_FIELD => add(line, b"invalid field in cdb"),
        UNRECOVERED_READ => add(line, b"unrecovered read error"),
        WRITE_ERROR => add(line, b"write error"),
        _ => add_other(line, asc, ascq),
    }
}

/// Adds what an additional sense code and its qualifier say.
fn add_code(line: &mut Line, asc: u8, ascq: u8)
    requires { length line.old.items ≤ 256 }
    ensures items { line.new.items ≡ line.old.items ++ code_words asc ascq }
    ensures bound { length line.new.items ≤ length line.old.items + 48 }
{
    if asc == PROTECTION {
        add_check(line, asc, ascq);
    } else if ascq == 0 {
        add_plain(line, asc, ascq);
    } else {
        add_other(line, asc, ascq);
    }
}

/// Adds the block that a sense speaks of, where it names one.
fn add_info(line: &mut Line, info: Option<u64>)
    requires { length line.old.items ≤ 384 }
    ensures items { line.new.items ≡ line.old.items ++ info_words info }
    ensures bound { length line.new.items ≤ length line.old.items + 64 }
{
    match info {
        None => {}
        Some(lba) => {
            add(line, b", at ");
            add_number(line, lba);
        }
    }
}

/// Adds a sense, where there is one.
fn add_sense(line: &mut Line, sense: Option<Sense>)
    requires { length line.old.items ≤ 64 }
    ensures items { line.new.items ≡ line.old.items ++ sense_words sense }
    ensures bound { length line.new.items ≤ 256 }
{
    match sense {
        None => {}
        Some(sense) => {
            add(line, b", ");
            add_key(line, sense.key);
            add(line, b", ");
            add_code(line, sense.asc, sense.ascq);
            add_info(line, sense.info);
        }
    }
}

/// What stands behind the words of a command.
pub(crate) fn outcome_line(outcome: Outcome) -> Line
    ensures { result.items ≡ outcome_words outcome }
{
    let mut line = Line::new();
    add(&mut line, b": done ");
    add_number(&mut line, u64::from(outcome.done));
    add_sense(&mut line, outcome.sense);
    add(&mut line, b"\n");
    line
}
