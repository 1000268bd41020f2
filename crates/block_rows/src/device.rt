//! Commands as initiators send them.

use crate::commands::refusal;
use crate::words::short;
use device_commands::{DeviceCommand, cdb_len, checks_asked};
use std::alloc::{AllocError, Global};
use test_table::{Words, bytes_of, hex_of};

/// How many bytes the command has that these begin with.
pub(crate) fn counted(alloc: Global, word: &str) -> Result<String, AllocError> {
    let len = cdb_len(&bytes_of(alloc, word)?);
    format!(in alloc; "{len}")
}

/// The bytes of a command, and those behind them, which were ee.
pub(crate) fn encoded(alloc: Global, words: &mut Words) -> Result<String, AllocError> {
    let command = DeviceCommand {
        op: words.small(),
        lba: words.number(),
        n: words.small(),
        rtag: words.small(),
        app: short(words.word()),
        mask: short(words.word()),
        protect: words.small(),
        flags: words.small(),
        bytchk: words.small(),
        dld: words.small(),
        group: words.small(),
        control: words.small(),
    };
    let mut out = [0xee; 32];
    match command.encode(&mut out) {
        Ok(len) => {
            let bytes = hex_of(alloc, &out)?;
            format!(in alloc; "{len} {bytes}")
        }
        Err(why) => refusal(alloc, why),
    }
}

/// The command that bytes begin with, in the words that `encoded` takes, or what is wrong with them.
pub(crate) fn decoded(alloc: Global, word: &str) -> Result<String, AllocError> {
    match DeviceCommand::decode(&bytes_of(alloc, word)?) {
        Ok(command) => {
            let DeviceCommand {
                lba,
                op,
                n,
                rtag,
                app,
                mask,
                protect,
                flags,
                bytchk,
                dld,
                group,
                control,
            } = command;
            format!(in alloc;
                "{op} {lba} {n} {rtag} {app} {mask} {protect} {flags} {bytchk} {dld} {group} {control}"
            )
        }
        Err(why) => refusal(alloc, why),
    }
}

/// The checks that a protect field asks for.
pub(crate) fn asked(alloc: Global, words: &mut Words) -> Result<String, AllocError> {
    let checks = checks_asked(words.small());
    format!(in alloc; "{checks}")
}
