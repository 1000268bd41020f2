//! Command descriptor blocks as plain numbers.

use crate::words::short;
use cdb_codec::CdbFault;
use pi_blocks::CdbFields;
use std::alloc::{AllocError, Global};
use test_table::{Words, bytes_of, hex_of};

/// What is wrong with bytes or numbers.
pub(crate) fn refusal(alloc: Global, why: CdbFault) -> Result<String, AllocError> {
    String::from_str(
        alloc,
        match why {
            CdbFault::Opcode => "bad opcode",
            CdbFault::Field => "bad field",
            CdbFault::Length => "bad length",
        },
    )
}

/// The bytes of a command, and those behind them, which were ee.
pub(crate) fn encoded(alloc: Global, words: &mut Words) -> Result<String, AllocError> {
    let fields = CdbFields {
        op: words.small(),
        lba: words.number(),
        n: words.small(),
        rtag: words.small(),
        app: short(words.word()),
        mask: short(words.word()),
        protect: words.small(),
        flags: words.small(),
        group: words.small(),
        control: words.small(),
    };
    let mut out = [0xee; 32];
    match fields.encode(&mut out) {
        Ok(len) => {
            let bytes = hex_of(alloc, &out)?;
            format!(in alloc; "{len} {bytes}")
        }
        Err(why) => refusal(alloc, why),
    }
}

/// The command of bytes, in the words that `encoded` takes, or what is wrong with them.
pub(crate) fn decoded(alloc: Global, word: &str) -> Result<String, AllocError> {
    match CdbFields::decode(&bytes_of(alloc, word)?) {
        Ok(fields) => {
            let CdbFields {
                lba,
                op,
                n,
                rtag,
                app,
                mask,
                protect,
                flags,
                group,
                control,
            } = fields;
            format!(in alloc;
                "{op} {lba} {n} {rtag} {app} {mask} {protect} {flags} {group} {control}"
            )
        }
        Err(why) => refusal(alloc, why),
    }
}
