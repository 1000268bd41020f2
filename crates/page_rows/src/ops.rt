//! What ops touch.

ghost use Rattle.std.specs.Prelude.{◌<◌, IfOk};
ghost use Rattle.stack_ops.specs.Footprints.{IsShortPut};

use crate::gates::waits;
use dix_base::ByteList;
use page_pool::{Seg, SgList};
use range_gate::Footprint;
use rig_api::Change;
use stack_ops::{Op, footprint_of};
use std::alloc::{AllocError, Global};
use test_groups::list_of;
use test_table::Words;

/// Where an op has its 512 bytes of data on page 0, its tuple on page 1, and its virtual block.
#[derive(Clone, Copy)]
struct Spot {
    data: u32,
    tuple: u32,
    block: u64,
}

fn one(alloc: Global, page: u32, off: u32, len: u32) -> Result<SgList, AllocError> {
    match list_of(alloc, &[Seg { page, off, len }])? {
        Some(list) => Ok(list),
        None => Err(AllocError),
    }
}

fn put(alloc: Global, off: u32) -> Result<Op, AllocError>
    ensures { IfOk result IsShortPut }
{
    let bytes = vec![in alloc; 7u8; 512]?;
    Ok(Op::Put {
        page: 0,
        off,
        bytes: ByteList::from_vec(bytes),
    })
}

/// An op that has data alone, or neither data nor tuples.
fn simple_of(alloc: Global, kind: &str, at: Spot) -> Result<Op, AllocError>
    ensures { IfOk result IsShortPut }
{
    let seg = Seg {
        page: 0,
        off: at.data,
        len: 512,
    };
    match kind {
        "fill" => Ok(Op::Fill { seg, byte: 7 }),
        "put" => put(alloc, at.data),
        "show" => Ok(Op::Show { seg }),
        "overwrite" => Ok(Op::Overwrite {
            dev: 0,
            lba: at.block,
            change: Change::Copy { dev: 0, lba: 0 },
        }),
        _ => Ok(Op::Wait),
    }
}

/// The op of this kind.
fn op_of(alloc: Global, kind: &str, at: Spot) -> Result<Op, AllocError>
    ensures { IfOk result IsShortPut }
{
    let body = one(alloc, 0, at.data, 512)?;
    let tuples = one(alloc, 1, at.tuple, 8)?;
    let (v, n) = (at.block, 1);
    match kind {
        "seal" => Ok(Op::Seal {
            n,
            body,
            tuples,
            app: 0,
            rtag: 0,
        }),
        "write" => Ok(Op::Write { v, n, body, app: 0 }),
        "fetch" => Ok(Op::Fetch { v, n, body }),
        "write-pi" => Ok(Op::WritePi { v, n, body, tuples }),
        "fetch-pi" => Ok(Op::FetchPi { v, n, body, tuples }),
        _ => simple_of(alloc, kind, at),
    }
}

/// What an op touches, by its words: kind, places of data and tuple, block, and whether a shift names it.
fn print_of(alloc: Global, words: &str) -> Result<Footprint, AllocError> {
    let mut words = Words::of(words);
    let kind = words.word();
    let at = Spot {
        data: words.small(),
        tuple: words.small(),
        block: words.number(),
    };
    let op = op_of(alloc, kind, at)?;
    footprint_of(alloc, &op, words.word() == "shifted")
}

fn clash(alloc: Global, rest: &str) -> Result<Option<String>, AllocError> {
    let Some((first, second)) = rest.split_once(" / ") else {
        return Ok(None);
    };
    let first = print_of(alloc, first)?;
    let second = print_of(alloc, second)?;
    let waits = waits(alloc, first, second)?;
    Ok(Some(format!(in alloc; "{waits}")?))
}

/// What a row about ops comes to.
pub(crate) fn answer(alloc: Global, word: &str, rest: &str) -> Result<Option<String>, AllocError> {
    match word {
        "ops" => clash(alloc, rest),
        "alone" => {
            let alone = print_of(alloc, rest)?.alone;
            Ok(Some(format!(in alloc; "{alone}")?))
        }
        _ => Ok(None),
    }
}
