//! Stores. The functions that use the trait know nothing else of an object, and are proved from the trait alone.

ghost use Rattle.std.specs.Prelude.{◌≡◌, ◌+◌, ◌-◌, ◌^◌, min, ◌≤◌, length, IsErrOf, OnErr, OnOk};
ghost use Rattle.dix_base.specs.Stores.{IsCounted, WasWritten};
ghost use Rattle.dix_base.specs.Told.{Apart, Becomes, Begins, Rose};

use crate::names::{add, none};
use crate::sources::numbers;
use dix_base::{CalmStore, Failed, MemStore, Store, StoreFault};
use std::alloc::{AllocError, Global};
use test_table::{bytes_of, cut, hex_of, small};

/// Writes the piece over what is there, and reads it back.
fn stamp<S: Store>(store: &mut S, at: u64, piece: &[u8], into: &mut [u8]) -> Result<(), Failed>
    requires inside { at + length piece.now ≤ (S.state store.old).length }
    requires within { length into.old ≤ length piece.now }
    ensures apart { Becomes (Apart at (length piece.now)) (S.state store.old).bytes (S.state store.new).bytes }
    ensures stays { WasWritten (S.state store.old) (S.state store.new) }
    ensures counted { IsCounted result (S.state store.old) (S.state store.new) }
{
    store.write_at(at, piece)?;
    store.read_at(at, into)
}

/// Opens the content, writes the piece at byte 1 and reads what is there then. It does nothing to
/// a content that is shorter.
fn exchange<S: Store>(
    store: &mut S,
    name: String,
    piece: &[u8],
    into: &mut [u8],
) -> Result<u64, Failed>
    ensures opened { (S.state store.new).openings ≡ min ((S.state store.old).openings + 1) (2 ^ 64 - 1) }
    ensures cause { OnErr result (Rose (S.state store.old).faults (S.state store.new).faults) }
{
    let len = store.open(name)?;
    if len > 4 && piece.len() < 4 && into.len() <= piece.len() {
        stamp(store, 1, piece, into)?;
    }
    Ok(len)
}

fn add_to<S: Store>(store: &mut S, alloc: Global, piece: &[u8]) -> Result<(), StoreFault>
    ensures begins { Becomes Begins (S.state store.old).bytes (S.state store.new).bytes }
    ensures cause { IsErrOf result StoreFault.Failed → Rose (S.state store.old).faults (S.state store.new).faults }
    ensures memory { IsErrOf result StoreFault.Memory → (S.state store.new).bytes ≡ (S.state store.old).bytes }
{
    store.append(alloc, piece)
}

/// Makes the content of this name the piece.
fn refill<S: Store>(
    store: &mut S,
    alloc: Global,
    name: String,
    piece: &[u8],
) -> Result<(), StoreFault>
    ensures length { OnOk result ((S.state store.new).length ≡ length piece.now) }
    ensures cause { IsErrOf result StoreFault.Failed → Rose (S.state store.old).faults (S.state store.new).faults }
{
    match store.reset(name) {
        Ok(()) => store.append(alloc, piece),
        Err(Failed) => Err(StoreFault::Failed),
    }
}

fn done_text(alloc: Global, came: Result<(), StoreFault>) -> Result<String, AllocError> {
    match came {
        Ok(()) => String::from_str(alloc, "done"),
        Err(StoreFault::Failed) => String::from_str(alloc, "failed"),
        Err(StoreFault::Memory) => Err(AllocError),
    }
}

/// The length of the content and what is read back, by the piece and how many bytes are read.
fn exchanged<S: Store>(
    alloc: Global,
    store: &mut S,
    name: String,
    words: &str,
) -> Result<String, AllocError> {
    let (piece, len) = cut(words);
    let piece = bytes_of(alloc, piece)?;
    let mut buf = [0u8; 4];
    let into = &mut buf[..(small(len) as usize).min(4)];
    match exchange(store, name, &piece, into) {
        Ok(len) => {
            let bytes = hex_of(alloc, into)?;
            format!(in alloc; "{len} {bytes}")
        }
        Err(Failed) => String::from_str(alloc, "failed"),
    }
}

/// What comes of one call.
pub(crate) fn step<S: Store>(
    alloc: Global,
    store: &mut S,
    call: &str,
    name: String,
    words: &str,
) -> Result<String, AllocError> {
    match call {
        "exchange" => exchanged(alloc, store, name, words),
        "refill" => {
            let piece = bytes_of(alloc, words)?;
            done_text(alloc, refill(store, alloc, name, &piece))
        }
        "append" => done_text(alloc, add_to(store, alloc, &bytes_of(alloc, words)?)),
        _ => none(alloc),
    }
}

/// What comes of calls, one after another, each of a word and what it is of.
fn steps<S: Store>(alloc: Global, store: &mut S, steps: &str) -> Result<String, AllocError> {
    let mut text = String::new(alloc);
    for one in steps.split(';') {
        let (call, words) = cut(one);
        add(
            &mut text,
            step(alloc, store, call, String::new(alloc), words)?.as_str(),
        )?;
    }
    Ok(text)
}

/// What came, and the bytes that are held then.
pub(crate) fn with_held(alloc: Global, text: &str, held: &[u8]) -> Result<String, AllocError> {
    let bytes = hex_of(alloc, held)?;
    format!(in alloc; "{text};holds {bytes}")
}

/// A store in memory with these bytes, of which these calls fail.
fn store_of(alloc: Global, held: &str, fails: &str) -> Result<MemStore, AllocError> {
    let held = bytes_of(alloc, held)?;
    Ok(MemStore::new(held, numbers(alloc, fails)?))
}

/// What comes of the steps of a store in memory, and what it holds then.
fn kept(alloc: Global, held: &str, fails: &str, calls: &str) -> Result<String, AllocError> {
    let mut store = store_of(alloc, held, fails)?;
    let text = steps(alloc, &mut store, calls)?;
    with_held(alloc, text.as_str(), store.bytes())
}

/// The same of one of which no call fails.
fn kept_calm(alloc: Global, held: &str, calls: &str) -> Result<String, AllocError> {
    let mut store = CalmStore::new(bytes_of(alloc, held)?);
    let text = steps(alloc, &mut store, calls)?;
    with_held(alloc, text.as_str(), store.bytes())
}

/// What comes of a form, by its words, and its calls.
pub(crate) fn answer(alloc: Global, words: &str) -> Result<String, AllocError> {
    let (form, calls) = words.split_once(';').unwrap_or((words, ""));
    let (word, rest) = cut(form);
    let (held, fails) = cut(rest);
    if word == "calm" {
        kept_calm(alloc, held, calls)
    } else {
        kept(alloc, held, fails, calls)
    }
}
