//! Extents, and lists of them.

use crate::names::{add, out_of_range, place_text};
use crate::stripes::{legs_text, stripe_of};
use linear_volume::Linear;
use std::alloc::{AllocError, Global};
use test_table::{cut, number, small};
use volume_table::{Entry, EntryList};

/// The extent of four numbers: the first block, how many, the device and the address.
fn linear_of(words: &str) -> Linear {
    let (start, rest) = cut(words);
    let (len, rest) = cut(rest);
    let (dev, at) = cut(rest);
    Linear {
        start: number(start),
        len: number(len),
        dev: small(dev),
        at: number(at),
    }
}

/// Where a block of a linear extent lies, and how many of its blocks there are from it on.
pub(crate) fn linear_place(alloc: Global, words: &str) -> Result<String, AllocError> {
    let (v, extent) = cut(words);
    let (v, extent) = (number(v), linear_of(extent));
    if v < extent.start || v - extent.start >= extent.len {
        return out_of_range(alloc);
    }
    if v - extent.start > u64::MAX - extent.at {
        return out_of_range(alloc);
    }
    place_text(alloc, extent.place(v), extent.run_from(v))
}

fn entry_of(alloc: Global, text: &str) -> Result<Entry, AllocError> {
    let (word, words) = cut(text);
    if word == "linear" {
        return Ok(Entry::Linear(linear_of(words)));
    }
    Ok(Entry::Stripe(stripe_of(alloc, words)?))
}

/// The entries of a text, with semicolons between.
pub(crate) fn entries_of(alloc: Global, text: &str) -> Result<EntryList, AllocError> {
    let mut entries = Vec::new(alloc);
    for entry in text.split(';') {
        entries.push(entry_of(alloc, entry)?)?;
    }
    Ok(EntryList::from_vec(entries))
}

fn entry_text(alloc: Global, entry: &Entry) -> Result<String, AllocError> {
    match entry {
        Entry::Linear(linear) => {
            let Linear {
                start,
                len,
                dev,
                at,
            } = *linear;
            format!(in alloc; "linear {start} {len} {dev} {at}")
        }
        Entry::Stripe(stripe) => {
            let (start, len, chunk) = (stripe.start, stripe.len, stripe.chunk);
            let legs = legs_text(alloc, stripe.legs.as_slice())?;
            format!(in alloc; "stripe {start} {len} {chunk} {legs}")
        }
    }
}

pub(crate) fn entries_text(alloc: Global, list: &EntryList) -> Result<String, AllocError> {
    let mut text = String::new(alloc);
    for entry in list.as_slice() {
        add(&mut text, ";", entry_text(alloc, entry)?.as_str())?;
    }
    Ok(text)
}

/// The entries of a copy.
pub(crate) fn copied(alloc: Global, text: &str) -> Result<String, AllocError> {
    entries_text(alloc, &entries_of(alloc, text)?.copy(alloc)?)
}
