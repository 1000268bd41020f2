//! Striped extents.

ghost use Rattle.std.specs.Prelude.{ℕ, ◌+◌, ◌^◌, ◌<◌, ◌≤◌, IsTrue, length, slice_index_or};
ghost use Rattle.stripe_volume.specs.Stripes.{AreApart, EndsFit, HasLegs, IsWhole};

use crate::names::{add, out_of_range, place_text};
use std::alloc::{AllocError, Global};
use stripe_volume::{Leg, LegList, Stripe};
use test_table::{cut, number, small};

/// Whether the stripe is as its calls require.
fn is_right(stripe: &Stripe) -> bool
    ensures legs { IsTrue result → HasLegs stripe.now }
    ensures whole { IsTrue result → IsWhole stripe.now }
    ensures apart { IsTrue result → AreApart stripe.now }
    ensures ends { IsTrue result → EndsFit stripe.now }
    ensures fits { IsTrue result → stripe.now.start + stripe.now.len ≤ 2 ^ 64 }
{
    let legs = stripe.legs.as_slice();
    let count = legs.len() as u64;
    let (start, len) = (stripe.start, stripe.len);
    if stripe.chunk == 0 || count == 0 || count > 8 || len == 0 {
        return false;
    }
    if len % (u64::from(stripe.chunk) * count) != 0 || len - 1 > u64::MAX - start {
        return false;
    }
    end_in_64_bits(legs, len / count) && stripe.is_apart()
}

fn end_in_64_bits(legs: &[Leg], len: u64) -> bool
    ensures { IsTrue result → (i : ℕ) → i < length legs.now → (slice_index_or legs.now i (record { dev = 0; at = 0 })).at + len ≤ 2 ^ 64 }
{
    for leg in legs {
        let at = leg.at;
        if len == 0 || len - 1 > u64::MAX - at {
            return false;
        }
    }
    true
}

/// The legs of a text, each a device and an address with / between, with commas between them.
fn legs_of(alloc: Global, text: &str) -> Result<LegList, AllocError> {
    let mut legs = Vec::new(alloc);
    for leg in text.split(',') {
        let (dev, at) = leg.split_once('/').unwrap_or((leg, ""));
        legs.push(Leg {
            dev: small(dev),
            at: number(at),
        })?;
    }
    Ok(LegList::from_vec(legs))
}

pub(crate) fn legs_text(alloc: Global, legs: &[Leg]) -> Result<String, AllocError> {
    let mut text = String::new(alloc);
    for leg in legs {
        let Leg { dev, at } = *leg;
        add(&mut text, ",", format!(in alloc; "{dev}/{at}")?.as_str())?;
    }
    Ok(text)
}

/// The legs of a copy.
pub(crate) fn copied(alloc: Global, text: &str) -> Result<String, AllocError> {
    legs_text(alloc, legs_of(alloc, text)?.copy(alloc)?.as_slice())
}

/// The stripe of four words: the first block, how many, the blocks of a chunk, and the legs.
pub(crate) fn stripe_of(alloc: Global, words: &str) -> Result<Stripe, AllocError> {
    let (start, rest) = cut(words);
    let (len, rest) = cut(rest);
    let (chunk, legs) = cut(rest);
    Ok(Stripe {
        start: number(start),
        len: number(len),
        chunk: small(chunk),
        legs: legs_of(alloc, legs)?,
    })
}

/// Where a block lies, and how many of its chunk there are from it on.
#[tactic(auto, using(crate::proofs::Places::block_fits))]
pub(crate) fn place(alloc: Global, words: &str, block: &str) -> Result<String, AllocError> {
    let (stripe, v) = (stripe_of(alloc, words)?, number(block));
    if !is_right(&stripe) || v < stripe.start || v - stripe.start >= stripe.len {
        return out_of_range(alloc);
    }
    place_text(alloc, stripe.place(v), stripe.run_from(v))
}

/// The block that lies at an address of a device.
pub(crate) fn back(alloc: Global, words: &str, place: &str) -> Result<String, AllocError> {
    let stripe = stripe_of(alloc, words)?;
    if !is_right(&stripe) {
        return out_of_range(alloc);
    }
    let (dev, lba) = cut(place);
    match stripe.back(small(dev), number(lba)) {
        Some(v) => format!(in alloc; "{v}"),
        None => String::from_str(alloc, "none"),
    }
}
