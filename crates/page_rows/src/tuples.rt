//! Tuples of the request that rows make, check and map.

ghost use Rattle.std.specs.Prelude.{◌≡◌, ◌<◌, ◌+◌, ◌^◌, true};
ghost use Rattle.page_pool.specs.Pages.{AllLieIn};
ghost use Rattle.page_pool.specs.Places.{Apart, NoneTwice, places_in};
ghost use Rattle.integrity_payload.specs.Payloads.{IsPayload};

use crate::kinds::{fits, guard_of, type_of};
use crate::scene::Scene;
use bio_core::Io;
use integrity_payload::Payload;
use page_pool::{PagePool, SgList};
use pi_tuple::{Check, Tuple};
use ref_remap::{map_back, map_out};
use std::alloc::{AllocError, Global};
use test_groups::{all_lie, are_apart, is_payload, none_twice};
use test_table::{Words, array_of, hex_of, tag_of};

/// Whether the payload's tuples lie in the pool.
fn is_there(pool: &PagePool, pi: &Payload) -> bool
    ensures payload { result ≡ true → IsPayload pi.now }
    ensures lie { result ≡ true → AllLieIn pool.now pi.now.tuples }
    ensures fits { result ≡ true → pi.now.seed + pi.now.count < 2 ^ 64 }
{
    is_payload(pi) && all_lie(pool, pi.tuples.as_slice()) && fits(pi.seed, pi.count as u64)
}

/// Whether the tuples may be written, too.
fn is_open(pool: &PagePool, pi: &Payload) -> bool
    ensures payload { result ≡ true → IsPayload pi.now }
    ensures lie { result ≡ true → AllLieIn pool.now pi.now.tuples }
    ensures fits { result ≡ true → pi.now.seed + pi.now.count < 2 ^ 64 }
    ensures once { result ≡ true → NoneTwice (places_in pi.now.tuples) }
{
    is_there(pool, pi) && none_twice(pi.tuples.as_slice())
}

/// Whether data lies in the pool, apart from the tuples.
fn is_apart(pool: &PagePool, body: &SgList, pi: &Payload) -> bool
    ensures body { result ≡ true → AllLieIn pool.now body.now }
    ensures apart { result ≡ true → Apart (places_in body.now) (places_in pi.now.tuples) }
{
    all_lie(pool, body.as_slice()) && are_apart(body.as_slice(), pi.tuples.as_slice())
}

fn generate(pool: &mut PagePool, body: &SgList, pi: &Payload, words: &str) -> bool {
    let may = pi.count > 0 && is_open(pool, pi) && is_apart(pool, body, pi);
    if may {
        let mut words = Words::of(words);
        let kind = guard_of(words.word());
        let ty = type_of(words.word());
        pi.generate(pool, body, kind, ty);
    }
    may
}

/// The tuple of sixteen digits.
fn tuple_of(word: &str) -> Option<Tuple> {
    let bytes = array_of(word)?;
    Some(Tuple::from_bytes(&bytes))
}

fn set_tuple(pool: &mut PagePool, pi: &Payload, k: u32, word: &str) -> bool {
    let may = is_there(pool, pi) && k < pi.count;
    match tuple_of(word) {
        Some(tuple) if may => {
            pi.set_tuple(pool, k, tuple);
            true
        }
        _ => false,
    }
}

/// Maps tags out, or back where the word says so.
fn map(pool: &mut PagePool, pi: &Payload, word: &str, words: &str) -> bool {
    let mut words = Words::of(words);
    let ty = type_of(words.word());
    let (k, n, physical) = (words.small(), words.small(), words.number());
    let fits = k as u64 + n as u64 <= pi.count as u64 && n as u64 <= u64::MAX - physical;
    let may = is_open(pool, pi) && fits;
    if may && word == "back" {
        map_back(pool, pi, ty, k, n, physical);
    } else if may {
        map_out(pool, pi, ty, k, n, physical);
    }
    may
}

/// Does what a line says with the tuples. Answers false where it is no such line, or may not be done.
pub(crate) fn change(pool: &mut PagePool, io: &Io, word: &str, rest: &str) -> bool {
    let Some(pi) = &io.pi else {
        return false;
    };
    match word {
        "generate" => generate(pool, &io.body, pi, rest),
        "out" | "back" => map(pool, pi, word, rest),
        "set" => {
            let mut words = Words::of(rest);
            let k = words.small();
            set_tuple(pool, pi, k, words.word())
        }
        _ => false,
    }
}

fn tuple_text(
    alloc: Global,
    pool: &PagePool,
    pi: &Payload,
    k: u32,
) -> Result<Option<String>, AllocError> {
    if !is_there(pool, pi) || k >= pi.count {
        return Ok(None);
    }
    Ok(Some(hex_of(alloc, &pi.tuple_at(pool, k).to_bytes())?))
}

fn check_word(found: Option<Check>) -> &'static str {
    match found {
        Some(Check::Guard) => "guard",
        Some(Check::AppTag) => "app",
        Some(Check::RefTag) => "ref",
        None => "none",
    }
}

/// What a check of a block finds, by its words: guard and type, the block, the application tag and its mask.
fn found(pool: &PagePool, io: &Io, pi: &Payload, words: &str) -> Option<&'static str> {
    let mut words = Words::of(words);
    let kind = guard_of(words.word());
    let ty = type_of(words.word());
    let k = words.small();
    let (app, mask) = (tag_of(words.word()), tag_of(words.word()));
    if !is_there(pool, pi) || k >= pi.count || !all_lie(pool, io.body.as_slice()) {
        return None;
    }
    Some(check_word(pi.verify(pool, &io.body, kind, ty, k, app, mask)))
}

/// What a call to the tuples comes to.
pub(crate) fn answer(
    alloc: Global,
    scene: &Scene,
    word: &str,
    rest: &str,
) -> Result<Option<String>, AllocError> {
    let Some(pi) = &scene.io.pi else {
        return Ok(None);
    };
    match word {
        "tuple" => tuple_text(alloc, &scene.pool, pi, test_table::small(rest)),
        "verify" => match found(&scene.pool, &scene.io, pi, rest) {
            Some(word) => Ok(Some(String::from_str(alloc, word)?)),
            None => Ok(None),
        },
        _ => Ok(None),
    }
}
