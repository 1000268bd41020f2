//! Tuples, their fields, and what a check finds.

use crate::names::{check_name, none, short, type_of, yes_or_no};
use pi_tuple::{Checks, Tuple, finds, has_ref_tag, is_escape, make, own_tag, ref_tag};
use std::alloc::{AllocError, Global};
use test_table::{array_of, cut, hex_of, number, small};

/// The tuple of 16 hexadecimal digits; that of zeros for another word.
fn tuple_of(word: &str) -> Tuple {
    let bytes = array_of(word).unwrap_or([0; 8]);
    Tuple::from_bytes(&bytes)
}

/// The fields of a tuple and its bytes.
fn told(alloc: Global, tuple: Tuple) -> Result<String, AllocError> {
    let Tuple { guard, app, rtag } = tuple;
    let bytes = hex_of(alloc, &tuple.to_bytes())?;
    format!(in alloc; "{guard} {app} {rtag} {bytes}")
}

/// The tuple that is made of three numbers.
fn made(words: &str) -> Tuple {
    let (guard, rest) = cut(words);
    let (app, rtag) = cut(rest);
    make(short(guard), short(app), small(rtag))
}

/// The reference tag of an address, and of a type whether it has one, and which.
fn tagged(alloc: Global, words: &str) -> Result<String, AllocError> {
    let (kind, lba) = cut(words);
    let (ty, lba) = (type_of(kind), number(lba));
    let (all, has, own) = (ref_tag(lba), yes_or_no(has_ref_tag(ty)), own_tag(ty, lba));
    format!(in alloc; "{all} {has} {own}")
}

/// What is asked, by a word with g for the guard and r for the reference tag, of a tuple that has the application tag
/// of the wanted one in the bits of the mask.
fn checks(asked: &str, mask: &str, wanted: Tuple) -> Checks {
    Checks {
        guard: asked.contains('g'),
        rtag: asked.contains('r'),
        app: wanted.app,
        mask: short(mask),
    }
}

/// The first difference, by five words: the type, what is asked, the mask, the wanted tuple and the one that is there.
fn found(words: &str) -> &'static str {
    let (kind, rest) = cut(words);
    let (asked, rest) = cut(rest);
    let (mask, rest) = cut(rest);
    let (wanted, there) = cut(rest);
    let wanted = tuple_of(wanted);
    let what = checks(asked, mask, wanted);
    let (ty, there) = (type_of(kind), tuple_of(there));
    check_name(finds(ty, what, wanted.rtag, wanted.guard, there))
}

pub(crate) fn answer(alloc: Global, words: &str) -> Result<String, AllocError> {
    let (call, rest) = cut(words);
    match call {
        "of" => told(alloc, tuple_of(rest)),
        "make" => told(alloc, made(rest)),
        "tag" => tagged(alloc, rest),
        "escape" => {
            let (kind, tuple) = cut(rest);
            String::from_str(alloc, yes_or_no(is_escape(tuple_of(tuple), type_of(kind))))
        }
        "finds" => String::from_str(alloc, found(rest)),
        _ => none(alloc),
    }
}
