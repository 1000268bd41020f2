//! Why blocks fail, as a row writes it.

use bio_core::Why;
use pi_tuple::Check;
use stack_ops::{BadBlock, BadList};
use std::alloc::{AllocError, Global};
use test_table::array_of;

fn check_of(word: &str) -> Check {
    match word {
        "guard" => Check::Guard,
        "apptag" => Check::AppTag,
        _ => Check::RefTag,
    }
}

/// The reason of a word: a layer and a check with - between them, refused and the key and the codes of a sense, medium
/// or short.
fn why_of(word: &str) -> Why {
    let (layer, rest) = word.split_once('-').unwrap_or((word, ""));
    match layer {
        "adapter" => Why::Adapter(check_of(rest)),
        "target" => Why::Target(check_of(rest)),
        "block" => Why::Block(check_of(rest)),
        "app" => Why::App(check_of(rest)),
        "medium" => Why::Medium,
        _ => refused(rest).unwrap_or(Why::Short),
    }
}

fn refused(word: &str) -> Option<Why> {
    let [key, asc, ascq] = array_of::<3>(word)?;
    Some(Why::Refused { key, asc, ascq })
}

/// The blocks that fail so, by their places.
pub(crate) fn blocks_of(alloc: Global, words: &str) -> Result<BadList, AllocError> {
    let mut blocks = Vec::new(alloc);
    let mut k = 0u32;
    for word in words.split(',') {
        let why = why_of(word);
        blocks.push(BadBlock { k, why })?;
        k = k.wrapping_add(1);
    }
    Ok(BadList::from_vec(blocks))
}
