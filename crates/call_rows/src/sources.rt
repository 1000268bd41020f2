//! The words of a row's call, and the source that it reads.

use crate::lines::text;
use script_text::{big_script, print_script};
use std::alloc::{AllocError, Global};
use test_table::{behind, cut, number, word_of};

/// A word, which is the image's name for `a`, else has a space for each `_`, and nothing for `''`.
fn named(alloc: Global, text: &str, name: &str) -> Result<String, AllocError> {
    if text == "a" {
        return String::from_str(alloc, name);
    }
    word_of(alloc, text)
}

/// The words of the call.
pub(crate) fn words_in(
    alloc: Global,
    lines: &[String],
    name: &str,
) -> Result<Vec<String>, AllocError> {
    let mut words = Vec::new(alloc);
    let line = behind(lines, "$");
    if line == "" {
        return Ok(words);
    }
    for word in line.split(' ') {
        words.push(named(alloc, word, name)?)?;
    }
    Ok(words)
}

/// The printed script that a number of ops, at most 1,024, and a seed make.
fn printed(alloc: Global, ops: &str, seed: &str) -> Result<Vec<u8>, AllocError> {
    let ops = ops.parse::<u32>().unwrap_or(0);
    let seed = seed.parse::<u32>().unwrap_or(0);
    if ops > 1024 {
        return Ok(Vec::new(alloc));
    }
    let script = big_script(alloc, ops, seed)?;
    let found = print_script(alloc, &script)?;
    Vec::from_slice(alloc, found.as_slice())
}

/// The source of the call.
pub(crate) fn source_in(alloc: Global, lines: &[String]) -> Result<Vec<u8>, AllocError> {
    let script = behind(lines, "script");
    if script != "" {
        let (ops, seed) = cut(script);
        return printed(alloc, ops, seed);
    }
    let spaces = behind(lines, "spaces");
    if spaces != "" {
        return vec![in alloc; b' '; number(spaces) as usize];
    }
    text(alloc, lines, ":", ":/")
}
