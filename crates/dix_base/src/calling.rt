//! How a program is called.

use std::{env, io};

/// The words that the program was called with, without its own name.
pub fn words_of(rt: &HostRuntime) -> io::Result<Vec<String>> {
    let mut words = Vec::new(rt.alloc());
    for word in env::args(rt)?.skip(1) {
        words.push(word)?;
    }
    Ok(words)
}

/// The refusal of a call whose words can't be had: those that are no text aren't in the grammar, and all else is want of
/// memory.
pub fn unworded<R: Drop>(error: &io::Error, words: R, memory: R) -> R {
    match error.kind() {
        io::ErrorKind::InvalidData => words,
        _ => memory,
    }
}
