//! The words of a row, one after another.

use crate::words::{cut, number, small};

/// What is left of a row.
#[derive(Drop)]
pub struct Words<'a> {
    rest: &'a str,
}

impl<'a> Words<'a> {
    /// All of a text.
    pub fn of(text: &'a str) -> Words<'a> {
        Words { rest: text }
    }

    /// The next word, which is empty at the end.
    pub fn word(&mut self) -> &'a str {
        let (word, rest) = cut(self.rest);
        self.rest = rest;
        word
    }

    /// The next word as a number in decimal digits, or the largest where it is none.
    pub fn number(&mut self) -> u64 {
        number(self.word())
    }

    /// The same of 32 bits.
    pub fn small(&mut self) -> u32 {
        small(self.word())
    }

    /// All words that are left.
    pub fn rest(&self) -> &'a str {
        self.rest
    }
}
