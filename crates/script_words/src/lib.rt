//! The words of scripts: lines, words, numbers, hexadecimal bytes and places, each read by hand
//! and each with a definition of its own.
#![tactic(auto)]

mod cuts;
mod decimals;
mod hexes;
mod numbers;
mod places;

pub use cuts::{is_plain, next_line, next_word, split_once};
pub use decimals::number;
pub use hexes::{byte, hex_bytes, long_tag, short_hex, tag};
pub use numbers::{number_within, signed_within};
pub use places::{choice, leg, segment, segments, spot};
