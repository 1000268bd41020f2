//! Places of blocks in an image.

ghost use Rattle.std.specs.Prelude.{◌≡◌, ◌≤◌, IfSome};
ghost use Rattle.script_words.specs.Cuts.{cut};
ghost use Rattle.script_words.specs.Numbers.{number_within};
ghost use Rattle.lab_run.specs.Places.{behind_device, place_in};

use crate::MOST_COUNT;
use script_words::{number, number_within, split_once};

/// Where blocks of an image lie.
#[derive(Clone, Copy, Debug, PartialEq, Eq)]
pub enum PlaceWord {
    /// All blocks of a device.
    Device { dev: u32 },
    /// This many blocks of a device, from this address on.
    Blocks { dev: u32, first: u64, count: u32 },
}

/// The device that a word numbers, from 0.
fn device(word: &[u8]) -> Option<u32>
    ensures { result ≡ number_within 0 7 word.now }
{
    let dev = number_within(word, 0, 7)?;
    Some(dev as u32)
}

/// `FIRST:COUNT` behind a device.
fn behind_device(dev: &[u8], rest: &[u8]) -> Option<PlaceWord>
    ensures { result ≡ behind_device (number_within 0 7 dev.now) (cut 58 rest.now) }
{
    let (first, count) = split_once(rest, b':')?;
    let dev = device(dev)?;
    let first = number(first)?;
    let count = number_within(count, 1, MOST_COUNT)?;
    Some(PlaceWord::Blocks {
        dev,
        first,
        count: count as u32,
    })
}

/// The place of a word: `DEV`, all blocks of that device, or `DEV:FIRST:COUNT`.
pub(crate) fn place_of(word: &[u8]) -> Option<PlaceWord>
    ensures { result ≡ place_in word.now }
{
    match split_once(word, b':') {
        None => Some(PlaceWord::Device { dev: device(word)? }),
        Some((dev, rest)) => behind_device(dev, rest),
    }
}
