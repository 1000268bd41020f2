//! A unit as a word orders it: `T:BLOCKS` or `T:BLOCKS:SIZE:FIRST`.

ghost use Rattle.std.specs.Prelude.{◌≡◌};
ghost use Rattle.call_verdict.specs.Units.{spec_of, type_in, type_numbered, unit_in};

use pi_tuple::{LARGEST_BLOCK, PiType};
use rig_api::{UnitSpec, is_spec};
use script_words::{number, split_once};

fn type_numbered(number: u64) -> Option<PiType>
    ensures { result ≡ type_numbered number }
{
    match number {
        0 => Some(PiType::Zero),
        1 => Some(PiType::One),
        2 => Some(PiType::Two),
        3 => Some(PiType::Three),
        _ => None,
    }
}

/// The protection type of this number, 0 to 3.
pub fn type_of(word: &[u8]) -> Option<PiType>
    ensures { result ≡ type_in word.now }
{
    type_numbered(number(word)?)
}

/// The unit of these parts, where an image may have it.
fn spec(
    ty: Option<PiType>,
    blocks: Option<u64>,
    size: Option<u64>,
    first: Option<u64>,
) -> Option<UnitSpec>
    ensures { result ≡ spec_of ty blocks size first }
{
    let ty = ty?;
    let blocks = blocks?;
    let size = size?;
    let first = first?;
    if size > u64::from(LARGEST_BLOCK) {
        return None;
    }
    let unit = UnitSpec {
        ty,
        blocks,
        size: size as u32,
        first,
    };
    if is_spec(unit) { Some(unit) } else { None }
}

/// The unit that the word orders: its type, its number of blocks and, where they aren't 512 and 0,
/// its block size and its first address.
pub fn unit_of(word: &[u8]) -> Option<UnitSpec>
    ensures { result ≡ unit_in word.now }
{
    let (ty, rest) = split_once(word, b':')?;
    let ty = type_of(ty);
    match split_once(rest, b':') {
        None => spec(ty, number(rest), Some(512), Some(0)),
        Some((blocks, rest)) => {
            let (size, first) = split_once(rest, b':')?;
            spec(ty, number(blocks), number(size), number(first))
        }
    }
}
