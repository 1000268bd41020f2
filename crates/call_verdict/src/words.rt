//! Words that name an image, and words of units.

ghost use Rattle.std.specs.Prelude.{◌≡◌, ◌≤◌, length, option_map, string_bytes};
ghost use Rattle.call_verdict.specs.Words.{image_in, is_name, laid_out, units_in, word_bytes};

use crate::UnitList;
use crate::unit::unit_of;
use arrayvec::ArrayVec;
use rig_api::{UnitSpec, is_layout};

/// Whether the word names an image: it isn't empty and doesn't begin with a hyphen.
pub fn is_name(word: &String) -> bool
    ensures { result ≡ is_name (string_bytes word.now) }
{
    match word.as_bytes() {
        [] => false,
        [first, ..] => *first != b'-',
    }
}

/// The units that at most eight words order.
fn units_of(words: &[String]) -> Option<ArrayVec<UnitSpec, 8>>
    requires { length words.now ≤ 8 }
    ensures { option_map (λ v. v.items) result ≡ units_in (word_bytes words.now) }
{
    let mut units = ArrayVec::new();
    for word in words {
        let unit = unit_of(word.as_bytes())?;
        match units.try_push(unit) {
            Ok(()) => {}
            Err(_) => unreachable!(),
        }
    }
    Some(units)
}

/// The units of words, where an image may have them: 1 to 8 of them.
pub fn laid_out(words: &[String]) -> Option<UnitList>
    ensures { option_map (λ v. v) result ≡ laid_out (units_in (word_bytes words.now)) }
{
    if words.len() > 8 {
        return None;
    }
    let units = units_of(words)?;
    if is_layout(&units) {
        Some(UnitList::from_array(units))
    } else {
        None
    }
}

/// The image that the words of a command name: the second of them, or nothing where they are fewer.
pub fn image_of(words: &[String]) -> &str
    ensures { result.now ≡ image_in (word_bytes words.now) }
{
    if words.len() < 2 {
        return "";
    }
    words[1].as_str()
}
