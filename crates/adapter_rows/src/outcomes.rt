//! What a command ends with, and what becomes of blocks, as a row writes them.

ghost use Rattle.std.specs.Prelude.{◌≡◌, true};
ghost use Rattle.rig_api.specs.Log.{has_key};

use bio_core::{Fate, Why};
use pi_tuple::Check;
use rig_api::Outcome;
use sense_codes::Sense;
use test_table::{array_of, small};

/// The sense of a word: key, code and qualifier in hexadecimal; none of another word.
fn sense_of(word: &str) -> Option<Sense>
    ensures { has_key result ≡ true }
{
    let [key, asc, ascq] = array_of::<3>(word)?;
    Some(Sense {
        key: key % 16,
        asc,
        ascq,
        info: None,
    })
}

/// The outcome of two words: how many blocks are done, and the sense or `-`.
pub(crate) fn outcome(done: &str, sense: &str) -> Outcome
    ensures { has_key result.sense ≡ true }
{
    Outcome {
        done: small(done),
        sense: sense_of(sense),
    }
}

fn check_of(word: &str) -> Option<Check> {
    match word {
        "guard" => Some(Check::Guard),
        "apptag" => Some(Check::AppTag),
        "ref" => Some(Check::RefTag),
        _ => None,
    }
}

fn refused(word: &str) -> Option<Why> {
    let [key, asc, ascq] = array_of::<3>(word)?;
    Some(Why::Refused { key, asc, ascq })
}

fn why_of(word: &str) -> Option<Why> {
    let (layer, rest) = word.split_once('-').unwrap_or((word, ""));
    match layer {
        "adapter" => Some(Why::Adapter(check_of(rest)?)),
        "target" => Some(Why::Target(check_of(rest)?)),
        "refused" => refused(rest),
        "medium" => Some(Why::Medium),
        "short" => Some(Why::Short),
        _ => None,
    }
}

fn fate_of(word: &str) -> Option<Fate> {
    match word {
        "good" => Some(Fate::Good),
        "untouched" => Some(Fate::Untouched),
        _ => Some(Fate::Bad(why_of(word)?)),
    }
}

/// Whether these are the fates of the words, in order.
pub(crate) fn are_fates(fates: &[Fate], words: &str) -> bool {
    let mut rest = fates;
    for word in words.split(' ') {
        let Some((fate, behind)) = rest.split_first() else {
            return false;
        };
        if fate_of(word) != Some(*fate) {
            return false;
        }
        rest = behind;
    }
    rest.is_empty()
}
