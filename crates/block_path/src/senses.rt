//! Why a block failed at which a command ended, by the sense of the command.

ghost use Rattle.std.specs.Prelude.{◌≡◌};
ghost use Rattle.block_path.specs.Senses.{is_medium, named_by, why_ended};

use bio_core::Why;
use sense_codes::codes::{MEDIUM_ERROR, UNRECOVERED_READ, WRITE_ERROR};
use sense_codes::{Layer, Sense, layer_and_check};

/// The layer and the check that the sense names.
fn finding_named(sense: Sense) -> Option<Why>
    ensures { result ≡ named_by sense }
{
    match layer_and_check(&sense) {
        Some((Layer::Adapter, check)) => Some(Why::Adapter(check)),
        Some((Layer::Target, check)) => Some(Why::Target(check)),
        None => None,
    }
}

/// Whether the sense is MEDIUM ERROR with UNRECOVERED READ ERROR or WRITE ERROR, each with the qualifier 00h.
fn is_medium_error(sense: Sense) -> bool
    ensures { result ≡ is_medium sense }
{
    sense.key == MEDIUM_ERROR
        && sense.ascq == 0
        && (sense.asc == UNRECOVERED_READ || sense.asc == WRITE_ERROR)
}

/// Why a block failed at which its command ended with this sense, or with none: the layer and the
/// check that the sense names, an error of the medium, or else a refusal (SPC-4, 4.5).
pub fn why_by(sense: Option<Sense>) -> Why
    ensures { result ≡ why_ended sense }
{
    let Some(sense) = sense else {
        return Why::Short;
    };
    if let Some(why) = finding_named(sense) {
        return why;
    }
    if is_medium_error(sense) {
        return Why::Medium;
    }
    Why::Refused {
        key: sense.key,
        asc: sense.asc,
        ascq: sense.ascq,
    }
}
