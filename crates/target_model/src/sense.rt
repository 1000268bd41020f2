//! The senses of a target.

ghost use Rattle.std.specs.Prelude.{◌≡◌};
ghost use Rattle.sense_codes.specs.Checks.{ascq_of};
ghost use Rattle.rig_api.specs.Target.{check_sense, illegal, medium_sense};

use pi_tuple::Check;
use sense_codes::Sense;
use sense_codes::codes::{ABORTED_COMMAND, ILLEGAL_REQUEST, MEDIUM_ERROR, PROTECTION};

/// ILLEGAL REQUEST.
pub(crate) fn illegal(asc: u8) -> Sense
    ensures { result ≡ illegal asc }
{
    Sense {
        key: ILLEGAL_REQUEST,
        asc,
        ascq: 0,
        info: None,
    }
}

/// MEDIUM ERROR, after a store call that failed.
pub(crate) fn medium(asc: u8, lba: u64) -> Sense
    ensures { result ≡ medium_sense asc lba }
{
    Sense {
        key: MEDIUM_ERROR,
        asc,
        ascq: 0,
        info: Some(lba),
    }
}

fn qualifier(check: Check) -> u8
    ensures { result ≡ ascq_of check }
{
    match check {
        Check::Guard => 1,
        Check::AppTag => 2,
        Check::RefTag => 3,
    }
}

/// ABORTED COMMAND, after a check that found a difference.
pub(crate) fn aborted(check: Check, lba: u64) -> Sense
    ensures { result ≡ check_sense check lba }
{
    Sense {
        key: ABORTED_COMMAND,
        asc: PROTECTION,
        ascq: qualifier(check),
        info: Some(lba),
    }
}
