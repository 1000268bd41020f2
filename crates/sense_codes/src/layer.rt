//! Which layer found a block altered, and by which check.

ghost use Rattle.std.specs.Prelude.{◌≡◌, IfSome, Some};
ghost use Rattle.sense_codes.specs.Checks.{Tells, ascq_of, key_of};
ghost use Rattle.sense_codes.specs.declared.layer.Layer.{Layer};
ghost use Rattle.pi_tuple.specs.declared.checks.Check.{Check};

use crate::Sense;
use crate::codes::{ABORTED_COMMAND, ILLEGAL_REQUEST, PROTECTION};
use pi_tuple::Check;

/// Who checked a block.
#[derive(Clone, Copy, Debug, PartialEq, Eq)]
pub enum Layer {
    /// The host's adapter, on the way to the target or from it.
    Adapter,
    /// The target.
    Target,
}

fn layer_of(key: u8) -> Option<Layer>
    ensures found { IfSome result (λ l. key ≡ key_of l) }
    ensures only { (l : Layer) → key ≡ key_of l → result ≡ Some l }
{
    match key {
        ILLEGAL_REQUEST => Some(Layer::Adapter),
        ABORTED_COMMAND => Some(Layer::Target),
        _ => None,
    }
}

fn check_of(ascq: u8) -> Option<Check>
    ensures found { IfSome result (λ c. ascq ≡ ascq_of c) }
    ensures only { (c : Check) → ascq ≡ ascq_of c → result ≡ Some c }
{
    match ascq {
        0x01 => Some(Check::Guard),
        0x02 => Some(Check::AppTag),
        0x03 => Some(Check::RefTag),
        _ => None,
    }
}

/// The layer that found a block altered and the check that failed there, or `None` where the
/// sense tells of something else.
///
/// The additional sense code is 10h, and its qualifier is 01h for the guard, 02h for the
/// application tag, 03h for the reference tag (SPC-4, 4.5.6). The sense key is 05h, ILLEGAL
/// REQUEST, from the adapter and 0Bh, ABORTED COMMAND, from the target.
pub fn layer_and_check(s: &Sense) -> Option<(Layer, Check)>
    ensures found { IfSome result (λ r. Tells r.0 r.1 s.now) }
    ensures only { (l : Layer) → (c : Check) → Tells l c s.now → result ≡ Some (record { 0 = l; 1 = c }) }
{
    if s.asc != PROTECTION {
        return None;
    }
    match (layer_of(s.key), check_of(s.ascq)) {
        (Some(layer), Some(check)) => Some((layer, check)),
        _ => None,
    }
}
