//! Which crossing a fault's place is.

ghost use Rattle.std.specs.Prelude.{◌≡◌};
ghost use Rattle.script_text.specs.Crossings.{crossing_in, crossing_of, is_third};

use crate::kinds::is_shift;
use fault_schedule::{Crossing, FaultKind};
use script_lines::{ScriptVersion, Spot};

/// The crossing of a place, for a read or for any other op. On the wire a shift is of the command,
/// which goes to the target in both directions.
pub(crate) fn crossing_of(spot: Spot, kind: &FaultKind, is_read: bool) -> Crossing
    ensures { result ≡ crossing_of spot kind.now is_read }
{
    let is_shift = is_shift(kind);
    match spot {
        Spot::Host if is_read => Crossing::AdapterToHost,
        Spot::Host => Crossing::HostToAdapter,
        Spot::Wire if is_read && !is_shift => Crossing::TargetToAdapter,
        Spot::Wire => Crossing::AdapterToTarget,
        Spot::Medium if is_read => Crossing::MediumToTarget,
        Spot::Medium => Crossing::TargetToMedium,
    }
}

/// Whether scripts of this version may say that the medium itself fails.
pub(crate) fn is_third(version: ScriptVersion) -> bool
    ensures { result ≡ is_third version }
{
    match version {
        ScriptVersion::Three => true,
        _ => false,
    }
}

/// The crossing of a fault in a script of version 3, or of an earlier one: there a shift on the
/// medium is of fetched blocks, whatever op it names.
pub(crate) fn crossing_in(third: bool, kind: &FaultKind, at: Crossing) -> Crossing
    ensures { result ≡ crossing_in third kind.now at }
{
    match at {
        Crossing::TargetToMedium if !third && is_shift(kind) => Crossing::MediumToTarget,
        _ => at,
    }
}
