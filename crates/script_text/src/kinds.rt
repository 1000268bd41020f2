//! Faults by their kind.

ghost use Rattle.std.specs.Prelude.{◌≡◌};
ghost use Rattle.script_text.specs.Bindings.{is_of_medium, is_shift};

use fault_schedule::FaultKind;

pub(crate) fn is_shift(kind: &FaultKind) -> bool
    ensures { result ≡ is_shift kind.now }
{
    match kind {
        FaultKind::Shift { .. } => true,
        _ => false,
    }
}

/// Whether the medium itself fails: it doesn't keep all of a write, or can't store or send a block.
pub(crate) fn is_of_medium(kind: &FaultKind) -> bool
    ensures { result ≡ is_of_medium kind.now }
{
    match kind {
        FaultKind::Keep { .. } | FaultKind::Fail => true,
        _ => false,
    }
}
