//! The first layer that finds a block altered.

ghost use Rattle.std.specs.Prelude.{◌≡◌, true, if◌then◌else◌, Some, None};
ghost use Rattle.pi_tuple.specs.Finds.{is_zero};
ghost use Rattle.mode_map.specs.Finders.{IsFirstFinder, checks_stored, finder, is_served};

use block_path::Mode;
use fault_schedule::Crossing;
use pi_tuple::PiType;

/// A layer that checks blocks.
#[derive(Clone, Copy, Debug, PartialEq, Eq)]
pub enum Seen {
    /// The host's adapter.
    Adapter,
    /// The target.
    Target,
    /// The owner of the tuple: the block layer or the application.
    Owner,
}

/// Who checks a block that comes from the medium first: the target, but for protect field 011b, under
/// which it leaves that to the adapter; nobody where there is no tuple.
fn checks_stored(mode: &Mode, ty: PiType) -> Option<Seen>
    ensures { result ≡ checks_stored mode.now ty }
{
    if ty == PiType::Zero {
        return None;
    }
    if mode.dif && mode.protect == 3 {
        return Some(Seen::Adapter);
    }
    Some(Seen::Target)
}

fn only_if(holds: bool, seen: Seen) -> Option<Seen>
    ensures { result ≡ (if holds then Some seen else None) }
{
    if holds { Some(seen) } else { None }
}

fn finder(mode: &Mode, ty: PiType, at: Crossing) -> Option<Seen>
    ensures { result ≡ finder mode.now ty at }
{
    let passes = mode.passes_tuples(ty);
    match at {
        Crossing::HostToAdapter => only_if(mode.dix, Seen::Adapter),
        Crossing::AdapterToTarget => {
            if passes {
                checks_stored(mode, ty)
            } else {
                None
            }
        }
        Crossing::TargetToMedium | Crossing::MediumToTarget => checks_stored(mode, ty),
        Crossing::TargetToAdapter => only_if(passes, Seen::Adapter),
        Crossing::AdapterToHost => only_if(mode.dix, Seen::Owner),
    }
}

/// The layer that is the first to find a block whose data were altered at this crossing, or `None`
/// where none does. On a write it is the layer that refuses the block or, where the block is accepted,
/// the one that finds it at the next read.
///
/// Where the flip changes the guards that see it (`found`), so where it is of one byte or of two, not both by FFh
/// (`near`).
///
/// The mode's protect field is 1, 3 or 4.
pub fn first_finder(mode: &Mode, ty: PiType, at: Crossing) -> Option<Seen>
    requires { is_served mode.now.protect ≡ true }
    ensures value { result ≡ finder mode.now ty at }
    ensures first { IsFirstFinder mode.now ty at result }
{
    finder(mode, ty, at)
}
