//! The refusal that the fault of a part is.

ghost use Rattle.std.specs.Prelude.{◌≡◌};
ghost use Rattle.lab_run.specs.Texts.{no_memory, of_head, of_import, of_place, of_second};

use crate::finding::Unfound;
use crate::refusal::Refusal;
use call_refusal::Refusal as Stop;
use image_text::ImportFault;
use rig_api::RigFault;
use std::alloc::AllocError;

impl From<AllocError> for Refusal {
    ghost from_gives = { λ _ refusal. refusal ≡ no_memory };

    fn from(_error: AllocError) -> Refusal {
        Refusal::MEMORY
    }
}

impl From<Stop> for Refusal {
    ghost use Rattle.lab_run.specs.declared.refusal.Refusal.{Refusal};

    ghost from_gives = { λ stop refusal. refusal ≡ Refusal.Stopped stop };

    fn from(stop: Stop) -> Refusal {
        Refusal::Stopped(stop)
    }
}

impl From<RigFault> for Refusal {
    ghost from_gives = { λ fault refusal. refusal ≡ of_head fault };

    fn from(fault: RigFault) -> Refusal {
        Refusal::Stopped(Stop::from(fault))
    }
}

impl From<Unfound> for Refusal {
    ghost from_gives = { λ unfound refusal. refusal ≡ of_place unfound };

    fn from(unfound: Unfound) -> Refusal {
        match unfound {
            Unfound::Stopped(stop) => Refusal::Stopped(stop),
            Unfound::Place(fault) => Refusal::Place(fault),
        }
    }
}

impl From<ImportFault> for Refusal {
    ghost from_gives = { λ fault refusal. refusal ≡ of_import fault };

    fn from(fault: ImportFault) -> Refusal {
        match fault {
            ImportFault::Short(pieces) => Refusal::Short(pieces),
            ImportFault::Long => Refusal::Long,
            ImportFault::Store => Refusal::Stopped(Stop::RigFault),
            ImportFault::Source => Refusal::Stopped(Stop::ReadFault),
        }
    }
}

impl Refusal {
    /// The refusal of the second place of a `diff` that isn't found.
    pub(crate) fn of_second(unfound: Unfound) -> Refusal
        ensures { result ≡ of_second unfound }
    {
        match unfound {
            Unfound::Stopped(Stop::Image(fault)) => Refusal::SecondImage(fault),
            Unfound::Stopped(stop) => Refusal::Stopped(stop),
            Unfound::Place(fault) => Refusal::SecondPlace(fault),
        }
    }
}
