//! The refusal that the fault of a part is.

ghost use Rattle.std.specs.Prelude.{◌≡◌};
ghost use Rattle.call_refusal.specs.Refusals.{of_capacity, of_memory, of_rig, of_script, of_source, of_untold, of_volume};

use crate::refusal::{Refusal, TOO_LONG};
use dix_base::Unread;
use rig_api::RigFault;
use rig_discovery::{BadCapacity, Untold};
use script_lines::ScriptKind;
use script_text::ScriptFault;
use std::alloc::AllocError;
use volume_table::VolumeFault;

impl From<AllocError> for Refusal {
    ghost from_gives = { λ _ refusal. refusal ≡ of_memory };

    fn from(_error: AllocError) -> Refusal {
        Refusal::Memory
    }
}

impl From<RigFault> for Refusal {
    ghost from_gives = { λ fault refusal. refusal ≡ of_rig fault };

    fn from(fault: RigFault) -> Refusal {
        match fault {
            RigFault::BadMagic => Refusal::Image(RigFault::BadMagic),
            RigFault::BadHeader => Refusal::Image(RigFault::BadHeader),
            RigFault::BadLength => Refusal::Image(RigFault::BadLength),
            RigFault::Failed => Refusal::RigFault,
            RigFault::Memory => Refusal::Memory,
        }
    }
}

impl From<BadCapacity> for Refusal {
    ghost from_gives = { λ bad refusal. refusal ≡ of_capacity bad };

    fn from(bad: BadCapacity) -> Refusal {
        Refusal::BadCapacity { dev: bad.dev }
    }
}

impl From<Untold> for Refusal {
    ghost from_gives = { λ untold refusal. refusal ≡ of_untold untold };

    fn from(untold: Untold) -> Refusal {
        match untold {
            Untold::Rig(fault) => Refusal::from(fault),
            Untold::Device(bad) => Refusal::from(bad),
        }
    }
}

impl From<VolumeFault> for Refusal {
    ghost from_gives = { λ fault refusal. refusal ≡ of_volume fault };

    fn from(fault: VolumeFault) -> Refusal {
        match fault {
            VolumeFault::At { entry, kind } => Refusal::Volume { entry, kind },
            VolumeFault::Memory => Refusal::Memory,
        }
    }
}

impl From<ScriptFault> for Refusal {
    ghost from_gives = { λ fault refusal. refusal ≡ of_script fault };

    /// Want of memory is no fault of a text.
    fn from(fault: ScriptFault) -> Refusal {
        match fault.kind {
            ScriptKind::Memory => Refusal::Memory,
            _ => Refusal::Script(fault),
        }
    }
}

impl From<Unread> for Refusal {
    ghost from_gives = { λ unread refusal. refusal ≡ of_source unread };

    fn from(unread: Unread) -> Refusal {
        match unread {
            Unread::Failed => Refusal::ReadFault,
            Unread::Memory => Refusal::Memory,
            Unread::TooMany => Refusal::Script(TOO_LONG),
        }
    }
}
