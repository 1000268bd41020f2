//! What the faults of its parts come to in a sweep.

ghost use Rattle.std.specs.Prelude.{◌≡◌};
ghost use Rattle.flip_sweep.specs.Halts.{of_memory, of_sink};

use crate::sweep::Halt;
use dix_base::Failed;
use std::alloc::AllocError;

impl From<AllocError> for Halt {
    ghost from_gives = { λ _ halt. halt ≡ of_memory };

    fn from(_error: AllocError) -> Halt {
        Halt::Memory
    }
}

impl From<Failed> for Halt {
    ghost from_gives = { λ _ halt. halt ≡ of_sink };

    fn from(_failed: Failed) -> Halt {
        Halt::Sink
    }
}
