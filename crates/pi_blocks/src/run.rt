//! Guards of bytes that come in parts, as plain numbers that the caller keeps.

ghost use Rattle.std.specs.Prelude.{◌≡◌, ℕ, List, [], ◌++◌};
ghost use Rattle.pi_guard.specs.Guards.{crc, guard_of};
ghost use Rattle.pi_blocks.specs.Layouts.{kind_of};
ghost use Rattle.pi_blocks.specs.Runs.{HasRead, state_of};

use crate::layout::kind_of;
use pi_guard::{GuardRun, RunState};

/// A guard of bytes that come in parts of any length. It stands for no bytes when it begins, and after each part for
/// those and the part's.
#[repr(C)]
#[derive(Clone, Copy, Debug)]
pub struct Run {
    /// The guard: 0 for the CRC, another number for the Internet checksum.
    pub guard: u32,
    /// The CRC, or the sum of words, so far.
    pub value: u16,
    /// 1 where the last word of a sum wants its lower byte, else 0.
    pub odd: u16,
}

// A run of this guard with this state.
fn with_state(guard: u32, state: RunState) -> Run
    requires { state.kind ≡ kind_of guard }
    ensures guard { result.guard ≡ guard }
    ensures state { state_of result ≡ state }
{
    Run {
        guard,
        value: state.value,
        odd: u16::from(state.half_open),
    }
}

impl Run {
    fn state(self) -> RunState
        ensures { result ≡ state_of self }
    {
        RunState {
            kind: kind_of(self.guard),
            value: self.value,
            half_open: self.odd != 0,
        }
    }

    /// A run that has read nothing.
    pub fn begin(guard: u32) -> Run
        ensures guard { result.guard ≡ guard }
        ensures none { HasRead result [] }
    {
        with_state(guard, GuardRun::new(kind_of(guard)).state())
    }

    /// Takes the next part, and keeps none of it.
    pub fn update(&mut self, bytes: &[u8])
        ensures guard { self.new.guard ≡ self.old.guard }
        ensures more { (b : List ℕ) → HasRead self.old b → HasRead self.new (b ++ bytes.now) }
    {
        let mut run = GuardRun::of_state(self.state());
        run.update(bytes);
        *self = with_state(self.guard, run.state());
    }

    /// The guard of the bytes so far.
    pub fn finish(&self) -> u16
        ensures { (b : List ℕ) → HasRead self.now b → result ≡ guard_of (kind_of self.now.guard) b }
    {
        GuardRun::of_state(self.state()).finish()
    }
}
