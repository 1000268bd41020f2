//! Why a call of the program comes to nothing.

ghost use Rattle.std.specs.Prelude.{◌≡◌};
ghost use Rattle.dix_run.specs.Verdict.{refusal_text, status_of, usage_text};

use call_refusal::Refusal as Stop;
use call_verdict::{Reason, Status};
use report_text::{Line, add};

/// Why a call of the program comes to nothing.
#[derive(Clone, Copy, Debug, PartialEq, Eq)]
pub enum Refusal {
    /// The words are not in the grammar.
    Words,
    /// The command is refused: for its source, its image, or want of memory.
    Stopped(Stop),
}

impl Refusal {
    /// Want of memory.
    pub const MEMORY: Refusal = Refusal::Stopped(Stop::Memory);

    /// The rig failed, or may not be called.
    pub const RIG_FAULT: Refusal = Refusal::Stopped(Stop::RigFault);
}

impl Reason for Refusal {
    ghost ends = { λ r. status_of r };

    ghost says = { λ r. refusal_text r };

    fn status(&self) -> Status
        ensures { result ≡ status_of self.now }
    {
        match *self {
            Refusal::Words => Status::Words,
            Refusal::Stopped(stop) => stop.status(),
        }
    }

    fn line(&self) -> Line
        ensures { result.items ≡ refusal_text self.now }
    {
        match *self {
            Refusal::Words => usage_line(),
            Refusal::Stopped(stop) => stop.line(),
        }
    }
}

fn usage_line() -> Line
    ensures { result.items ≡ usage_text }
{
    let mut line = Line::new();
    add(&mut line, USAGE);
    line
}

const USAGE: &[u8] =
    b"usage: dix run IMAGE, trace IMAGE, format IMAGE T:BLOCKS.., migrate IMAGE, mirror IMAGE, scrub IMAGE, nvme IMAGE, modes T, big N SEED\n";
