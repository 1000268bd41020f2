//! Why a call of a program comes to nothing.

ghost use Rattle.std.specs.Prelude.{◌≡◌, ℕ, List};
ghost use Rattle.call_refusal.specs.Texts.{refusal_text};
ghost use Rattle.call_verdict.specs.Verdicts.{stop_status};

use crate::status::Status;
use call_refusal::Refusal;
use report_text::Line;

/// Why a call of a program comes to nothing: how it ends then, and the line that says it.
pub trait Reason: Drop {
    ghost use Rattle.call_verdict.specs.declared.status.Status.{Status};

    /// How it ends.
    ghost ends: { Self → Status };

    /// The line that says it.
    ghost says: { Self → List ℕ };

    /// How it ends.
    fn status(&self) -> Status
        ensures { result ≡ ends self.now };

    /// The line that is written.
    fn line(&self) -> Line
        ensures { result.items ≡ says self.now };
}

impl Reason for Refusal {
    ghost ends = { λ r. stop_status r };

    ghost says = { λ r. refusal_text r };

    fn status(&self) -> Status
        ensures { result ≡ stop_status self.now }
    {
        match *self {
            Refusal::Script(_) => Status::Input,
            Refusal::Image(_) => Status::Image,
            Refusal::BadCapacity { .. } => Status::Image,
            Refusal::Volume { .. } => Status::Image,
            Refusal::RigFault => Status::RigFault,
            Refusal::Memory => Status::Memory,
            Refusal::ReadFault => Status::ReadFault,
        }
    }

    fn line(&self) -> Line
        ensures { result.items ≡ refusal_text self.now }
    {
        let refusal = *self;
        refusal.line()
    }
}
