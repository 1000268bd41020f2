//! How many flips came to what.

ghost use Rattle.std.specs.Prelude.{◌≡◌};
ghost use Rattle.flip_sweep.specs.Rows.{IsSmall, counted, none_yet};

use crate::verdict::Verdict;

/// How many flips came to what.
#[derive(Clone, Copy, Debug, PartialEq, Eq)]
pub(crate) struct Counts {
    pub(crate) runs: u64,
    pub(crate) found: u64,
    pub(crate) scrub: u64,
    pub(crate) same: u64,
    pub(crate) unseen: u64,
}

impl Counts {
    /// No flip was done yet.
    pub(crate) fn none() -> Counts
        ensures { result ≡ none_yet }
    {
        Counts {
            runs: 0,
            found: 0,
            scrub: 0,
            same: 0,
            unseen: 0,
        }
    }

    /// The counts with this verdict more.
    pub(crate) fn with(self, verdict: Verdict) -> Counts
        requires { IsSmall self 1 }
        ensures { result ≡ counted self verdict }
    {
        let runs = self.runs + 1;
        match verdict {
            Verdict::Found { .. } => Counts {
                runs,
                found: self.found + 1,
                ..self
            },
            Verdict::Scrub { .. } => Counts {
                runs,
                scrub: self.scrub + 1,
                ..self
            },
            Verdict::Same => Counts {
                runs,
                same: self.same + 1,
                ..self
            },
            Verdict::Unseen => Counts {
                runs,
                unseen: self.unseen + 1,
                ..self
            },
        }
    }
}
