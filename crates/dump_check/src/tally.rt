//! What is counted of the blocks of a dump.

ghost use Rattle.std.specs.Prelude.{◌≡◌, ◌+◌, ◌^◌, ◌<◌};
ghost use Rattle.dump_check.specs.Tallies.{IsTally, counted, one_if};

use crate::finding::Judgement;

/// What is counted of the blocks of a dump.
#[derive(Clone, Copy, Debug, PartialEq, Eq)]
pub struct DumpTally {
    /// The blocks.
    pub blocks: u64,
    /// Those at fault.
    pub bad: u64,
    /// Those that an escape excludes.
    pub unchecked: u64,
    /// Those whose reference tag is bad.
    pub tags: u64,
    /// Those of them whose tag is as much higher than the one wanted as that of the first of them.
    pub same: u64,
    /// How much higher that is, modulo the tag's width.
    pub shift: u64,
}

fn one_if(holds: bool) -> u64
    ensures { result ≡ one_if holds }
{
    if holds { 1 } else { 0 }
}

impl DumpTally {
    /// Of no block.
    pub(crate) const NONE: DumpTally = DumpTally {
        blocks: 0,
        bad: 0,
        unchecked: 0,
        tags: 0,
        same: 0,
        shift: 0,
    };

    /// With one block more, of which this is found.
    pub(crate) fn counted(self, found: Judgement) -> DumpTally
        requires tally { IsTally self }
        requires room { self.blocks + 1 < 2 ^ 64 }
        ensures value { result ≡ counted self found }
        ensures tally { IsTally result }
        ensures one { result.blocks ≡ self.blocks + 1 }
    {
        let blocks = self.blocks + 1;
        match found {
            Judgement::Nothing => DumpTally { blocks, ..self },
            Judgement::Escape => DumpTally {
                blocks,
                unchecked: self.unchecked + 1,
                ..self
            },
            Judgement::Guard | Judgement::AppTag => DumpTally {
                blocks,
                bad: self.bad + 1,
                ..self
            },
            Judgement::RefTag { shift } => DumpTally {
                blocks,
                bad: self.bad + 1,
                tags: self.tags + 1,
                same: self.same + one_if(self.tags == 0 || shift == self.shift),
                shift: if self.tags == 0 { shift } else { self.shift },
                ..self
            },
        }
    }
}
