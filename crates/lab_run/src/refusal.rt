//! Why a call of the program comes to nothing.

ghost use Rattle.std.specs.Prelude.{◌≡◌, ◌≤◌, ◌++◌, codes, length};
ghost use Rattle.lab_run.specs.Texts.{refusal_text, status_of};

use crate::usage::USAGE;
use call_refusal::Refusal as Stop;
use call_verdict::{Reason, Status};
use image_blocks::PlaceFault;
use report_text::{Line, add, add_number};
use rig_api::RigFault;

/// Why a call of the program comes to nothing.
#[derive(Clone, Copy, Debug, PartialEq, Eq)]
pub enum Refusal {
    /// The words are not in the grammar.
    Words,
    /// The command is refused: for its image or its source, or want of memory.
    Stopped(Stop),
    /// The image hasn't the place of the words.
    Place(PlaceFault),
    /// A dump of tuples alone, of a unit that has none.
    NoTuples,
    /// The second image's head has this fault.
    SecondImage(RigFault),
    /// The second image hasn't its place of the words.
    SecondPlace(PlaceFault),
    /// The blocks of the two places have other sizes.
    OtherSize,
    /// The two places have other numbers of blocks.
    OtherCount,
    /// The source has other bytes than a dump of the place: how many it has, and how many are wanted. Nothing was taken.
    Size { has: u64, wanted: u64 },
    /// The dump ends behind so many whole pieces, before the place is full.
    Short(u32),
    /// The dump goes on behind its last piece.
    Long,
}

impl Refusal {
    /// Want of memory.
    pub const MEMORY: Refusal = Refusal::Stopped(Stop::Memory);

    /// The rig failed, or may not be called.
    pub const RIG_FAULT: Refusal = Refusal::Stopped(Stop::RigFault);
}

impl Reason for Refusal {
    ghost ends = { λ r. status_of r };

    ghost says = { λ r. refusal_text r };

    fn status(&self) -> Status
        ensures { result ≡ status_of self.now }
    {
        match *self {
            Refusal::Words => Status::Words,
            Refusal::Stopped(stop) => stop.status(),
            Refusal::Place(_) | Refusal::NoTuples => Status::Image,
            Refusal::SecondImage(_) | Refusal::SecondPlace(_) => Status::Image,
            Refusal::OtherSize | Refusal::OtherCount => Status::Image,
            Refusal::Size { .. } | Refusal::Short(_) | Refusal::Long => Status::Input,
        }
    }

    fn line(&self) -> Line
        ensures { result.items ≡ refusal_text self.now }
    {
        match *self {
            Refusal::Words => plain_line(USAGE),
            Refusal::Stopped(stop) => stop.line(),
            Refusal::Place(fault) => named_line(b"place ", fault.name().as_bytes()),
            Refusal::NoTuples => plain_line(b"layout NoTuples\n"),
            Refusal::SecondImage(fault) => named_line(b"second image ", fault.name().as_bytes()),
            Refusal::SecondPlace(fault) => named_line(b"second place ", fault.name().as_bytes()),
            Refusal::OtherSize => plain_line(b"places OtherSize\n"),
            Refusal::OtherCount => plain_line(b"places OtherCount\n"),
            Refusal::Size { has, wanted } => size_line(has, wanted),
            Refusal::Short(pieces) => short_line(pieces),
            Refusal::Long => plain_line(b"dump long, imported all\n"),
        }
    }
}

fn plain_line(text: &[u8]) -> Line
    requires { length text.now ≤ 256 }
    ensures { result.items ≡ text.now }
{
    let mut line = Line::new();
    add(&mut line, text);
    line
}

/// What is at fault, and the name of the fault.
fn named_line(what: &[u8], name: &[u8]) -> Line
    requires what { length what.now ≤ 16 }
    requires name { length name.now ≤ 16 }
    ensures { result.items ≡ what.now ++ (name.now ++ codes "\n") }
{
    let mut line = Line::new();
    add(&mut line, what);
    add(&mut line, name);
    add(&mut line, b"\n");
    line
}

fn size_line(has: u64, wanted: u64) -> Line
    ensures { result.items ≡ refusal_text (Refusal.Size has wanted) }
{
    let mut line = Line::new();
    add(&mut line, b"dump of ");
    add_number(&mut line, has);
    add(&mut line, b" bytes in place of ");
    add_number(&mut line, wanted);
    add(&mut line, b", imported 0\n");
    line
}

fn short_line(pieces: u32) -> Line
    ensures { result.items ≡ refusal_text (Refusal.Short pieces) }
{
    let mut line = Line::new();
    add(&mut line, b"dump short, imported ");
    add_number(&mut line, u64::from(pieces));
    add(&mut line, b"\n");
    line
}
