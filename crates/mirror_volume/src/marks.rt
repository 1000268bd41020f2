//! The marks of blocks that were written.

ghost use Rattle.std.specs.Prelude.{◌≡◌, ◌+◌, ◌≤◌, length};
ghost use Rattle.mirror_laws.specs.Mirror.{marked};
ghost use Rattle.mirror_laws.specs.OnLegs.{marks_written};

use bio_core::Why;
use mirror_laws::Marks;

/// Both legs have the block.
pub(crate) const FRESH: Marks = Marks {
    leg0: true,
    leg1: true,
};

/// The marks of a block after a write, by what was found of it on each leg. Where neither accepts it, they stay.
fn marked(why0: Option<Why>, why1: Option<Why>, old: Marks) -> Marks
    ensures { result ≡ marked why0 why1 old }
{
    match (why0, why1) {
        (None, None) => FRESH,
        (None, Some(_)) => Marks {
            leg0: true,
            leg1: false,
        },
        (Some(_), None) => Marks {
            leg0: false,
            leg1: true,
        },
        (Some(_), Some(_)) => old,
    }
}

/// Marks the blocks of a write, from block v on, by what was found of each on each leg.
pub(crate) fn mark(marks: &mut [Marks], v: usize, found0: &[Option<Why>], found1: &[Option<Why>])
    requires inside { v + length found0.now ≤ length marks.old }
    requires same { length found1.now ≡ length found0.now }
    ensures marks { marks.new ≡ marks_written v found0.now found1.now marks.old }
    ensures long { length marks.new ≡ length marks.old }
{
    for i in 0..found0.len() {
        marks[v + i] = marked(found0[i], found1[i], marks[v + i]);
    }
}
