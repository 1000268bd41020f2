//! A user's own data, imported plain, as the blocks of a run.

ghost use Rattle.lab_laws.specs.Clean.{ClaimsOnClean, FormatMakes, HoldsClean, ImportMakes, KeepsHead, MakesClean, RunsOnClean};

/// A law: what a plain import makes is clean. So where each device of a volume was formatted, or imported plain as
/// a whole, and the script has no `expect` line, all blocks of the volume are clean, and of its devices.
pub fn a_plain_import_is_clean()
    ensures blocks { MakesClean }
    ensures formatted { FormatMakes }
    ensures imported { ImportMakes }
    ensures head { KeepsHead }
    ensures devices { HoldsClean }
    ensures run { RunsOnClean }
    ensures claim { ClaimsOnClean }
{}
