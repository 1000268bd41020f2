//! What the failures of the disk and of addresses come to.

ghost use Rattle.mode_map.specs.OtherFailures.{AreOthersFound};

/// Each failure of the disk and each misdirected block comes to its cell, in every mode whose protect field is 1, 3 or 4.
pub fn each_other_failure_comes_to_its_cell()
    ensures { AreOthersFound }
{}
