//! A law on what is said.

ghost use Rattle.fault_marks.specs.Laws.{CausesAreSo};

/// A law: the cause that is said of an alteration, of a segment and of the bytes of a list is the case, with its numbers.
pub fn the_cause_that_is_said_is_so()
    ensures { CausesAreSo }
{}
