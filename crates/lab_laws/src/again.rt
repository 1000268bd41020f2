//! Vectors done again.

ghost use Rattle.lab_laws.specs.Again.{ExchangeAnswers, ListAgain, ReadAnswers, RunAgain, SameAgain, TextAgain, TextReads, WriteAnswers};

/// A law: what one exchange with a rig that tells its blocks puts on record is the unit's answer, without faults and
/// where no store call failed.
pub fn one_exchange_is_an_answer()
    ensures { ExchangeAnswers }
{}

/// A law: so is what the adapter's command puts on record, of a write that it passes and of a read.
pub fn one_command_is_an_answer()
    ensures written { WriteAnswers }
    ensures fetched { ReadAnswers }
{}

/// A law: where records are, one after another, what their units answer without faults, and each write moved all that
/// was sent, their vectors done as a list over the units as they were are the same text, and leave the same units.
pub fn vectors_done_again_are_the_same_text()
    ensures { SameAgain }
{}

/// A law: the text of vectors is read back as the list of their commands, where it isn't too long for one.
pub fn vectors_are_a_list_again()
    ensures { TextReads }
{}

/// A law: where a script that has vectors was run, over an image that is told and without a store call that failed, its
/// vectors done as a list over the units of that image are the same text, and leave the units that the run left. So it
/// is of each call that does this list over a rig with the same image, and of one that reads it from the text of these
/// vectors, where the records have the widths of a list's lines.
pub fn vectors_of_a_run_done_again_are_the_same_text()
    ensures told { RunAgain }
    ensures called { ListAgain }
    ensures read { TextAgain }
{}
