//! What the lines of unseen blocks say, and of which frames. Nothing here runs.

ghost use Rattle.std.specs.Prelude.{◌≤◌, ℕ, List, length};
ghost use Rattle.stack_ops.specs.declared.reply.Reply.{Reply};
ghost use Rattle.block_path.specs.declared.route.Route.{Route};
ghost use Rattle.fault_schedule.specs.declared.fault.FaultLine.{FaultLine};
ghost use Rattle.rig_api.specs.Log.{LogEntry};
ghost use Rattle.walk_laws.specs.Settings.{Setting};
ghost use Rattle.run_laws.specs.Records.{NoTwo, recorded};
ghost use Rattle.run_words.specs.Judged.{IsAtHost, IsJudgedSo, IsOfItsEntry, IsOfTheWalk};
ghost use Rattle.run_words.specs.declared.asked.Asked.{Asked};
ghost use Rattle.run_words.specs.Lies.{Book, MovedBlock, label_of};

/// Of data that came of a virtual block nothing is said exactly where no accepted write of an earlier op wrote that block, or
/// the newest brought these data. Else they are `stale`, and the op that is named is the newest that brought them; or
/// `wrong`, and none did.
pub fn a_lie_is_told_exactly_where_the_newest_write_brought_other_data()
    ensures { (b : Book) (moved : List MovedBlock) (replies : List Reply) (came : List ℕ) (v i : ℕ) → IsJudgedSo b moved replies came v i }
{}

/// Where no block has two entries or ends in a log, as in that of any run, the frame that is judged of a block is that of
/// its entry: the frame that the walk over this log takes.
pub fn the_judged_frame_of_a_block_is_that_of_its_entry()
    ensures { (m : Setting) (log : List LogEntry) (i k : ℕ) → NoTwo (recorded m log) → IsOfItsEntry m log (label_of i k) }
{}

/// Of a frame that has the data of a block: the data that are judged are those that land of it in the pages, or those in the
/// pages of which it was sent, in each mode, whatever flips act at the host.
pub fn the_judged_data_are_those_in_the_pages()
    ensures { (faults : List FaultLine) (r : Route) (frame : List ℕ) → r.size ≤ length frame → IsAtHost faults r frame }
{}

/// So the data that are judged of a block that isn't listed are those of the walk that takes the log: what landed of its
/// entry's frame, and what lay in the pages where the entry has what the adapter sends of that.
pub fn the_judged_data_are_those_of_the_walk()
    ensures { (m : Setting) (asked : List Asked) (log : List LogEntry) (replies : List Reply) (i k v : ℕ) → NoTwo (recorded m log) → IsOfTheWalk m asked log replies i k v }
{}
