//! Logs and replies.

ghost use Rattle.std.specs.Prelude.{◌≡◌, ◌<◌, ℕ, List, ◌∷◌, ◌++◌, None, get_or, length, suc};
ghost use Rattle.std.specs.List.{AllByRecursion as Each};
ghost use Rattle.walk_laws.specs.Passed.{LogEntry, Op as AnyOp, Reply as AnyReply, Silent, State, Sent, own_cell};
ghost use Rattle.page_pool.specs.declared.segs.Seg.{Seg as AnySeg};
ghost use Rattle.integrity_payload.specs.declared.payload.Owner.{Owner as AnyOwner};
ghost use Rattle.walk_laws.specs.ScriptWalk.{script_replies};
ghost use Rattle.walk_laws.specs.Settings.{Setting, block_of, route};
ghost use Rattle.walk_laws.specs.ReadsAs.{listed_in, read_op};
ghost use Rattle.run_laws.specs.BackedRun.{Backed, OfRead, answered};
ghost use Rattle.run_laws.specs.CarriedRun.{Carried};
ghost use Rattle.run_laws.specs.EarlierWrites.{IsCounted, LogsAreEmpty, StandsAfter, accepted_in};
ghost use Rattle.run_laws.specs.Records.{recorded};
ghost use Rattle.run_laws.specs.ToldRun.{IsRecordOfRun, IsSameWalk, told};

/// Over any rig, honest or not, in every mode: where the walk runs over what stands on record of its blocks, and these
/// entries and ends are just its own, the log backs its replies.
pub fn a_walk_over_its_record_is_backed()
    ensures { (m : Setting) (ops : List AnyOp) (opening : State) (log : List LogEntry) → IsRecordOfRun (told m (recorded m log)) ops opening (recorded m log)
        → Backed m ops opening log (script_replies (told m (recorded m log)) ops opening) }
{}

/// Where the entries and ends of a log are those of the walk itself, the log holds what the walk carries.
pub fn a_log_of_the_walk_is_carried()
    ensures { (m : Setting) (ops : List AnyOp) (opening : State) (log : List LogEntry) → IsRecordOfRun m ops opening (recorded m log) → Carried m ops opening log }
{}

/// What a walk puts on record fixes it, whatever device is behind the adapter, honest or not: the walk over its record
/// answers of each block the same, with the same replies, pages and carried frames. So what was told of an honest
/// target is the target's walk, and its log backs its replies.
pub fn a_walk_is_the_walk_over_its_record()
    ensures same { (m : Setting) (ops : List AnyOp) (opening : State) (log : List LogEntry) → IsRecordOfRun m ops opening (recorded m log) → IsSameWalk m ops opening (recorded m log) }
    ensures backed { (m : Setting) (ops : List AnyOp) (opening : State) (log : List LogEntry) → IsRecordOfRun m ops opening (recorded m log) → Backed m ops opening log (script_replies m ops opening) }
{}

/// The walk that takes the replies carries a block of a read after as many write frames of its place as earlier ops
/// have blocks of writes there that their replies don't list. This is for any replies and any record.
pub fn the_walk_counts_accepted_writes()
    ensures { (m : Setting) (ops : List AnyOp) (opening : State) (es : List Sent) (replies : List AnyReply) → LogsAreEmpty m ops opening
        → Each (OfRead (IsCounted m ops replies)) (answered m ops opening es replies) }
{}

/// So where a log backs replies, each block of a read that its reply doesn't list has an entry that stands after as
/// many write entries of its place as earlier ops have blocks of writes there that their replies don't list.
pub fn a_delivered_block_stands_after_the_accepted_writes()
    ensures { (m : Setting) (before after : List AnyOp) (owner : AnyOwner) (v n k : ℕ) (body tuples : List AnySeg) (opening : State) (log : List LogEntry) (replies : List AnyReply) →
        let b = block_of (suc (length before)) v k in
        let ops = before ++ (read_op owner v n body tuples ∷ after) in
        Backed m ops opening log replies → LogsAreEmpty m ops opening → k < n → listed_in (get_or replies (length before) Silent) k ≡ None
        → StandsAfter (recorded m log) (route m b).label (accepted_in m (own_cell m.site (route m b)) 1 before replies) }
{}
