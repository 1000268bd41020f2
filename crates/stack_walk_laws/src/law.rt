//! One command of a group.

ghost use Rattle.std.specs.Prelude.{◌≡◌, ℕ, false, List, map, take};
ghost use Rattle.bio_core.specs.declared.bio.Bio.{Bio as AnyBio};
ghost use Rattle.bio_core.specs.declared.fate.Fate.{Fate as AnyFate};
ghost use Rattle.bio_core.specs.declared.request.Dir.TheVariants.{Read, Write};
ghost use Rattle.bio_core.specs.declared.request.Io.{Io as AnyIo};
ghost use Rattle.page_pool.specs.Cells.{flat};
ghost use Rattle.block_path.specs.Passed.{frames_of};
ghost use Rattle.run_laws.specs.Passed.{Setting};
ghost use Rattle.dix_adapter.specs.declared.adapter.Adapter.{Adapter as AnyAdapter};
ghost use Rattle.dix_adapter.specs.Carried.{any_bad, frame_len, frame_sent, sends};
ghost use Rattle.dix_adapter.specs.Groups.{IsCarriedGroup, IsProtect, blocks_in, first_of, size};
ghost use Rattle.dix_adapter.specs.Outcomes.{done_of};
ghost use Rattle.dix_adapter.specs.Ways.{RecordedIn, RecordedOut};
ghost use Rattle.stack_walk_laws.specs.OnRecord.{GoesOnRecord};
ghost use Rattle.dix_adapter.specs.Passed.{RigState};

/// A group that was carried as the adapter's contract says goes on record block by block, in its order: each block that
/// is done has an entry with the frame that was sent or came, and the block at which the command ended has an end, with
/// the answer that it is listed with. This is over any rig.
pub fn a_carried_group_goes_on_record()
    ensures out { (m : Setting) (a : AnyAdapter) (ios : List AnyIo) (req : List AnyBio) (pool : List (List ℕ)) (fates : List AnyFate) (old new : RigState)
        → IsProtect a.protect → IsCarriedGroup a pool m.size ios req → (first_of req).dir ≡ Write → any_bad (map (sends a ios (flat pool)) (blocks_in req)) ≡ false
        → (r : RecordedOut a ios req (flat pool) fates old new)
        → GoesOnRecord m req r.entry.what.outcome (take (done_of (size req) r.entry.what.outcome) (map frame_sent (map (sends a ios (flat pool)) (blocks_in req)))) old.log new.log }
    ensures inward { (m : Setting) (a : AnyAdapter) (ios : List AnyIo) (req : List AnyBio) (pool pool' : List (List ℕ)) (fates : List AnyFate) (old new : RigState)
        → IsProtect a.protect → IsCarriedGroup a pool m.size ios req → (first_of req).dir ≡ Read
        → (r : RecordedIn a ios req pool pool' fates old new)
        → GoesOnRecord m req r.entry.what.outcome (frames_of (frame_len a ios req) (done_of (size req) r.entry.what.outcome) r.entry.moved) old.log new.log }
{}
