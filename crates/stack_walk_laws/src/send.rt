//! A command is sent.

ghost use Rattle.std.specs.Prelude.{ℕ, ◌≡◌, true, false, List, [], length, map, None, Result};
ghost use Rattle.bio_core.specs.declared.fate.Why.{Why as AnyWhy};
ghost use Rattle.bio_core.specs.Bios.{Block};
ghost use Rattle.bio_core.specs.declared.request.Io.{Io as AnyIo};
ghost use Rattle.dix_adapter.specs.declared.adapter.Adapter.{Adapter as AnyAdapter};
ghost use Rattle.bio_core.specs.declared.bio.Bio.{Bio as AnyBio};
ghost use Rattle.bio_core.specs.declared.fate.Fate.{Fate as AnyFate};
ghost use Rattle.bio_core.specs.declared.request.Dir.TheVariants.{Read, Write};
ghost use Rattle.page_pool.specs.Cells.{flat};
ghost use Rattle.run_laws.specs.Records.{recorded};
ghost use Rattle.dix_adapter.specs.Carried.{Unsent, any_bad, frame_len, sends};
ghost use Rattle.dix_adapter.specs.Groups.{IsCarriedGroup, IsProtect, blocks_in, first_of, size};
ghost use Rattle.dix_adapter.specs.Ways.{CameIn, RecordedIn, RecordedOut, WentOut, blocks_told, shapes_of, site_of};
ghost use Rattle.block_path.specs.Passed.{Stored};
ghost use Rattle.block_path.specs.Acts.{State};
ghost use Rattle.block_path.specs.Blocks.{Sent};
ghost use Rattle.run_laws.specs.Passed.{Setting, Block as AnyBlock, route, Op as AnyOp};
ghost use Rattle.run_laws.specs.ToldRun.{came_by, told};
ghost use Rattle.block_path.specs.Routes.{wire_size};
ghost use Rattle.stack_walk_laws.specs.Finished.{FramesFit};
ghost use Rattle.stack_walk_laws.specs.Following.{Follows};
ghost use Rattle.stack_walk_laws.specs.Sending.{AllComeIn, AllGoOut, AllGoing, AllSized, FollowsOn, FollowsTold, HeldBack, NoneBefore, SentIn, SentOut, is_carried, with_fates};
ghost use Rattle.stack_walk_laws.specs.Gate.{BlockSpot};
ghost use Rattle.stack_walk_laws.specs.Slots.{Status, Waits};
ghost use Rattle.dix_adapter.specs.Passed.{RigState};

/// What stands on record may grow: a stack follows what is told by it as long as of each block that was carried it
/// tells the same.
pub fn more_may_stand_on_record()
    ensures { (m : Setting) (n : ℕ) (ops : List AnyOp) (opening now : State) (status : ℕ → ℕ → Status) (one two es : List Sent)
        → ((i k : ℕ) → is_carried (status i k) ≡ true → came_by one (record { op = i; k = k }) ≡ came_by two (record { op = i; k = k }))
        → Follows (told m one) n ops opening status now es → Follows (told m two) n ops opening status now es }
{}

/// A group of blocks is sent, over whatever is behind the adapter: each block that is carried, or at which the command
/// ends, has its fate and stands on record, and the others stay cut.
pub fn a_group_is_sent()
    ensures out { (m : Setting) (n : ℕ) (ops : List AnyOp) (a : AnyAdapter) (ios : List AnyIo) (opening now : State) (status : ℕ → ℕ → Status)
        (es : List Sent) (bs : List Block) (spots : List BlockSpot)
        (cames : List (Result (List ℕ) AnyWhy))
        → AllGoing m n ops a ios (length opening.logs) status bs spots → AllGoOut m a ios now.bytes bs cames → Follows m n ops opening status now es
        → SentOut m n ops a ios opening now bs cames status es }
    ensures inward { (m : Setting) (n : ℕ) (ops : List AnyOp) (a : AnyAdapter) (ios : List AnyIo) (opening now : State) (status : ℕ → ℕ → Status)
        (es : List Sent) (bs : List Block) (spots : List BlockSpot)
        (cames : List (Result (List ℕ) AnyWhy))
        → m.site.faults ≡ a.tamper → AllGoing m n ops a ios (length opening.logs) status bs spots → AllComeIn m a ios now.blocks bs cames → Follows m n ops opening status now es
        → SentIn m n ops a ios opening now bs cames status es }
{}

/// The adapter finds a block of a write bad and sends nothing: each bad block has that fate, and the others stay cut. This
/// is over whatever is behind the adapter, so over the record too.
pub fn a_write_is_held_back()
    ensures { (m : Setting) (n : ℕ) (ops : List AnyOp) (a : AnyAdapter) (ios : List AnyIo) (req : List AnyBio) (pool pool' : List (List ℕ)) (fates : List AnyFate) (opening now : State)
        (status : ℕ → ℕ → Status) (es : List Sent) (spots : List BlockSpot)
        → IsCarriedGroup a pool m.size ios req → (first_of req).dir ≡ Write → m.site.faults ≡ a.tamper → Unsent a ios req pool pool' fates
        → AllGoing m n ops a ios (length opening.logs) status (blocks_in req) spots → now.bytes ≡ flat pool → Follows m n ops opening status now es
        → HeldBack m n ops opening now status (with_fates (blocks_in req) fates status) es }
{}

/// A command is sent over any rig, as the adapter says: what came of its blocks stands on record, and the stack follows
/// it on.
pub fn a_command_is_sent()
    ensures out { (m : Setting) (n : ℕ) (ops : List AnyOp) (a : AnyAdapter) (ios : List AnyIo) (req : List AnyBio) (pool : List (List ℕ)) (fates : List AnyFate) (old new : RigState)
        (opening now : State) (status : ℕ → ℕ → Status) (spots : List BlockSpot)
        → IsProtect a.protect → IsCarriedGroup a pool m.size ios req → (first_of req).dir ≡ Write → any_bad (map (sends a ios (flat pool)) (blocks_in req)) ≡ false → m.site.faults ≡ a.tamper
        → RecordedOut a ios req (flat pool) fates old new
        → AllGoing m n ops a ios (length opening.logs) status (blocks_in req) spots → now.bytes ≡ flat pool → NoneBefore status (recorded m old.log)
        → Follows (told m (recorded m old.log)) n ops opening status now (recorded m old.log)
        → FollowsOn m n ops opening (with_fates (blocks_in req) fates status) (flat pool) new.log }
    ensures inward { (m : Setting) (n : ℕ) (ops : List AnyOp) (a : AnyAdapter) (ios : List AnyIo) (req : List AnyBio) (pool pool' : List (List ℕ)) (fates : List AnyFate) (old new : RigState)
        (opening now : State) (status : ℕ → ℕ → Status) (spots : List BlockSpot)
        → IsProtect a.protect → IsCarriedGroup a pool m.size ios req → (first_of req).dir ≡ Read → m.site.faults ≡ a.tamper
        → RecordedIn a ios req pool pool' fates old new
        → AllGoing m n ops a ios (length opening.logs) status (blocks_in req) spots → now.bytes ≡ flat pool → NoneBefore status (recorded m old.log)
        → Follows (told m (recorded m old.log)) n ops opening status now (recorded m old.log)
        → FollowsOn m n ops opening (with_fates (blocks_in req) fates status) (flat pool') new.log }
{}

/// So over a rig that tells its blocks, while no store call failed: besides, each block goes its way over the target, and
/// the stored blocks are those that the rig tells.
pub fn a_told_command_is_sent()
    ensures out { (m : Setting) (n : ℕ) (ops : List AnyOp) (a : AnyAdapter) (ios : List AnyIo) (req : List AnyBio) (pool : List (List ℕ)) (us : List Stored) (fates : List AnyFate) (old new : RigState)
        (opening now : State) (status : ℕ → ℕ → Status) (spots : List BlockSpot)
        → IsProtect a.protect → IsCarriedGroup a pool m.size ios req → (first_of req).dir ≡ Write → any_bad (map (sends a ios (flat pool)) (blocks_in req)) ≡ false → m.site ≡ site_of a (shapes_of us)
        → RecordedOut a ios req (flat pool) fates old new → (w : WentOut a ios req (flat pool) us None fates old new)
        → AllGoing m n ops a ios (length opening.logs) status (blocks_in req) spots → now.bytes ≡ flat pool → now.blocks ≡ blocks_told us
        → Follows m n ops opening status now (recorded m old.log)
        → FollowsTold m n ops opening (with_fates (blocks_in req) fates status) (flat pool) (blocks_told w.units) new.log }
    ensures inward { (m : Setting) (n : ℕ) (ops : List AnyOp) (a : AnyAdapter) (ios : List AnyIo) (req : List AnyBio) (pool pool' : List (List ℕ)) (us : List Stored) (fates : List AnyFate)
        (old new : RigState)
        (opening now : State) (status : ℕ → ℕ → Status) (spots : List BlockSpot)
        → IsProtect a.protect → IsCarriedGroup a pool m.size ios req → (first_of req).dir ≡ Read → m.site ≡ site_of a (shapes_of us)
        → AllSized m a ios (blocks_told us) (frame_len a ios req) (blocks_in req)
        → RecordedIn a ios req pool pool' fates old new → CameIn a ios req pool pool' us None fates old new
        → AllGoing m n ops a ios (length opening.logs) status (blocks_in req) spots → now.bytes ≡ flat pool → now.blocks ≡ blocks_told us
        → Follows m n ops opening status now (recorded m old.log)
        → FollowsTold m n ops opening (with_fates (blocks_in req) fates status) (flat pool') (blocks_told us) new.log }
{}

/// Nothing stands on record of a block that wasn't carried: so it is at first, and so it stays with each step that
/// leaves the record as it is.
pub fn what_was_not_carried_is_not_on_record()
    ensures begins { NoneBefore (λ i k. Waits) [] }
    ensures goes_on { (old new : ℕ → ℕ → Status) (es : List Sent) → ((i k : ℕ) → is_carried (new i k) ≡ false → is_carried (old i k) ≡ false) → NoneBefore old es → NoneBefore new es }
{}

/// The frames on record keep the wire's size: those that are sent, and those that come.
pub fn frames_on_record_fit()
    ensures out { (m : Setting) (a : AnyAdapter) (ios : List AnyIo) (req : List AnyBio) (pool : List (List ℕ)) (fates : List AnyFate) (old new : RigState)
        → IsProtect a.protect → IsCarriedGroup a pool m.size ios req → (first_of req).dir ≡ Write → any_bad (map (sends a ios (flat pool)) (blocks_in req)) ≡ false
        → ((b : AnyBlock) → wire_size (route m b) ≡ frame_len a ios req) → RecordedOut a ios req (flat pool) fates old new
        → FramesFit m (recorded m old.log) → FramesFit m (recorded m new.log) }
    ensures inward { (m : Setting) (a : AnyAdapter) (ios : List AnyIo) (req : List AnyBio) (pool pool' : List (List ℕ)) (fates : List AnyFate) (old new : RigState)
        → IsProtect a.protect → IsCarriedGroup a pool m.size ios req → (first_of req).dir ≡ Read → ((b : AnyBlock) → wire_size (route m b) ≡ frame_len a ios req)
        → RecordedIn a ios req pool pool' fates old new
        → FramesFit m (recorded m old.log) → FramesFit m (recorded m new.log) }
{}
