//! A command is sent.

ghost use Rattle.std.specs.Prelude.{ℕ, ◌≡◌, false, List, length, map, Option, IfSome};
ghost use Rattle.page_pool.specs.Cells.{flat};
ghost use Rattle.block_path.specs.Passed.{stored_size, Stop, Stored};
ghost use Rattle.bio_core.specs.declared.bio.Bio.{Bio as AnyBio};
ghost use Rattle.bio_core.specs.declared.fate.Fate.{Fate as AnyFate};
ghost use Rattle.bio_core.specs.declared.request.Dir.TheVariants.{Read, Write};
ghost use Rattle.bio_core.specs.declared.request.Io.{Io as AnyIo};
ghost use Rattle.block_path.specs.Acts.{State};
ghost use Rattle.run_laws.specs.Passed.{Setting, Op as AnyOp};
ghost use Rattle.run_laws.specs.Records.{recorded};
ghost use Rattle.dix_adapter.specs.declared.adapter.Adapter.{Adapter as AnyAdapter};
ghost use Rattle.dix_adapter.specs.Carried.{any_bad, frame_len, sends};
ghost use Rattle.dix_adapter.specs.Groups.{IsCarriedGroup, IsProtect, blocks_in, first_of};
ghost use Rattle.dix_adapter.specs.Ways.{CameIn, RecordedIn, RecordedOut, WentOut, blocks_told, shapes_of, site_of};
ghost use Rattle.stack_walk_laws.specs.Gate.{BlockSpot};
ghost use Rattle.stack_walk_laws.specs.Sending.{AllGoing, AllSized, NoneBefore, with_fates};
ghost use Rattle.stack_walk_laws.specs.Slots.{Status};
ghost use Rattle.stack_walk_laws.specs.FollowsFalling.{FollowsFalling};
ghost use Rattle.dix_adapter.specs.Passed.{RigState};

/// A command is sent over a rig that tells its blocks, and a store call of it may fail, at whatever block, and leave
/// there what it may: the stack follows on. What is left of a write's block has the size of a stored block. That nothing
/// stands on record of a block that wasn't carried is what a stack over any rig keeps.
pub fn a_falling_command_is_sent()
    ensures out { (m : Setting) (n : ℕ) (ops : List AnyOp) (a : AnyAdapter) (ios : List AnyIo) (req : List AnyBio) (pool : List (List ℕ)) (us : List Stored) (stop : Option Stop)
        (fates : List AnyFate) (old new : RigState)
        (opening : State) (status : ℕ → ℕ → Status) (spots : List BlockSpot)
        → IsProtect a.protect → IsCarriedGroup a pool m.size ios req → (first_of req).dir ≡ Write → any_bad (map (sends a ios (flat pool)) (blocks_in req)) ≡ false → m.site ≡ site_of a (shapes_of us)
        → RecordedOut a ios req (flat pool) fates old new → (w : WentOut a ios req (flat pool) us stop fates old new) → IfSome stop (λ s. length s.left ≡ stored_size m.ty m.size)
        → AllGoing m n ops a ios (length opening.logs) status (blocks_in req) spots → NoneBefore status (recorded m old.log)
        → FollowsFalling m n ops opening status (flat pool) (blocks_told us) (recorded m old.log)
        → FollowsFalling m n ops opening (with_fates (blocks_in req) fates status) (flat pool) (blocks_told w.units) (recorded m new.log) }
    ensures inward { (m : Setting) (n : ℕ) (ops : List AnyOp) (a : AnyAdapter) (ios : List AnyIo) (req : List AnyBio) (pool pool' : List (List ℕ)) (us : List Stored) (stop : Option Stop)
        (fates : List AnyFate) (old new : RigState)
        (opening : State) (status : ℕ → ℕ → Status) (spots : List BlockSpot)
        → IsProtect a.protect → IsCarriedGroup a pool m.size ios req → (first_of req).dir ≡ Read → m.site ≡ site_of a (shapes_of us)
        → AllSized m a ios (blocks_told us) (frame_len a ios req) (blocks_in req)
        → RecordedIn a ios req pool pool' fates old new → CameIn a ios req pool pool' us stop fates old new → IfSome stop (λ s. length s.left ≡ stored_size m.ty m.size)
        → AllGoing m n ops a ios (length opening.logs) status (blocks_in req) spots → NoneBefore status (recorded m old.log)
        → FollowsFalling m n ops opening status (flat pool) (blocks_told us) (recorded m old.log)
        → FollowsFalling m n ops opening (with_fates (blocks_in req) fates status) (flat pool') (blocks_told us) (recorded m new.log) }
{}
