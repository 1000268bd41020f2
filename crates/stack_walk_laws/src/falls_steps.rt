//! One law for each step but the sending of a command: which store calls failed, and what stands on record, stay as they
//! were.

ghost use Rattle.std.specs.Prelude.{ℕ, suc, ◌≡◌, List, [], ◌∷◌, ◌++◌, length, Option, get_or};
ghost use Rattle.page_pool.specs.Cells.{flat};
ghost use Rattle.bio_core.specs.declared.bio.Bio.{Bio as AnyBio};
ghost use Rattle.bio_core.specs.declared.fate.Fate.{Fate as AnyFate};
ghost use Rattle.bio_core.specs.declared.fate.Why.{Why as AnyWhy};
ghost use Rattle.bio_core.specs.declared.request.Dir.TheVariants.{Write};
ghost use Rattle.bio_core.specs.declared.request.Io.{Io as AnyIo};
ghost use Rattle.block_path.specs.Acts.{State, act, tell};
ghost use Rattle.block_path.specs.Blocks.{Sent, silent};
ghost use Rattle.block_path.specs.Moves.{first_why};
ghost use Rattle.block_path.specs.Serial.{plain, plain_tells};
ghost use Rattle.dix_adapter.specs.Passed.{Change as AnyChange, Flip};
ghost use Rattle.run_laws.specs.Passed.{acts_of, changed, Setting, Op as AnyOp, Overwrite};
ghost use Rattle.run_laws.specs.OpsApart.{IsPlaced, OneCellEach};
ghost use Rattle.dix_adapter.specs.declared.adapter.Adapter.{Adapter as AnyAdapter};
ghost use Rattle.dix_adapter.specs.Carried.{Unsent};
ghost use Rattle.dix_adapter.specs.Groups.{IsCarriedGroup, blocks_in, first_of};
ghost use Rattle.stack_walk_laws.specs.Following.{Becomes};
ghost use Rattle.stack_walk_laws.specs.Gate.{AllPlaced, BecomesDone, IsAlone, LetsIn, MayMove, BlockSpot, number, ops_of, parts_at, place};
ghost use Rattle.stack_walk_laws.specs.Pieces.{AllMayMove, all_cut, all_made, with_all};
ghost use Rattle.stack_walk_laws.specs.Sending.{AllGoing, with_fates};
ghost use Rattle.stack_walk_laws.specs.Slots.{Admitted, Carried, Cut, Settled, Status, Waits};
ghost use Rattle.stack_walk_laws.specs.FollowsFalling.{FollowsFalling};

/// Before its first step, with nothing carried and nothing on record, a stack follows the walk: no store call failed, and
/// each block waits.
pub fn a_falling_stack_begins()
    ensures { (m : Setting) (n : ℕ) (ops : List AnyOp) (opening : State) → ((c : ℕ) → get_or opening.logs c [] ≡ []) → FollowsFalling m n ops opening (λ i k. Waits) opening.bytes opening.blocks [] }
{}

/// The blocks of an op are admitted, and those of a piece are cut.
pub fn some_blocks_move_on_where_calls_fail()
    ensures admitted { (m : Setting) (n : ℕ) (ops : List AnyOp) (opening : State) (status : ℕ → ℕ → Status) (pages : List ℕ) (blocks : List (List ℕ)) (es : List Sent) (spots : List BlockSpot)
        → AllMayMove m n ops status Waits spots
        → (f : FollowsFalling m n ops opening status pages blocks es) → let after = plain act (all_made m n spots) f.after in
        FollowsFalling m n ops opening (with_all spots Admitted status) after.bytes after.blocks es }
    ensures cut { (m : Setting) (n : ℕ) (ops : List AnyOp) (opening : State) (status : ℕ → ℕ → Status) (pages : List ℕ) (blocks : List (List ℕ)) (es : List Sent) (spots : List BlockSpot)
        → AllMayMove m n ops status Admitted spots
        → (f : FollowsFalling m n ops opening status pages blocks es) → let after = plain act (all_cut m n spots) f.after in
        FollowsFalling m n ops opening (with_all spots Cut status) after.bytes after.blocks es }
{}

/// A command is completed: a block is listed with what was found when it was carried, as one whose store call failed is
/// for the medium, or else with what its owner finds.
pub fn a_block_is_settled_where_calls_fail()
    ensures { (m : Setting) (n : ℕ) (s : BlockSpot) (opening : State) (old new : ℕ → ℕ → Status) (pages : List ℕ) (blocks : List (List ℕ)) (es : List Sent) (fate : Option AnyWhy) → MayMove m n old s
        → old (number s) (place s) ≡ Carried fate → (f : FollowsFalling m n (ops_of s) opening old pages blocks es)
        → Becomes (number s) (place s) (Settled (first_why fate (get_or (plain_tells act tell (parts_at m n s).settled f.after) 0 silent).why)) old new
        → let after = plain act (parts_at m n s).settled f.after in FollowsFalling m n (ops_of s) opening new after.bytes after.blocks es }
{}

/// An op that is no request is done whole, once the gate lets it in.
pub fn an_op_is_done_whole_where_calls_fail()
    ensures { (m : Setting) (n : ℕ) (front behind : List AnyOp) (op : AnyOp) (opening : State) (old new : ℕ → ℕ → Status) (pages : List ℕ) (blocks : List (List ℕ)) (es : List Sent)
        → let i = suc (length front) in
        OneCellEach m → AllPlaced m n front → IsPlaced m n op → IsAlone op → LetsIn m old 1 front i op → (f : FollowsFalling m n (front ++ (op ∷ behind)) opening old pages blocks es)
        → BecomesDone m i op f.after old new
        → let after = plain act (acts_of m i op) f.after in FollowsFalling m n (front ++ (op ∷ behind)) opening new after.bytes after.blocks es }
{}

/// The adapter finds a block of a write bad and sends nothing: pages, stored blocks and record are as they were.
pub fn a_write_is_held_back_where_calls_fail()
    ensures { (m : Setting) (n : ℕ) (ops : List AnyOp) (a : AnyAdapter) (ios : List AnyIo) (req : List AnyBio) (pool pool' : List (List ℕ)) (fates : List AnyFate) (opening : State)
        (status : ℕ → ℕ → Status)
        (blocks : List (List ℕ)) (es : List Sent) (spots : List BlockSpot)
        → IsCarriedGroup a pool m.size ios req → (first_of req).dir ≡ Write → m.site.faults ≡ a.tamper → Unsent a ios req pool pool' fates
        → AllGoing m n ops a ios (length opening.logs) status (blocks_in req) spots → FollowsFalling m n ops opening status (flat pool) blocks es
        → FollowsFalling m n ops opening (with_fates (blocks_in req) fates status) (flat pool) blocks es }
{}

/// An overwrite is done whose store call fails, once the gate lets it in. Whatever it leaves in its block, of the block's
/// size, is what some flip of the block leaves: the stack follows the walk in which this flip stands in its place.
pub fn an_overwrite_flips_its_block_where_its_call_fails()
    ensures flips { (old left : List ℕ) → length left ≡ length old → (mask : List ℕ) × (changed (Flip 0 mask) old ≡ left) }
    ensures follows { (m : Setting) (n : ℕ) (front behind : List AnyOp) (dev lba : ℕ) (change : AnyChange) (mask : List ℕ) (opening : State) (old new : ℕ → ℕ → Status) (pages : List ℕ)
        (blocks : List (List ℕ)) (es : List Sent)
        → let i = suc (length front) in let flip = Overwrite dev lba (Flip 0 mask) in
        OneCellEach m → AllPlaced m n front → IsPlaced m n (Overwrite dev lba change) → LetsIn m old 1 front i (Overwrite dev lba change)
        → (f : FollowsFalling m n (front ++ (Overwrite dev lba change ∷ behind)) opening old pages blocks es) → BecomesDone m i (Overwrite dev lba change) f.after old new
        → let after = plain act (acts_of m i flip) f.after in FollowsFalling m n (front ++ (flip ∷ behind)) opening new after.bytes after.blocks es }
{}
