//! At the end.

ghost use Rattle.std.specs.Prelude.{ℕ, ◌≡◌, ◌<◌, Bool, true, List, ◌∷◌, ◌++◌, length, take, None};
ghost use Rattle.page_pool.specs.declared.segs.Seg.{Seg as AnySeg};
ghost use Rattle.integrity_payload.specs.declared.payload.Owner.{Owner as AnyOwner};
ghost use Rattle.integrity_payload.specs.declared.payload.Owner.TheVariants.{App};
ghost use Rattle.block_path.specs.Passed.{stored_size};
ghost use Rattle.block_path.specs.Acts.{State};
ghost use Rattle.block_path.specs.Blocks.{Sent, stored_cell};
ghost use Rattle.block_path.specs.Moves.{hidden};
ghost use Rattle.run_laws.specs.Passed.{finds_plainly, Block, Setting, route, read_op, Op as AnyOp, Write, WritePi, Reply as AnyReply};
ghost use Rattle.run_laws.specs.FallingReads.{HasRoom};
ghost use Rattle.run_laws.specs.FallingWrites.{finds_then};
ghost use Rattle.run_laws.specs.StoreFaults.{IsFallingRun};
ghost use Rattle.run_laws.specs.BoundRun.{IsBoundRun};
ghost use Rattle.run_laws.specs.Suited.{IsAtTarget, keeps_size};
ghost use Rattle.stack_walk_laws.specs.Finished.{AllEnded, replies_of};
ghost use Rattle.stack_walk_laws.specs.Slots.{Status};
ghost use Rattle.stack_walk_laws.specs.Takes.{AllTakeAny};
ghost use Rattle.stack_walk_laws.specs.AtTheEnd.{EndsAsFalling, IsWrittenOrFails, ReadsOrFails};
ghost use Rattle.stack_walk_laws.specs.Falls.{of_blocks};
ghost use Rattle.stack_walk_laws.specs.FollowsFalling.{FollowsFalling};

/// Once all has ended, pages, stored blocks and replies are those of the script's walk in which some store calls failed
/// and left in their cells what they may. What is left has the size of a stored block, and such are fine where the
/// script's blocks are stored. What stands on record is told from the record of the script's walk over the device on which
/// these calls fail: a write that failed has an end there in place of its entry.
pub fn a_finished_stack_is_the_falling_walk()
    ensures { (m : Setting) (fine : ℕ → List ℕ → Bool) (n : ℕ) (ops : List AnyOp) (opening : State) (status : ℕ → ℕ → Status) (pages : List ℕ) (blocks : List (List ℕ)) (es : List Sent)
        → IsBoundRun m fine n ops opening → AllTakeAny m fine 1 ops → AllEnded m 1 ops status → FollowsFalling m n ops opening status pages blocks es
        → EndsAsFalling m n ops opening (take n pages) blocks (replies_of m 1 ops status) es }
{}

/// Over a target a block that is as long as a stored one is fine where a block of the script is stored.
pub fn a_target_takes_any()
    ensures { (m : Setting) (opening : List (List ℕ)) (b : Block) (left : List ℕ) → IsAtTarget m opening b → length left ≡ stored_size m.ty m.size
        → keeps_size opening (stored_cell m.site (route m b)) left ≡ true }
{}

/// So in a run without scheduled faults over a clean image, whatever store calls failed: a block of a read that isn't
/// lost when its op begins is listed for the medium, or it isn't listed, and where it lands stand the last accepted
/// write's data, and for an application its application tag, where tuples pass all the way.
pub fn a_stack_reads_the_last_write_or_fails_at_the_medium()
    ensures { (m : Setting) (bytes : ℕ) (before after : List AnyOp) (owner : AnyOwner) (v n k : ℕ) (body tuples : List AnySeg) (opening : State) (pages : List ℕ) (blocks : List (List ℕ))
        (replies : List AnyReply) (es : List Sent)
        → let ops = before ++ (read_op owner v n body tuples ∷ after) in
        IsFallingRun m ops (hidden bytes opening) → HasRoom m (length (hidden bytes opening).bytes) owner n body tuples → k < n
        → (e : EndsAsFalling m bytes ops opening pages blocks replies es) → ReadsOrFails m (of_blocks e.falls) before owner v n body tuples (hidden bytes opening) replies k }
{}

/// And a block of a write that the plain map accepts is listed for the medium or not at all.
pub fn a_stack_writes_or_fails_at_the_medium()
    ensures own { (m : Setting) (bytes : ℕ) (before after : List AnyOp) (v n k : ℕ) (body : List AnySeg) (app : ℕ) (opening : State) (pages : List ℕ) (blocks : List (List ℕ))
        (replies : List AnyReply) (es : List Sent)
        → let ops = before ++ (Write v n body app ∷ after) in
        IsFallingRun m ops (hidden bytes opening) → k < n → finds_plainly m app ≡ None → EndsAsFalling m bytes ops opening pages blocks replies es → IsWrittenOrFails (length before) replies k }
    ensures brought { (m : Setting) (bytes : ℕ) (before after : List AnyOp) (v n k : ℕ) (body tuples : List AnySeg) (opening : State) (pages : List ℕ) (blocks : List (List ℕ))
        (replies : List AnyReply) (es : List Sent)
        → let ops = before ++ (WritePi v n body tuples ∷ after) in
        IsFallingRun m ops (hidden bytes opening) → HasRoom m (length (hidden bytes opening).bytes) App n body tuples → k < n → (e : EndsAsFalling m bytes ops opening pages blocks replies es)
        → finds_then m (of_blocks e.falls) before v body tuples (hidden bytes opening) k ≡ None → IsWrittenOrFails (length before) replies k }
{
    run_laws::a_write_fails_at_the_medium_alone();
}
