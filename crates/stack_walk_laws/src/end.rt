//! At the end.

ghost use Rattle.std.specs.Prelude.{ℕ, Bool, true, List};
ghost use Rattle.dix_adapter.specs.Passed.{LogEntry};
ghost use Rattle.block_path.specs.Acts.{State};
ghost use Rattle.block_path.specs.Blocks.{Sent};
ghost use Rattle.block_path.specs.Moves.{hidden};
ghost use Rattle.run_laws.specs.Passed.{Setting, Op as AnyOp};
ghost use Rattle.run_laws.specs.BackedRun.{Backed};
ghost use Rattle.run_laws.specs.CarriedRun.{Carried};
ghost use Rattle.run_laws.specs.Records.{recorded};
ghost use Rattle.run_laws.specs.ToldRun.{told};
ghost use Rattle.run_laws.specs.BoundRun.{IsBoundRun};
ghost use Rattle.stack_walk_laws.specs.Finished.{AllEnded, EndsAsWalk, FramesFit, replies_of};
ghost use Rattle.stack_walk_laws.specs.Following.{Follows};
ghost use Rattle.stack_walk_laws.specs.Slots.{Status};

/// Once all has ended, pages, stored blocks, carried frames, replies and record are those of the script's walk, over
/// whatever is behind the adapter.
pub fn a_finished_stack_is_the_walk()
    ensures { (m : Setting) (fine : ℕ → List ℕ → Bool) (n : ℕ) (ops : List AnyOp) (opening now : State) (status : ℕ → ℕ → Status) (es : List Sent) → IsBoundRun m fine n ops opening
        → AllEnded m 1 ops status → Follows m n ops opening status now es → EndsAsWalk m n ops opening status now es }
{}

/// A script that is bound for a target is bound for what stands on record too, where each frame has the wire's size.
pub fn a_bound_run_is_bound_over_its_record()
    ensures { (m : Setting) (fine : ℕ → List ℕ → Bool) (n : ℕ) (ops : List AnyOp) (opening : State) (es : List Sent) → IsBoundRun m fine n ops opening → FramesFit m es
        → IsBoundRun (told m es) (λ c block. true) n ops opening }
{}

/// So over any rig, honest or not, its log backs the stack's replies.
pub fn a_finished_stack_is_backed()
    ensures { (m : Setting) (n : ℕ) (ops : List AnyOp) (opening now : State) (status : ℕ → ℕ → Status) (log : List LogEntry) → let over = told m (recorded m log) in
        IsBoundRun over (λ c block. true) n ops opening → AllEnded m 1 ops status → Follows over n ops opening status now (recorded m log)
        → Backed m ops (hidden n opening) log (replies_of m 1 ops status) }
{}

/// And over a rig that tells its blocks, its log holds what the script's walk over the target carries, and backs the
/// stack's replies.
pub fn a_finished_told_stack_is_carried()
    ensures { (m : Setting) (fine : ℕ → List ℕ → Bool) (n : ℕ) (ops : List AnyOp) (opening now : State) (status : ℕ → ℕ → Status) (log : List LogEntry) → IsBoundRun m fine n ops opening
        → AllEnded m 1 ops status → Follows m n ops opening status now (recorded m log)
        → Carried m ops (hidden n opening) log × Backed m ops (hidden n opening) log (replies_of m 1 ops status) }
{}
