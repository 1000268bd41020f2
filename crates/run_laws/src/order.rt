//! Moves in any order.

ghost use Rattle.std.specs.Prelude.{ℕ, Bool, List, Option};
ghost use Rattle.walk_laws.specs.Passed.{Op as AnyOp, State, act, conflict, tell, ActAnswer, Leads, all_done, none_done};
ghost use Rattle.walk_laws.specs.Settings.{Block, Setting};
ghost use Rattle.run_laws.specs.BoundRun.{AreTheWalk, IsBoundRun};
ghost use Rattle.run_laws.specs.FallingMoves.{AreTheFallingWalk, LeavesFine, falling_moves};
ghost use Rattle.run_laws.specs.ScriptMoves.{script_moves};

/// In whatever order all moves are done that keeps conflicting ones in script order, they come to the script's walk:
/// its pages, stored blocks, carried frames and replies, and what it answers of each block. There is no premise on
/// faults or on the image; the device behind the adapter may be any.
pub fn moves_in_any_order_are_the_walk()
    ensures { (m : Setting) (fine : ℕ → List ℕ → Bool) (n : ℕ) (ops : List AnyOp) (opening now : State) (places : List ℕ) (answers : List ActAnswer) → IsBoundRun m fine n ops opening
        → Leads act tell conflict (script_moves m n ops) places (none_done (script_moves m n ops)) opening (all_done answers) now
        → AreTheWalk m n ops opening now answers }
{}

/// So where store calls fail, and what each leaves is fine there: in whatever order all moves are done that keeps
/// conflicting ones in script order, they come to the walk in which these calls fail, with its pages, stored blocks,
/// carried frames and replies.
pub fn moves_in_any_order_are_the_falling_walk()
    ensures { (m : Setting) (falls : Block → Option (List ℕ)) (fine : ℕ → List ℕ → Bool) (n : ℕ) (ops : List AnyOp) (opening now : State) (places : List ℕ) (answers : List ActAnswer)
        → IsBoundRun m fine n ops opening → LeavesFine m fine falls
        → Leads act tell conflict (falling_moves m falls n ops) places (none_done (falling_moves m falls n ops)) opening (all_done answers) now
        → AreTheFallingWalk m falls n ops opening now answers }
{}
