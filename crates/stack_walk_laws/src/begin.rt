//! At first.

ghost use Rattle.std.specs.Prelude.{ℕ, ◌≡◌, List, [], get_or};
ghost use Rattle.block_path.specs.Acts.{State};
ghost use Rattle.run_laws.specs.Passed.{Setting, Op as AnyOp};
ghost use Rattle.stack_walk_laws.specs.Following.{Follows};
ghost use Rattle.stack_walk_laws.specs.Slots.{Waits};

/// Before its first step, with nothing carried and nothing on record, a stack follows the walk: each block waits.
pub fn a_stack_begins()
    ensures { (m : Setting) (n : ℕ) (ops : List AnyOp) (opening : State) → ((c : ℕ) → get_or opening.logs c [] ≡ []) → Follows m n ops opening (λ i k. Waits) opening [] }
{}
