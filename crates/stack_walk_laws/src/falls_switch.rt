//! Another device.

ghost use Rattle.std.specs.Prelude.{ℕ, List, ◌≡◌, true};
ghost use Rattle.block_path.specs.Acts.{State};
ghost use Rattle.block_path.specs.Blocks.{Sent};
ghost use Rattle.run_laws.specs.Passed.{Setting, Op as AnyOp};
ghost use Rattle.stack_walk_laws.specs.Following.{Follows};
ghost use Rattle.stack_walk_laws.specs.Sending.{is_carried};
ghost use Rattle.stack_walk_laws.specs.Slots.{Status};
ghost use Rattle.stack_walk_laws.specs.Falls.{Falls, over_falls};
ghost use Rattle.stack_walk_laws.specs.FollowsFalling.{FollowsFalling, HasFallen};

/// More store calls may fail: a stack goes on to follow the walk over a device on which other calls fail, as long as
/// of each block that was carried the call failed alike.
pub fn what_was_not_carried_may_come_to_another_device()
    ensures { (m : Setting) (n : ℕ) (ops : List AnyOp) (opening now : State) (status : ℕ → ℕ → Status) (one two : Falls) (es : List Sent)
        → ((i k : ℕ) → is_carried (status i k) ≡ true → one (record { op = i; k = k }) ≡ two (record { op = i; k = k }))
        → Follows (over_falls m one) n ops opening status now es → Follows (over_falls m two) n ops opening status now es }
{}

/// Where no block is listed for the medium no store call failed: the stack follows the walk as it is, over the device as
/// it is.
pub fn a_stack_that_lists_no_medium_follows_the_walk()
    ensures { (m : Setting) (n : ℕ) (ops : List AnyOp) (opening : State) (status : ℕ → ℕ → Status) (pages : List ℕ) (blocks : List (List ℕ)) (es : List Sent)
        → ((i k : ℕ) → HasFallen (status i k) → ⊥) → (f : FollowsFalling m n ops opening status pages blocks es) → Follows m n ops opening status f.after es }
{}
