//! Laws of the statuses of blocks.

ghost use Rattle.std.specs.Prelude.{◌≡◌, ◌<◌, ◌≤◌, ◌+◌, ℕ, suc, List, take, length, get_or, Option, None};
ghost use Rattle.bio_core.specs.declared.fate.Why.{Why as AnyWhy};
ghost use Rattle.block_path.specs.Acts.{State};
ghost use Rattle.block_path.specs.Blocks.{Sent};
ghost use Rattle.run_laws.specs.Passed.{Setting, Op as AnyOp};
ghost use Rattle.run_laws.specs.BoundRun.{fates};
ghost use Rattle.run_laws.specs.ScriptMoves.{fates_of};
ghost use Rattle.stack_walk_laws.specs.Following.{Follows};
ghost use Rattle.stack_walk_laws.specs.Slots.{Carried, Status};
ghost use Rattle.stack_walk_laws.specs.Spots.{IsRead, op_in, step_in};

/// What was found of a block of a read that is carried, and not settled yet, stands in its cell.
pub fn what_was_found_stands_in_its_cell()
    ensures { (m : Setting) (n : ℕ) (ops : List AnyOp) (opening now : State) (status : ℕ → ℕ → Status) (es : List Sent) (p q : ℕ) (why : Option AnyWhy) → Follows m n ops opening status now es
        → fates ops ≤ length opening.fates → p < length ops → q < fates_of (op_in ops p) → IsRead (step_in m ops p q) → status (suc p) q ≡ Carried why
        → get_or now.fates (fates (take p ops) + q) None ≡ why }
{}
