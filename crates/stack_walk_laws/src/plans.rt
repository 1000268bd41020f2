//! A law of plans.

ghost use Rattle.std.specs.Prelude.{◌≡◌, ◌↔◌, ℕ, Bool, true, false, List, get_or};
ghost use Rattle.bio_core.specs.declared.request.Io.{Io};
ghost use Rattle.stack_laws.specs.Passed.{Limits};
ghost use Rattle.range_gate.specs.Conflicts.{Conflict};
ghost use Rattle.volume_table.specs.Tables.{Table};
ghost use Rattle.run_laws.specs.Passed.{Op as AnyOp, footprint};
ghost use Rattle.stack_walk_laws.specs.Sheets.{op_in, plan_of};

/// Two ops of a plan conflict exactly where one of them is alone, or where they share a virtual block or a byte of a
/// page that one of them writes.
pub fn a_plan_has_the_conflicts_of_its_ops()
    ensures { (ops : List AnyOp) (shifted : List Bool) (ios : List Io) (t : Table) (limits : Limits) (devices j i : ℕ) →
        ((plan_of ops shifted ios t limits devices).conflicts j i ≡ true) ↔ Conflict (footprint (op_in ops j) (get_or shifted j false)) (footprint (op_in ops i) (get_or shifted i false)) }
{}
