//! Moves that may change places.

ghost use Rattle.std.specs.Prelude.{◌≡◌, ◌+◌, ℕ, ◌<◌, ◌≤◌, false, List, ◌∷◌, ◌++◌, pos, ◌+ℤ◌};
ghost use Rattle.fault_schedule.specs.Altered.{shift_of};
ghost use Rattle.fault_schedule.specs.declared.fault.Crossing.TheVariants.{AdapterToTarget, TargetToMedium};
ghost use Rattle.walk_laws.specs.Passed.{Op as AnyOp, conflict, stored_lba, volume_len, DeviceInfo as AnyDevice};
ghost use Rattle.walk_laws.specs.Settings.{Setting, block_of, route};
ghost use Rattle.run_laws.specs.ShownRun.{HasBlock, HasCells, LiesOn};
ghost use Rattle.run_laws.specs.OpsApart.{AreStoredApart, IsPlaced, IsSpread, NoneMeet, OneCellEach, OpsConflict, is_shifted};
ghost use Rattle.run_laws.specs.ScriptMoves.{ByMoves, all_moves, blocks_of, fates_of, room_of};

/// Where two ops don't conflict by what they touch, no move of the one conflicts with a move of the other. The private
/// pages of the later op, and its cells of what is found, stand behind those of the earlier.
pub fn ops_without_conflict_have_no_moves_with_one()
    ensures { (m : Setting) (bytes from fate i next later j : ℕ) (op other : AnyOp) → OneCellEach m → IsPlaced m bytes op → IsPlaced m bytes other
        → bytes ≤ from → from + room_of m op ≤ next → fate + fates_of op ≤ later → ¬ OpsConflict m i op j other
        → NoneMeet conflict (all_moves (blocks_of m from fate i op)) (all_moves (blocks_of m next later j other)) }
{}

/// Nor do the blocks of one request, whose blocks are spread: no move of a block conflicts with one of a block in front
/// of it.
pub fn blocks_of_a_request_have_no_moves_that_conflict()
    ensures { (m : Setting) (bytes from fate i : ℕ) (op : AnyOp) (before : List ByMoves) (b : ByMoves) (after : List ByMoves) → OneCellEach m → bytes ≤ from → IsPlaced m bytes op → IsSpread m i op
        → blocks_of m from fate i op ≡ before ++ (b ∷ after) → NoneMeet conflict (all_moves before) b.moves }
{}

/// No two blocks of a request are stored in one cell, whether no shift names it, or one that leads each of its blocks
/// to a block of the same device.
pub fn blocks_of_a_request_are_stored_apart()
    ensures still { (m : Setting) (i v n : ℕ) → OneCellEach m → is_shifted m i ≡ false → v + n ≤ volume_len m.entries → AreStoredApart m i v n }
    ensures shifted { (m : Setting) (devices : List AnyDevice) (image : List (List ℕ)) (i v n : ℕ) → LiesOn m devices → HasCells m devices image → v + n ≤ volume_len m.entries
        → ((k : ℕ) → k < n → let r = route m (block_of i v k) in
        (pos (stored_lba m.site.faults r) ≡ (pos r.lba +ℤ shift_of m.site.faults AdapterToTarget i) +ℤ shift_of m.site.faults TargetToMedium i)
        × HasBlock m devices r.dev (stored_lba m.site.faults r))
        → AreStoredApart m i v n }
{}
