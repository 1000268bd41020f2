//! What a mirror's requests come to when all blocks of one leg are done before the other's.
#![tactic(auto)]

ghost use Rattle.std.specs.Prelude.{ℕ, ◌≡◌, ◌+◌, ◌*◌, ◌≤◌, List, nat_eq};
ghost use Rattle.std.specs.List.{IsDistinct};
ghost use Rattle.page_pool.specs.declared.segs.Seg.{Seg as AnySeg};
ghost use Rattle.page_pool.specs.Places.{total};
ghost use Rattle.range_gate.specs.Cells.{cells_of};
ghost use Rattle.stack_ops.specs.declared.op.Op.{Op as AnyOp};
ghost use Rattle.block_path.specs.Serial.{plain};
ghost use Rattle.walk_laws.specs.Past.{steps_from};
ghost use Rattle.walk_laws.specs.Settings.{Setting};
ghost use Rattle.mirror_laws.specs.Mirror.{Mirror as AnyMirror, done};
ghost use Rattle.mirror_laws.specs.Repair.{WalkedRepair as AnyRepair, repair_from, steady};
ghost use Rattle.mirror_laws.specs.Stretches.{ByStretch};
ghost use Rattle.mirror_laws.specs.Sizes.{AllHavePlaces, HasSizes, KeepsSizes};
ghost use Rattle.mirror_laws.specs.LegByLeg.{DeliversWhole, HasLegs, NoRequest, OneMoreOp, ReadsByLegs, WritesByLegs};

/// A write that lies on the mirror is done on leg 0, and then on leg 1, whatever the faults, but for shifts.
pub fn a_write_goes_to_one_leg_after_the_other()
    ensures { (m : Setting) (half : ℕ) (count : ℕ → ℕ) (i v n : ℕ) (body : List AnySeg) (app : ℕ) (s : AnyMirror)
        → HasLegs m half → v + n ≤ half → count i ≡ n → WritesByLegs m half count i v n body app s }
{}

/// So a read comes of each block on leg 0 and on leg 1: the first leg on which it is fresh is asked, and where that one
/// doesn't deliver, the other one, if it is fresh there.
pub fn a_read_asks_one_leg_after_the_other()
    ensures { (m : Setting) (half : ℕ) (count : ℕ → ℕ) (i v n : ℕ) (body : List AnySeg) (s : AnyMirror)
        → HasLegs m half → v + n ≤ half → total body ≡ n * m.size → count i ≡ n → IsDistinct nat_eq (cells_of body) → DeliversWhole m s.state.blocks
        → ReadsByLegs m half count i v n body s }
{}

/// What each op leaves and replies that is no request.
pub fn an_op_without_blocks_leaves_this()
    ensures { (m : Setting) (half : ℕ) (count : ℕ → ℕ) (i : ℕ) (op : AnyOp) (s : AnyMirror) → NoRequest m half count i op s }
{}

/// A script is done op by op, and its replies come op by op.
pub fn one_more_op_goes_on_from_the_others()
    ensures { (m : Setting) (half : ℕ) (count : ℕ → ℕ) (ops : List AnyOp) (op : AnyOp) (s : AnyMirror) → OneMoreOp m half count ops op s }
{}

/// In a repair all blocks of a stretch can be read first, on leg 0 and then on leg 1, before any of them is written.
pub fn a_repair_reads_a_stretch_before_it_writes()
    ensures { (m : Setting) (half u n : ℕ) (r : AnyRepair) → HasLegs m half → u + n ≤ half → ByStretch m half u n r }
{}

/// A repair goes stretch by stretch.
pub fn a_repair_goes_stretch_by_stretch()
    ensures { (m : Setting) (half u n k : ℕ) (r : AnyRepair) → repair_from m half u (n + k) r ≡ repair_from m half (u + n) k (repair_from m half u n r) }
{}

/// Over a target what is delivered of a block isn't shorter than its data, as long as stored blocks keep their sizes.
pub fn a_target_delivers_whole_frames()
    ensures { (m : Setting) (half : ℕ) (opening blocks : List (List ℕ)) → HasLegs m half → HasSizes m opening → KeepsSizes opening blocks → DeliversWhole m blocks }
{}

/// Stored blocks keep their sizes along a script.
pub fn a_script_keeps_the_sizes_of_stored_blocks()
    ensures { (m : Setting) (half : ℕ) (count : ℕ → ℕ) (opening : List (List ℕ)) (i : ℕ) (ops : List AnyOp) (s : AnyMirror)
        → HasLegs m half → HasSizes m opening → AllHavePlaces m half opening ops → KeepsSizes opening s.state.blocks
        → KeepsSizes opening (plain (done m half count) (steps_from m i ops) s).state.blocks }
{}

/// And so they do along a repair.
pub fn a_repair_keeps_the_sizes_of_stored_blocks()
    ensures { (m : Setting) (half : ℕ) (opening : List (List ℕ)) (u n : ℕ) (r : AnyRepair)
        → HasLegs m half → HasSizes m opening → u + n ≤ half → KeepsSizes opening r.blocks → KeepsSizes opening (repair_from (steady m) half u n r).blocks }
{}
