//! What the layers above build on: acts on cells in any order that keeps conflicting ones in order, and a block's
//! moves that are its act.

ghost use Rattle.std.specs.Prelude.{◌≡◌, ℕ, ◌+◌, ◌*◌, ◌<◌, ◌≤◌, Bool, false, true, IfOk, List, [], ◌∷◌, ◌++◌, Option, Some, None, drop, get_or, length, map, set};
ghost use Rattle.std.specs.List.{All};
ghost use Rattle.pi_guard.specs.Guards.{guard_of};
ghost use Rattle.pi_guard.specs.declared.GuardKind.{GuardKind as AnyKind};
ghost use Rattle.pi_tuple.specs.Finds.{own_tag};
ghost use Rattle.pi_tuple.specs.Tuples.{tuple_bytes};
ghost use Rattle.pi_tuple.specs.declared.checks.PiType.{PiType as AnyType};
ghost use Rattle.range_gate.specs.Passed.{cell, flat, share_a_cell, AllLieIn, AreWhole, Wrote, Apart, NoneTwice, places_in, range_of, total, Seg as AnySeg};
ghost use Rattle.integrity_payload.specs.Payloads.{made_bytes, tuple_places};
ghost use Rattle.ref_remap.specs.Remapped.{AreRemapped, remapped_bytes};
ghost use Rattle.integrity_payload.specs.declared.payload.Owner.{Owner};
ghost use Rattle.block_path.specs.declared.route.Route.{Route};
ghost use Rattle.block_path.specs.Acts.{Act, State, act, conflict, tell};
ghost use Rattle.block_path.specs.Blocks.{Site, fetched_cell, read_block, write_block, write_block_of_app};
ghost use Rattle.block_path.specs.Moves.{AreCells, Fills, FrameAt, IsOne, carry_in, carry_out, hidden, in_turn, joined, make_tuple, map_back, map_out, on_bytes, settle};
ghost use Rattle.fault_schedule.specs.declared.fault.FaultLine.{FaultLine};
ghost use Rattle.block_path.specs.Routes.{Device, host_size, wire_size};
ghost use Rattle.block_path.specs.WayIn.{comes_in, from_wire, mapped_back};
ghost use Rattle.block_path.specs.WayOut.{mapped_out, to_wire};
ghost use Rattle.block_path.specs.Serial.{AgreesWith, AllApart, Answered, ClearOf, Commutes, Leads, MayAct, Serial, StandFor, all_done, none_done, plain, plain_tells, walk};
ghost use Rattle.pi_tuple.specs.declared.TheConstants.{TUPLE};

/// Acts that share no cell that one of them writes may change places, and conflict is one both ways.
pub fn acts_without_conflict_commute<R>()
    ensures commute { Commutes (act {R = R}) tell conflict }
    ensures both_ways { (a b : Act R) → conflict a b ≡ false → conflict b a ≡ false }
{}

/// What it is to have done some acts: nothing is done at first; one more act may be done that is clear of the earlier
/// ones that aren't; once all are done, state and answers are those of the acts one after another.
pub fn a_walk_goes_on<R>()
    ensures begins { (acts : List (Act R)) (opening : State) → Serial act tell conflict acts opening (none_done acts) opening }
    ensures goes_on { (acts : List (Act R)) (opening now : State) (done : List (Option R)) (i : ℕ) (a : Act R)
        → Serial act tell conflict acts opening done now → MayAct conflict acts done i a
        → Serial act tell conflict acts opening (set done i (Some (tell a now))) (act a now) }
    ensures between { (before after : List (Act R)) (a : Act R) (ds es : List (Option R)) (opening now : State) → length ds ≡ length before → ClearOf conflict a before ds
        → Serial act tell conflict (before ++ (a ∷ after)) opening (ds ++ (None ∷ es)) now
        → Serial act tell conflict (before ++ (a ∷ after)) opening (ds ++ (Some (tell a now) ∷ es)) (act a now) }
    ensures ends { (acts : List (Act R)) (opening now : State) (answers : List R) → length answers ≡ length acts
        → Serial act tell conflict acts opening (all_done answers) now → (now ≡ plain act acts opening) × (answers ≡ plain_tells act tell acts opening) }
{}

/// What was done answered what all acts one after another answer there, whatever is still to be done.
pub fn what_was_done_is_final<R>()
    ensures { (acts : List (Act R)) (opening now : State) (done : List (Option R)) → Serial act tell conflict acts opening done now → AgreesWith done (plain_tells act tell acts opening) }
{}

/// So what isn't done may still become another act that conflicts with no more, and a block's fate need not be known
/// before it acts; and acts that did the same, with the same cells, may stand for one another.
pub fn what_is_not_done_may_become_another_act<R>()
    ensures other { (acts : List (Act R)) (opening now : State) (done : List (Option R)) (i : ℕ) (a other : Act R)
        → get_or acts i a ≡ a → ((d : Option R) → get_or done i d ≡ None) → ((b : Act R) → conflict a b ≡ false → conflict other b ≡ false)
        → Serial act tell conflict acts opening done now → Serial act tell conflict (set acts i other) opening done now }
    ensures same { (acts others : List (Act R)) (opening now : State) (done : List (Option R)) → StandFor act tell conflict acts others done opening
        → Serial act tell conflict acts opening done now → Serial act tell conflict others opening done now }
{}

/// Acts of which no two conflict answer one after another as the cells stand before them: so do the blocks of one
/// exchange.
pub fn one_exchange_is_its_blocks_in_turn<R>()
    ensures { (acts : List (Act R)) (now : State) → AllApart conflict acts → plain_tells act tell acts now ≡ map (λ a. tell a now) acts }
{}

/// Whatever was done in whatever order that keeps conflicting acts in order, it is what the walk leaves that does just
/// these acts.
pub fn what_was_done_is_a_walk<R>()
    ensures { (acts : List (Act R)) (places : List ℕ) (before after : State) (done : List (Option R))
        → Leads act tell conflict acts places (none_done acts) before done after → (after ≡ walk act acts done before) × Answered act tell acts done before }
{}

/// A block of a read is carried in by one move and settled by another: together that is the block's act. Where its
/// tuple lands in cells from n on, that only the block layer has, nobody else sees a difference to a block without it.
pub fn a_read_in_two_moves()
    ensures one { (s : Site) (r : Route) (owner : Owner) (to : List ℕ) (fate : ℕ) (now : State) → AreCells (length now.bytes) to → fate < length now.fates
        → Fills r to (comes_in s.faults s.device r (get_or now.blocks (fetched_cell s r) []))
        → let carried = act (carry_in s r to fate) now in
        IsOne (act (settle r owner to fate) carried) (act (read_block s r owner to) now)
        (joined (tell (carry_in s r to fate) now) (tell (settle r owner to fate) carried)) (tell (read_block s r owner to) now) }
    ensures own { (s : Site) (r : Route) (owner : Owner) (body tuple : List ℕ) (n : ℕ) (now : State) → All (λ i. n ≤ i) tuple
        → IsOne (hidden n (act (read_block s r owner (body ++ tuple)) now)) (hidden n (act (read_block s r owner body) now))
        (tell (read_block s r owner (body ++ tuple)) now) (tell (read_block s r owner body) now) }
{}

/// A block of a write with the application's tuple is mapped out, carried and mapped back: together that is the
/// block's act. Where the block layer makes the tuple, in cells from n on that only it has, nobody else sees a
/// difference to a block whose tuple lies nowhere. Without tuples in memory carrying is all.
pub fn a_write_in_three_moves()
    ensures one { (s : Site) (r : Route) (frame : List ℕ) (now : State) → r.mode.dix ≡ true → FrameAt r.size frame (length now.bytes)
        → let tuple = drop r.size frame in
        let mapped = act (map_out r tuple) now in
        IsOne (act (map_back r tuple) (act (carry_out s r frame) mapped)) (act (write_block_of_app s r frame) now)
        (tell (carry_out s r frame) mapped) (tell (write_block_of_app s r frame) now) }
    ensures own { (s : Site) (r : Route) (app n : ℕ) (body tuple : List ℕ) (now : State) → r.mode.dix ≡ true → length body ≡ r.size → length tuple ≡ TUPLE
        → share_a_cell body tuple ≡ false → AreCells (length now.bytes) tuple → All (λ i. n ≤ i) tuple
        → let made = act (make_tuple r app body tuple) now in
        IsOne (hidden n (act (write_block_of_app s r (body ++ tuple)) made)) (hidden n (act (write_block s r app body) now))
        (tell (write_block_of_app s r (body ++ tuple)) made) (tell (write_block s r app body) now) }
    ensures bare { (s : Site) (r : Route) (app : ℕ) (body : List ℕ) (now : State) → r.mode.dix ≡ false
        → (act (carry_out s r body) now ≡ act (write_block s r app body) now) × (tell (carry_out s r body) now ≡ tell (write_block s r app body) now) }
{}

/// A frame that is sent has the wire's size, and one that is handed on the host's, also after its tag is mapped back;
/// so a block that comes in fills the cells of the host's frame.
pub fn frames_have_their_sizes()
    ensures out { (faults : List FaultLine) (r : Route) (frame : List ℕ) → length frame ≡ host_size r → IfOk (to_wire faults r frame) (λ f. length f ≡ wire_size r) }
    ensures inward { (faults : List FaultLine) (r : Route) (frame : List ℕ) → length frame ≡ wire_size r → IfOk (from_wire faults r frame) (λ f. length f ≡ host_size r) }
    ensures mapped { (r : Route) (frame : List ℕ) → length frame ≡ host_size r → (length (mapped_out r frame) ≡ host_size r) × (length (mapped_back r frame) ≡ host_size r) }
    ensures fills { (faults : List FaultLine) (device : Device) (r : Route) (stored to : List ℕ) → IfOk (device.sends r stored) (λ f. length f ≡ wire_size r) → length to ≡ host_size r
        → Fills r to (comes_in faults device r stored) }
{}

/// A call that maps the tags of n tuples in place, or makes the tuples of a payload, leaves what one move for each
/// tuple leaves, in turn.
pub fn tuples_are_written_in_turn()
    ensures mapped { (old new : List (List ℕ)) (segs : List AnySeg) (ty : AnyType) (k n from to : ℕ) (now : State)
        → AreWhole old → AllLieIn old segs → NoneTwice (places_in segs) → TUPLE * (k + n) ≤ total segs → now.bytes ≡ flat old → AreRemapped old new segs ty k n from to
        → (plain act (in_turn (λ i. on_bytes (map cell (tuple_places segs (k + i))) (map cell (tuple_places segs (k + i))) (remapped_bytes ty (from + i) (to + i))) n) now).bytes ≡ flat new }
    ensures made { (old new : List (List ℕ)) (body segs : List AnySeg) (size : ℕ) (kind : AnyKind) (ty : AnyType) (seed app n : ℕ) (now : State)
        → AreWhole old → AllLieIn old body → AllLieIn old segs → NoneTwice (places_in segs) → Apart (places_in body) (places_in segs) → TUPLE * n ≤ total segs → now.bytes ≡ flat old
        → Wrote old new (range_of segs 0 (TUPLE * n)) (made_bytes old body size kind ty seed app n)
        → (plain act (in_turn (λ i. on_bytes (map cell (range_of body (i * size) size)) (map cell (tuple_places segs i))
        (λ bytes. tuple_bytes (record { guard = guard_of kind bytes; app = app; rtag = own_tag ty (seed + i) }))) n) now).bytes ≡ flat new }
{}
