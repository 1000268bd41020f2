//! What the layers above build on: what the stack does to blocks are moves on cells.

ghost use Rattle.std.specs.Prelude.{◌≡◌, ◌<◌, ◌≤◌, ℕ, List, ◌+◌, ◌++◌, Bool, true, false, None, Some, drop, get_or, length, take};
ghost use Rattle.fault_schedule.specs.declared.Label.{Label as AnyLabel};
ghost use Rattle.fault_schedule.specs.declared.fault.FaultLine.{FaultLine};
ghost use Rattle.rig_api.specs.Target.{Stored};
ghost use Rattle.rig_api.specs.Log.{LogEntry};
ghost use Rattle.rig_api.specs.Telling.{Standing};
ghost use Rattle.stack_laws.specs.Runs.{ScheduleEntry as AnyEntry, blocks_of_requests, sends_of};
ghost use Rattle.stack_walk_laws.specs.Passed.{IsBoundRun, Backed, recorded, told, Setting};
ghost use Rattle.stack_walk_laws.specs.Takes.{AllTakeAny};
ghost use Rattle.dix_adapter.specs.Ways.{blocks_told};
ghost use Rattle.stack_core.specs.declared.stack.Stack.{Stack as AnyStack};
ghost use Rattle.stack_core.specs.Mediums.{HasCounted, RoseBy, unscheduled_mediums};
ghost use Rattle.stack_core.specs.OnRecord.{AreRecords, HasSent, ListsNone};
ghost use Rattle.stack_core.specs.Stacks.{IsFinished, IsStack, plan_in};
ghost use Rattle.stack_core.specs.Walking.{EndsFallen, EndsTold, HasFails, Walks, WalksFalling, WalksTold};
ghost use Rattle.page_pool.specs.Cells.{flat};
ghost use Rattle.page_pool.specs.Pages.{AllLieIn, AreWhole};
ghost use Rattle.pi_tuple.specs.declared.checks.PiType.{PiType as AnyType};
ghost use Rattle.integrity_payload.specs.declared.payload.Owner.{Owner as AnyOwner};
ghost use Rattle.integrity_payload.specs.declared.payload.Owner.TheVariants.{Block};
ghost use Rattle.integrity_payload.specs.declared.payload.Payload.{Payload as AnyPayload};
ghost use Rattle.bio_core.specs.declared.fate.Fate.{Fate as AnyFate};
ghost use Rattle.bio_core.specs.declared.fate.Fate.TheVariants.{Untouched};
ghost use Rattle.bio_core.specs.declared.request.Dir.TheVariants.{Write};
ghost use Rattle.bio_core.specs.declared.request.Io.{Io as AnyIo};
ghost use Rattle.block_path.specs.declared.mode.Mode.{Mode as AnyMode};
ghost use Rattle.block_path.specs.Acts.{State, act};
ghost use Rattle.block_path.specs.Moves.{hidden, map_back};
ghost use Rattle.block_path.specs.Routes.{host_type};
ghost use Rattle.block_path.specs.Serial.{plain};
ghost use Rattle.dix_adapter.specs.Groups.{data_cells};
ghost use Rattle.stack_core.specs.Done.{WriteMade, WriteMapped};
ghost use Rattle.stack_walk_laws.specs.Settled.{MappedBack, ReadSettled};
ghost use Rattle.stack_walk_laws.specs.Moved.{HasFrames, IsSettle, makes, maps_out, route_to, tuple_at, why_of};

/// A write whose tuples are made as it is admitted, and whose tags are mapped out as it is cut and back as it is
/// settled, is one move a block further each time: the pages are those that the moves leave.
pub fn a_write_goes_on_by_moves()
    ensures made { (old new : List (List ℕ)) (io : AnyIo) (pi : AnyPayload) (dev : ℕ) (label : ℕ → AnyLabel) (ty : AnyType) (mode : AnyMode) (now : State)
        → HasFrames old io pi → io.dir ≡ Write → pi.owner ≡ Block → now.bytes ≡ flat old → WriteMade io.dir io.pi mode.kind (host_type ty) io.body old new
        → flat new ≡ (plain act (makes label dev ty mode io pi pi.count) now).bytes }
    ensures mapped { (old new : List (List ℕ)) (io : AnyIo) (pi : AnyPayload) (k n lba dev : ℕ) (label : ℕ → AnyLabel) (ty : AnyType) (mode : AnyMode) (now : State)
        → HasFrames old io pi → io.dir ≡ Write → k + n ≤ io.count → now.bytes ≡ flat old → WriteMapped io.dir io.pi (host_type ty) k n lba old new
        → flat new ≡ (plain act (maps_out label dev ty mode io pi k n lba) now).bytes }
    ensures back { (old new : List (List ℕ)) (io : AnyIo) (pi : AnyPayload) (k lba dev : ℕ) (label : AnyLabel) (ty : AnyType) (mode : AnyMode) (now : State)
        → HasFrames old io pi → k < io.count → now.bytes ≡ flat old → MappedBack io.pi (host_type ty) k lba old new
        → flat new ≡ (act (map_back (route_to label dev ty mode io k lba) (tuple_at pi k)) now).bytes }
{}

/// A block of a read that is settled is one move further: the pages are those that the move leaves, and it came to
/// what the move answers.
pub fn a_read_is_settled_by_a_move()
    ensures framed { (old new : List (List ℕ)) (io : AnyIo) (pi : AnyPayload) (k lba dev n : ℕ) (label : AnyLabel) (ty : AnyType) (mode : AnyMode) (fate result : AnyFate) (now : State)
        → HasFrames old io pi → mode.dix ≡ true → k < io.count → (fate ≡ Untouched → ⊥) → now.bytes ≡ flat old → get_or now.fates n None ≡ why_of fate
        → ReadSettled mode (host_type ty) io k lba fate old new result
        → IsSettle (route_to label dev ty mode io k lba) pi.owner (data_cells io k ++ tuple_at pi k) n fate now new result }
    ensures bare { (old new : List (List ℕ)) (io : AnyIo) (owner : AnyOwner) (k lba dev n : ℕ) (label : AnyLabel) (ty : AnyType) (mode : AnyMode) (fate result : AnyFate) (now : State)
        → io.pi ≡ None → mode.dix ≡ false → AreWhole old → AllLieIn old io.body → k < io.count → (fate ≡ Untouched → ⊥) → now.bytes ≡ flat old → get_or now.fates n None ≡ why_of fate
        → ReadSettled mode (host_type ty) io k lba fate old new result
        → IsSettle (route_to label dev ty mode io k lba) owner (data_cells io k) n fate now new result }
{}

/// A stack that followed the walk of its script to the end, over any rig, honest or not: the rig's log backs its replies.
pub fn a_finished_stack_is_backed()
    ensures { (m : Setting) (n : ℕ) (opening : State) (first : ℕ) (s : AnyStack) (st : Standing) (log : List LogEntry) → IsStack s → Walks m n opening first s st log
        → IsFinished s → HasFails m s.replies.items
        → IsBoundRun (told m (recorded m (drop first log))) (λ c block. true) n s.sheet.ops opening → Backed m s.sheet.ops (hidden n opening) (drop first log) s.replies.items }
{}

/// And over a rig that tells its blocks, while its count of faults didn't rise: replies, pages and stored blocks are those
/// of the script's walk at the target, and the log holds what the walk carries.
pub fn a_finished_stack_has_done_the_walk()
    ensures { (m : Setting) (fine : ℕ → List ℕ → Bool) (n : ℕ) (opening : State) (first : ℕ) (s : AnyStack) (us : List Stored) (armed : List FaultLine) (st : Standing) (log : List LogEntry)
        → IsStack s
        → WalksTold m n opening first s (Some us) armed st log → IsFinished s → HasFails m s.replies.items
        → IsBoundRun m fine n s.sheet.ops opening → EndsTold m n opening s.sheet.ops s us (drop first log) }
{}

/// And where store calls failed: they are those of the script's walk in which just these calls fail, in which each
/// overwrite whose own failed flips its block somehow, and the log holds what that walk carries. What is as long as a fine
/// block is fine in its place.
pub fn a_finished_stack_has_done_the_falling_walk()
    ensures { (m : Setting) (fine : ℕ → List ℕ → Bool) (n : ℕ) (opening : State) (first : ℕ) (s : AnyStack) (us : List Stored) (armed : List FaultLine) (st : Standing) (log : List LogEntry)
        → IsStack s
        → WalksFalling m n opening first s (Some us) armed st log → IsFinished s → HasFails m s.replies.items
        → ((c : ℕ) (old new : List ℕ) → length new ≡ length old → fine c old ≡ true → fine c new ≡ true) → IsBoundRun m fine n s.sheet.ops opening → AllTakeAny m fine 1 s.sheet.ops
        → EndsFallen m n opening s.sheet.ops (take n (flat s.pool)) (blocks_told us) s.replies.items (recorded m (drop first log)) }
{}

/// Over any rig: since its first step, a stack that came to its end by a schedule made at most as many records as its
/// requests have blocks. Where its replies list no block, these are the records of the commands that are sent where all
/// blocks are good, in order and one for one.
pub fn a_finished_stack_has_sent()
    ensures few { (es : List AnyEntry) (s : AnyStack) (log : List LogEntry) → IsStack s → HasSent es s log → length log ≤ blocks_of_requests (plan_in s.sheet).requests }
    ensures all { (es : List AnyEntry) (s : AnyStack) (log : List LogEntry) (m : Setting) (n : ℕ) (opening : State) (first : ℕ) (st : Standing) (whole : List LogEntry)
        → IsStack s → HasSent es s log → Walks m n opening first s st whole → IsFinished s → ListsNone s.replies.items → AreRecords (sends_of (plan_in s.sheet) es) log }
{}

/// And the lines of its replies that name the medium, of overwrites and of blocks of which no fault line says that it
/// fails them, are at most as many as the count of faults rose, where each step kept `HasCounted`.
pub fn a_finished_stack_names_the_medium_seldom()
    ensures { (m : Setting) (n : ℕ) (opening : State) (begun : ℕ) (faults : List FaultLine) (first : ℕ) (s : AnyStack) (st : Standing) (log : List LogEntry) (count : ℕ)
        → IsStack s → Walks m n opening begun s st log
        → IsFinished s → HasCounted faults first s count → RoseBy (unscheduled_mediums faults s.replies.items) first count }
{}

/// Where no line of its replies names the medium but for blocks that a fault line says it fails, no store call failed: over a rig that tells its blocks it followed the
/// walk at the target, whatever the count of faults did.
pub fn a_finished_stack_that_names_no_medium_has_followed_the_walk()
    ensures { (m : Setting) (n : ℕ) (opening : State) (first : ℕ) (s : AnyStack) (us : List Stored) (armed : List FaultLine) (st : Standing) (log : List LogEntry)
        → IsStack s → WalksFalling m n opening first s (Some us) armed st log → IsFinished s → unscheduled_mediums m.site.faults s.replies.items ≡ 0 → WalksTold m n opening first s (Some us) armed st log }
{}
