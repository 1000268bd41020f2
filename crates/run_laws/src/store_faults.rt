//! Store calls that fail.

ghost use Rattle.std.specs.Prelude.{◌≡◌, ◌<◌, ℕ, List, [], ◌∷◌, ◌++◌, Option, None, length};
ghost use Rattle.page_pool.specs.declared.segs.Seg.{Seg as AnySeg};
ghost use Rattle.integrity_payload.specs.declared.payload.Owner.{Owner as AnyOwner};
ghost use Rattle.integrity_payload.specs.declared.payload.Owner.TheVariants.{App};
ghost use Rattle.walk_laws.specs.Passed.{Op as AnyOp, Write, WritePi, Act, State, conflict, ActAnswer};
ghost use Rattle.walk_laws.specs.Past.{steps_from};
ghost use Rattle.walk_laws.specs.PlainMap.{finds_plainly};
ghost use Rattle.walk_laws.specs.ScriptWalk.{act_of};
ghost use Rattle.walk_laws.specs.Settings.{Block, Setting};
ghost use Rattle.walk_laws.specs.Steps.{Step};
ghost use Rattle.run_laws.specs.FallingReads.{HasRoom, IsReadOrFails};
ghost use Rattle.run_laws.specs.FallingWrites.{FailsAtMediumAlone, finds_then};
ghost use Rattle.walk_laws.specs.ReadsAs.{read_op};
ghost use Rattle.run_laws.specs.StoreFaults.{IsFallingRun, IsServed, falling_past, falling_walk, may_fall};

/// Where no fault is scheduled, but some store calls fail and leave there whatever they may: a block of a read is
/// listed for the medium, or it is the last accepted write's, unless a later write of its virtual block was listed for
/// the medium; and a block of a write that the plain map accepts is listed for the medium or not at all. This is for
/// every type, guard, mode, protect field, block size and expected application tag, and for escapes too.
pub fn a_store_fault_concerns_its_block_alone()
    ensures { (m : Setting) (falls : Block → Option (List ℕ)) (ops : List AnyOp) (opening : State) (earlier later : List Step) (step : Step)
        → IsFallingRun m ops opening → steps_from m 1 ops ≡ earlier ++ (step ∷ later)
        → IsServed m opening (falling_past m falls earlier opening []) falls step (falling_walk m falls earlier opening) }
{}

/// So a read's reply and pages: a block that isn't lost when the op begins is listed for the medium, or it isn't listed,
/// and where it lands stand the last accepted write's data, and for an application its application tag, where tuples
/// pass all the way. What is listed otherwise is lost.
pub fn a_read_is_the_last_write_or_fails_at_the_medium()
    ensures { (m : Setting) (falls : Block → Option (List ℕ)) (before after : List AnyOp) (owner : AnyOwner) (v n k : ℕ) (body tuples : List AnySeg) (opening : State)
        → IsFallingRun m (before ++ (read_op owner v n body tuples ∷ after)) opening → HasRoom m (length opening.bytes) owner n body tuples → k < n
        → IsReadOrFails m falls before owner v n body tuples after opening k }
{}

/// And a write's reply: a block that the plain map accepts is listed for the medium or not at all. Where the application
/// brings the tuples, the plain map looks at the frame as it stands in the pages when the op begins.
pub fn a_write_fails_at_the_medium_alone()
    ensures own { (m : Setting) (falls : Block → Option (List ℕ)) (before after : List AnyOp) (v n k : ℕ) (body : List AnySeg) (app : ℕ) (opening : State) → let op = Write v n body app in
        IsFallingRun m (before ++ (op ∷ after)) opening → k < n → finds_plainly m app ≡ None → FailsAtMediumAlone m falls before op after opening k }
    ensures brought { (m : Setting) (falls : Block → Option (List ℕ)) (before after : List AnyOp) (v n k : ℕ) (body tuples : List AnySeg) (opening : State) → let op = WritePi v n body tuples in
        IsFallingRun m (before ++ (op ∷ after)) opening → HasRoom m (length opening.bytes) App n body tuples → k < n → finds_then m falls before v body tuples opening k ≡ None
        → FailsAtMediumAlone m falls before op after opening k }
{}

/// A block whose store call fails conflicts with what it would have conflicted with: so any order of the blocks that
/// keeps conflicting ones in order is the walk, whichever calls fail.
pub fn a_failing_block_conflicts_as_before()
    ensures one { (m : Setting) (falls : Block → Option (List ℕ)) (step : Step) (other : Act ActAnswer) → conflict (may_fall m falls step) other ≡ conflict (act_of m step) other }
    ensures other { (m : Setting) (falls : Block → Option (List ℕ)) (step : Step) (other : Act ActAnswer) → conflict other (may_fall m falls step) ≡ conflict other (act_of m step) }
{}
