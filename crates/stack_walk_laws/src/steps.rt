//! One law for each step that leaves the record as it is.

ghost use Rattle.std.specs.Prelude.{ℕ, suc, ◌≡◌, List, [], ◌∷◌, ◌++◌, length, Option, get_or};
ghost use Rattle.bio_core.specs.declared.fate.Why.{Why as AnyWhy};
ghost use Rattle.block_path.specs.Acts.{State, act, tell};
ghost use Rattle.block_path.specs.Blocks.{Sent, silent};
ghost use Rattle.block_path.specs.Moves.{first_why};
ghost use Rattle.block_path.specs.Serial.{plain, plain_tells};
ghost use Rattle.run_laws.specs.OpsApart.{IsPlaced, OneCellEach};
ghost use Rattle.run_laws.specs.Records.{put_sent};
ghost use Rattle.run_laws.specs.EarlierWrites.{HasLog};
ghost use Rattle.run_laws.specs.Passed.{acts_of, Setting, Op as AnyOp};
ghost use Rattle.run_laws.specs.ToldRun.{told};
ghost use Rattle.stack_walk_laws.specs.Following.{Becomes, Follows};
ghost use Rattle.stack_walk_laws.specs.Gate.{AllPlaced, BecomesDone, IsAlone, LetsIn, MayMove, BlockSpot, number, ops_of, parts_at, place};
ghost use Rattle.bio_core.specs.Bios.{Block as AnyBlock};
ghost use Rattle.bio_core.specs.declared.request.Io.{Io as AnyIo};
ghost use Rattle.dix_adapter.specs.declared.adapter.Adapter.{Adapter as AnyAdapter};
ghost use Rattle.stack_walk_laws.specs.Pieces.{AllMayMove, all_cut, all_made, with_all};
ghost use Rattle.stack_walk_laws.specs.Sending.{AllGoing};
ghost use Rattle.stack_walk_laws.specs.Slots.{Admitted, Carried, Cut, Settled, Status, Waits};

/// A block of a request is admitted: where the block layer makes its tuple, that is made.
pub fn a_block_is_admitted()
    ensures { (m : Setting) (n : ℕ) (s : BlockSpot) (opening now : State) (old new : ℕ → ℕ → Status) (es : List Sent) → MayMove m n old s → old (number s) (place s) ≡ Waits
        → Becomes (number s) (place s) Admitted old new → Follows m n (ops_of s) opening old now es
        → Follows m n (ops_of s) opening new (plain act (parts_at m n s).made now) es }
{}

/// It is cut into a piece: the tag of a write's tuple is mapped out.
pub fn a_block_is_cut()
    ensures { (m : Setting) (n : ℕ) (s : BlockSpot) (opening now : State) (old new : ℕ → ℕ → Status) (es : List Sent) → MayMove m n old s → old (number s) (place s) ≡ Admitted
        → Becomes (number s) (place s) Cut old new → Follows m n (ops_of s) opening old now es
        → Follows m n (ops_of s) opening new (plain act (parts_at m n s).cut now) es }
{}

/// So some blocks together: those of an op that is admitted, and those of a piece that is cut.
pub fn some_blocks_move_on()
    ensures admitted { (m : Setting) (n : ℕ) (ops : List AnyOp) (opening now : State) (status : ℕ → ℕ → Status) (es : List Sent) (spots : List BlockSpot) → AllMayMove m n ops status Waits spots
        → Follows m n ops opening status now es → Follows m n ops opening (with_all spots Admitted status) (plain act (all_made m n spots) now) es }
    ensures cut { (m : Setting) (n : ℕ) (ops : List AnyOp) (opening now : State) (status : ℕ → ℕ → Status) (es : List Sent) (spots : List BlockSpot) → AllMayMove m n ops status Admitted spots
        → Follows m n ops opening status now es → Follows m n ops opening (with_all spots Cut status) (plain act (all_cut m n spots) now) es }
{}

/// Its command is completed: the tag of a write's tuple is mapped back, and a read is mapped back and verified by its
/// owner, or zeros are left. It is listed with what was found when it was carried, or else with what its owner finds.
pub fn a_block_is_settled()
    ensures { (m : Setting) (n : ℕ) (s : BlockSpot) (opening now : State) (old new : ℕ → ℕ → Status) (es : List Sent) (fate : Option AnyWhy) → MayMove m n old s
        → old (number s) (place s) ≡ Carried fate
        → Becomes (number s) (place s) (Settled (first_why fate (get_or (plain_tells act tell (parts_at m n s).settled now) 0 silent).why)) old new
        → Follows m n (ops_of s) opening old now es
        → Follows m n (ops_of s) opening new (plain act (parts_at m n s).settled now) es }
{}

/// An op that is no request is done whole, once the gate lets it in.
pub fn an_op_is_done_whole()
    ensures { (m : Setting) (n : ℕ) (front behind : List AnyOp) (op : AnyOp) (opening now : State) (old new : ℕ → ℕ → Status) (es : List Sent) → let i = suc (length front) in
        OneCellEach m → AllPlaced m n front → IsPlaced m n op → IsAlone op → LetsIn m old 1 front i op → BecomesDone m i op now old new
        → Follows m n (front ++ (op ∷ behind)) opening old now es → Follows m n (front ++ (op ∷ behind)) opening new (plain act (acts_of m i op) now) es }
{}

/// A block is carried, or a command ends at it, or the adapter finds it bad before it is sent: its move puts on record
/// what came of it, where anything did.
pub fn a_block_is_carried()
    ensures { (m : Setting) (n : ℕ) (s : BlockSpot) (opening now : State) (old new : ℕ → ℕ → Status) (es : List Sent) → let a = (parts_at m n s).carrying in
        MayMove m n old s → HasLog m (length opening.logs) s.step → old (number s) (place s) ≡ Cut → Becomes (number s) (place s) (Carried (tell a now).why) old new
        → Follows m n (ops_of s) opening old now es → Follows m n (ops_of s) opening new (act a now) (es ++ put_sent (tell a now).sent []) }
{}

/// What may move over a target may move over the record, and moves alike but where it is carried.
pub fn what_may_move_may_over_the_record()
    ensures may { (m : Setting) (es : List Sent) (n : ℕ) (status : ℕ → ℕ → Status) (s : BlockSpot) → MayMove m n status s → MayMove (told m es) n status s }
    ensures moves { (m : Setting) (es : List Sent) (n : ℕ) (s : BlockSpot)
        → let p = parts_at (told m es) n s in let q = parts_at m n s in (p.made ≡ q.made) × ((p.cut ≡ q.cut) × (p.settled ≡ q.settled)) }
    ensures acts { (m : Setting) (es : List Sent) (i : ℕ) (op : AnyOp) → IsAlone op → acts_of (told m es) i op ≡ acts_of m i op }
    ensures lets { (m : Setting) (es : List Sent) (status : ℕ → ℕ → Status) (i j : ℕ) (ops : List AnyOp) (op : AnyOp) → LetsIn m status i ops j op → LetsIn (told m es) status i ops j op }
    ensures going { (m : Setting) (es : List Sent) (n : ℕ) (ops : List AnyOp) (a : AnyAdapter) (ios : List AnyIo) (logs : ℕ) (status : ℕ → ℕ → Status) (bs : List AnyBlock) (spots : List BlockSpot)
        → AllGoing m n ops a ios logs status bs spots → AllGoing (told m es) n ops a ios logs status bs spots }
    ensures placed { (m : Setting) (es : List Sent) (n : ℕ) (ops : List AnyOp) → AllPlaced m n ops → AllPlaced (told m es) n ops }
{}
