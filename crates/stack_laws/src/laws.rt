//! What holds of the view of a stack, whatever the schedule and the rig.

ghost use Rattle.std.specs.Prelude.{◌≡◌, ◌<◌, ◌≤◌, ◌+◌, ◌*◌, ℕ, true, false, List, [], ◌∷◌, ◌++◌, length};
ghost use Rattle.std.specs.List.{All};
ghost use Rattle.merge_queue.specs.Passed.{Fate};
ghost use Rattle.stack_laws.specs.Blocks.{blocks, times};
ghost use Rattle.stack_laws.specs.Plan.{Plan, request_at};
ghost use Rattle.stack_laws.specs.Pieces.{fits, longest, greatest_piece, cut_to};
ghost use Rattle.range_gate.specs.Gates.{has_ended};
ghost use Rattle.stack_laws.specs.View.{View, Command, start, is_admitted, op_at, queue_at, group_at};
ghost use Rattle.stack_laws.specs.Open.{in_order, Completes};
ghost use Rattle.stack_laws.specs.Steps.{Step, Send, Complete, can, enabled, enabled_below, six_lists, chosen, step};
ghost use Rattle.stack_laws.specs.Runs.{ScheduleEntry, Rig, all_good, blocks_of_requests, end_of, sends_with, sends_of};
ghost use Rattle.merge_queue.specs.Index.{bios_in};
ghost use Rattle.stack_laws.specs.Formed.{Straight, IsGroup, Formed};
ghost use Rattle.stack_laws.specs.Room.{Accounted, unsettled, exchanges_left, exchanges_of, frames_left, frames_of};
ghost use Rattle.stack_laws.specs.Comes.{AllGood, Comes};
ghost use Rattle.stack_laws.specs.Sound.{HasBlocks, OnDevices, Answered, RigSettles, AllEnded, Sound};
ghost use Rattle.stack_laws.specs.Measure.{measure, StepsCounted, greatest_pieces, AnsweredWhole, Thrifty};

/// Before the first step each block is in its place, and nothing is counted.
pub fn the_first_view_is_sound()
    ensures sound { (p : Plan) → Sound p (start p) }
    ensures counted { (p : Plan) → StepsCounted p (start p) }
    ensures thrifty { (p : Plan) → Thrifty p (start p) }
{}

/// The step of a word is enabled.
pub fn a_word_chooses_an_enabled_step()
    ensures { (p : Plan) (v : View) (w : ℕ) → 0 < length (enabled p v) → can p v (chosen p v w) ≡ true }
{}

/// The enabled steps list by list, as they are counted: ops and commands by a test on each, joins by pairs of one queue, all sends.
pub fn the_enabled_steps_are_six_lists()
    ensures { (p : Plan) (v : View) → enabled p v ≡ six_lists p v }
{}

/// A stack may keep the commands in flight alone: they are completed by their place among them, and a new one comes last.
pub fn the_commands_in_flight_are_enough()
    ensures count { (p : Plan) (v : View) → length (enabled_below p v Complete (length v.commands)) ≡ length (in_order v.commands) }
    ensures one { (p : Plan) (v : View) (i : ℕ) → i < length (in_order v.commands) → Completes p v i }
    ensures last { (cs : List Command) (c : Command) → c.completed ≡ false → in_order (cs ++ c ∷ []) ≡ in_order cs ++ c ∷ [] }
{}

/// Whatever step is done, with whatever cut and fates, each block of an admitted request stays in just one place,
/// and the earlier ops that conflict with an admitted op have ended.
pub fn each_step_keeps_the_view_sound()
    ensures { (p : Plan) (v : View) (t : Step) (cut : ℕ) (fates : List Fate)
        → OnDevices p → Sound p v → can p v t ≡ true → Answered v t fates → Sound p (step p v t cut fates) }
{}

/// Nothing is enabled exactly where all ops have ended.
pub fn nothing_is_enabled_once_all_have_ended()
    ensures { (p : Plan) (v : View) → Sound p v → (enabled p v ≡ [] → AllEnded v) × (AllEnded v → enabled p v ≡ []) }
{}

/// Each step takes from what is left; so steps and sends are few.
pub fn each_step_takes_from_what_is_left()
    ensures falls { (p : Plan) (v : View) (t : Step) (cut : ℕ) (fates : List Fate)
        → OnDevices p → Sound p v → can p v t ≡ true → Answered v t fates → measure p (step p v t cut fates) + 1 ≤ measure p v }
    ensures counted { (p : Plan) (v : View) (t : Step) (cut : ℕ) (fates : List Fate)
        → OnDevices p → Sound p v → can p v t ≡ true → Answered v t fates → StepsCounted p v → StepsCounted p (step p v t cut fates) }
{}

/// A block that is sent is of an op that is admitted, and all earlier ops that conflict with it have ended.
pub fn a_block_is_sent_after_its_conflicts()
    ensures { (p : Plan) (v : View) (d i op k : ℕ) → Sound p v → can p v (Send d i) ≡ true → 1 ≤ times op k (blocks (group_at v d i))
        → (is_admitted (op_at v op).phase ≡ true) × ((j : ℕ) → j < op → p.conflicts j op ≡ true → has_ended (op_at v j).phase ≡ true) }
{}

/// With greatest pieces and every block settled at once, each piece is sent at most once.
pub fn each_piece_is_sent_once()
    ensures { (p : Plan) (v : View) (t : Step) (fates : List Fate)
        → OnDevices p → Sound p v → can p v t ≡ true → Answered v t fates → AnsweredWhole t fates → Thrifty p v → Thrifty p (step p v t 0 fates) }
{}

/// A run ends, in few steps, with few sends, whatever the schedule and the rig.
pub fn each_run_ends()
    ensures sound { (p : Plan) (rig : Rig) (es : List ScheduleEntry) → OnDevices p → RigSettles rig → Sound p (end_of p rig es) }
    ensures ends { (p : Plan) (rig : Rig) (es : List ScheduleEntry) → OnDevices p → RigSettles rig → enabled p (end_of p rig es) ≡ [] }
    ensures steps { (p : Plan) (rig : Rig) (es : List ScheduleEntry) → OnDevices p → RigSettles rig
        → (end_of p rig es).steps ≤ 2 * length p.requests + 5 * blocks_of_requests p.requests }
    ensures sends { (p : Plan) (rig : Rig) (es : List ScheduleEntry) → OnDevices p → RigSettles rig
        → length (sends_with p rig es) ≤ blocks_of_requests p.requests }
{}

/// Where all blocks are good and no entry cuts, no more is sent than there are greatest pieces.
pub fn calm_runs_send_few()
    ensures good { RigSettles all_good }
    ensures few { (p : Plan) (es : List ScheduleEntry) → OnDevices p → All (λ e. e.cut ≡ 0) es → length (sends_of p es) ≤ greatest_pieces p 0 p.requests }
{}

/// Whatever the fates are, no more is sent than there are blocks. Where all blocks that were sent were good and nothing is
/// enabled any more, the view is the end of the run in which all blocks are good.
pub fn a_run_of_good_blocks_is_known_before()
    ensures few { (p : Plan) (es : List ScheduleEntry) (n : ℕ) (v : View) → OnDevices p → Comes p es n v → length v.commands ≤ blocks_of_requests p.requests }
    ensures good { (p : Plan) (es : List ScheduleEntry) (n : ℕ) (v : View) → OnDevices p → Comes p es n v → enabled p v ≡ [] → AllGood v.commands → v ≡ end_of p all_good es }
{}

/// The greatest piece is within the limits, and no greater one is; a cut is within it.
pub fn the_greatest_piece_is_the_greatest()
    ensures within { (p : Plan) (i k : ℕ) → 1 ≤ longest p i k → fits p i k 1 ≡ true
        → (greatest_piece p i k ≤ longest p i k) × (fits p i k (greatest_piece p i k) ≡ true) }
    ensures greatest { (p : Plan) (i k n : ℕ) → n ≤ longest p i k → fits p i k n ≡ true → n ≤ greatest_piece p i k }
    ensures cut { (c n : ℕ) → 1 ≤ n → (1 ≤ cut_to c n) × (cut_to c n ≤ n) }
{}

/// Groups stay groups: of one device and direction, without a gap, within the limit on blocks, and each bio names blocks where they lie.
pub fn each_step_keeps_groups()
    ensures first { (p : Plan) → Formed p (start p) }
    ensures keeps { (p : Plan) (v : View) (t : Step) (cut : ℕ) (fates : List Fate)
        → Straight p → OnDevices p → Sound p v → can p v t ≡ true → Formed p v → Formed p (step p v t cut fates) }
{}

/// What is sent is a group with blocks, of a device that is there, and names no block twice.
pub fn a_sent_group_fits_the_adapter()
    ensures group { (p : Plan) (v : View) (d i : ℕ) → Sound p v → Formed p v → can p v (Send d i) ≡ true
        → (d < p.devices) × (HasBlocks (group_at v d i) × IsGroup p d (group_at v d i)) }
    ensures once { (p : Plan) (v : View) (d i op k : ℕ) → Sound p v → can p v (Send d i) ≡ true → times op k (blocks (group_at v d i)) ≤ 1 }
{}

/// Room for as many exchanges as there are unsettled blocks, less the commands in flight, and for the frames of all
/// blocks that may still be carried, is enough: a step that sends takes at most that much of it, and no other step takes any.
pub fn the_rig_needs_room_for_what_is_sent()
    ensures first { (p : Plan) → Accounted p (start p) }
    ensures accounted { (p : Plan) (v : View) (t : Step) (cut : ℕ) (fates : List Fate)
        → OnDevices p → Sound p v → can p v t ≡ true → Answered v t fates → Accounted p v → Accounted p (step p v t cut fates) }
    ensures exchanges { (p : Plan) (v : View) (t : Step) (cut : ℕ) (fates : List Fate)
        → OnDevices p → Sound p v → Accounted p v → can p v t ≡ true → Answered v t fates
        → exchanges_left (step p v t cut fates) + exchanges_of t ≤ exchanges_left v }
    ensures frames { (p : Plan) (v : View) (t : Step) (cut : ℕ) (fates : List Fate)
        → OnDevices p → Sound p v → can p v t ≡ true → Answered v t fates
        → frames_left p (step p v t cut fates) + frames_of t fates ≡ frames_left p v }
{}

/// A queue never holds more bios than there are unsettled blocks; so room for as many bios as the requests have blocks is enough.
pub fn a_queue_needs_room_for_the_blocks()
    ensures bios { (p : Plan) (v : View) (d : ℕ) → Sound p v → Formed p v → Accounted p v → bios_in (queue_at v d) ≤ unsettled v }
    ensures blocks { (p : Plan) (v : View) → Sound p v → unsettled v ≤ blocks_of_requests p.requests }
{}
