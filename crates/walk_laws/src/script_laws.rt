//! What a script means: the laws over the definitions of a whole run.

ghost use Rattle.std.specs.Prelude.{◌≡◌, ℕ, List};
ghost use Rattle.block_path.specs.Acts.{State, act, conflict, tell};
ghost use Rattle.block_path.specs.Blocks.{ActAnswer};
ghost use Rattle.block_path.specs.Serial.{Leads, all_done, none_done};
ghost use Rattle.stack_ops.specs.declared.op.Op.{Op as AnyOp};
ghost use Rattle.walk_laws.specs.CalmRun.{IsCalmRun};
ghost use Rattle.walk_laws.specs.PlainMap.{plain_map, plain_replies};
ghost use Rattle.walk_laws.specs.ScriptWalk.{acts_from, replies_by, script_replies, script_walk};
ghost use Rattle.walk_laws.specs.Settings.{Setting};
ghost use Rattle.walk_laws.specs.UnderMap.{IsUnder, opened};

/// Over a clean image, with no escape and no fault, the ops of a script done one after another reply what a plain map
/// of virtual blocks replies; they leave its pages, and the image under it: each block's data, with the CRC as its
/// guard, its application tag and the tag of its address. This is for every type, guard, mode, protect field, block
/// size and expected application tag.
pub fn a_calm_walk_is_a_plain_map()
    ensures replies { (m : Setting) (ops : List AnyOp) (opening : State) → IsCalmRun m ops opening → script_replies m ops opening ≡ plain_replies m ops (opened m opening) }
    ensures under { (m : Setting) (ops : List AnyOp) (opening : State) → IsCalmRun m ops opening → IsUnder m (plain_map m ops (opened m opening)) opening.blocks (script_walk m ops opening) }
{}

/// In whatever order the blocks of all ops are done that keeps conflicting ones in script order: pages, stored blocks
/// and carried frames are the walk's, and so are the replies. There is no premise on faults or on the image.
pub fn any_order_is_the_walk()
    ensures { (m : Setting) (ops : List AnyOp) (places : List ℕ) (before after : State) (answers : List ActAnswer)
        → Leads act tell conflict (acts_from m 1 ops) places (none_done (acts_from m 1 ops)) before (all_done answers) after
        → (after ≡ script_walk m ops before) × (replies_by m 1 ops answers ≡ script_replies m ops before) }
{}

/// So over a clean image, with no escape and no fault, every such order is the plain map.
pub fn any_calm_order_is_a_plain_map()
    ensures { (m : Setting) (ops : List AnyOp) (places : List ℕ) (before after : State) (answers : List ActAnswer) → IsCalmRun m ops before
        → Leads act tell conflict (acts_from m 1 ops) places (none_done (acts_from m 1 ops)) before (all_done answers) after
        → (replies_by m 1 ops answers ≡ plain_replies m ops (opened m before)) × IsUnder m (plain_map m ops (opened m before)) before.blocks after }
{}
