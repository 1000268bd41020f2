//! That a script that was read and bound to a volume stands on ground: its ops lie in the pages and in the volume, and
//! the blocks of each request are spread, so that the stack of the script may walk. Its blocks lie in the units behind
//! it, also where a shift leads them, and its run is bound, over what stands on record and at its target. It speaks of
//! no code.
#![tactic(auto)]

mod laws;

pub use laws::{
    a_bound_script_is_bound_at_its_target, a_bound_script_is_bound_over_its_record,
    a_bound_script_lies_at_its_units, a_bound_script_seals_whole_blocks,
    a_bound_script_stands_on_ground, a_bound_script_takes_any_block_at_its_target,
    a_rig_has_a_cell_for_each_address,
};
