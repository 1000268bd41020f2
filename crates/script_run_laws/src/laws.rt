//! What a script that suits a stack and was bound to a volume gives it. Each script that keeps the rules of its language
//! suits one.

ghost use Rattle.std.specs.Prelude.{◌≡◌, ◌<◌, ◌≤◌, ◌+◌, ◌*◌, ℕ, true, List, length, map, None};
ghost use Rattle.volume_table.specs.declared.device.DeviceInfo.{DeviceInfo as AnyDevice};
ghost use Rattle.volume_table.specs.Tables.{MadeFor, Table};
ghost use Rattle.rig_api.specs.Target.{Stored};
ghost use Rattle.rig_api.specs.declared.units.UnitSpec.{UnitSpec as AnyUnit};
ghost use Rattle.rig_discovery.specs.Discovery.{info_of};
ghost use Rattle.stack_walk_laws.specs.Passed.{blocks_told, cell_in, shapes_of, State, Sent, target};
ghost use Rattle.run_laws.specs.Passed.{Setting};
ghost use Rattle.run_laws.specs.ToldRun.{told};
ghost use Rattle.run_laws.specs.BoundRun.{IsBoundRun, fates, rooms};
ghost use Rattle.run_laws.specs.Suited.{keeps_size};
ghost use Rattle.stack_walk_laws.specs.Finished.{FramesFit};
ghost use Rattle.stack_walk_laws.specs.Takes.{AllTakeAny};
ghost use Rattle.script_laws.specs.Passed.{Script as AnyScript, binding_fault};
ghost use Rattle.stack_walk_laws.specs.Ground.{Ground};
ghost use Rattle.stack_walk_laws.specs.Spots.{op_in};
ghost use Rattle.stack_walk_laws.specs.Units.{AreAtUnits};
ghost use Rattle.stack_walk_laws.specs.Seals.{IsSealed};
ghost use Rattle.script_run_laws.specs.Bound.{IsSettingOf};
ghost use Rattle.script_run_laws.specs.SuitsStack.{SuitsStack};
ghost use Rattle.script_run_laws.specs.Units.{AreStored, all_blocks};
ghost use Rattle.page_pool.specs.declared.TheConstants.{PAGE};

use run_laws::a_target_keeps_sizes;

/// Each block of the volume has a cell of its own, and each place a log; the ops lie in the script's pages and in the
/// volume; each op is a request of some blocks or done whole; and the blocks of a request are spread, also where a
/// fault shifts them.
pub fn a_bound_script_stands_on_ground()
    ensures { (m : Setting) (s : AnyScript) (t : Table) (devices : List AnyDevice) (logs : ℕ) → SuitsStack s → length s.lines ≡ length s.faults + length s.ops → MadeFor t devices s.block
        → binding_fault s t devices ≡ None → IsSettingOf m s t devices logs → Ground m (PAGE * s.pages) logs s.ops }
{}

/// A `seal` takes whole blocks of the volume's size.
pub fn a_bound_script_seals_whole_blocks()
    ensures { (m : Setting) (s : AnyScript) → SuitsStack s → m.size ≡ s.block → (i : ℕ) → i < length s.ops → IsSealed m (op_in s.ops i) }
{}

/// Where the devices are those of units, whose blocks have cells one after another, each address has a cell of its own
/// below the number of all blocks. What is behind the adapter makes no difference.
pub fn a_rig_has_a_cell_for_each_address()
    ensures { (m : Setting) (s : AnyScript) (t : Table) (units : List AnyUnit) → m.mode ≡ s.mode → m.ty ≡ t.ty → m.size ≡ s.block → m.entries ≡ t.entries → m.site.faults ≡ s.faults
        → m.site.cell ≡ cell_in units → IsSettingOf m s t (map info_of units) (all_blocks units) }
{}

/// Each block of a request lies in the unit of its device, of the volume's type and block size, where the command is
/// sent and where the block is looked for on the medium: no shift leads it out of its unit.
pub fn a_bound_script_lies_at_its_units()
    ensures { (m : Setting) (s : AnyScript) (t : Table) (units : List AnyUnit) (logs : ℕ) → SuitsStack s → length s.lines ≡ length s.faults + length s.ops → MadeFor t (map info_of units) s.block
        → binding_fault s t (map info_of units) ≡ None → IsSettingOf m s t (map info_of units) logs → AreAtUnits m units s.ops }
{}

/// Over a device that answers what stands on record, with frames of the wire's size, the ops are bound to the script's
/// pages, whatever is stored, where the opening has their private pages behind these and a cell for what is found of
/// each block.
pub fn a_bound_script_is_bound_over_its_record()
    ensures { (m : Setting) (s : AnyScript) (t : Table) (devices : List AnyDevice) (logs : ℕ) (opening : State) (es : List Sent) → SuitsStack s → IsSettingOf m s t devices logs → FramesFit m es
        → PAGE * s.pages + rooms m s.ops ≤ length opening.bytes → fates s.ops ≤ length opening.fates → IsBoundRun (told m es) (λ c block. true) (PAGE * s.pages) s.ops opening }
{}

/// Over a target whose units tell their blocks, each of the size of a stored block, the ops are bound to the script's
/// pages too, and each stored block keeps its size: also one that an overwrite alters, or replaces by another.
pub fn a_bound_script_is_bound_at_its_target()
    ensures { (m : Setting) (s : AnyScript) (t : Table) (units : List AnyUnit) (us : List Stored) (logs : ℕ) (opening : State) → SuitsStack s → length s.lines ≡ length s.faults + length s.ops
        → MadeFor t (map info_of units) s.block → binding_fault s t (map info_of units) ≡ None → IsSettingOf m s t (map info_of units) logs
        → m.site ≡ record { faults = s.faults; device = target s.faults; cell = cell_in units } → shapes_of us ≡ units → AreStored us → opening.blocks ≡ blocks_told us
        → PAGE * s.pages + rooms m s.ops ≤ length opening.bytes → fates s.ops ≤ length opening.fates → IsBoundRun m (keeps_size opening.blocks) (PAGE * s.pages) s.ops opening }
{
    // By laws.
    a_target_keeps_sizes();
}

/// There whatever has the size of a stored block is fine where a block of the script is stored, so also what a store call
/// leaves that failed.
pub fn a_bound_script_takes_any_block_at_its_target()
    ensures { (m : Setting) (s : AnyScript) (t : Table) (units : List AnyUnit) (us : List Stored) (logs : ℕ) (opening : State) → length s.lines ≡ length s.faults + length s.ops
        → MadeFor t (map info_of units) s.block → binding_fault s t (map info_of units) ≡ None → IsSettingOf m s t (map info_of units) logs
        → m.site ≡ record { faults = s.faults; device = target s.faults; cell = cell_in units } → shapes_of us ≡ units → AreStored us → opening.blocks ≡ blocks_told us
        → AllTakeAny m (keeps_size opening.blocks) 1 s.ops }
{}
