//! What `format` leaves.

ghost use Rattle.std.specs.Prelude.{List, ℕ, ◌≡◌, true, map, None, Some};
ghost use Rattle.dix_run.specs.Passed.{WasFormatted};
ghost use Rattle.rig_api.specs.Head.{head_fault, head_of, units_of};
ghost use Rattle.rig_api.specs.State.{RigState};
ghost use Rattle.rig_discovery.specs.Discovery.{info_of};
ghost use Rattle.image_laws.specs.Passed.{WasAsked, devices_of};
ghost use Rattle.rig_api.specs.Headers.{is_layout};
ghost use Rattle.rig_api.specs.Image.{formatted};
ghost use Rattle.rig_api.specs.declared.units.UnitSpec.{UnitSpec as AnyUnit};
ghost use Rattle.headline.specs.Fresh.{TellsFresh};
ghost use Rattle.volume_table.specs.declared.device.DeviceInfo.{DeviceInfo as AnyDevice};

use script_form_laws::a_formatted_image_is_clean;

/// A law: what a rig that tells its image was formatted with is the formatted image of these units; it has a right head,
/// which tells these units. Once its devices were asked, the rig tells these units and their blocks; and these are bytes,
/// and clean for every volume over them of a type with tuples under which the application tag 0 is the expected one.
pub fn a_formatted_image_tells_its_units()
    ensures left { (units : List AnyUnit) (name image : List ℕ) (old new : RigState) → WasFormatted name units old new → new.image ≡ Some image → image ≡ formatted units }
    ensures head { (units : List AnyUnit) → is_layout units ≡ true → head_fault (head_of (formatted units)) ≡ None }
    ensures units { (units : List AnyUnit) → is_layout units ≡ true → units_of (head_of (formatted units)) ≡ units }
    ensures devices { (units : List AnyUnit) → is_layout units ≡ true → devices_of (formatted units) ≡ map info_of units }
    ensures told { (units : List AnyUnit) (name : List ℕ) (devices : List AnyDevice) (old told : RigState) → is_layout units ≡ true → old.image ≡ Some (formatted units)
        → WasAsked name devices old told
        → TellsFresh units devices told }
{
    // By laws.
    a_formatted_image_is_clean();
}
