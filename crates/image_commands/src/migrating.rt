//! Migrating an image to version 2.

ghost use Rattle.std.specs.Prelude.{MatchResult};
ghost use Rattle.image_commands.specs.Causes.{CauseUnmigrated, WasMigrated};

use call_refusal::Refusal;
use rig_api::Rig;
use std::alloc::Global;

/// Replaces a header of version 1 by that of version 2 that tells the same units, and answers their
/// number; 0 where the header is of version 2. No stored block changes, also after a fault.
pub fn migrate_image<R: Rig>(alloc: Global, name: &str, rig: &mut R) -> Result<u32, Refusal>
    ensures { let old = R.state rig.old in
        let new = R.state rig.new in
        MatchResult result (λ n. WasMigrated name.now n old new) (λ r. CauseUnmigrated r name.now old new) }
{
    Ok(rig.migrate(alloc, name)?)
}
