//! Stretches of blocks.

ghost use Rattle.std.specs.Prelude.{◌≡◌, IfOk};
ghost use Rattle.mirror_volume.specs.Asked.{stretches};

use std::alloc::{AllocError, Global};

/// The greatest stretches of wanted blocks: of each its first place and how many blocks it has.
pub(crate) fn stretches_of(
    alloc: Global,
    wanted: &[bool],
) -> Result<Vec<(usize, usize)>, AllocError>
    ensures { IfOk result (λ v. v.items ≡ stretches wanted.now) }
{
    let mut found = Vec::new(alloc);
    let mut many = 0usize;
    for (at, is_wanted) in wanted.iter().enumerate() {
        if *is_wanted {
            many += 1;
        } else if many > 0 {
            found.push((at - many, many))?;
            many = 0;
        }
    }
    if many > 0 {
        found.push((wanted.len() - many, many))?;
    }
    Ok(found)
}
