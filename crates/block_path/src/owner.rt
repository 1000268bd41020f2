//! What the owner of tuples says of a block.

ghost use Rattle.std.specs.Prelude.{◌≡◌};
ghost use Rattle.block_path.specs.WayIn.{owner_says};

use bio_core::Why;
use integrity_payload::Owner;
use pi_tuple::Check;

/// Why a block failed in whose tuple its owner found a difference.
pub fn owner_says(owner: Owner, check: Check) -> Why
    ensures { result ≡ owner_says owner check }
{
    match owner {
        Owner::Block => Why::Block(check),
        Owner::App => Why::App(check),
    }
}
