//! What the outcome of a command says of its blocks.

ghost use Rattle.std.specs.Prelude.{◌≡◌, ◌+◌, ◌≤◌, ◌++◌, length, replicate};
ghost use Rattle.std.specs.Vec.{vec_capacity};
ghost use Rattle.bio_core.specs.declared.fate.Fate.TheVariants.{Untouched};
ghost use Rattle.dix_adapter.specs.Outcomes.{done_of, rest_of};

use bio_core::Fate;
use block_path::why_by;
use rig_api::Outcome;

/// How many of so many blocks a command did.
pub(crate) fn done_of(outcome: &Outcome, count: u32) -> u32
    ensures value { result ≡ done_of count outcome.now }
    ensures within { result ≤ count }
{
    outcome.done.min(count)
}

/// Adds the fates of the blocks that a command did not do: the one at which it ended, and the later ones.
pub(crate) fn add_rest(outcome: &Outcome, count: u32, fates: &mut Vec<Fate>)
    requires { length fates.old.items + length (rest_of count outcome.now) ≤ vec_capacity fates.old }
    ensures items { fates.new.items ≡ fates.old.items ++ rest_of count outcome.now }
    ensures capacity { vec_capacity fates.new ≡ vec_capacity fates.old }
{
    let done = done_of(outcome, count);
    if done == count {
        return;
    }
    fates.push_reserved(Fate::Bad(why_by(outcome.sense)));
    add_untouched(count - done - 1, fates);
}

fn add_untouched(count: u32, fates: &mut Vec<Fate>)
    requires { length fates.old.items + count ≤ vec_capacity fates.old }
    ensures items { fates.new.items ≡ fates.old.items ++ replicate count Untouched }
    ensures capacity { vec_capacity fates.new ≡ vec_capacity fates.old }
{
    for _ in 0..count {
        fates.push_reserved(Fate::Untouched);
    }
}
